//! A rank once more.
ghost use Rattle.std.specs.Prelude.{◌≡◌, ◌+◌, ◌≤◌, ◌<◌, ◌^◌, length, IfOk};
ghost use Rattle.ulfm_fault.specs.Facts.{KnowsSame};
ghost use Rattle.ulfm_log.specs.Communicators.{HasSame};
ghost use Rattle.ulfm_match.specs.State.{unprepared};

use super::{Rank, stop_places};
use ulfm_base::OutOfMemory;
use ulfm_fault::Faults;
use ulfm_log::{Block, Communicators, Log, Outboxes};
use ulfm_match::Matcher;

/// A log once more, with room for so many entries more, and a matcher.
fn copy_matching(log: &Log, more: usize, matcher: &Matcher) -> Result<(Log, Matcher), OutOfMemory>
    ensures items { IfOk result (λ copy. copy.0.items ≡ log.now.items) }
    ensures keeps { IfOk result (λ copy. copy.0.keeps ≡ log.now.keeps) }
    ensures capacity { IfOk result (λ copy. length log.now.items + more ≤ copy.0.capacity) }
    ensures countable { IfOk result (λ copy. copy.0.capacity < 2 ^ 63) }
    ensures matcher { IfOk result (λ copy. copy.1 ≡ unprepared matcher.now) }
{
    let log = log.copy(more)?;
    let matcher = matcher.copy()?;
    Ok((log, matcher))
}

/// What is known to have failed, the communicators and the outboxes, once more.
fn copy_known(
    faults: &Faults,
    communicators: &Communicators,
    outboxes: &Outboxes,
) -> Result<(Faults, Communicators, Outboxes), OutOfMemory>
    ensures faults { IfOk result (λ copy. KnowsSame faults.now copy.0) }
    ensures communicators { IfOk result (λ copy. HasSame communicators.now copy.1) }
    ensures boxes { IfOk result (λ copy. copy.2.boxes ≡ outboxes.now.boxes) }
{
    let faults = faults.copy()?;
    let communicators = communicators.copy()?;
    let outboxes = outboxes.copy()?;
    Ok((faults, communicators, outboxes))
}

impl Rank {
    /// The same rank once more, for which `prepare` makes room anew.
    ///
    /// # Errors
    ///
    /// `OutOfMemory` where a growth was refused.
    pub fn copy(&self) -> Result<Rank, OutOfMemory>
        ensures { IfOk result (λ rank. rank.state ≡ self.now.state) }
    {
        // In parts, the heavy ones last: what is let go where a later growth is refused costs the check minutes.
        let places = self.requests.len() + stop_places(self.stopped);
        let told = self.told.clone()?;
        let rounds = self.rounds.copy()?;
        let requests = self.requests.clone()?;
        let known = copy_known(&self.faults, &self.communicators, &self.outboxes)?;
        let matching = copy_matching(&self.log, places, &self.matcher)?;
        Ok(Rank {
            log: matching.0,
            told,
            rounds,
            me: self.me,
            ranks: self.ranks,
            stopped: self.stopped,
            matcher: matching.1,
            faults: known.0,
            requests,
            communicators: known.1,
            outboxes: known.2,
            block: Block::new(*self.log.allocator()),
        })
    }
}
