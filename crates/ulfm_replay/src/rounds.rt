//! A job from its first round to rest.

mod polling;

ghost use Rattle.std.specs.Prelude.{◌≡◌, ◌<◌, ℕ, length, false, IfErr, IfOk, OnOk};
ghost use Rattle.ulfm_world.specs.inside.Rounds.{Moves, Follows, IsStuck};
ghost use Rattle.ulfm_world.specs.Replay.{MadeAtRest};

use crate::Recorder;
use crate::played::Played;
use crate::recording::{Recording, apply};
use std::alloc::Global;
use ulfm_job::Job;
use ulfm_script::{Hands, RankReport, RunFault, turn};
use ulfm_world::{Event, Refused, World};

/// The job, round by round. One inbox holds `capacity` items for each rank. In a round the ranks come upwards, and each
/// pushes to each destination upwards, itself too, while its outbox isn't empty and the inbox has room; then, where it
/// runs, it takes one item and polls its next step once, which decides an open shrink or agreement that has a proposal. Steps whose
/// conditions don't hold are skipped before this poll, and take none. A step that its last poll left open is given up. The rounds end
/// after the first one in which nothing was pushed, taken, skipped or polled.
///
/// Where a round did nothing but poll open steps in vain, so would each further one, up to the last poll of a step. Those rounds
/// are taken at once. So the time doesn't grow with the job's `turns`.
///
/// No clause tells of this order of events. The reports are those of some schedule that ends at rest. They are lawful, and at
/// the end all running ranks know each stopped one and agree on revocations.
///
/// # Errors
///
/// `OutOfMemory` where a growth outside the poll of a step is refused.
pub fn replay(alloc: Global, job: &Job) -> Result<Vec<RankReport>, RunFault>
    ensures settled { IfOk result (λ reports. MadeAtRest job.now reports.items) }
    ensures refused { IfErr result (λ fault. fault ≡ RunFault.OutOfMemory) }
{
    match play(alloc, job, Recording::Off) {
        Ok(played) => Ok(played.0),
        Err(fault) => Err(fault),
    }
}

/// The replay of a job as `replay` has it, with the moves of its ranks in the order that they had.
///
/// # Errors
///
/// `OutOfMemory` where a growth outside the poll of a step is refused.
pub fn replay_in_order(alloc: Global, job: &Job) -> Result<Played, RunFault>
    ensures settled { IfOk result (λ played. MadeAtRest job.now played.reports.items) }
    ensures refused { IfErr result (λ fault. fault ≡ RunFault.OutOfMemory) }
{
    match play(alloc, job, Recording::On(Recorder::new(alloc))) {
        Ok((reports, recording)) => match recording.into_moves() {
            Some(moves) => Ok(Played { reports, moves }),
            None => Err(RunFault::OutOfMemory),
        },
        Err(fault) => Err(fault),
    }
}

/// The job, round by round, and the recording of it.
#[tactic(auto, using(ulfm_world::proofs::Ends::rests))]
fn play(
    alloc: Global,
    job: &Job,
    recording: Recording,
) -> Result<(Vec<RankReport>, Recording), RunFault>
    ensures settled { IfOk result (λ played. MadeAtRest job.now played.0.items) }
    ensures refused { IfErr result (λ fault. fault ≡ RunFault.OutOfMemory) }
{
    let Ok(world) = World::new(alloc, job.ranks(), job.capacity()) else {
        return Err(RunFault::OutOfMemory);
    };
    let mut rounds = Rounds {
        job,
        world,
        rank: 0,
        most: 1,
        is_idle: false,
        recording,
    };
    while round(job, &mut rounds)? {
        rounds.most = rounds.polls_each();
    }
    let Rounds {
        world,
        recording,
        ..
    } = rounds;
    let reports = world.into_reports(alloc)?;
    Ok((reports, recording))
}

/// A world on its way through a job, the rank whose turn it is, how many polls an open step may get in one turn, and whether all that
/// happened in this round were polls of open steps that left them open, and the recording of it.
#[derive(Drop)]
struct Rounds<'a> {
    job: &'a Job,
    world: World,
    rank: u8,
    most: u32,
    is_idle: bool,
    recording: Recording,
}

impl Rounds<'_> {
    /// How many polls each open step gets in the next round: one. After an idle round it is as many as leave each a last one.
    fn polls_each(&self) -> u32 {
        if !self.is_idle {
            return 1;
        }
        let mut least = u32::MAX;
        for r in 0..self.world.size() {
            if self.world.polls(r) > 0 {
                least = least.min(self.job.turns().saturating_sub(self.world.polls(r)));
            }
        }
        least.saturating_sub(1).max(1)
    }
}

impl Hands for Rounds<'_> {
    ghost use Rattle.std.specs.Prelude.{◌≡◌, ◌<◌, ◌≤◌, ℕ, length, true, false};
    ghost use Rattle.std.proofs.Common.{refl, sym, subst, ◌∙◌};
    ghost use Rattle.ulfm_job.specs.Job.{JobView, script_at};
    ghost use Rattle.ulfm_world.specs.World.{World as SeenWorld, IsRunning, player_at};
    ghost use Rattle.ulfm_world.specs.inside.Rounds.{Moves, Follows, IsStuckAt, measure};
    ghost use Rattle.ulfm_world.specs.inside.Turns.{Onward, onward-none, onward-on, onward-not};

    type Fault = RunFault;

    type Polled = bool;

    ghost size = { λ t. length t.world.players };

    ghost fits = { λ t. (t.rank < length t.world.players) × (t.job.now.ranks ≡ length t.world.players) × Follows t.job.now t.world };

    ghost moves = { λ a b moved. (b.rank ≡ a.rank) × (b.job.now ≡ a.job.now) × Onward a.job.now a.world b.world moved };

    ghost waits = { λ t dest. measure t.job.now t.world };

    ghost stuck = { λ t at. IsStuckAt t.world t.rank at };

    ghost polls = { λ a b polled. (b.job.now ≡ a.job.now) × Moves a.job.now a.world b.world polled × (polled ≡ false → IsRunning b.world a.rank → length (script_at a.job.now a.rank) ≤ length (player_at b.world a.rank).done) };

    ghost none = { λ t f. (refl, refl, onward-none t.job.now t.world) };

    ghost more = { λ a b c m h k. (k.0 ∙ h.0, k.1 ∙ h.1, onward-on a.job.now m a.world b.world c.world h.2 (subst (λ (j : JobView). Onward j b.world c.world true) h.1 k.2)) };

    ghost same = { λ a b c m h k. (k.0 ∙ h.0, k.1 ∙ h.1, onward-not a.job.now m a.world b.world c.world h.2 (subst (λ (j : JobView). Onward j b.world c.world false) h.1 k.2)) };

    ghost keeps = { λ a b m f h. (subst (λ n. n < length b.world.players) (sym h.0) (subst (λ n. a.rank < n) (sym h.2.size) f.0), subst (λ (j : JobView). j.ranks ≡ length b.world.players) (sym h.1) (f.1 ∙ sym h.2.size), subst (λ (j : JobView). Follows j b.world) (sym h.1) (h.2.follows f.2)) };

    ghost sized = { λ a b m h. h.2.size };

    ghost still = { λ a b at h k. subst (λ r. IsStuckAt b.world r at) (sym h.0) (subst (λ (w : SeenWorld). IsStuckAt w a.rank at) (sym (h.2.stays refl)) k) };

    fn ranks(&self) -> u8 {
        self.world.size()
    }

    fn push_one(&mut self, dest: u8) -> Result<bool, RunFault> {
        match self.world.apply(Event::Push(self.rank, dest)) {
            Ok(_) => {
                self.is_idle = false;
                Ok(true)
            }
            Err(Refused::OutOfMemory) => Err(RunFault::OutOfMemory),
            Err(_) => Ok(false),
        }
    }

    fn take_one(&mut self) -> Result<bool, RunFault> {
        match apply(
            self.job,
            &mut self.world,
            &mut self.recording,
            Event::Take(self.rank),
        ) {
            Ok(_) => {
                self.is_idle = false;
                Ok(true)
            }
            Err(Refused::OutOfMemory) => Err(RunFault::OutOfMemory),
            Err(_) => Ok(false),
        }
    }

    fn poll(&mut self) -> Result<bool, RunFault> {
        let before = self.world.polls(self.rank);
        let polled = polling::poll(
            self.job,
            &mut self.world,
            &mut self.recording,
            self.rank,
            self.most,
        )?;
        if polled && (before == 0 || self.world.polls(self.rank) == 0) {
            self.is_idle = false;
        }
        Ok(polled)
    }
}

/// A turn of each rank.
#[tactic(auto, using(ulfm_world::proofs::Moves::going))]
fn round(job: &Job, rounds: &mut Rounds<'_>) -> Result<bool, RunFault>
    requires same_job { rounds.old.job.now ≡ job.now }
    requires scripts { job.now.ranks ≡ length rounds.old.world.players }
    requires follows { Follows job.now rounds.old.world }
    ensures same_job { OnOk result (rounds.new.job.now ≡ job.now) }
    ensures moves { IfOk result (λ moved. Moves job.now rounds.old.world rounds.new.world moved) }
    ensures stuck { IfOk result (λ moved. moved ≡ false → (r : ℕ) → r < length rounds.new.world.players → IsStuck job.now rounds.new.world r) }
    ensures refused { IfErr result (λ fault. fault ≡ RunFault.OutOfMemory) }
{
    rounds.is_idle = true;
    let mut moved = false;
    for r in 0..rounds.world.size() {
        if turn_of(job, rounds, r)? {
            moved = true;
        }
    }
    Ok(moved)
}

/// The turn of one rank. Whether anything moved, or a step was polled.
fn turn_of(job: &Job, rounds: &mut Rounds<'_>, r: u8) -> Result<bool, RunFault>
    requires same_job { rounds.old.job.now ≡ job.now }
    requires inside { r < length rounds.old.world.players }
    requires scripts { job.now.ranks ≡ length rounds.old.world.players }
    requires follows { Follows job.now rounds.old.world }
    ensures same_job { OnOk result (rounds.new.job.now ≡ job.now) }
    ensures moves { IfOk result (λ moved. Moves job.now rounds.old.world rounds.new.world moved) }
    ensures stuck { IfOk result (λ moved. moved ≡ false → IsStuck job.now rounds.new.world r) }
    ensures refused { IfErr result (λ fault. fault ≡ RunFault.OutOfMemory) }
{
    // That the rounds play this job stands in the clauses alone.
    let _ = job;
    rounds.rank = r;
    let Ok((moved, polled)) = turn(rounds) else {
        return Err(RunFault::OutOfMemory);
    };
    if polled {
        return Ok(true);
    }
    Ok(moved)
}
