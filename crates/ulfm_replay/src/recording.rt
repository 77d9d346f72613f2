//! Events of a replay, whose moves are kept where they are asked for.
ghost use Rattle.std.specs.Prelude.{◌≡◌, IfErr, IfOk, OnErr, OnOk};
ghost use Rattle.ulfm_world.specs.Flow.{IsWorld};
ghost use Rattle.ulfm_world.specs.Safe.{KeepsDecisions};
ghost use Rattle.ulfm_world.specs.World.{Happens, IsRefused, outcome_of};

use crate::{Recorder, Underway};
use ulfm_job::Job;
use ulfm_schedule::Move;
use ulfm_world::{Event, Outcome, Refused, World};

/// The moves of a replay.
#[derive(Drop)]
pub(crate) enum Recording {
    /// They aren't asked for.
    Off,
    /// They are kept.
    On(Recorder),
    /// Some of them found no memory.
    Lost,
}

impl Recording {
    /// Looks at a world of a job before an event.
    fn before(&self, job: &Job, world: &World, event: &Event<'_>) -> Option<Underway> {
        match self {
            Recording::On(recorder) => recorder.before(job, world, event).ok(),
            _ => None,
        }
    }

    /// Keeps the moves of an event that happened, by the world after it.
    fn after(&mut self, job: &Job, world: &World, underway: Option<Underway>) {
        let Recording::On(recorder) = self else {
            return;
        };
        let is_kept = match underway {
            Some(underway) => recorder.after(job, world, underway).is_ok(),
            None => false,
        };
        if !is_kept {
            *self = Recording::Lost;
        }
    }

    /// The moves that were kept, where none is lost.
    pub(crate) fn into_moves(self) -> Option<Vec<Move>> {
        match self {
            Recording::On(recorder) => Some(recorder.moves),
            _ => None,
        }
    }
}

/// One event of a job, as the world has it.
pub(crate) fn apply(
    job: &Job,
    world: &mut World,
    recording: &mut Recording,
    event: Event<'_>,
) -> Result<Outcome, Refused>
    ensures happens { OnOk result (Happens world.old event.entry world.new) }
    ensures outcome { IfOk result (λ outcome. outcome ≡ outcome_of world.new event.entry) }
    ensures refused { IfErr result (λ why. IsRefused world.old event.entry why) }
    ensures unchanged { OnErr result (world.new ≡ world.old) }
    ensures world { IsWorld world.old }
    ensures safe { KeepsDecisions world.old × KeepsDecisions world.new }
{
    let underway = recording.before(job, world, &event);
    let outcome = world.apply(event);
    if outcome.is_ok() {
        recording.after(job, world, underway);
    }
    outcome
}
