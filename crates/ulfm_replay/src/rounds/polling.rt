//! Polls of steps in a round.
ghost use Rattle.std.specs.Prelude.{◌≡◌, ◌<◌, ◌≤◌, ◌+◌, length, false, true, IfOk, OnOk, Some};
ghost use Rattle.ulfm_base.specs.declared.context.Context.{Context};
ghost use Rattle.ulfm_script.specs.Deciding.{IsReadyToDecide};
ghost use Rattle.ulfm_script.specs.inside.SoFar.{IsUndecided};
ghost use Rattle.ulfm_job.specs.Job.{script_at, decides_on};
ghost use Rattle.ulfm_answer.specs.Reacting.{is_played};
ghost use Rattle.ulfm_script.specs.Meant.{next_step};
ghost use Rattle.ulfm_world.specs.World.{IsRunning, player_at};
ghost use Rattle.ulfm_world.specs.inside.Rounds.{Moves, Follows};

use crate::recording::{Recording, apply};
use ulfm_job::{Asked, Job};
use ulfm_script::{RunFault, next_step};
use ulfm_world::{Event, Outcome, Refused, World};

/// The poll of the next step that is to be played, if there is one: an open shrink or agreement that has a proposal is decided. Those
/// before it are skipped, and take no poll. An open step may get as many polls at once as `most`.
pub(super) fn poll(
    job: &Job,
    world: &mut World,
    recording: &mut Recording,
    r: u8,
    most: u32,
) -> Result<bool, RunFault>
    requires inside { r < length world.old.players }
    requires scripts { job.now.ranks ≡ length world.old.players }
    requires follows { Follows job.now world.old }
    ensures moves { IfOk result (λ moved. Moves job.now world.old world.new moved) }
    ensures stuck { IfOk result (λ moved. moved ≡ false → IsRunning world.new r → length (script_at job.now r) ≤ length (player_at world.new r).done) }
{
    if world.is_stopped(r) {
        return Ok(false);
    }
    let Some(asked) = next_step(job, r, world.player(r).done()) else {
        return Ok(false);
    };
    if !world.is_next_played(r, job.conditions()) {
        skip(job, world, recording, r, &asked)?;
        poll(job, world, recording, r, most)?;
        return Ok(true);
    }
    if decide(job, world, recording, r, &asked) {
        return Ok(true);
    }
    call(job, world, recording, r, &asked, most)?;
    Ok(true)
}

/// The step isn't played, since none of its conditions holds.
#[tactic(auto, using(ulfm_world::proofs::Refusals::refusals))]
fn skip(
    job: &Job,
    world: &mut World,
    recording: &mut Recording,
    r: u8,
    asked: &Asked<'_>,
) -> Result<(), RunFault>
    requires inside { r < length world.old.players }
    requires running { IsRunning world.old r }
    requires follows { Follows job.now world.old }
    requires next { next_step job.now r (player_at world.old r).done ≡ Some asked.now }
    requires skipped { is_played job.now.conditions r (player_at world.old r).done ≡ false }
    ensures { OnOk result (Moves job.now world.old world.new true) }
{
    // It tells the limits that each job keeps.
    let _ = job.turns();
    match apply(job, world, recording, Event::Skip(r, asked.again())) {
        Ok(_) => Ok(()),
        Err(Refused::OutOfMemory) => Err(RunFault::OutOfMemory),
        Err(_) => unreachable!(),
    }
}

/// One poll of a step; or as many at once as `most`, where it stands open and none of them is its last.
fn call(
    job: &Job,
    world: &mut World,
    recording: &mut Recording,
    r: u8,
    asked: &Asked<'_>,
    most: u32,
) -> Result<(), RunFault>
    requires inside { r < length world.old.players }
    requires running { IsRunning world.old r }
    requires follows { Follows job.now world.old }
    requires next { next_step job.now r (player_at world.old r).done ≡ Some asked.now }
    requires played { is_played job.now.conditions r (player_at world.old r).done ≡ true }
    requires undecided { IsUndecided (player_at world.old r) }
    ensures { OnOk result (Moves job.now world.old world.new true) }
{
    let polls = world.polls(r);
    let times = most.min(job.turns().saturating_sub(1).saturating_sub(polls));
    if polls > 0 && times > 1 {
        return call_often(job, world, r, asked, times);
    }
    call_once(job, world, recording, r, asked)
}

/// So many polls of the open step at once, of which none is its last.
#[tactic(auto, using(ulfm_world::proofs::Refusals::refusals))]
fn call_often(
    job: &Job,
    world: &mut World,
    r: u8,
    asked: &Asked<'_>,
    times: u32,
) -> Result<(), RunFault>
    requires inside { r < length world.old.players }
    requires running { IsRunning world.old r }
    requires follows { Follows job.now world.old }
    requires next { next_step job.now r (player_at world.old r).done ≡ Some asked.now }
    requires played { is_played job.now.conditions r (player_at world.old r).done ≡ true }
    requires undecided { IsUndecided (player_at world.old r) }
    requires open { 0 < (player_at world.old r).polls }
    requires some { 0 < times }
    requires spare { (player_at world.old r).polls + times < job.now.turns }
    ensures { OnOk result (Moves job.now world.old world.new true) }
{
    // It tells the limits that each job keeps.
    let _ = job.turns();
    match world.call_often(r, asked, times) {
        Ok(_) => Ok(()),
        Err(Refused::OutOfMemory) => Err(RunFault::OutOfMemory),
        Err(_) => unreachable!(),
    }
}

/// The decision of a step that stands open and has a proposal: a shrink or an agreement.
fn decide(job: &Job, world: &mut World, recording: &mut Recording, r: u8, asked: &Asked<'_>) -> bool
    requires inside { r < length world.old.players }
    requires running { IsRunning world.old r }
    requires follows { Follows job.now world.old }
    ensures moves { Moves job.now world.old world.new result }
    ensures undecided { result ≡ false → (comm : Context) → decides_on asked.now ≡ Some comm → ¬ IsReadyToDecide (player_at world.old r) comm }
{
    let Some(comm) = asked.decides_on() else {
        return false;
    };
    match apply(job, world, recording, Event::Decide(r, comm)) {
        Ok(_) => true,
        Err(Refused::NotReady) => false,
        Err(_) => unreachable!(),
    }
}

/// One poll of a step by `call`; it is given up where this was the last poll, or the first of one that may be given up early, and left it
/// open.
#[tactic(auto, using(ulfm_world::proofs::Refusals::refusals))]
fn call_once(
    job: &Job,
    world: &mut World,
    recording: &mut Recording,
    r: u8,
    asked: &Asked<'_>,
) -> Result<(), RunFault>
    requires inside { r < length world.old.players }
    requires running { IsRunning world.old r }
    requires follows { Follows job.now world.old }
    requires next { next_step job.now r (player_at world.old r).done ≡ Some asked.now }
    requires played { is_played job.now.conditions r (player_at world.old r).done ≡ true }
    requires undecided { IsUndecided (player_at world.old r) }
    ensures { OnOk result (Moves job.now world.old world.new true) }
{
    let turns = job.turns_at(r, world.answered(r));
    match apply(job, world, recording, Event::Call(r, asked.again())) {
        Ok(Outcome::Answered) => return Ok(()),
        Ok(_) => {}
        Err(Refused::OutOfMemory) => return Err(RunFault::OutOfMemory),
        Err(_) => unreachable!(),
    }
    if world.polls(r) < turns {
        return Ok(());
    }
    match apply(job, world, recording, Event::Leave(r)) {
        Ok(_) => Ok(()),
        Err(_) => unreachable!(),
    }
}
