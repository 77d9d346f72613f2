//! The polls of a rank's steps.
ghost use Rattle.std.specs.Prelude.{◌≡◌, ◌≤◌, ◌+◌, length, Some, true, false, IfSome, IfNone};
ghost use Rattle.std.specs.Bool.{OnTrue};
ghost use Rattle.ulfm_log.specs.Facts.{is_stopped};
ghost use Rattle.ulfm_log.specs.State.{IsState};
ghost use Rattle.ulfm_script.specs.Deciding.{Known};
ghost use Rattle.ulfm_job.specs.Job.{script_at};
ghost use Rattle.ulfm_script.specs.inside.SoFar.{AnswersFollowSoFar, IsUndecided};
ghost use Rattle.ulfm_run.specs.inside.Joined.{Polls, SkipsOn};
ghost use Rattle.ulfm_script.specs.inside.Underway.{GoesThrough};
ghost use Rattle.ulfm_answer.specs.Reacting.{is_played};
ghost use Rattle.ulfm_script.specs.Meant.{next_step};

use ulfm_board::Decider;
use ulfm_job::{Asked, Job};
use ulfm_script::{Called, Decided, Player, next_step};

/// The next step of a rank that is to be played. The steps before it are skipped, since none of their conditions holds: they take no
/// poll. It never answers out of memory.
pub(crate) fn next_played<'a>(job: &'a Job, me: u8, player: &mut Player) -> Option<Asked<'a>>
    requires mine { player.old.player.rank.me ≡ me }
    requires follows { GoesThrough job.now me player.old.player }
    requires room { length (script_at job.now me) ≤ player.old.room + length player.old.player.done }
    requires running { is_stopped player.old.player.rank.log ≡ false }
    ensures skips { SkipsOn job.now me player.old player.new }
    ensures next { IfSome result (λ asked. next_step job.now me player.new.player.done ≡ Some asked) }
    ensures played { IfSome result (λ _. is_played job.now.conditions me player.new.player.done ≡ true) }
    ensures none { IfNone result (length (script_at job.now me) ≤ length player.new.player.done) }
    ensures honest { (known : Known) → AnswersFollowSoFar known player.old.player → AnswersFollowSoFar known player.new.player }
{
    // It tells the limits that each job keeps.
    let _ = job.turns();
    while let Some(asked) = next_step(job, me, player.done()) {
        if player.is_next_played(job.conditions()) {
            return Some(asked);
        }
        player.skip(&asked);
    }
    None
}

/// One poll of a rank's next step, which is to be played: an open shrink or agreement that has a proposal is decided, another step is
/// called, and given up where its last poll left it open. Whether the step has its answer now.
pub(crate) fn poll<D: Decider>(
    job: &Job,
    me: u8,
    player: &mut Player,
    decider: &mut D,
    asked: &Asked<'_>,
) -> bool
    requires sound { IsState player.old.player.rank }
    requires follows { GoesThrough job.now me player.old.player }
    requires room { length (script_at job.now me) ≤ player.old.room + length player.old.player.done }
    requires running { is_stopped player.old.player.rank.log ≡ false }
    requires next { next_step job.now me player.old.player.done ≡ Some asked.now }
    requires played { is_played job.now.conditions me player.old.player.done ≡ true }
    ensures polls { Polls job.now me player.old player.new }
    ensures honest { AnswersFollowSoFar (D.known decider.old) player.old.player → AnswersFollowSoFar (D.known decider.new) player.new.player }
    ensures board { D.board decider.new ≡ D.board decider.old }
{
    if decide(job, me, player, decider, asked) {
        return true;
    }
    call(job, me, player, asked)
}

/// The decision of a step that stands open and has a proposal: a shrink or an agreement. Whether it was decided.
fn decide<D: Decider>(
    job: &Job,
    me: u8,
    player: &mut Player,
    decider: &mut D,
    asked: &Asked<'_>,
) -> bool
    requires sound { IsState player.old.player.rank }
    requires follows { GoesThrough job.now me player.old.player }
    requires running { is_stopped player.old.player.rank.log ≡ false }
    requires next { next_step job.now me player.old.player.done ≡ Some asked.now }
    ensures polls { OnTrue result (Polls job.now me player.old player.new) }
    ensures honest { OnTrue result (AnswersFollowSoFar (D.known decider.old) player.old.player → AnswersFollowSoFar (D.known decider.new) player.new.player) }
    ensures undecided { result ≡ false → IsUndecided player.old.player }
    ensures known_stay { result ≡ false → D.known decider.new ≡ D.known decider.old }
    ensures unchanged { result ≡ false → player.new.player ≡ player.old.player }
    ensures room { player.new.room + length player.new.player.done ≡ player.old.room + length player.old.player.done }
    ensures board { D.board decider.new ≡ D.board decider.old }
{
    // Which step of which rank is polled stands in the clauses alone.
    let _ = job;
    let _ = me;
    let Some(comm) = asked.decides_on() else {
        return false;
    };
    match player.decide(comm, decider) {
        Decided::Answered => true,
        Decided::NotReady => false,
    }
}

/// One poll of a step by `call`; it is given up where this was its last poll, or the first of one that may be given up early, and left it
/// open. Whether it is answered.
fn call(job: &Job, me: u8, player: &mut Player, asked: &Asked<'_>) -> bool
    requires sound { IsState player.old.player.rank }
    requires follows { GoesThrough job.now me player.old.player }
    requires room { length (script_at job.now me) ≤ player.old.room + length player.old.player.done }
    requires running { is_stopped player.old.player.rank.log ≡ false }
    requires next { next_step job.now me player.old.player.done ≡ Some asked.now }
    requires played { is_played job.now.conditions me player.old.player.done ≡ true }
    ensures polls { Polls job.now me player.old player.new }
    ensures honest { (known : Known) → AnswersFollowSoFar known player.old.player → IsUndecided player.old.player → AnswersFollowSoFar known player.new.player }
{
    let turns = job.turns_at(me, player.answered());
    match player.call(asked) {
        Called::Answered => return true,
        Called::NotYet => {}
    }
    if player.polls() < turns {
        return false;
    }
    player.leave();
    true
}
