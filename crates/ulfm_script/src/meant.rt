//! The next step of a rank, as it is played: on the communicator that an earlier one made, where it names one.
ghost use Rattle.std.specs.Prelude.{◌≡◌};
ghost use Rattle.ulfm_script.specs.Meant.{made_at, made_of, meant_by, next_step, played_at};

use ulfm_answer::{StepAnswer, StepReport};
use ulfm_base::Context;
use ulfm_job::{Asked, Job, Naming};

/// A communicator that no rank makes: no path has its number.
pub const NOWHERE: Context = Context { number: 63 };

/// The communicator that an answer tells of, where it made one.
fn made_of(answer: &StepAnswer) -> Option<Context>
    ensures { result ≡ made_of answer.now }
{
    match answer {
        StepAnswer::Made(child) => Some(child.context),
        StepAnswer::Shrunk(child, _, _) => Some(child.context),
        _ => None,
    }
}

/// The communicator that the step of this number was answered; nothing where it made none.
pub fn made_at(done: &[StepReport], step: u16) -> Option<Context>
    ensures { result ≡ made_at done.now step }
{
    made_of(&done.get(step as usize)?.answer)
}

/// The communicator that a step names, behind these answers: one that no rank makes, where the named step made none.
pub fn meant_by(done: &[StepReport], naming: &Naming) -> Context
    ensures { result ≡ meant_by done.now naming.now }
{
    made_at(done, naming.step).unwrap_or(NOWHERE)
}

/// The step at a place of a rank's script as it is played behind these answers, where there is one. It never answers out of memory.
pub fn played_at<'a>(job: &'a Job, rank: u8, done: &[StepReport], place: usize) -> Option<Asked<'a>>
    ensures { result ≡ played_at job.now rank done.now place }
{
    let step = job.step(rank, place)?;
    match job.naming_at(rank, place) {
        Some(naming) => Some(Asked::on(step, meant_by(done, naming))),
        None => Some(Asked::of(step)),
    }
}

/// The next step of a rank behind these answers, as it is played, if it has one left. It never answers out of memory.
pub fn next_step<'a>(job: &'a Job, rank: u8, done: &[StepReport]) -> Option<Asked<'a>>
    ensures { result ≡ next_step job.now rank done.now }
{
    played_at(job, rank, done, done.len())
}
