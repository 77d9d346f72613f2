//! What was found that a job doesn't want.
ghost use Rattle.std.specs.Prelude.{◌≡◌};
ghost use Rattle.ulfm_command_line.specs.Stopped.{asked_view};
ghost use Rattle.ulfm_outcomes_reply.specs.Wanted.{asks};

use ulfm_command_line::Remark;
use ulfm_outcomes_list::Judgement;
use ulfm_reader::Reading;

/// What was found that a job doesn't want: what a list comes to with it, and what is told below.
#[derive(Drop)]
pub struct Finding {
    /// What the list comes to.
    pub judgement: Judgement,
    /// The status.
    pub status: u8,
    /// What is told.
    pub text: String,
    /// What standard error tells beside it, if anything.
    pub remarks: Option<Vec<Remark>>,
}

/// Whether a job asks for something: answers of its steps, or by rows of `never`.
pub(crate) fn asks(asked: &Reading) -> bool
    ensures { result ≡ asks (asked_view asked.now) }
{
    !(asked.job.expected().is_empty() && asked.never.is_empty())
}
