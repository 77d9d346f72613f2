//! What came of a rank.
ghost use Rattle.std.specs.Prelude.{◌≡◌, ◌++◌, OnOk, Some, option_map, string_bytes};
ghost use Rattle.ulfm_job.specs.Naming.{called_at};
ghost use Rattle.ulfm_schedule.specs.Words.{course_text, end_text, open_line};

use std::alloc::AllocError;
use ulfm_answer::{StepReport, push_closing, push_steps};
use ulfm_job::{Job, NotedStep, NotedWords};

/// How a rank ended.
#[derive(Clone, Copy, Debug, PartialEq, Eq)]
pub enum End {
    /// It came to the end of its script.
    Done,
    /// It stopped.
    Stopped,
    /// It has steps left.
    Unreached,
}

/// What came of a rank: its answered steps, the one that stands open, and its end.
#[derive(Drop)]
pub struct Course {
    /// Its number.
    pub rank: u8,
    /// The steps that have an answer, from the first on.
    pub steps: Vec<StepReport>,
    /// The one behind them, if it stands open.
    pub open: Option<NotedStep>,
    /// How the rank ended.
    pub end: End,
}

/// Puts the line of a step that is given up, which may call its communicator by a name.
fn push_unfinished(
    text: &mut String,
    called: Option<&str>,
    r: u8,
    k: usize,
    step: &NotedStep,
) -> Result<(), AllocError>
    ensures { OnOk result (string_bytes text.new ≡ string_bytes text.old ++ open_line (option_map (λ name. name.now) called.entry) r k (Some step.now)) }
{
    write!(
        text,
        "{r} {k} {}: unfinished\n",
        NotedWords { step, called }
    )
}

/// Puts the line of a step that stands open, as of one that is given up.
fn push_open(
    text: &mut String,
    job: &Job,
    r: u8,
    k: usize,
    open: &Option<NotedStep>,
) -> Result<(), AllocError>
    ensures { OnOk result (string_bytes text.new ≡ string_bytes text.old ++ open_line (called_at job.now r k) r k open.now) }
{
    match open {
        Some(step) => push_unfinished(text, job.called(r, k), r, k, step),
        None => Ok(()),
    }
}

/// Puts the line of how a rank ended.
///
/// # Errors
///
/// `AllocError` where a growth was refused.
pub fn push_end(text: &mut String, r: u8, end: End) -> Result<(), AllocError>
    ensures { OnOk result (string_bytes text.new ≡ string_bytes text.old ++ end_text r end) }
{
    match end {
        End::Done => push_closing(text, r, false, 0),
        End::Stopped => push_closing(text, r, true, 0),
        End::Unreached => write!(text, "{r} end: not reached\n"),
    }
}

/// Puts the lines of a rank of a job.
pub(crate) fn push_course(text: &mut String, job: &Job, course: &Course) -> Result<(), AllocError>
    ensures { OnOk result (string_bytes text.new ≡ string_bytes text.old ++ course_text job.now course.now) }
{
    push_steps(text, job, course.rank, course.steps.as_slice())?;
    push_open(text, job, course.rank, course.steps.len(), &course.open)?;
    push_end(text, course.rank, course.end)
}
