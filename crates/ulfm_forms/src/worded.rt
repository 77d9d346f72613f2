//! Calls and answers in plain words, or in MPI's.
ghost use Rattle.std.specs.Prelude.{◌≡◌, ◌++◌, OnOk, string_bytes};
ghost use Rattle.ulfm_answer.specs.Told.{told_of};
ghost use Rattle.ulfm_job.specs.Words.{told_view};
ghost use Rattle.ulfm_forms.specs.MpiAnswer.{mpi_answer};
ghost use Rattle.ulfm_forms.specs.Worded.{answer_in, call_in, told_in};

use crate::mpi_answer::push_mpi_answer;
use crate::mpi_call::push_mpi_call;
use crate::wording::Wording;
use std::alloc::AllocError;
use ulfm_answer::{StepAnswer, ToldAnswer, push_answer, push_code, push_told};
use ulfm_job::StepWords;

/// Puts a step in these words.
///
/// # Errors
///
/// A growth was refused: a part of it may stand in the text then.
pub fn push_call_in(
    text: &mut String,
    wording: Wording,
    told: StepWords<'_>,
) -> Result<(), AllocError>
    ensures { OnOk result (string_bytes text.new ≡ string_bytes text.old ++ call_in wording (told_view told.entry)) }
{
    match wording {
        Wording::Plain => write!(text, "{told}"),
        Wording::Mpi => push_mpi_call(text, told),
    }
}

/// Puts what is told of an answer in these words.
///
/// # Errors
///
/// A growth was refused: a part of it may stand in the text then.
pub fn push_told_in(
    text: &mut String,
    wording: Wording,
    told: &ToldAnswer<'_>,
) -> Result<(), AllocError>
    ensures { OnOk result (string_bytes text.new ≡ string_bytes text.old ++ told_in wording told.now) }
{
    match wording {
        Wording::Plain => push_told(text, told),
        Wording::Mpi => push_mpi_answer(text, told),
    }
}

/// Puts an answer in these words.
///
/// # Errors
///
/// A growth was refused: a part of it may stand in the text then.
pub fn push_answer_in(
    text: &mut String,
    wording: Wording,
    answer: &StepAnswer,
) -> Result<(), AllocError>
    ensures { OnOk result (string_bytes text.new ≡ string_bytes text.old ++ answer_in wording answer.now) }
{
    match wording {
        Wording::Plain => push_answer(text, answer),
        Wording::Mpi => push_read(text, answer),
    }
}

/// Puts an answer as MPI has it: what its code tells.
fn push_read(text: &mut String, answer: &StepAnswer) -> Result<(), AllocError>
    ensures { OnOk result (string_bytes text.new ≡ string_bytes text.old ++ mpi_answer (told_of answer.now)) }
{
    let mut code = Vec::new(*text.allocator());
    push_code(&mut code, answer)?;
    match ToldAnswer::read(code.as_slice()) {
        Some(told) => push_mpi_answer(text, &told),
        None => unreachable!(),
    }
}
