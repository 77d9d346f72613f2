//! The lines of a trace: what is printed of answered steps, and of how a rank ended.
//!
//! Each makes its piece whole before the text gets it: so where a growth is refused, the text stays as it was.
ghost use Rattle.std.specs.Prelude.{◌≡◌, ◌++◌, IfOk, OnErr, OnOk, option_map, string_bytes};
ghost use Rattle.ulfm_answer.specs.Trace.{answer_text, step_line, step_lines, closing_line, told_text};

use crate::answer::{StepAnswer, StepReport};
use crate::putting::{put_answer, put_told};
use crate::told_answer::ToldAnswer;
use std::alloc::{AllocError, Global};
use ulfm_job::{Job, NotedWords};

/// Puts the text of an answer behind another text.
///
/// # Errors
///
/// A growth was refused: then the text is as it was.
pub fn push_answer(text: &mut String, answer: &StepAnswer) -> Result<(), AllocError>
    ensures pushed { OnOk result (string_bytes text.new ≡ string_bytes text.old ++ answer_text answer.now) }
    ensures unchanged { OnErr result (string_bytes text.new ≡ string_bytes text.old) }
{
    let piece = answer_words(*text.allocator(), answer)?;
    text.push_str(piece.as_str())
}

/// The text of an answer.
fn answer_words(alloc: Global, answer: &StepAnswer) -> Result<String, AllocError>
    ensures { IfOk result (λ words. string_bytes words ≡ answer_text answer.now) }
{
    let mut words = String::new(alloc);
    put_answer(alloc, &mut words, answer)?;
    Ok(words)
}

/// Puts the text of what is told of an answer behind another text.
///
/// # Errors
///
/// A growth was refused: then the text is as it was.
pub fn push_told(text: &mut String, told: &ToldAnswer<'_>) -> Result<(), AllocError>
    ensures pushed { OnOk result (string_bytes text.new ≡ string_bytes text.old ++ told_text told.now) }
    ensures unchanged { OnErr result (string_bytes text.new ≡ string_bytes text.old) }
{
    let piece = told_words(*text.allocator(), told)?;
    text.push_str(piece.as_str())
}

/// The text of what is told of an answer.
fn told_words(alloc: Global, told: &ToldAnswer<'_>) -> Result<String, AllocError>
    ensures { IfOk result (λ words. string_bytes words ≡ told_text told.now) }
{
    let mut words = String::new(alloc);
    put_told(&mut words, told)?;
    Ok(words)
}

/// Puts the line of the step `k` of the rank `me` behind another text, which may call its communicator by a name.
fn add_line(
    text: &mut String,
    called: Option<&str>,
    me: u8,
    k: usize,
    report: &StepReport,
) -> Result<(), AllocError>
    ensures { OnOk result (string_bytes text.new ≡ string_bytes text.old ++ step_line (option_map (λ name. name.now) called.entry) me k report.now) }
{
    let step = NotedWords {
        step: &report.step,
        called,
    };
    write!(text, "{me} {k} {step}: ")?;
    push_answer(text, &report.answer)?;
    text.push_str("\n")
}

/// Puts a line for each of the answered steps of the rank `me` of a job behind another text.
///
/// # Errors
///
/// A growth was refused: then the text is as it was.
pub fn push_steps(
    text: &mut String,
    job: &Job,
    me: u8,
    steps: &[StepReport],
) -> Result<(), AllocError>
    ensures pushed { OnOk result (string_bytes text.new ≡ string_bytes text.old ++ step_lines job.now me 0 steps.now) }
    ensures unchanged { OnErr result (string_bytes text.new ≡ string_bytes text.old) }
{
    let lines = lines_of(*text.allocator(), job, me, steps)?;
    text.push_str(lines.as_str())
}

/// A line for each of the answered steps of the rank `me` of a job.
fn lines_of(alloc: Global, job: &Job, me: u8, steps: &[StepReport]) -> Result<String, AllocError>
    ensures { IfOk result (λ lines. string_bytes lines ≡ step_lines job.now me 0 steps.now) }
{
    let mut lines = String::new(alloc);
    for (k, report) in steps.iter().enumerate() {
        add_line(&mut lines, job.called(me, k), me, k, report)?;
    }
    Ok(lines)
}

/// Puts the closing line of the rank `me` behind another text: whether it stopped, and how many of its turns found no memory.
///
/// # Errors
///
/// A growth was refused: then the text is as it was.
pub fn push_closing(
    text: &mut String,
    me: u8,
    stopped: bool,
    starved: u32,
) -> Result<(), AllocError>
    ensures pushed { OnOk result (string_bytes text.new ≡ string_bytes text.old ++ closing_line me stopped starved) }
    ensures unchanged { OnErr result (string_bytes text.new ≡ string_bytes text.old) }
{
    let line = closing(*text.allocator(), me, stopped, starved)?;
    text.push_str(line.as_str())
}

/// The closing line of the rank `me`.
fn closing(alloc: Global, me: u8, stopped: bool, starved: u32) -> Result<String, AllocError>
    ensures { IfOk result (λ line. string_bytes line ≡ closing_line me stopped starved) }
{
    let mut line = String::new(alloc);
    let end = if stopped { "stopped" } else { "done" };
    if starved == 0 {
        write!(line, "{me} end: {end}\n")?;
    } else {
        write!(line, "{me} end: {end} starved {starved}\n")?;
    }
    Ok(line)
}
