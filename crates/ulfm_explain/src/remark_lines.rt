//! What is told of steps and of rows.

use crate::headed_lines::Counted;
use std::alloc::{AllocError, Global};
use ulfm_command_line::{Remark, Verdict};
use ulfm_job::{Place, Text};

/// What stands above the lines of each kind, in their order.
const HEADS: [&str; 6] = [UNMET, CAME, UNFINISHED, MISTAKEN, SKIPPED, UNHELD];

const UNMET: &str = "answers that their steps don't expect";

const CAME: &str = "rows of 'never' whose answers all came";

const UNFINISHED: &str = "unfinished steps, where MPI would hang";

const HANGING: &str = "a schedule in which it never ends";

const MISTAKEN: &str = "answers that are nearly always a mistake of the script";

const SKIPPED: &str = "steps that every schedule skips, so that their conditions never hold";

const UNHELD: &str =
    "what is asked at no place that was looked at, since at none all stops lie before the steps of its name";

/// The lines on these and on more, each once, kind by kind below its head.
pub(crate) fn remarks_told(
    alloc: Global,
    remarks: &[Remark],
    more: &[Remark],
) -> Result<String, AllocError> {
    let mut notes = String::new(alloc);
    for head in &HEADS {
        let mut told = Counted::new(alloc);
        for remark in remarks.iter().chain(more.iter()) {
            if head_of(remark) == Some(*head) {
                let line = line_of(alloc, remark)?;
                told.add(line.as_str())?;
            }
        }
        notes.push_str(told.below(head)?.as_str())?;
    }
    for remark in remarks {
        if let Remark::Hanging(schedule) = remark {
            write!(notes, "{HANGING}:\n{schedule}")?;
        }
    }
    Ok(notes)
}

/// What the list comes to of which these are told, in a line. Nothing where they are of something else.
pub(crate) fn verdict_line(
    alloc: Global,
    has_colour: bool,
    remarks: &[Remark],
) -> Result<String, AllocError> {
    let mut line = String::new(alloc);
    for remark in remarks {
        if let Remark::Verdict(verdict) = remark {
            let colour = colour_of(has_colour, verdict);
            let end = if has_colour { "\x1b[m" } else { "" };
            write!(line, "{colour}{verdict}{end}\n")?;
        }
    }
    Ok(line)
}

/// The colour of a terminal for a line that tells what a list comes to, if it is to have one.
fn colour_of(has_colour: bool, verdict: &Verdict) -> &'static str {
    match (has_colour, verdict.is_good()) {
        (false, _) => "",
        (true, true) => "\x1b[32m",
        (true, false) => "\x1b[1;31m",
    }
}

/// What stands above the line on one, where it is told in a line below others.
fn head_of(remark: &Remark) -> Option<&'static str> {
    match remark {
        Remark::Unmet(..) => Some(UNMET),
        Remark::Came(..) => Some(CAME),
        Remark::Unfinished(_) => Some(UNFINISHED),
        Remark::Mistaken(..) => Some(MISTAKEN),
        Remark::Skipped(_) => Some(SKIPPED),
        Remark::UnheldStep(..) | Remark::UnheldRow(..) => Some(UNHELD),
        Remark::Verdict(_) | Remark::Hanging(_) => None,
    }
}

/// The line on one.
fn line_of(alloc: Global, remark: &Remark) -> Result<String, AllocError> {
    let mut line = String::new(alloc);
    match remark {
        Remark::Unfinished(step) | Remark::Skipped(step) => write!(line, "{step}")?,
        Remark::Unmet(step, expected, answer) => {
            write!(line, "{step}: expected")?;
            push_texts(&mut line, expected.as_slice(), " or")?;
            write!(line, ", and its answer is '{answer}'")?;
        }
        Remark::Mistaken(step, answer, places) => {
            write!(line, "{step}: '{answer}'")?;
            push_places(&mut line, places.as_slice())?;
        }
        Remark::Came(number, texts) => {
            write!(line, "never[{number}]:")?;
            push_texts(&mut line, texts.as_slice(), " and")?;
        }
        Remark::UnheldStep(step, name) => {
            let name = name.as_str();
            write!(line, "{step}: before '{name}'")?;
        }
        Remark::UnheldRow(number, name) => {
            let name = name.as_str();
            write!(line, "never[{number}]: before '{name}'")?;
        }
        Remark::Verdict(_) | Remark::Hanging(_) => {}
    }
    line.push_str("\n")?;
    Ok(line)
}

/// The most places that a line names.
const MOST_PLACES: usize = 8;

/// Adds places, eight at most, and two dots where there are more.
fn push_places(line: &mut String, places: &[Place]) -> Result<(), AllocError> {
    if !places.is_empty() {
        line.push_str(" at")?;
    }
    for (number, place) in places.iter().enumerate() {
        if number == MOST_PLACES {
            return line.push_str(" ..");
        }
        push_place(line, *place)?;
    }
    Ok(())
}

/// Adds a place behind a blank.
fn push_place(line: &mut String, place: Place) -> Result<(), AllocError> {
    write!(line, " {place}")
}

/// Adds texts, with this before each but the first.
fn push_texts(line: &mut String, texts: &[Text], between: &str) -> Result<(), AllocError> {
    let mut mark = "";
    for text in texts {
        let text = str::from_utf8(text.as_bytes()).unwrap_or("");
        write!(line, "{mark} '{text}'")?;
        mark = between;
    }
    Ok(())
}
