//! Marks of moves.

use crate::ink::{ALARM, DARK, colour};
use crate::kind::Kind;
use std::alloc::AllocError;
use ulfm_answer::StepAnswer;

/// What stands on the line of a rank where it did something.
#[derive(Clone, Copy, Debug, PartialEq, Eq)]
pub(crate) enum Mark {
    /// A step has an answer that none of the others tells of.
    Answer,
    /// A step was opened.
    Open,
    /// A step got a message, or found one.
    Got,
    /// Ranks decided together.
    Decision,
    /// A call was refused, or what it waited for is over.
    Refusal,
    /// A step was given up.
    Hang,
    /// A receive met failures that aren't acknowledged.
    Pending,
    /// A step was skipped.
    Skip,
    /// A note.
    Note,
    /// The rank stopped.
    Stop,
}

/// All marks, in the order of legends.
pub(crate) const MARKS: [Mark; 10] = [
    Mark::Answer,
    Mark::Open,
    Mark::Got,
    Mark::Decision,
    Mark::Refusal,
    Mark::Hang,
    Mark::Pending,
    Mark::Skip,
    Mark::Note,
    Mark::Stop,
];

/// The mark of an answer.
pub(crate) fn mark_by(answer: &StepAnswer) -> Mark {
    match answer {
        StepAnswer::Done(_, _) | StepAnswer::Found(_, _) => Mark::Got,
        StepAnswer::Refused(_) | StepAnswer::Over(_) => Mark::Refusal,
        StepAnswer::Shrunk(_, _, _) | StepAnswer::Agreed(_, _) => Mark::Decision,
        StepAnswer::Unfinished => Mark::Hang,
        StepAnswer::Pending => Mark::Pending,
        StepAnswer::Skipped => Mark::Skip,
        StepAnswer::Noted => Mark::Note,
        StepAnswer::Stopped => Mark::Stop,
        _ => Mark::Answer,
    }
}

/// What a mark says, in words.
pub(crate) fn meaning(mark: Mark) -> &'static str {
    match mark {
        Mark::Answer => "answered",
        Mark::Open => "open",
        Mark::Got => "message got",
        Mark::Decision => "decision",
        Mark::Refusal => "refused, over",
        Mark::Hang => "unfinished: the replay gave up, MPI may hang",
        Mark::Pending => "pending: the receive is open",
        Mark::Skip => "skipped",
        Mark::Note => "note",
        Mark::Stop => "stop",
    }
}

/// Draws a mark around a place.
pub(crate) fn push_mark(
    out: &mut String,
    mark: Mark,
    x: usize,
    y: usize,
) -> Result<(), AllocError> {
    let got = colour(Kind::Message);
    let left = x.saturating_sub(5);
    let top = y.saturating_sub(5);
    let west = x.saturating_sub(6);
    let start = x.saturating_sub(8);
    let over = y.saturating_sub(8);
    match mark {
        Mark::Answer => write!(
            out,
            "<circle cx=\"{x}\" cy=\"{y}\" r=\"4\" fill=\"{DARK}\"/>\n"
        ),
        Mark::Open => write!(
            out,
            "<circle cx=\"{x}\" cy=\"{y}\" r=\"5\" fill=\"#fff\" stroke=\"{DARK}\" stroke-width=\"1.5\"/>\n"
        ),
        Mark::Got => write!(
            out,
            "<rect x=\"{left}\" y=\"{top}\" width=\"10\" height=\"10\" fill=\"{got}\"/>\n"
        ),
        Mark::Decision => write!(
            out,
            "<path d=\"M{west} {y}l6 -6l6 6l-6 6z\" fill=\"{DARK}\"/>\n"
        ),
        Mark::Refusal => write!(
            out,
            "<path d=\"M{left} {top}l10 10m0 -10l-10 10\" stroke=\"{DARK}\" stroke-width=\"2\"/>\n"
        ),
        Mark::Hang | Mark::Pending => write!(
            out,
            "<path d=\"M{west} {y}l6 -6l6 6l-6 6z\" fill=\"#fff\" stroke=\"{DARK}\" stroke-width=\"1.5\"/>\n"
        ),
        Mark::Skip => write!(
            out,
            "<path d=\"M{left} {y}h10\" stroke=\"{DARK}\" stroke-width=\"3\"/>\n"
        ),
        Mark::Note => write!(
            out,
            "<path d=\"M{x} {y}v-10l8 3l-8 3\" fill=\"{DARK}\" stroke=\"{DARK}\" stroke-width=\"1.5\"/>\n"
        ),
        Mark::Stop => write!(
            out,
            "<path d=\"M{start} {over}l16 16m0 -16l-16 16\" stroke=\"{ALARM}\" stroke-width=\"3\"/>\n"
        ),
    }
}
