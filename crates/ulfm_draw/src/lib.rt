//! Pictures of schedules: a line for each rank, an arrow for each item that one took from another, and the answers in words.
//!
//!     let drawing = drawn(alloc, Style::Svg, Wording::Plain, &job, &schedule, "")?;
//!
//! A picture is a function of a job and a schedule of it: of one that was shown, or of a replay.
//!
//! Files:
//!
//! - `making.rt`: from a schedule to a picture; `picture.rt`: what one has; `row.rt`, `arrow.rt`, `wait.rt`: moves, items on their way, open steps
//! - `circles.rt`: what waits come to; `kind.rt`, `mark.rt`, `saying.rt`: what a move is, its mark and its words; `legend.rt`: what marks stand for
//! - `columns.rt`: as text; `mermaid.rt`: as a Mermaid diagram; `svg.rt`: as a drawing
//! - of drawings alone: `layout.rt`, `lanes.rt` (where things stand), `path.rt` (arrows), `ink.rt` (colours), `piece.rt`, `svg_text.rt`,
//!   `wrapping.rt` (texts)
//! - `escaped.rt`: [`push_escaped`], a text as markup has it
//!
//! Not here: any promise. No contract says anything of a picture; pictures are held byte for byte by tools/gate/check-pictures. Nothing is matched
//! here either: which message a receive got stands in the schedule.
#![tactic(auto)]

mod arrow;
mod circles;
mod columns;
mod escaped;
mod ink;
mod kind;
mod lanes;
mod layout;
mod legend;
mod making;
mod mark;
mod mermaid;
mod path;
mod picture;
mod piece;
mod row;
mod saying;
mod svg;
mod svg_text;
mod wait;
mod wrapping;

pub use escaped::push_escaped;
use std::alloc::{AllocError, Global};
use ulfm_forms::{Style, Wording};
use ulfm_job::Job;
use ulfm_schedule::Schedule;

/// The picture of a schedule of a job, its calls and answers in these words, with a note on it, or none where that is empty.
///
/// # Errors
///
/// `AllocError` where a growth was refused.
pub fn drawn(
    alloc: Global,
    style: Style,
    wording: Wording,
    job: &Job,
    schedule: &Schedule,
    note: &str,
) -> Result<String, AllocError> {
    let picture = making::picture_of(alloc, wording, job, schedule, note)?;
    match style {
        Style::Svg => svg::drawing(alloc, &picture),
        Style::Mermaid => mermaid::diagram(alloc, &picture),
        Style::Text => columns::table(alloc, &picture),
    }
}
