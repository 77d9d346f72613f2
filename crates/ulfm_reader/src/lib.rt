//! Jobs read from a text, whose steps are written out first.
//!
//!     let job = Job::read(alloc, bytes)?;
//!     for line in &written_out(alloc, ranks, items)? { .. }
//!
//! A [`Reading`] has, beside the job, the rows of answers of which no run may have all, the names of steps and their places in the file, and what is
//! asked only before the steps of a name. It also reads the answers that a line of text names.
//!
//! It promises:
//!
//! - [`ReadJob`], `read`: the job is the one that the text has, its steps written out, or its first fault, in the order of docs/REFUSALS.md
//!   (`job_of_bytes`, JobText.antt; a step: StepText.antt; names, conditions and what is expected: Reacting.antt).
//! - [`Reading`], `read`: the same, with the rows of `never` (`reading_of_bytes`, `never_of_bytes`, JobText.antt; rows: Never.antt; before which
//!   steps: Provisos.antt; a line of answers: Goals.antt).
//! - [`written_out`]: a step for several ranks is one for each of them, and `to` and `from` by neighbours are numbers. A block is its steps in each
//!   iteration, and an error in it leads to the step that it names, by conditions beside a step's own. All else is as it stands. More than 256 steps
//!   are refused (`written_out`, Lines.antt; `iterated`, Iterations.antt; `guarded`, Guards.antt).
//! - [`written_job`]: the table of a job with its steps and rows written out (`written_job`, Documents.antt).
//!
//! [`written_out`] never fails, but for memory and for more than 256 steps: a step that has none of the short forms is left as it is, for the reader
//! to refuse. Read Ranks.antt first (a step for several ranks), then Iterations.antt and Blocks.antt (a block of steps), Guards.antt (where errors
//! in a block lead), Together.antt (conditions beside a step's own), Lines.antt (all steps) and Documents.antt.
//!
//! Files:
//!
//! - a text: `stream.rt` (all of an input), `reading.rt` ([`Reading`], the job of a text), `head.rt` (the keys of a job), `fields.rt`, `members.rt`
//!   (keys one by one), `draft.rt` (what was read of the steps), `filed.rt` (where steps stand in the file)
//! - a step as it is read: `ops.rt`, `letters.rt` (by its op), `placed.rt`, `ranges.rt`, `name.rt`, `reference.rt` (how it names an earlier one),
//!   `namings.rt` (whose communicator it is on)
//! - what is asked of answers: `conditions.rt`, `clauses.rt`, `claim.rt`, `asker.rt`, `beginnings.rt`, `answers.rt`, `goals.rt`; `rows.rt` (of
//!   `never`); `proviso.rt`, `subject.rt` (only where stops lie before a step)
//! - steps written out: `steps_written_out.rt` ([`written_out`]), `line.rt`, `unwritten.rt` (why they aren't), `shared.rt`, `ranks.rt` (steps for several
//!   ranks)
//! - blocks written out: `block.rt`, `iteration.rt`, `tags.rt`, `guard.rt`, `together.rt`, `conditions_written_out.rt`
//! - the rest written out: `rows_written_out.rt`, `row_words.rt` (rows of `never`), `documents.rt` (the text of a job)
//!
//! Not here: why a text is refused, in words for people (`ulfm_explain`), and a job with the stops of a place (`ulfm_command_line`).
#![tactic(auto)]

mod answers;
mod asker;
mod beginnings;
mod block;
mod claim;
mod clauses;
mod conditions;
mod conditions_written_out;
mod documents;
mod draft;
mod fields;
mod filed;
mod goals;
mod guard;
mod head;
mod iteration;
mod letters;
mod line;
mod members;
mod name;
mod namings;
mod ops;
mod placed;
mod proviso;
mod ranges;
mod ranks;
mod reading;
mod reference;
mod row_words;
mod rows;
mod rows_written_out;
mod shared;
mod steps_written_out;
mod stream;
mod subject;
mod tags;
mod together;
mod unwritten;

pub use beginnings::{REFUSALS, begins, begins_with, is_alike};
pub use documents::{ranks_in, written_job};
pub use filed::Filed;
pub use line::Line;
pub use members::text_in;
pub use name::{Name, is_name, name_at, named};
pub use proviso::Proviso;
pub use reading::{ReadJob, Reading, no_toml};
pub use rows_written_out::{MOST_ROWS, rows_out};
pub use steps_written_out::written_out;
pub use stream::{InputFault, read_front, write_whole};
pub use subject::Subject;
pub use unwritten::Unwritten;
