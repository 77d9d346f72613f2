//! The words of standard error, for people: what is wrong with a job's text, and where, and what else is to be said beside a reply.
//!
//!     for explanation in explain(alloc, bytes)? { .. }
//!     write_verdict(alloc, has_colour, remarks, &mut errors);
//!     write_reasons(alloc, wanted, stop, bytes, &body, &mut errors);
//!     write_notes(alloc, wanted, bytes, remarks, &mut errors);
//!     write_fault(alloc, usage, &mut errors);
//!
//! It promises one thing: [`explain`], which tells why a job is refused, and [`warnings`], which tells what of a good one will be refused, give ten
//! at most (clause `few`).
//!
//! Files:
//!
//! - `check.rt`: [`explain`], in the order in which the reader looks for faults; `warning.rt`: [`warnings`]; `findings.rt`, `first_ten.rt`: the ten
//! - `explanation.rt`, `place.rt`: what is wrong, and where; `marks.rt`, `walk.rt`: where keys and steps begin in a text
//! - `cause.rt`: all that may be wrong; `refusal_cause.rt`: all that will be refused, `sure_refusals.rt`: which steps will be; `line.rt`: how both are put in words
//! - `steps.rt`, `keys.rt`, `step_clauses.rt`, `never.rt`, `row_fault.rt`, `before.rt`, `block.rt`, `claim.rt`: what is looked at, a subject a file
//! - `rules.rt`, `kind.rt`, `answers.rt`: what may stand in a job, as docs/JOBS.md has it; `answering.rt`: [`answers_at`], how the
//!   answers of a step begin
//! - `lines.rt`: steps written out, beside their places in the file; `script.rt`: those of one rank; `numbered_step.rt`, `excerpt.rt`: how they are named
//! - `nearest.rt`, `mpi.rt`: what a misspelt word, or a word of MPI's, stands for
//! - `notes.rt`: the three calls that write; `remark_lines.rt`: lines of steps and of rows; `headed_lines.rt`: lines below their count
//! - `unheld.rt`: what isn't asked where the words stop ranks
//! - `goal.rt`: why a goal of `--show` names no answer; `only_names.rt`, `stop_names.rt`: why a part of `--only`, or of `--stop`, names no step
//! - `misplaced.rt`: why a job hasn't a place
//!
//! Not here: whether a job is refused, and by which line of the output. `ulfm_reader` decides that; the words here come from a second look at the
//! text, and no contract says that they are right: tools/gate/bad-jobs holds them. The reply itself brings what is told of steps and rows.
#![tactic(auto)]

mod answering;
mod answers;
mod before;
mod block;
mod cause;
mod check;
mod claim;
mod excerpt;
mod explanation;
mod findings;
mod first_ten;
mod goal;
mod headed_lines;
mod keys;
mod kind;
mod line;
mod lines;
mod marks;
mod misplaced;
mod mpi;
mod nearest;
mod never;
mod notes;
mod numbered_step;
mod only_names;
mod place;
mod refusal_cause;
mod remark_lines;
mod row_fault;
mod rules;
mod script;
mod step_clauses;
mod steps;
mod stop_names;
mod sure_refusals;
mod unheld;
mod walk;
mod warning;

pub use answering::answers_at;
pub use cause::Cause;
pub use check::explain;
pub use excerpt::Shown;
pub use explanation::{Explanation, StepPlace};
pub use kind::Kind;
pub use notes::{write_fault, write_notes, write_past_limit, write_reasons, write_verdict};
pub use place::Place;
pub use refusal_cause::Doom;
pub use rules::{Key, Rules};
pub use warning::warnings;
