//! Rank threads: each rank of a job goes through its steps in a thread of its own, by its end of a carrier and its seat of a board.
//!
//!     let report = run_job(rt, alloc, &job, ends, deciders)?;
//!
//! Its promises hold for every carrier and board that meet their contracts, in every schedule of the threads, once [`run_job`] returned a report. On
//! `shared`, a call returns where fewer than 2^62 pushes went to one inbox.
//!
//! - [`run_job`] (`lawful`): the reports are lawful, and so all logs have one order (`LawfulReport`, Lawful.antt of `ulfm_report_laws`).
//! - [`run_job`] (`flow`, `residue`): a log took what its rank's end took. This, and then what is left, is what the sender's end pushed
//!   (`EndsMatchLogs`, Flow.antt; `IsGathered`, Family.antt of `ulfm_carrier`).
//! - [`run_job`] (`same_ends`, `same_boards`, `sizes`): ends, inboxes and deciders come back, one for each rank.
//! - [`run_job`] (`untrue`): no report is given where an adopted decision isn't true of what the ranks report, a step is answered 11, or the logs
//!   have no one order, as where no rank's own call made a revocation, or no rank had proposed a decision before it was adopted. A failure shows the
//!   reports (`ShowUntrue`, Fault.antt).
//! - [`run_job`] (`fits`, `bad_ends`, `misfits`): ends and deciders that don't fit the job are answered with `BadEnds`, and no others are (`Fits`,
//!   Fault.antt).
//! - [`at_rest`]: whether nothing waits for any running rank (`IsAtRest`, Rest.antt of `ulfm_report_laws`).
//! - [`fits`]: whether rings of so many places allow a run. All logs have one order in which, as a rank stops, no more items that another one takes
//!   of it later are on the way to that one (`HaveRoom`, Room.antt of `ulfm_report_laws`). And no more items of any sender are left in an inbox
//!   (`AreWithin`, Flow.antt of `ulfm_report_laws`).
//!
//! Decisions, answers of 11 and the order are looked for in the reports, once all threads have ended. A replay has one world, and needs no such
//! look.
//!
//! Files:
//!
//! - `job.rt`: [`run_job`], from ends and deciders to a report; `report.rt`: what it gives
//! - `threads.rt`: a thread for each rank; `worker.rt`, `at_work.rt`: a rank in it, turn by turn; `polling.rt`: its polls; `finished.rt`: which are
//!   done
//! - looks at the reports: `order.rt` and `owing.rt` (one order of all logs), `adopted.rt`, `step_topic.rt`, `listing.rt` and `proposing.rt` (decisions
//!   are true), `foreign.rt` (no step is refused by 11), `comparing.rt` (deciders agree)
//! - `left.rt`, `rest.rt`, `room.rt`: what is left in inboxes, whether that is rest, and whether rings allow it
//!
//! Not here: that threads make progress, that a run ends, or that it comes to rest: threads end when all have finished and nothing moved for a
//! while. The carriers are in `ulfm_carrier`, the board in `ulfm_board`.
#![tactic(auto)]

mod adopted;
mod at_work;
mod comparing;
mod finished;
mod foreign;
mod job;
mod left;
mod listing;
mod order;
mod owing;
mod polling;
mod proposing;
mod report;
mod rest;
mod room;
mod step_topic;
mod threads;
mod worker;

pub use job::run_job;
pub use report::Report;
pub use rest::at_rest;
pub use room::fits;
