//! One rank: its calls, each by the log that it writes.
//!
//! A [`Rank`] has MPI's calls (`isend`, `irecv`, `test`, `improbe`, `mrecv`, `cancel`, `dup`) and ULFM's (`revoke`, `get_failed`, `ack_failed`,
//! `enter_shrink`, `enter_agree`). It moves nothing by itself: its caller takes items out of its outboxes and hands it those that came.
//!
//!     let request = rank.irecv(comm, Some(1), None, 64)?;
//!     while let Some(item) = sender.take_out(0) { rank.prepare()?; rank.take(sender.me(), item); }
//!     let answer = rank.test(request)?;
//!
//! Every answer follows from the rank's log, which `ulfm_log` has. Read Answer.antt first, then Checks.antt (which refusals come, in which order).
//! Promises:
//!
//! - [`Rank`], `log`, and `state` of each call: the log is what the rank did and took. Each accepted call that changes something, and each item
//!   taken, adds its entry, and nothing else does. The matcher's history is read off it (`history_of`, History.antt).
//! - `start`, `start_with`, `log`: a rank keeps its log, so that it can be shown, or doesn't. No call changes that, and all that holds of the calls
//!   of one holds of the other (`State`, State.antt of `ulfm_log`: `keeps`).
//! - `test` (`answer`, `pairing`): the answer is the one that every lawful pairing of that history gives, and one exists (`IsTestAnswer`,
//!   Answer.antt).
//! - `improbe`, `mrecv`, `iprobe` (`answer`): a probe finds the message that a receive posted then would get. It is received once, whole or as too
//!   long for the room, and a revocation doesn't drop it. A look finds the same and leaves it (`IsProbeAnswer`, `IsMessageAnswer`, `IsLookAnswer`,
//!   Messages.antt).
//! - `cancel` (`answer`): a receive is cancelled if a test would answer that it waits or pends; otherwise the answer is the test's (MPI 4.0, 3.8.4;
//!   `IsCancelAnswer`, Cancel.antt).
//! - `get_failed`, `ack_failed` (`failed`, `total`), `knows_failed`: failures are known in the order of their notices. Acknowledged totals are each
//!   communicator's own, and never fall (`known_in`, `ack_answer`, `is_gone`, Facts.antt of `ulfm_log`).
//! - `take_out`, `put_back`, `isend`, `stop`: for each rank the items go out that the log has for it, in order, each once. After a stop the notice
//!   goes out in place of the rest (`owed`, Owed.antt of `ulfm_log`; `outbox`, State.antt of `ulfm_log`).
//! - `proposal`, `verdict`, `adopt`, `adopt_verdict`, and the law [`own_affairs_alone`]: a proposal is there exactly where each member is listed or
//!   known to have failed, here or by a listed member. A decision is adopted only if it is this rank's own affair (`IsProposal`, `IsOwnAffair`,
//!   Proposal.antt of `ulfm_log`).
//! - `dup`, `enter_shrink`, `dup_with`, `enter_shrink_with`: a rank counts its duplicates and its shrinks of each communicator from 0, and each has
//!   the context of its number (`nth_dup`, `nth_shrink`, Context.antt of `ulfm_base`). The first two make none but the first of contexts 0 to 62
//!   (`is_single`, Checks.antt).
//! - each call (`accepted`, `refused`, `unchanged`, `room_lacked`): refusals come in a stated order, each in its stated case alone, and leave the
//!   rank as it was, but for its room. Out of memory is last. A rank that was prepared never answers so, but for `isend` of more than 30 bytes.
//!
//! These rest on the invariant of [`Rank`]: the tables are what the log says (`specs/inside/Rank.antt`).
//!
//! Files:
//!
//! - `rank.rt` and a file of `rank/` for each group of calls: `sending`, `receiving`, `probing`, `looking`, `cancelling`, `recovery`, `shrinking`,
//!   `agreeing`, with `deciding` for what the last two share; `taking`, `outgoing`: items in and out; `copying`
//! - `request.rt`, `requests.rt`: what isn't released, in step with the matcher; `answer.rt`: what a test answers
//! - `failures.rt`, `sources.rt`: what is known of sources; `law.rt`: which decisions are a rank's own affair
//!
//! Not here: other ranks, and when a call is made.
#![tactic(auto)]

mod answer;
mod failures;
mod law;
mod rank;
mod request;
mod requests;
mod sources;

pub use law::own_affairs_alone;
pub use rank::Rank;
pub use request::{Fate, Request};
