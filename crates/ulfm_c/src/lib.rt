//! The calls for C: an export for each call of a process, which is one rank of a running program. `c/include/ulfm.h` says what each does;
//! `c/engine/ulfm.c` looks for null pointers before it calls one.
//!
//! A [`Process`] is a [`Rank`](ulfm_rank::Rank) that keeps no log, with its end of a carrier and its seat at a board. [`world`] makes those of a
//! world. Each may go to a thread of its own:
//!
//!     let request = process.irecv(comm, None, None, 64)?;
//!     while let TestAnswer::NotYet = process.test(request)? { process.turn()?; }
//!
//! No call waits. `turn` moves what came in and what goes out. A caller that chooses what moves when calls its halves, `push` and `take_from`, and
//! asks before what comes: `next_from`, `would`. Contracts see a process as its rank's state, its end, and what its seat knows (`ProcessView`), and
//! whether its rank has room for one item or one call (`ReadyView`, View.antt).
//!
//! Promises of a [`Process`]:
//!
//! - `isend`, `irecv`, `test`, `cancel`, `iprobe`, `improbe`, `mrecv`, `dup_with`, `revoke`, `ack_failed`, `enter_shrink_with`, `enter_agree`, `stop` and the
//!   others: each does what its rank's call does, and is refused for its causes, as `ulfm_rank` promises; else nothing of the process changes. An
//!   answer of a request or a message tells of one that is there (`with_rank`, View.antt).
//! - the invariant of [`Process`], `me` (`at_end`): those items left the outboxes of a rank that its end pushed, and its log took of each rank what
//!   its end took of that one, whatever is called (`IsAtEnd`, View.antt).
//! - `turn`: it takes at most one item, of the first rank in turn of which one is seen, and then lets go out what it knows places for. No known
//!   place is lost but to what went out. If nothing moved, nothing is seen in any ring, all that the rank had pushed to itself was taken, or the
//!   rank has stopped; and nothing waits that its end knows a place for. Out of memory is answered of a running rank without room alone, and after a
//!   turn in which nothing moved the next one has room (`IsTurn`, `Takes`, `Pushes`, `LeavesRoom`, Turning.antt).
//! - `push`, `take_from`: each half of it is a call too, the push of a turn, and a take of one rank that the caller names, of the first item that is
//!   seen in the ring from it. Such a take leaves where the next turn begins, and what is seen in the other rings (`Pushes`, `TakesFrom`,
//!   `IsTakeRefusal`, Turning.antt).
//! - `next_from`: it tells of the first item in the ring from a rank, all but the source, the bytes of a body, and what the sender brings into a
//!   shrink or an agreement. The item stays, and is the next that is taken of that rank. If none is told, none is seen, and all that the rank had
//!   pushed to itself was taken (`LooksAt`, Ahead.antt; `heads_from`, Lanes.antt of `ulfm_carrier`; `head_of`, Head.antt of `ulfm_carrier`).
//! - `would`: the answer of a test of a request, over, pending or waiting, is given without a change (`IsOutlook`, Ahead.antt).
//! - `poll_shrink`, `poll_agree`, `same`: a poll waits where the rank has no proposal. Otherwise it adopts one decision: what its seat knew, if it
//!   knew one. By some log it is what a rank proposes. Two processes of one board know no two on one topic (`Adopts`, `IsPollRefusal`,
//!   Adopting.antt; `WasProposed`, Proposals.antt of `ulfm_board`; `BothAgree`, Known.antt of `ulfm_board`).
//! - [`world`]: the processes of a world start, by their numbers, with rings that join them, each with `capacity` places known to be free, and seats
//!   of one board. Each looks first at rank 0 (`IsWorld`, Making.antt).
//!
//! C holds a process by a [`Handle`](handle::Handle). Promises of each export, as `ulfm_c_isend`:
//!
//! - A slot without a process is null. Each export answers it with 16, and writes nothing; `ulfm_c_end` too (`none`, `code`). Otherwise it has one
//!   before and after (`slot_owns`, Slot.antt; `Call`, Calls.antt). `Slot` is `Send`: it may go to another thread.
//! - An export does what the process' call of its name does, and nothing else; `ulfm_c_dup_again` and `ulfm_c_enter_shrink_again` do what `dup_with`
//!   and `enter_shrink_with` do with `again`, those without it the same without. Its numbers name the communicator, the position, the tag and the
//!   room; past their ranges it is refused (`CommCall`, `TagCall`, `source_named`, Calls.antt). Each has a definition, as `SendCall`, `ReceiveCall`,
//!   `TestCall`, `CancelCall`, Letters.antt. Others are in Probes.antt, Communicators.antt, Recovery.antt, Deciding.antt, Progress.antt and
//!   Steps.antt.
//! - With 0 the call passed its checks. Another code tells which refusal it was, with the cause that the process' call has for it: then nothing
//!   changed but what the seat of a poll knows, and nothing was written. 17 and 18 say that a receive, a probe, a shrink or an agreement goes on
//!   (`number_of`, `Refused`, `Checked`, Calls.antt; `Finds`, Probes.antt; `Polls`, Deciding.antt).
//! - How a message, a group, an end of a receive or the first item of a ring is written for C; if a body is longer than the room, its first bytes
//!   (`Tells`, `TellsCancel`, `status_of`, `ended`, `listed`, `written`, Told.antt; `next_item`, NextItem.antt).
//! - `ulfm_c_world`: with 0 each slot has the process of its place in a new world. With 13 no world has this size, with 12 a growth was refused:
//!   then no slot changed (`WorldCall`, Worlds.antt).
//! - `ulfm_c_may_matter`: whether the order of two events may matter, by what C says of each. With 0 they commute (`MatterCall`, Outlines.antt).
//!
//! Files:
//!
//! - `process.rt`, with `process/` for its calls; `making.rt`: [`world`]; `outlook.rt`, `next_item.rt`: what a test would answer, what comes next
//! - exports: `letters.rt`, `probes.rt`, `communicators.rt`, `recovery.rt`, `deciding.rt`, `progress.rt`, `steps.rt`, `outlines.rt`, `worlds.rt`;
//!   `c_status.rt`, `words.rt`: what C is told, and its types
//! - `handle.rt`, `slot.rt`, `loose.rt`: how C holds a process, and `with`, of which exports are made
//!
//! Not here: that the log by which a decision was proposed is that of a rank of this world; that memory comes back when a slot ends; and the C
//! above this (docs/LIMITS.md).
#![tactic(auto)]

mod c_status;
mod communicators;
mod deciding;
mod handle;
mod letters;
mod loose;
mod making;
mod next_item;
mod outlines;
mod outlook;
mod probes;
mod process;
mod progress;
mod recovery;
mod slot;
mod steps;
mod words;
mod worlds;

pub use making::world;
pub use outlook::Outlook;
pub use process::Process;
