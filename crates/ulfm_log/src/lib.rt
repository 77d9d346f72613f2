//! The notes of a rank, and all that follows from them except for receives: its communicators, its shrinks and agreements, and what it owes to each
//! other rank.
//!
//! A [`Log`] has an [`Entry`] for all that a rank did and took. Beside it stand [`Communicators`], the [`Row`]s that tell of the last shrinks and
//! agreements, and the [`Outboxes`]; `ulfm_rank` has one of each for a rank, and keeps them in step:
//!
//!     announce(&mut outboxes, me, known, members, entrance);
//!     log.push_reserved(Entry::Entered(entrance));
//!
//! Each contract names the whole of what a call changes, by definitions over the log. Read Log.antt first, then:
//!
//! - Facts.antt: which ranks a log knows to have failed, in the order of their notices, and which failures were acknowledged (`known_in`,
//!   `ack_answer`).
//! - Communicators.antt: which communicators were made, with which groups.
//! - Owed.antt: what a rank owes to another, in order, each item once (`owed`). State.antt: what waits in its outboxes, and what of a stop is owed
//!   (`outbox`, `owes`).
//! - Proposal.antt: when a rank has a proposal, and which one (`IsProposal`); which decisions are its own affair to adopt (`IsOwnAffair`).
//!
//! Files:
//!
//! - `log.rt`, `entry.rt`, `noted_answer.rt`, `history.rt`: the log, kept or not
//! - `facts.rt`, `communicators.rt`: what it tells of stops, revocations and communicators
//! - `entrances.rt`, `decisive.rt`, `row.rt`, `rounds.rt`: who entered what; `proposal.rt`, `adopting.rt`, `held_decision.rt`: what is proposed and adopted
//! - `outbox.rt`, `outboxes.rt`, `forwarding.rt`, `word.rt`: what goes out, and what is passed on; `message.rt`: how a found letter is named
//!
//! Not here: receives, and so no answer of a test. The calls of a rank, with what they promise of its log, are in `ulfm_rank`.
#![tactic(auto)]

mod adopting;
mod communicators;
mod decisive;
mod entrances;
mod entry;
mod facts;
mod forwarding;
mod held_decision;
mod history;
mod log;
mod message;
mod noted_answer;
mod outbox;
mod outboxes;
mod proposal;
mod rounds;
mod row;
mod word;

pub use adopting::is_foreign;
pub use communicators::Communicators;
pub use decisive::{forget, hear, make_place, tell};
pub use entrances::{has_adopted, is_adopted, listed};
pub use entry::{Cancel, Comm, Entry, Probed, Status, TestAnswer};
pub use facts::{is_gone_item, is_revoked, revokes, tells_gone};
pub use forwarding::{announce, forward, pass_on};
pub use held_decision::{Block, HeldDecision};
pub use log::Log;
pub use message::MessageId;
pub use noted_answer::NotedAnswer;
pub use outboxes::Outboxes;
pub use proposal::proposed;
pub use rounds::Rounds;
pub use row::Row;
pub use word::Word;
