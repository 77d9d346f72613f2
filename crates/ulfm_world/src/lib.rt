//! All ranks and their inboxes, one event at a time, in every schedule.
//!
//! A [`World`] changes by one [`Event`] at a time: a rank calls, an item is pushed, an item is taken. A list of events is a schedule.
//!
//!     let outcome = world.apply(Event::Push(from, to))?;
//!
//! Its promises hold for every list of events, and so for every schedule, whether all senders share the places of an inbox or each has its own. Read
//! World.antt first. Each law is a function of `laws.rt`:
//!
//! - [`World::apply`], [`run`]: an event does what its case says, or is refused for a stated cause and changes nothing (`Happens`, `IsRefused`,
//!   World.antt).
//! - [`refused_never_happens`]: a refused event doesn't happen, but where memory runs out (`RefusedNeverHappens`, Never.antt).
//! - [`rings_give_all`]: places for each sender, as rings have them, give all that places for all senders give (`IsRunOnRings`, Rings.antt).
//! - [`lawful_in_each_world`]: what ranks did so far is lawful, in each world: answers follow, agreements tell one value and one list, causes come
//!   first (`IsLawfulSoFar`, SoFar.antt; `LawfulSoFar`, Lawful.antt of `ulfm_report_laws`).
//! - [`flows`]: the log of a running rank has for another what that one took, then its inbox, then the outbox towards it. If a rank stopped, a
//!   beginning goes out, and its notice comes next (`Flows`, Flow.antt of `ulfm_report_laws`).
//! - [`each_done_was_sent`], [`each_found_was_sent`], [`letters_come_as_sent`], [`letters_are_given_once`], [`letters_keep_order`],
//!   [`receives_keep_order`], [`one_pairing_each`], [`no_match_is_missed`], [`each_over_is_true`]: what answers tell of messages is true of what was
//!   sent. [`reports_are_faithful`] has it as one record (`IsFaithful`, Reader.antt of `ulfm_report_laws`).
//! - [`one_order`]: all logs have one order, in which nothing is taken before it is owed, and no decision adopted before some rank proposed it
//!   (`HaveOneOrder`, Order.antt of `ulfm_report_laws`).
//! - [`gone_has_stopped`], [`revoked_by_a_rank`]: a rank that is known to have failed has stopped, and some rank revoked what is revoked
//!   (`GoneHaveStopped`, `RevokedByARank`, Causes.antt of `ulfm_report_laws`).
//! - [`revoked_pairs_none`], [`revoked_refuses_none`]: where a communicator is revoked no receive is paired any more, and no shrink and no agreement
//!   is refused for it (`RevokedPairsNone`, `RevokedRefusesNone`, Pending.antt of `ulfm_report_laws`).
//! - [`entered_once`], [`decided_safely`], [`settled_safely`], [`made_safely`]: a decision that is held lists ranks with their own entries, and
//!   excludes ranks alone that had stopped before it was made. It excludes each member whose failure a member of the new group knew as it entered
//!   (`IsSafe`, `DecidesSafely`, `SettlesSafely`, Safe.antt; `MadeSafely`, Made.antt).
//! - [`adopted_as_held`], [`one_decision`], [`one_group`]: a rank that adopts is in the new group, and adopts what is held. All that adopt on one
//!   shrink or agreement adopt one decision, and have one group (`AdoptsHeld`, Safe.antt; `AdoptOne`, `HasOneGroup`, Decisions.antt of `ulfm_report_laws`).
//! - [`adoption_starves_alone`], [`none_is_foreign`]: once a step is decided, out of memory alone refuses it. So no step is answered 11
//!   (`StarvesAlone`, Safe.antt; `NoneIsForeign`, Decisions.antt of `ulfm_report_laws`).
//! - [`known_at_rest`], [`agreed_at_rest`], [`proposed_at_rest`], [`all_come_at_rest`]: at rest running ranks know who stopped, agree on
//!   revocations, have their proposals, and have what they sent to one another (`IsAtRest`, Rest.antt).
//!
//! Files:
//!
//! - `world.rt`, `world/reading.rt`, `world/copying.rt`: a world; `inbox.rt`, `room.rt`: its inboxes, of two kinds
//! - `event.rt`, `steps.rt`: what may happen, and what that does; `schedule.rt`: a list of events
//! - `laws.rt`: what holds of each world that events lead to
//!
//! Not here: in which order things happen (`ulfm_replay`, `ulfm_outcomes`), and threads (`ulfm_run`).
#![tactic(auto)]

mod event;
mod inbox;
mod laws;
mod room;
mod schedule;
mod steps;
mod world;

pub use event::{Event, Outcome, Refused};
pub use inbox::Inbox;
pub use laws::{
    adopted_as_held, adoption_starves_alone, agreed_at_rest, all_come_at_rest, decided_safely,
    each_done_was_sent, each_found_was_sent, each_over_is_true, entered_once, flows,
    gone_has_stopped, known_at_rest, lawful_in_each_world, letters_are_given_once,
    letters_come_as_sent, letters_keep_order, made_safely, no_match_is_missed, none_is_foreign,
    one_decision, one_group, one_order, one_pairing_each, proposed_at_rest, receives_keep_order,
    refused_never_happens, reports_are_faithful, revoked_by_a_rank, revoked_pairs_none,
    revoked_refuses_none, rings_give_all, settled_safely,
};
pub use room::Room;
pub use schedule::run;
pub use world::World;
