//! The main theorem about the reports of all ranks, `LawfulReport`, and the laws that lead to it. There is no other code.
//!
//! A report has the answers of a rank's steps, and the rank's log. `LawfulReport` (Lawful.antt) says what the reports of all ranks tell together,
//! whatever the schedule. It is what `replay` of `ulfm_replay` ensures of the inboxes of the world that it ends in (`settled`), `run_job` of
//! `ulfm_run` of the inboxes and deciders that it gives back (`lawful`), and `run_on` of `ulfm_program` of the traces of both commands (`replies`).
//! Its fields:
//!
//! - `flow`: a rank took from each sender, once and in order, a beginning of what that sender sent. After a stop the notice comes next for another
//!   rank, and nothing follows it (`Flows`, Flow.antt, by `owes`, State.antt of `ulfm_log` and `took`, Facts.antt of `ulfm_log`).
//! - `answers`: each answer is its step's, on the log's beginning up to its place, by the one lawful pairing there, without overtaking. After a
//!   revocation, own or taken, no receive of that context is paired. A waiting wildcard answers `pending` exactly while a known failure of its group
//!   is unacknowledged. A decision answers a shrink or an agreement that a call entered and left open. Out of memory is answered only where no other
//!   refusal stands, and never to a `wait`, an `mrecv`, a `cancel`, a `failed`, a `note` or a `stop`. Beside what the answers add, a log has what
//!   was taken, and one entry for each shrink or agreement that was entered (`AllAnswersFollow`, Answers.antt, by `AnswersFollow`, Answered.antt of
//!   `ulfm_script`; `IsPaired`, Paired.antt of `ulfm_rank`, and `IsAnswerBy`, Answer.antt of `ulfm_rank`).
//! - `scripts`: the answered steps of a rank are its script, up to and with the first stop that it played. A step is `unfinished` only where a poll
//!   left it open, and its polls are the job's `turns`, or the job lets it be given up before. It is `skipped` exactly where it has conditions, and
//!   by the answers before it in each alternative one doesn't hold (`AllFollowScripts`, Answers.antt, by `FollowsScript`, Played.antt of
//!   `ulfm_script`; `IsPatient`, `GivesUpRightly`, Script.antt of `ulfm_script`; `may_leave`, Job.antt of `ulfm_job`).
//! - `one_order`: all logs have one order: a time for each entry, rising in each log. Each item that a rank takes comes after the sender's entries
//!   that owe it: a message after its send, the notice of a stop, a revocation or an entrance after the sender stopped, revoked or entered. A
//!   decision is adopted after all that some rank did before it proposed it, by the members and failures that it knew there. That rank is one that
//!   adopts the decision, or one whose own step, on the same shrink or agreement, ran out of memory at that point (`HaveOneOrder`, Order.antt;
//!   `ProposesBy`, Proposed.antt).
//! - `gone`, `revoked`: a rank that is known to have failed has stopped. Each context that is revoked at a rank was revoked by some rank's own call
//!   (`GoneHaveStopped`, `RevokedByARank`, Causes.antt).
//! - `entered`: a rank enters each shrink, and each agreement, once (`EnterOnce`, Decisions.antt).
//! - `agreed`, `own`, `decisions`, `none_foreign`, `one_decision`: a decision that a rank adopted is the one known for it, about its own group, with
//!   itself in the new one. It lists each rank with the set and the flag of that rank's own entry, keeps survivors in order, and excludes stopped
//!   ranks alone. No step is refused since the decision isn't one for its rank to adopt (11). Decisions that are adopted on one shrink or agreement
//!   are equal (`AllAgree`, Answers.antt; `AdoptOwn`, `AreTrue`, `NoneIsForeign`, `AdoptOne`, Decisions.antt; `IsLawfulDecision`, Decision.antt of
//!   `ulfm_base`).
//! - `one_group`: ranks that made a communicator have one group for it (`HasOneGroup`, Decisions.antt).
//! - `agreements`: ranks that are told of one round of agreement are told one value: the AND of the flags of all members but those missing, who
//!   stopped (`AgreementsAreTrue`, Agreement.antt).
//! - `each`, `known_each`, `order`: there is a report of each rank, and they stand in rank order (`IsEach`, Reports.antt).
//! - `reader`: a message that is `done` or `found` was sent, and each message is given to one receive or probe at most. A cancelled receive is given
//!   none, one that is over as truncated got a message longer than its room, nothing overtakes, and no match is missed (`IsFaithful`, Reader.antt).
//! - `rest`: if nothing waits for any running rank, each knows each stopped one, all agree on revocations, and what they sent to one another has
//!   come where it isn't revoked. If all running members entered a shrink, or one agreement, each has a proposal (`IsAtRest`, Rest.antt;
//!   `KnowAtRest`, Lawful.antt).
//!
//! These laws stand in `laws.rt`:
//!
//! - [`produced_is_lawful`]: an engine, `replay` or `run_job`, has to show less, `AreProduced` (Lawful.antt): scripts, flow, one order of all logs,
//!   answers, none of which is 11, and decisions that agree and are true. This law gives the rest.
//! - [`lawful_so_far`]: lawful reports are lawful so far, `LawfulSoFar` (Lawful.antt), which leaves out scripts alone, and so holds of each world on
//!   the way too. By it causes come first (`CausesComeFirst`, Lawful.antt), and waits pend exactly where they have to.
//! - [`causes_come_first`]: in that one order each message that is taken was sent to this rank by an earlier entry (`letters`), each revocation
//!   comes after some rank's own call (`revocations`), each notice of a failure after the stop (`failures`), and each decision after the stops of
//!   those that it excludes (`exclusions`). It is the whole proposal of the rank that made it, about the group that its log had made (`proposals`).
//!   Their definitions are `LettersComeLater`, `RevocationsComeLater`, `FailuresComeLater`, `ExclusionsComeLater` and `DecisionsAreProposals`,
//!   Order.antt.
//! - [`revoked_pairs_none`]: after a communicator is revoked at a rank, by its own call or by a notice, no receive there is paired
//!   (`RevokedPairsNone`, Pending.antt).
//! - [`revoked_refuses_none`]: no shrink and no agreement is refused because its communicator is revoked (`RevokedRefusesNone`, Pending.antt).
//! - [`pends_exactly`]: of waits that got nothing, those are `pending` whose receive is from any source, where a member that is known to have failed
//!   isn't acknowledged. The others are left open (`PendsExactly`, Pending.antt).
//! - [`first_dups_as_ever`], [`first_shrinks_as_ever`]: without `again` a communicator of 0 to 62 has one duplicate and one shrink, and past 30 none,
//!   with the refusals and the numbers that jobs always had (`AnswersFirstDup`, `EntersFirstShrink`, FirstMade.antt).
//!
//! Not here: that an engine produces such reports. Each shows that by its own contract, and each promises something that the other can't: see
//! `ulfm_replay` and `ulfm_run`.
#![tactic(auto)]

mod laws;

pub use laws::{
    causes_come_first, lawful_so_far, pends_exactly, produced_is_lawful, revoked_pairs_none,
    revoked_refuses_none,
};
