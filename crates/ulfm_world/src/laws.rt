//! Laws over every schedule, without threads: what holds of each world that a list of events leads to, whatever room inboxes have.
ghost use Rattle.std.specs.Prelude.{ℕ, ◌≤◌, List};
ghost use Rattle.ulfm_report_laws.specs.Causes.{GoneHaveStopped, RevokedByARank};
ghost use Rattle.ulfm_report_laws.specs.Flow.{Flows};
ghost use Rattle.ulfm_report_laws.specs.Order.{HaveOneOrder};
ghost use Rattle.ulfm_report_laws.specs.Pending.{RevokedPairsNone, RevokedRefusesNone};
ghost use Rattle.ulfm_report_laws.specs.Reader.{AllHasCome, ComeAsSent, DoneIsGiven, DonesDiffer, FoundIsGiven, GivesOnce, HasOnePairing, IsFaithful, LettersKeepOrder, NoneIsMissed, OverIsTrue, ReceivesKeepOrder};
ghost use Rattle.ulfm_report_laws.specs.Rest.{KnowsStopped, AgreesOnRevoked};
ghost use Rattle.ulfm_report_laws.specs.Decisions.{AdoptOne, HasOneGroup, NoneIsForeign, ProposesEach};
ghost use Rattle.ulfm_world.specs.declared.event.Event.{Event};
ghost use Rattle.ulfm_world.specs.declared.room.Room.{Room};
ghost use Rattle.ulfm_world.specs.declared.room.Room.TheVariants.{PerInbox};
ghost use Rattle.ulfm_world.specs.Each.{InEachReplay, InEachWorld};
ghost use Rattle.ulfm_world.specs.Made.{MadeSafely};
ghost use Rattle.ulfm_world.specs.Flow.{IsWorld};
ghost use Rattle.ulfm_world.specs.Never.{RefusedNeverHappens};
ghost use Rattle.ulfm_world.specs.Rest.{IsAtRest};
ghost use Rattle.ulfm_world.specs.Rings.{HappensOnRings, IsRunOnRings};
ghost use Rattle.ulfm_world.specs.SoFar.{IsLawfulSoFar};
ghost use Rattle.ulfm_world.specs.Safe.{EntersOnce, DecidesSafely, SettlesSafely, AdoptsHeld, StarvesAlone};
ghost use Rattle.ulfm_world.specs.World.{World, start_world, Happens, Reaches, Run, reports_in};

/// Whatever events come, between each ordered pair of ranks nothing is made, doubled or overtaken, and nothing is lost but what a
/// stop leaves in an outbox (MPI 4.0, 3.5).
pub fn flows()
    ensures { (n : ℕ) (room : Room) (w : World) → n ≤ 8 → Reaches (start_world n room) w → Flows w.inboxes (reports_in w) }
{}

/// Whatever events come, at rest each running rank knows each rank that stopped (ULFM, failure notification).
pub fn known_at_rest()
    ensures { (n : ℕ) (room : Room) (w : World) → n ≤ 8 → Reaches (start_world n room) w → IsAtRest w → KnowsStopped (reports_in w) }
{}

/// Whatever events come, at rest all running ranks agree whether a context is revoked, also where the revoker stopped
/// half way (ULFM, revocation).
pub fn agreed_at_rest()
    ensures { (n : ℕ) (room : Room) (w : World) → n ≤ 8 → Reaches (start_world n room) w → IsAtRest w → AgreesOnRevoked (reports_in w) }
{}

/// Whatever events come, who is known to have failed has stopped: a failure is never suspected wrongly (ULFM, failure
/// notification).
pub fn gone_has_stopped()
    ensures worlds { InEachWorld GoneHaveStopped }
    ensures replays { InEachReplay GoneHaveStopped }
{}

/// Whatever events come, all logs have one order: a time for each entry of each rank, rising in each log, such that what is taken
/// is owed earlier (MPI 4.0, 3.5; ULFM).
pub fn one_order()
    ensures worlds { InEachWorld HaveOneOrder }
    ensures replays { InEachReplay HaveOneOrder }
{}

/// Whatever events come, each context that is revoked at a rank was revoked by some rank's own call (ULFM, revocation).
pub fn revoked_by_a_rank()
    ensures worlds { InEachWorld RevokedByARank }
    ensures replays { InEachReplay RevokedByARank }
{}

/// Whatever events come, on each communicator the letters that came to a rank from another one are a beginning of those
/// that the answered steps of that one sent to it (MPI 4.0, 3.5).
pub fn letters_come_as_sent()
    ensures worlds { InEachWorld ComeAsSent }
    ensures replays { InEachReplay ComeAsSent }
{}

/// Whatever events come, each wait, late cancel or receive of a found letter that is done tells of a letter that an answered
/// step sent to this rank, and that its receive or probe was given and admits, with room enough (MPI 4.0, 3.2.4 and 3.2.5).
pub fn each_done_was_sent()
    ensures worlds { InEachWorld DoneIsGiven }
    ensures replays { InEachReplay DoneIsGiven }
{}

/// Whatever events come, each probe that found a letter tells of one that an answered step sent to this rank, and that the
/// probe was given and admits (MPI 4.0, 3.8.2).
pub fn each_found_was_sent()
    ensures worlds { InEachWorld FoundIsGiven }
    ensures replays { InEachReplay FoundIsGiven }
{}

/// Whatever events come, a receive that is over as truncated was given a letter longer than its room, and one that is over
/// by a failure or a revocation, or was cancelled, was given none (MPI 4.0, 3.2.4 and 3.8.4; ULFM).
pub fn each_over_is_true()
    ensures worlds { InEachWorld OverIsTrue }
    ensures replays { InEachReplay OverIsTrue }
{}

/// Whatever events come, no letter that was sent is given to two receives or probes, none of these gets two letters, none
/// is answered twice as done or over, and no two such answers tell of one send (MPI 4.0, 3.5 and 3.7.3).
pub fn letters_are_given_once()
    ensures worlds { InEachWorld GivesOnce }
    ensures replays { InEachReplay GivesOnce }
    ensures dones_of_worlds { InEachWorld DonesDiffer }
    ensures dones_of_replays { InEachReplay DonesDiffer }
{}

/// Whatever events come, no letter overtakes another of the same sender that the receive also admits (MPI 4.0, 3.5).
pub fn letters_keep_order()
    ensures worlds { InEachWorld LettersKeepOrder }
    ensures replays { InEachReplay LettersKeepOrder }
{}

/// Whatever events come, no receive overtakes another that was posted earlier, also admits the letter, and hasn't ended
/// before the pair is made: by a failure, by a cancel, or at once as a probe (MPI 4.0, 3.5).
pub fn receives_keep_order()
    ensures worlds { InEachWorld ReceivesKeepOrder }
    ensures replays { InEachReplay ReceivesKeepOrder }
{}

/// Whatever events come, the history of each rank has one lawful pairing, and no other (MPI 4.0, 3.5).
pub fn one_pairing_each()
    ensures worlds { InEachWorld HasOnePairing }
    ensures replays { InEachReplay HasOnePairing }
{}

/// Whatever events come, no receive that is left waiting admits a letter that came and is left (MPI 4.0, 3.5).
pub fn no_match_is_missed()
    ensures worlds { InEachWorld NoneIsMissed }
    ensures replays { InEachReplay NoneIsMissed }
{}

/// Whatever events come, after a communicator is revoked at a rank, by a call of its own or by a notice that it took, no receive there is paired:
/// of each pair the receive was posted and the message came before (ULFM, revocation).
pub fn revoked_pairs_none()
    ensures worlds { InEachWorld RevokedPairsNone }
    ensures replays { InEachReplay RevokedPairsNone }
{}

/// Whatever events come, no shrink and no agreement is refused because its communicator is revoked (ULFM, shrink and agree).
pub fn revoked_refuses_none()
    ensures worlds { InEachWorld RevokedRefusesNone }
    ensures replays { InEachReplay RevokedRefusesNone }
{}

/// Whatever events come, at rest all has come that one running rank sent to another on a communicator that isn't revoked
/// there (MPI 4.0, 3.5).
pub fn all_come_at_rest()
    ensures worlds { (n : ℕ) (room : Room) (w : World) → n ≤ 8 → Reaches (start_world n room) w → IsAtRest w → AllHasCome (reports_in w) }
    ensures replays { InEachReplay AllHasCome }
{}

/// Whatever events come, all of this holds of what the reports tell of letters (MPI 4.0, 3.5).
pub fn reports_are_faithful()
    ensures worlds { InEachWorld IsFaithful }
    ensures replays { InEachReplay IsFaithful }
{}

/// Whatever events come, a rank enters the shrink of a communicator once, and each agreement on it, with the failures that it
/// knows then: two entrances into one topic are one (ULFM, shrink and agree).
pub fn entered_once()
    ensures { (n : ℕ) (room : Room) (w : World) → n ≤ 8 → Reaches (start_world n room) w → EntersOnce w }
{}

/// Whatever events come, each decision lists its ranks with what their own entrances brought, excludes ranks alone that have
/// stopped, and excludes each member whose failure a member of the new group knew at its entrance (ULFM, shrink and agree).
pub fn decided_safely()
    ensures { (n : ℕ) (room : Room) (w : World) → n ≤ 8 → Reaches (start_world n room) w → DecidesSafely w }
{}

/// Whatever events come, a decision was as safe before it was made: each excluded rank had stopped (ULFM, shrink and agree).
pub fn settled_safely()
    ensures { (n : ℕ) (room : Room) (w : World) → n ≤ 8 → Reaches (start_world n room) w → SettlesSafely w }
{}

/// Whatever events come, each decision that is held was made by one of them, and each rank that it excludes had stopped before
/// that event (ULFM, shrink and agree).
pub fn made_safely()
    ensures { (n : ℕ) (room : Room) (events : List Event) (w : World) → n ≤ 8 → Run (start_world n room) events w → MadeSafely (start_world n room) events w }
{}

/// Whatever events come, a rank that adopted a decision is in its new group, and it is the one that the board holds (ULFM,
/// shrink and agree).
pub fn adopted_as_held()
    ensures { (n : ℕ) (room : Room) (w : World) → n ≤ 8 → Reaches (start_world n room) w → AdoptsHeld w }
{}

/// Whatever events come, a shrink or an agreement that is decided is refused by out of memory alone (ULFM, shrink and agree).
pub fn adoption_starves_alone()
    ensures { (n : ℕ) (room : Room) (w : World) → n ≤ 8 → Reaches (start_world n room) w → StarvesAlone w }
{}

/// Whatever events come, no shrink and no agreement is refused since the decision isn't one for its rank to adopt (ULFM, shrink and agree).
pub fn none_is_foreign()
    ensures worlds { InEachWorld NoneIsForeign }
    ensures replays { InEachReplay NoneIsForeign }
{}

/// Whatever events come, decisions that ranks adopted on one topic are equal (ULFM, shrink and agree).
pub fn one_decision()
    ensures { (n : ℕ) (room : Room) (w : World) → n ≤ 8 → Reaches (start_world n room) w → AdoptOne (reports_in w) }
{}

/// Whatever events come, two ranks that made the communicator of a context have the same group for it (MPI 4.0, 7.4).
pub fn one_group()
    ensures { (n : ℕ) (room : Room) (w : World) → n ≤ 8 → Reaches (start_world n room) w → HasOneGroup (reports_in w) }
{}

/// Whatever events come, at rest, where all running members of a communicator entered its shrink, or one agreement on it, each
/// of them has a proposal there (ULFM, shrink and agree).
pub fn proposed_at_rest()
    ensures { (n : ℕ) (room : Room) (w : World) → n ≤ 8 → Reaches (start_world n room) w → IsAtRest w → ProposesEach (reports_in w) }
{}

/// Whatever events come, what the ranks did so far is lawful, with each open step told as one that is given up: answers follow, those that return from
/// an agreement are told one value and one list, and causes come first (`lawful_so_far` of `ulfm_report_laws`).
pub fn lawful_in_each_world()
    ensures { (n : ℕ) (room : Room) (w : World) → n ≤ 8 → Reaches (start_world n room) w → IsLawfulSoFar w }
{}

/// Rings give all that inboxes give. What happens where senders share the places of an inbox happens too where each has as many places
/// of its own. So each schedule leads to the same players there, with the same answers: who explores rings alone misses nothing.
pub fn rings_give_all()
    ensures each { (w : World) (event : Event) (new : World) → IsWorld w → Happens w event new → HappensOnRings w event new }
    ensures schedules { (n capacity : ℕ) (events : List Event) (w : World) → n ≤ 8 → Run (start_world n (PerInbox capacity)) events w → IsRunOnRings n capacity events w }
{}

/// What is refused doesn't happen, but where memory runs out.
pub fn refused_never_happens()
    ensures { RefusedNeverHappens }
{}
