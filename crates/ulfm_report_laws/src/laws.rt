//! The laws of reports, whichever engine produced them.
ghost use Rattle.std.specs.Prelude.{◌<◌, Bool, false, List};
ghost use Rattle.ulfm_base.specs.declared.context.Context.{Context};
ghost use Rattle.ulfm_base.specs.declared.decision.Decision.{Decision};
ghost use Rattle.ulfm_base.specs.Topic.{shrink_topic};
ghost use Rattle.ulfm_log.specs.State.{State};
ghost use Rattle.ulfm_job.specs.declared.step.Step.TheVariants.{Shrink};
ghost use Rattle.ulfm_answer.specs.declared.answer.StepAnswer.{StepAnswer};
ghost use Rattle.ulfm_script.specs.Calls.{AnswersDup, AnswersEntry, EntersSome};
ghost use Rattle.ulfm_script.specs.Deciding.{AnswersAdoption, Known};
ghost use Rattle.ulfm_job.specs.Job.{JobView};
ghost use Rattle.ulfm_answer.specs.Report.{Report};
ghost use Rattle.ulfm_report_laws.specs.FirstMade.{AnswersFirstDup, EntersFirstShrink, GivesFirstShrink, RefusesFirstShrink};
ghost use Rattle.ulfm_report_laws.specs.Flow.{Inboxes};
ghost use Rattle.ulfm_report_laws.specs.Lawful.{AreProduced, CausesComeFirst, LawfulReport, LawfulSoFar};
ghost use Rattle.ulfm_report_laws.specs.Pending.{PendsExactly, RevokedPairsNone, RevokedRefusesNone};
ghost use Rattle.ulfm_report_laws.specs.Order.{DecisionsAreProposals, ExclusionsComeLater, FailuresComeLater, LettersComeLater, RevocationsComeLater};

/// Reports that an engine produces are lawful: what is true of each rank, and the flow between ranks, give the rest of the
/// headline (MPI 4.0, 3.5; ULFM).
pub fn produced_is_lawful()
    ensures { (job : JobView) (inboxes : Inboxes) (knows : List Known) (reports : List Report) → AreProduced job inboxes knows reports → LawfulReport job inboxes knows reports }
{}

/// Lawful reports are lawful so far, as those of each world on the way are: in their one order causes come first, and waits pend exactly where a
/// member that is known to have failed isn't acknowledged.
pub fn lawful_so_far()
    ensures at_the_end { (job : JobView) (inboxes : Inboxes) (knows : List Known) (reports : List Report) → LawfulReport job inboxes knows reports → LawfulSoFar inboxes knows reports }
    ensures causes { (inboxes : Inboxes) (knows : List Known) (reports : List Report) (h : LawfulSoFar inboxes knows reports) → CausesComeFirst reports h.one_order.time }
    ensures pends { (inboxes : Inboxes) (knows : List Known) (reports : List Report) → LawfulSoFar inboxes knows reports → PendsExactly reports }
{}

/// In the one order of lawful reports each letter is taken after the entry that sent it (MPI 4.0, 3.5), each revocation comes after
/// some rank's own call, and each notice of a failure after the stop (ULFM). A decision is adopted after each rank that it excludes
/// stopped, and is the proposal that some rank made before (ULFM, shrink and agree).
pub fn causes_come_first()
    ensures letters { (job : JobView) (inboxes : Inboxes) (knows : List Known) (reports : List Report) (h : LawfulReport job inboxes knows reports) → LettersComeLater reports h.one_order.time }
    ensures revocations { (job : JobView) (inboxes : Inboxes) (knows : List Known) (reports : List Report) (h : LawfulReport job inboxes knows reports) → RevocationsComeLater reports h.one_order.time }
    ensures failures { (job : JobView) (inboxes : Inboxes) (knows : List Known) (reports : List Report) (h : LawfulReport job inboxes knows reports) → FailuresComeLater reports h.one_order.time }
    ensures exclusions { (job : JobView) (inboxes : Inboxes) (knows : List Known) (reports : List Report) (h : LawfulReport job inboxes knows reports) → ExclusionsComeLater reports h.one_order.time }
    ensures proposals { (job : JobView) (inboxes : Inboxes) (knows : List Known) (reports : List Report) (h : LawfulReport job inboxes knows reports) → DecisionsAreProposals reports h.one_order.time }
{}

/// After a communicator is revoked at a rank, by a call of its own or by a notice that it took, no receive there is paired: of each pair the
/// receive was posted and the message came before (ULFM, revocation).
pub fn revoked_pairs_none()
    ensures { (job : JobView) (inboxes : Inboxes) (knows : List Known) (reports : List Report) → LawfulReport job inboxes knows reports → RevokedPairsNone reports }
{}

/// No shrink and no agreement is refused because its communicator is revoked (ULFM, shrink and agree).
pub fn revoked_refuses_none()
    ensures { (job : JobView) (inboxes : Inboxes) (knows : List Known) (reports : List Report) → LawfulReport job inboxes knows reports → RevokedRefusesNone reports }
{}

/// A wait is told `pending` where its receive is from any source, has got nothing and didn't end, and a member that is known to have failed isn't
/// acknowledged; and it is left open where its receive has got nothing and didn't end, and one of these doesn't hold (ULFM, failure notification).
pub fn pends_exactly()
    ensures { (job : JobView) (inboxes : Inboxes) (knows : List Known) (reports : List Report) → LawfulReport job inboxes knows reports → PendsExactly reports }
{}

/// A duplicate of a communicator 0 to 62 that doesn't ask for a further one is the first, of one of 0 to 30, and has the number that jobs name; or
/// it is refused, as `already made` where there was one, else as `no context` past 30 (MPI 4.0, 7.4.2).
pub fn first_dups_as_ever()
    ensures { (r new : State) (comm : Context) (answer : StepAnswer) → comm.number < 63 → AnswersDup r comm false answer new → AnswersFirstDup r comm answer new }
{}

/// A shrink of a communicator 0 to 62 that doesn't ask for a further one is the first, of one of 0 to 30, or is refused, as `already made` where one
/// was entered, else as `no context` past 30. The communicator that a first shrink of one of 0 to 30 gives has the number that jobs name (ULFM, shrink).
pub fn first_shrinks_as_ever()
    ensures refused { (r new : State) (comm : Context) (answer : StepAnswer) → comm.number < 63 → AnswersEntry r (Shrink comm false) answer new → RefusesFirstShrink r comm answer new }
    ensures entered { (r new : State) (comm : Context) → comm.number < 63 → EntersSome r (Shrink comm false) new → EntersFirstShrink r comm new }
    ensures adopted { (r new : State) (comm : Context) (again : Bool) (held : Decision) (answer : StepAnswer) → comm.number < 31 → AnswersAdoption r (Shrink comm again) (shrink_topic comm 0) held answer new → GivesFirstShrink comm answer }
{}
