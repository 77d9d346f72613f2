//! A job, from its ends and deciders to its report.
//!
//! Deciders may know decisions before a run: all that is promised holds with them too, since a decision that isn't true of what ranks report
//! gives `Untrue`. Room for the report is made before it is looked at, so where memory lacks then, that is the answer, also of an untrue one.
//! No room that is made before the ranks run rules this out: the kit's join of threads gives what they made in a list that grows after they ran.
ghost use Rattle.std.specs.Prelude.{◌≡◌, ◌≤◌, ◌↔◌, [], ℕ, length, map, vec_len, vec_capacity, IsTrue, Err, IfOk, IfErr, OnOk};
ghost use Rattle.std.specs.declared.alloc.Global.{Global as Heap};
ghost use Rattle.std.specs.declared.vec.Vec.{Vec as Listed};
ghost use Rattle.ulfm_base.specs.Lists.{InPlace, at};
ghost use Rattle.ulfm_board.specs.Known.{OneBoard};
ghost use Rattle.ulfm_carrier.specs.Family.{AllFresh, Keeps, IsGathered};
ghost use Rattle.ulfm_report_laws.specs.Answers.{AllAgree};
ghost use Rattle.ulfm_report_laws.specs.Lawful.{LawfulReport};
ghost use Rattle.ulfm_report_laws.specs.Order.{HaveOneOrder};
ghost use Rattle.ulfm_report_laws.specs.Reports.{IsEach};
ghost use Rattle.ulfm_report_laws.specs.Decisions.{AreTrue, NoneIsForeign};
ghost use Rattle.ulfm_run.specs.inside.Threads.{NameOneBoard, report_in, end_in, decider_in};
ghost use Rattle.ulfm_run.specs.Fault.{ShowUntrue, Fits};
ghost use Rattle.ulfm_run.specs.Flow.{EndsMatchLogs, contents};
ghost use Rattle.ulfm_answer.specs.Report.{Report as Told};

use crate::adopted::are_true;
use crate::comparing::compared;
use crate::foreign::none_is_foreign;
use crate::order::have_one_order;
use crate::report::Report;
use crate::threads::{Unplayed, play_all};
use crate::worker::Ran;
use std::alloc::Global;
use std::sync::Wait;
use std::thread::Threads;
use ulfm_board::Decider;
use ulfm_carrier::Ends;
use ulfm_job::Job;
use ulfm_script::{RankReport, RunFault};

/// Runs a job: each rank goes through its script in a thread of its own, by the end and the decider at the place of its
/// number. In a turn a rank pushes all that its outboxes hold and the inboxes have room for, takes one item, and polls its
/// step once; a step that the job's last poll for it left open is given up. After its last step it goes on for at most as many
/// turns without polls, until all ranks have finished and then 100 turns in a row moved nothing; where it stopped, it pushes
/// alone, until nothing is left to go out. Then the decisions that ranks adopted or refused to, and the order of all that they took and
/// sent, are held against what the ranks report. What is left in the inboxes is gathered, and the deciders are compared: no two know two
/// decisions on one topic. No clause tells of threads, nor of the order in a turn, nor how many turns there are (docs/LIMITS.md).
///
/// # Errors
///
/// `BadEnds` where the number of ends or of deciders isn't that of the ranks, or an end stands at another place than its
/// number; no thread is started then. `NoThread` where a thread couldn't be started, `OutOfMemory` where a growth outside the
/// turns of the ranks was refused, `Untrue` where a decision that a rank adopted lists a set or a flag that isn't that of its rank's
/// own entry, or excludes a rank that didn't stop, where a step is refused since the decision isn't one for its rank to adopt, or where
/// the logs have no one order, as when two ranks each took a letter before they sent theirs, or a rank took notice of a revocation
/// that no rank's own call made; the threads that were started have run to their end then.
pub fn run_job<E, D, R>(
    rt: &R,
    alloc: Global,
    job: &Job,
    ends: Vec<E>,
    deciders: Vec<D>,
) -> Result<Report<E, D>, RunFault>
where
    E: Ends + Send,
    D: Decider + Send,
    R: Threads + Wait + Sync,
    requires one_call { InPlace E.place ends.items → E.one_call (map E.name ends.items) }
    requires fresh { AllFresh E.count E.pushed E.taken E.ready ends.items }
    requires one_board { OneBoard D.board deciders.items }
    ensures fits { OnOk result (Fits E.place job.now ends.items deciders.items) }
    ensures bad_ends { (Fits E.place job.now ends.items deciders.items → ⊥) → result ≡ Err RunFault.BadEnds }
    ensures misfits { IfErr result (λ fault. fault ≡ RunFault.BadEnds → Fits E.place job.now ends.items deciders.items → ⊥) }
    ensures untrue { IfErr result (λ fault. (reports : Listed Told Heap) → fault ≡ RunFault.Untrue reports → ShowUntrue job.now reports.items) }
    ensures sizes { IfOk result (λ report. IsEach job.now report.residue.inboxes.items × IsEach job.now report.ends.items × IsEach job.now report.deciders.items) }
    ensures flow { IfOk result (λ report. EndsMatchLogs E.pushed E.taken report.ranks.items report.ends.items report.residue.inboxes.items) }
    ensures residue { IfOk result (λ report. IsGathered E.pushed E.taken report.ends.items report.residue.inboxes.items) }
    ensures same_ends { IfOk result (λ report. map E.name report.ends.items ≡ map E.name ends.items) }
    ensures same_boards { IfOk result (λ report. map D.board report.deciders.items ≡ map D.board deciders.items) }
    ensures lawful { IfOk result (λ report. LawfulReport job.now (contents report.residue.inboxes.items) (map D.known report.deciders.items) report.ranks.items) }
{
    if !fits(job, &ends, &deciders) {
        return Err(RunFault::BadEnds);
    }
    let ran = match play_all(rt, alloc, job, ends, deciders) {
        Ok(ran) => ran,
        Err(Unplayed::NoThread) => return Err(RunFault::NoThread),
        Err(Unplayed::OutOfMemory) => return Err(RunFault::OutOfMemory),
    };
    let report = report_of(rt, alloc, ran)?;
    Ok(report)
}

/// What the threads gave back, as a report: the ends are gathered.
fn report_of<E: Ends, D: Decider, R: Wait>(
    rt: &R,
    alloc: Global,
    ran: Vec<Ran<E, D>>,
) -> Result<Report<E, D>, RunFault>
    requires few { length ran.items ≤ 8 }
    requires family { E.one_call (map E.name (map end_in ran.items)) }
    requires ready { (k : ℕ) (e : E) → at (map end_in ran.items) k e → E.ready e }
    requires one_board { NameOneBoard (map D.board (map decider_in ran.items)) }
    ensures ranks { IfOk result (λ report. report.ranks.items ≡ map report_in ran.items) }
    ensures same { IfOk result (λ report. Keeps E.name E.pushed E.taken (map end_in ran.items) report.ends.items) }
    ensures residue { IfOk result (λ report. IsGathered E.pushed E.taken (map end_in ran.items) report.residue.inboxes.items) }
    ensures boards { IfOk result (λ report. map D.board report.deciders.items ≡ map D.board (map decider_in ran.items)) }
    ensures known { IfOk result (λ report. map D.known report.deciders.items ≡ map D.known (map decider_in ran.items)) }
    ensures agree { IfOk result (λ report. AllAgree (map D.known report.deciders.items)) }
    ensures decisions { IfOk result (λ report. AreTrue report.ranks.items) }
    ensures one_order { IfOk result (λ report. HaveOneOrder report.ranks.items) }
    ensures none_foreign { IfOk result (λ report. NoneIsForeign report.ranks.items) }
    ensures untrue { IfErr result (λ fault. (reports : Listed Told Heap) → fault ≡ RunFault.Untrue reports → (reports.items ≡ map report_in ran.items) × (AreTrue reports.items × HaveOneOrder reports.items × NoneIsForeign reports.items → ⊥)) }
    ensures fits { IfErr result (λ fault. fault ≡ RunFault.BadEnds → ⊥) }
{
    let count = ran.len();
    let reports = room_for(alloc, count)?;
    let ends = room_for(alloc, count)?;
    let deciders = room_for(alloc, count)?;
    let (ranks, ends, deciders) = parted(ran, reports, ends, deciders);
    if !are_borne_out(&ranks) {
        return Err(RunFault::Untrue(ranks));
    }
    let (residue, ends) = E::gather(rt, ends);
    let deciders = compared(deciders);
    Ok(Report {
        ranks,
        residue,
        ends,
        deciders,
    })
}

/// Whether the decisions that ranks adopted are true of what the ranks report, all logs have one order, and no step is refused since
/// the decision isn't one for its rank to adopt. It never answers out of memory.
fn are_borne_out(reports: &[RankReport]) -> bool
    requires { length reports.now ≤ 8 }
    ensures { IsTrue result ↔ (AreTrue reports.now × HaveOneOrder reports.now × NoneIsForeign reports.now) }
{
    are_true(reports) && have_one_order(reports) && none_is_foreign(reports)
}

/// Whether there is an end and a decider for each rank, and each end stands at the place of its number.
fn fits<E: Ends, D>(job: &Job, ends: &Vec<E>, deciders: &Vec<D>) -> bool
    ensures { IsTrue result ↔ Fits E.place job.now ends.now.items deciders.now.items }
{
    let ranks = job.ranks() as usize;
    if ends.len() != ranks || deciders.len() != ranks {
        return false;
    }
    for place in 0..ends.len() {
        if ends[place].me().number as usize != place {
            return false;
        }
    }
    true
}

/// An empty list with room for so many.
fn room_for<T: Drop>(alloc: Global, count: usize) -> Result<Vec<T>, RunFault>
    ensures room { IfOk result (λ list. (list.items ≡ []) × (count ≤ vec_capacity list)) }
    ensures starves { IfErr result (λ fault. fault ≡ RunFault.OutOfMemory) }
{
    match Vec::with_capacity(alloc, count) {
        Ok(list) => Ok(list),
        Err(_) => Err(RunFault::OutOfMemory),
    }
}

/// The reports, the ends and the deciders of what the threads gave back.
fn parted<E: Drop, D: Drop>(
    ran: Vec<Ran<E, D>>,
    reports: Vec<RankReport>,
    ends: Vec<E>,
    deciders: Vec<D>,
) -> (Vec<RankReport>, Vec<E>, Vec<D>)
    requires room { (vec_len ran ≤ vec_capacity reports) × (vec_len ran ≤ vec_capacity ends) × (vec_len ran ≤ vec_capacity deciders) }
    requires empty { (reports.items ≡ []) × (ends.items ≡ []) × (deciders.items ≡ []) }
    ensures reports { result.0.items ≡ map report_in ran.items }
    ensures ends { result.1.items ≡ map end_in ran.items }
    ensures deciders { result.2.items ≡ map decider_in ran.items }
{
    let mut reports = reports;
    let mut ends = ends;
    let mut deciders = deciders;
    for one in ran {
        let Ran {
            report,
            end,
            decider,
        } = one;
        reports.push_reserved(report);
        ends.push_reserved(end);
        deciders.push_reserved(decider);
    }
    (reports, ends, deciders)
}
