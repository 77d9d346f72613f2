//! The schedule that a replay was.

use crate::course::{Course, End};
use crate::given_up::given_up;
use crate::moved::Move;
use crate::schedule::Schedule;
use std::alloc::Global;
use ulfm_base::OutOfMemory;
use ulfm_job::Job;
use ulfm_script::RankReport;

/// The schedule of these moves, by the reports of the job's ranks. What steps wait for that were given up stands among its waits.
///
/// # Errors
///
/// `OutOfMemory` where a growth was refused.
pub fn replayed(
    alloc: Global,
    job: &Job,
    moves: Vec<Move>,
    reports: &[RankReport],
) -> Result<Schedule, OutOfMemory> {
    let mut courses = Vec::new(alloc);
    for report in reports {
        courses.push(course_of(alloc, report)?)?;
    }
    Ok(Schedule {
        moves,
        courses,
        waits: Some(given_up(alloc, job, reports)?),
    })
}

/// What came of a rank.
fn course_of(alloc: Global, report: &RankReport) -> Result<Course, OutOfMemory> {
    let mut steps = Vec::new(alloc);
    steps.extend_with_clones(report.steps())?;
    Ok(Course {
        rank: report.me().number,
        steps,
        open: None,
        end: if report.stopped() {
            End::Stopped
        } else {
            End::Done
        },
    })
}
