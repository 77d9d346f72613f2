//! Which rows of `never` are looked at.
ghost use Rattle.std.specs.Prelude.{◌≡◌, not};
ghost use Rattle.std.specs.List.{list_all};
ghost use Rattle.ulfm_job.specs.Job.{may_leave};
ghost use Rattle.ulfm_command_line.specs.Asking.{is_looked_at};

use ulfm_job::{Clause, Job};

/// Whether a row of `never` is looked at: it has answers, and none of them is that of a step inside which its rank may die. One that doesn't
/// hold at a place has none there.
pub fn is_looked_at(job: &Job, row: &[Clause]) -> bool
    ensures { result ≡ is_looked_at job.now row.now }
{
    !row.is_empty() && are_kept(job, row)
}

/// Whether none of these answers is that of such a step.
fn are_kept(job: &Job, row: &[Clause]) -> bool
    ensures { result ≡ list_all (λ c. not (may_leave job.now c.rank c.step)) row.now }
{
    row.iter()
        .all(|clause| !job.may_leave(clause.rank, clause.step as usize))
}
