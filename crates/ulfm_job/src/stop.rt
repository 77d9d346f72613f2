//! One stop.
ghost use Rattle.std.specs.Prelude.{Some, ◌≡◌, ◌≢◌, ◌+◌, ◌↔◌, Err, IfErr, IfOk, IsTrue};
ghost use Rattle.ulfm_job.specs.Job.{step_count};
ghost use Rattle.ulfm_job.specs.Place.{IsStopOf, before, stopped};
ghost use Rattle.ulfm_job.specs.Text.{star_if, stop_text};

use crate::{Job, JobFault};
use std::fmt;

/// A rank stops before one of its steps, as the file numbers them, or after its last one; or it dies inside one that stands open.
#[derive(Clone, Copy, Debug, PartialEq, Eq)]
pub struct Stop {
    /// The rank.
    pub rank: u8,
    /// The number of the step before which it stops, or inside which it dies.
    pub at: u16,
    /// Whether it dies inside that step: it may give it up while it stands open, and stops next.
    pub dies: bool,
}

impl Stop {
    /// Whether a job has this rank, and the rank such a step, or so many steps before the stop.
    pub(crate) fn is_inside(self, job: &Job) -> bool
        ensures { IsTrue result ↔ IsStopOf job.now self }
    {
        self.rank < job.ranks()
            && self.before() <= job.script_len(self.rank)
            && (!self.dies || job.is_joint(self.rank, self.at as usize))
    }

    /// How many steps of its rank come before the stop: a rank that dies inside a step stops behind it.
    pub fn before(self) -> usize
        ensures { result ≡ before self }
    {
        if self.dies {
            self.at as usize + 1
        } else {
            self.at as usize
        }
    }

    /// The job with this stop, which has a step more.
    ///
    /// # Errors
    ///
    /// `TooLarge` where the job has 256 steps, else `OutOfMemory` where a growth was refused.
    pub fn job(self, job: &Job) -> Result<Job, JobFault>
        requires { IsStopOf job.now self }
        ensures exact { IfOk result (λ made. made ≡ stopped self job.now) }
        ensures counted { IfOk result (λ made. step_count made.scripts ≡ step_count job.now.scripts + 1) }
        ensures full { step_count job.now.scripts ≡ 256 → result ≡ Err JobFault.TooLarge }
        ensures memory { step_count job.now.scripts ≢ 256 → IfErr result (λ fault. fault ≡ JobFault.OutOfMemory) }
    {
        // It tells the limits that each job keeps.
        let _ = job.script_len(self.rank);
        let before = self.before();
        let made = job.with_stop(self.rank, before as u16)?;
        if self.dies {
            return Ok(made.with_left(self.rank, self.at)?);
        }
        Ok(made)
    }
}

/// A star, or nothing.
fn star_if(dies: bool) -> &'static str
    ensures { result.now ≡ star_if dies }
{
    if dies { "*" } else { "" }
}

/// The rank, a dot, and the number of the step, with a star where it dies inside it: `0.2`, `1.5*`.
impl fmt::Display for Stop {
    ghost output = { λ stop. Some (stop_text stop) };

    fn fmt<W: fmt::Write>(&self, f: &mut fmt::Formatter<W>) -> fmt::Result {
        let star = star_if(self.dies);
        write!(f, "{}.{}{star}", self.rank, self.at)
    }
}
