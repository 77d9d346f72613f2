//! Where ranks stop.
ghost use Rattle.std.specs.Prelude.{◌≡◌, ◌≢◌, ◌≤◌, ◌<◌, ◌+◌, ◌↔◌, Err, IfErr, IfOk, IfSome, IsTrue, Some, length};
ghost use Rattle.ulfm_job.specs.Job.{step_count};
ghost use Rattle.ulfm_job.specs.Place.{IsPlaceOf, IsStopOf, job_at, stopped, stops_of};
ghost use Rattle.ulfm_job.specs.Text.{place_of_text, place_text};

use crate::copied::copied_job;
use crate::place_text::place_of_text;
use crate::stop::Stop;
use crate::{Job, JobFault, MOST_STEPS};
use std::alloc::Global;
use std::fmt;

/// Where ranks stop, besides the stops that their job has.
#[derive(Clone, Copy, Debug, PartialEq, Eq)]
pub enum Place {
    /// None does.
    Nowhere,
    /// One rank stops.
    One(Stop),
    /// Two ranks stop, the lower one first.
    Two(Stop, Stop),
}

impl Place {
    /// The place of a text, as `-`, `0.2`, `1.5*` or `0.2+1.3`: of those alone that places are written in.
    pub fn parse(text: &str) -> Option<Place>
        ensures exact { result ≡ place_of_text text.now }
        ensures written { IfSome result (λ place. place_text place ≡ text.now) }
    {
        place_of_text(text)
    }

    /// Whether the job has these ranks, and their scripts these steps or an end there, and the ranks come in their order. Who dies inside a
    /// step does so inside a shrink or an agreement.
    pub fn is_inside(&self, job: &Job) -> bool
        ensures { IsTrue result ↔ IsPlaceOf job.now self.now }
    {
        match self {
            Place::Nowhere => true,
            Place::One(stop) => stop.is_inside(job),
            Place::Two(first, second) => {
                first.rank < second.rank && first.is_inside(job) && second.is_inside(job)
            }
        }
    }

    /// How many ranks stop, 0 to 2.
    pub fn len(&self) -> usize
        ensures exact { result ≡ length (stops_of self.now) }
        ensures few { result ≤ 2 }
    {
        match self {
            Place::Nowhere => 0,
            Place::One(_) => 1,
            Place::Two(..) => 2,
        }
    }

    /// The job with these stops. The job itself stays as it is.
    ///
    /// # Errors
    ///
    /// `TooLarge` where it would have more than 256 steps, else `OutOfMemory` where a growth was refused.
    pub fn job(&self, alloc: Global, job: &Job) -> Result<Job, JobFault>
        requires { IsPlaceOf job.now self.now }
        ensures exact { IfOk result (λ made. made ≡ job_at self.now job.now) }
        ensures full { 256 < step_count job.now.scripts + length (stops_of self.now) → result ≡ Err JobFault.TooLarge }
        ensures memory { step_count job.now.scripts + length (stops_of self.now) ≤ 256 → IfErr result (λ fault. fault ≡ JobFault.OutOfMemory) }
    {
        if job.len() + self.len() > MOST_STEPS {
            return Err(JobFault::TooLarge);
        }
        match self {
            Place::Nowhere => Ok(copied_job(alloc, job)?),
            Place::One(stop) => stop.job(job),
            Place::Two(first, second) => with_two(job, *first, *second),
        }
    }
}

/// The job with a stop of each of two ranks.
#[tactic(auto, using(crate::proofs::Beside::stop_still))]
fn with_two(job: &Job, first: Stop, second: Stop) -> Result<Job, JobFault>
    requires first { IsStopOf job.now first }
    requires second { IsStopOf job.now second }
    requires differ { first.rank ≢ second.rank }
    requires room { step_count job.now.scripts + 2 ≤ 256 }
    ensures exact { IfOk result (λ made. made ≡ stopped second (stopped first job.now)) }
    ensures memory { IfErr result (λ fault. fault ≡ JobFault.OutOfMemory) }
{
    let made = first.job(job)?;
    second.job(&made)
}

/// `-`, or the stops: `0.2`, `1.5*`, or `0.2+1.3`.
impl fmt::Display for Place {
    ghost output = { λ place. Some (place_text place) };

    fn fmt<W: fmt::Write>(&self, f: &mut fmt::Formatter<W>) -> fmt::Result {
        match self {
            Place::Nowhere => f.write_str("-"),
            Place::One(stop) => {
                let stop = *stop;
                write!(f, "{stop}")
            }
            Place::Two(first, second) => {
                let first = *first;
                let second = *second;
                write!(f, "{first}+{second}")
            }
        }
    }
}
