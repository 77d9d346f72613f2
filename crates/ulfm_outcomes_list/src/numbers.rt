//! Steps as the file numbers them, and as the job at a place does.
ghost use Rattle.std.specs.Prelude.{◌≡◌};
ghost use Rattle.ulfm_job.specs.Job.{moved_number};
ghost use Rattle.ulfm_outcomes_list.specs.Numbers.{filed_by, filed_number, moved_by, number_at};

use ulfm_job::{Job, Place, Stop};

/// The number of the step `k` of a script of so many steps, once there is one more before the step `at`.
fn moved_number(at: usize, len: usize, k: usize) -> usize
    ensures { result ≡ moved_number at len k }
{
    if at <= k && k < len { k + 1 } else { k }
}

/// The number of the step `k` of a rank whose script has so many steps, once a stop is there.
fn moved_by(len: usize, rank: u8, k: usize, stop: Stop) -> usize
    ensures { result ≡ moved_by len rank k stop }
{
    if stop.rank == rank {
        moved_number(stop.before(), len, k)
    } else {
        k
    }
}

/// The number that a step of a rank has in the job at a place, by the one that it has in the file.
pub fn number_at(place: Place, job: &Job, rank: u8, k: usize) -> usize
    ensures { result ≡ number_at place job.now rank k }
{
    let len = job.script(rank).len();
    match place {
        Place::Nowhere => k,
        Place::One(stop) => moved_by(len, rank, k, stop),
        Place::Two(first, second) => moved_by(len, rank, moved_by(len, rank, k, first), second),
    }
}

/// The number of a step before a stop was there.
fn filed_by(rank: u8, k: u16, stop: Stop) -> u16
    ensures { result ≡ filed_by rank k stop }
{
    if stop.rank == rank && stop.before() < k as usize {
        k - 1
    } else {
        k
    }
}

/// The number that a step of a rank has in the file, by the one that it has in the job at a place.
pub fn filed_number(place: Place, rank: u8, k: u16) -> u16
    ensures { result ≡ filed_number place rank k }
{
    match place {
        Place::Nowhere => k,
        Place::One(stop) => filed_by(rank, k, stop),
        Place::Two(first, second) => filed_by(rank, filed_by(rank, k, first), second),
    }
}
