//! What the names of steps in `--stop` come to, once the job is read.
ghost use Rattle.std.specs.Prelude.{◌≡◌, ℕ, List, Ok, IfOk};
ghost use Rattle.ulfm_reader.specs.JobText.{reading_of_bytes};
ghost use Rattle.ulfm_command_line.specs.AskedFor.{Asked, asked_view, reading_as};
ghost use Rattle.ulfm_command_line.specs.CommandLine.{HasRanges};
ghost use Rattle.ulfm_forms.specs.declared.form.Form.{Form};
ghost use Rattle.ulfm_command_line.specs.Body.{body_in};
ghost use Rattle.ulfm_command_line.specs.Named.{IsSettled, wanted_at};
ghost use Rattle.ulfm_command_line.specs.Unknown.{unnamed_in};

use crate::body::Body;
use crate::command::{ListOptions, RunOptions, Wanted};
use crate::place_names::place_named;
use crate::reply::{JOB_REFUSED, Reply, refusal};
use std::alloc::{AllocError, Global};
use ulfm_job::Place;
use ulfm_reader::{Name, ReadJob, Reading};

/// The place that a text comes to in the job of these bytes, by the numbers and the names of steps, or the reply that it comes to none.
pub fn settled_place(
    alloc: Global,
    text: &str,
    bytes: &[u8],
) -> Result<Result<Place, Reply>, AllocError>
    ensures { IfOk result (IsSettled text.now bytes.now) }
{
    match Reading::read(alloc, bytes) {
        Ok(read) => settled(alloc, text, read),
        Err(fault) => Ok(Err(refusal(fault))),
    }
}

/// The place that a text comes to in a job that was read, or the reply that it comes to none.
fn settled(alloc: Global, text: &str, read: Reading) -> Result<Result<Place, Reply>, AllocError>
    ensures { (bytes : List ℕ) → reading_of_bytes bytes ≡ Ok (reading_as (asked_view read)) → IfOk result (IsSettled text.now bytes) }
{
    settled_by(alloc, text, read.names.as_slice())
}

/// The place that a text comes to by the names of steps, or the reply that it comes to none.
fn settled_by(alloc: Global, text: &str, names: &[Name]) -> Result<Result<Place, Reply>, AllocError>
    ensures { (bytes : List ℕ) (read : Asked) → reading_of_bytes bytes ≡ Ok (reading_as read) → read.names ≡ names.now → IfOk result (IsSettled text.now bytes) }
{
    let place = place_named(alloc, names, text)?;
    match place {
        Some(place) => Ok(Ok(place)),
        None => Ok(Err(unnamed(alloc, text)?)),
    }
}

/// The reply to a text that names no place of a job.
fn unnamed(alloc: Global, text: &str) -> Result<Reply, AllocError>
    ensures { IfOk result (λ r. (r.status ≡ 1) × ((form : Form) → body_in form r.body ≡ unnamed_in form text.now)) }
{
    Ok(Reply {
        status: JOB_REFUSED,
        body: Body::Unnamed(String::from_str(alloc, text)?),
        remarks: None,
    })
}

impl Wanted {
    /// What is wanted, with the stops of a place.
    pub fn at(self, place: Place) -> Wanted
        ensures exact { result ≡ wanted_at place self }
        ensures ranges { HasRanges self → HasRanges result }
    {
        match self {
            Wanted::Replay {
                is_strict,
                turns,
                ..
            } => Wanted::Replay {
                is_strict,
                turns,
                place,
            },
            Wanted::Run(options) => Wanted::Run(RunOptions { place, ..options }),
            Wanted::Outcomes(options) => Wanted::Outcomes(ListOptions { place, ..options }),
            Wanted::Draw { style, turns, .. } => Wanted::Draw {
                style,
                turns,
                place,
            },
            Wanted::Check => Wanted::Check,
            Wanted::Sweep => Wanted::Sweep,
            Wanted::Places(stops) => Wanted::Places(stops),
            Wanted::Expand => Wanted::Expand,
        }
    }
}
