//! Places by the names of steps.
ghost use Rattle.std.specs.Prelude.{◌≡◌, IfOk, option_map};
ghost use Rattle.std.specs.List.{list_all};
ghost use Rattle.ulfm_command_line.specs.Naming.{is_labelled, is_place_byte, may_name, only_stop, place_named, stop_by_name, stop_named};
ghost use Rattle.ulfm_job.specs.Text.{two_by};
ghost use Rattle.ulfm_job.specs.declared.place.Place.TheVariants.{One};

use std::alloc::{AllocError, Global};
use ulfm_job::{Place, Stop, unstarred};
use ulfm_reader::Name;

/// Whether a byte may stand in a place: one of a name, a dot, a star or a plus.
fn is_place_byte(byte: u8) -> bool
    ensures { result ≡ is_place_byte byte }
{
    byte.is_ascii_alphanumeric()
        || byte == b'_'
        || byte == b'-'
        || byte == b'.'
        || byte == b'*'
        || byte == b'+'
}

/// Whether a text may be a place by the names of steps.
pub(crate) fn may_name(text: &str) -> bool
    ensures { result ≡ may_name text.now }
{
    are_place_bytes(text.as_bytes())
}

/// Whether each of these bytes may stand in a place.
fn are_place_bytes(bytes: &[u8]) -> bool
    ensures { result ≡ list_all is_place_byte bytes.now }
{
    bytes.iter().all(|byte| is_place_byte(*byte))
}

/// The place of a text, by the numbers and the names of steps.
pub(crate) fn place_named(
    alloc: Global,
    names: &[Name],
    text: &str,
) -> Result<Option<Place>, AllocError>
    ensures { IfOk result (λ place. place ≡ place_named names.now text.now) }
{
    let Some((first, second)) = text.split_once('+') else {
        return one_named(alloc, names, text);
    };
    two_named(alloc, names, first, second)
}

/// The place of one stop.
fn one_named(alloc: Global, names: &[Name], text: &str) -> Result<Option<Place>, AllocError>
    ensures { IfOk result (λ place. place ≡ option_map One (stop_named names.now text.now)) }
{
    let stop = stop_named(alloc, names, text)?;
    Ok(place_of_one(stop))
}

/// The place of two stops.
fn two_named(
    alloc: Global,
    names: &[Name],
    first: &str,
    second: &str,
) -> Result<Option<Place>, AllocError>
    ensures { IfOk result (λ place. place ≡ two_by (stop_named names.now first.now) (stop_named names.now second.now)) }
{
    let first = stop_named(alloc, names, first)?;
    let second = stop_named(alloc, names, second)?;
    Ok(place_of_two(first, second))
}

/// The place of a stop, if there is one.
fn place_of_one(stop: Option<Stop>) -> Option<Place>
    ensures { result ≡ option_map One stop }
{
    match stop {
        Some(stop) => Some(Place::One(stop)),
        None => None,
    }
}

/// The place of two stops, if they are some, and their ranks rise.
fn place_of_two(first: Option<Stop>, second: Option<Stop>) -> Option<Place>
    ensures { result ≡ two_by first second }
{
    match (first, second) {
        (Some(first), Some(second)) if first.rank < second.rank => Some(Place::Two(first, second)),
        _ => None,
    }
}

/// The stop of a text: by the number of a step, or else by its name.
fn stop_named(alloc: Global, names: &[Name], text: &str) -> Result<Option<Stop>, AllocError>
    ensures { IfOk result (λ stop. stop ≡ stop_named names.now text.now) }
{
    match only_stop(Place::parse(text)) {
        Some(stop) => Ok(Some(stop)),
        None => stop_by_name(alloc, names, text),
    }
}

/// The stop of a place that has one alone.
fn only_stop(place: Option<Place>) -> Option<Stop>
    ensures { result ≡ only_stop place }
{
    match place {
        Some(Place::One(stop)) => Some(stop),
        _ => None,
    }
}

/// The stop of a text that names a step, with a star behind the name where the rank dies inside that step.
fn stop_by_name(alloc: Global, names: &[Name], text: &str) -> Result<Option<Stop>, AllocError>
    ensures { IfOk result (λ stop. stop ≡ stop_by_name names.now text.now) }
{
    let (label, dies) = unstarred(text);
    for name in names {
        let is_named = is_labelled(alloc, label, name)?;
        if is_named {
            return Ok(Some(Stop {
                rank: name.rank,
                at: name.at,
                dies,
            }));
        }
    }
    Ok(None)
}

/// Whether this text names a step: its rank, a dot and its name.
fn is_labelled(alloc: Global, text: &str, name: &Name) -> Result<bool, AllocError>
    ensures { IfOk result (λ is. is ≡ is_labelled text.now name.now) }
{
    let rank = name.rank;
    let step = name.text.as_str();
    let label = format!(in alloc; "{rank}.{step}")?;
    Ok(label.as_str() == text)
}
