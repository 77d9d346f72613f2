//! Numbers of a step, each within its range.
ghost use Rattle.std.specs.Prelude.{◌≡◌, ◌<◌, ◌-◌, pos, option_map, unwrap_or, IfOk};
ghost use Rattle.ulfm_reader.specs.inside.Reading.{map_ok, reference_view};
ghost use Rattle.ulfm_reader.specs.Keys.{in_range, in_range_if_some, label_in};
ghost use Rattle.ulfm_reader.specs.Reacting.{req_in};

use crate::fields::{in_range, in_range_if_some};
use crate::name::{Name, named};
use crate::reference::Reference;
use ulfm_base::{Context, Tag};
use ulfm_job::limits::{LAST_COMM, LAST_FLAG, LAST_RANK, LAST_STEP, LAST_TAG, MOST_ROOM};
use ulfm_job::{Fault, Label};

/// The rank of a step, below the number of ranks.
pub fn rank_in(ranks: u8, number: i64) -> Result<u8, Fault>
    requires { 0 < ranks }
    ensures exact { result ≡ in_range 0 (ranks - 1) number }
    ensures below { IfOk result (λ r. r < ranks) }
{
    Ok(in_range(number, 0, u32::from(ranks - 1))? as u8)
}

/// A tag, 0 to 32767.
pub fn tag_in(number: i64) -> Result<Tag, Fault>
    ensures { map_ok (λ t. t.number) result ≡ in_range 0 32767 number }
{
    let number = in_range(number, 0, LAST_TAG)?;
    Ok(Tag {
        number: number as u16,
    })
}

/// A tag that may be left out.
pub fn tag_if_some(number: Option<i64>) -> Result<Option<Tag>, Fault>
    ensures { map_ok (option_map (λ t. t.number)) result ≡ in_range_if_some 32767 number }
{
    match number {
        Some(number) => Ok(Some(tag_in(number)?)),
        None => Ok(None),
    }
}

/// A communicator, named by its context: the world's where it is left out, or where an earlier step makes it, by whose name it is called.
pub fn comm_in(number: Option<i64>) -> Result<Context, Fault>
    ensures { map_ok (λ c. c.number) result ≡ in_range 0 62 (unwrap_or number (pos 0)) }
{
    let number = in_range(number.unwrap_or(0), 0, LAST_COMM)?;
    Ok(Context {
        number: u64::from(number),
    })
}

/// A destination.
pub fn to_in(number: i64) -> Result<u8, Fault>
    ensures { result ≡ in_range 0 7 number }
{
    Ok(in_range(number, 0, LAST_RANK)? as u8)
}

/// A source that may be left out.
pub fn from_if_some(number: Option<i64>) -> Result<Option<u8>, Fault>
    ensures { result ≡ in_range_if_some 7 number }
{
    Ok(in_range_if_some(number, LAST_RANK)?.map(|n| n as u8))
}

/// The room of a receive: all that a body may have, where it is left out.
pub fn room_in(number: Option<i64>) -> Result<u16, Fault>
    ensures { result ≡ in_range 0 1024 (unwrap_or number (pos 1024)) }
{
    Ok(in_range(number.unwrap_or(i64::from(MOST_ROOM)), 0, MOST_ROOM)? as u16)
}

/// The number of a step of the rank that is named: any number of a step, or that of an earlier one by its name.
pub fn req_in(names: &[Name], rank: u8, reference: &Reference<'_>) -> Result<u16, Fault>
    ensures { result ≡ req_in names.now rank (reference_view reference.now) }
{
    match reference {
        Reference::Number(number) => Ok(in_range(*number, 0, LAST_STEP)? as u16),
        Reference::Name(text) => named(names, rank, text).ok_or(Fault::OutOfRange),
    }
}

/// The text of a note.
pub fn label_in(text: &str) -> Result<Label, Fault>
    ensures { result ≡ label_in text.now }
{
    Label::new(text).ok_or(Fault::OutOfRange)
}

/// A flag of 32 bits.
pub fn flag_in(number: i64) -> Result<u32, Fault>
    ensures { result ≡ in_range 0 4294967295 number }
{
    in_range(number, 0, LAST_FLAG)
}
