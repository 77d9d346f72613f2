//! The words of C.
ghost use Rattle.std.specs.Prelude.{◌≡◌, ◌≢◌, ◌≤◌, MatchOption, MatchResult, min};
ghost use Rattle.ulfm_base.specs.declared.context.TheConstants.{PAST_CONTEXTS};
ghost use Rattle.ulfm_c.specs.Calls.{NamesTag, any, number_of, source_named};

use ulfm_base::{CallError, Context, Tag};
use ulfm_log::Comm;

/// The code of a refusal.
pub(crate) fn number_of(error: CallError) -> u32
    ensures { result ≡ number_of error }
{
    match error {
        CallError::NoComm => 1,
        CallError::BadRank => 2,
        CallError::BadTag => 3,
        CallError::TooLong => 4,
        CallError::ProcFailed => 5,
        CallError::Revoked => 6,
        CallError::NoRequest => 7,
        CallError::AlreadyMade => 8,
        CallError::NoContext => 9,
        CallError::Stopped => 10,
        CallError::NotMember => 11,
        CallError::OutOfMemory => 12,
        CallError::BadSize => 13,
        CallError::NotEntered => 14,
        CallError::Truncated => 15,
    }
}

/// The communicator of a number, where it can have one.
pub(crate) fn comm_of(number: u64) -> Option<Comm>
    ensures { MatchOption result (PAST_CONTEXTS ≤ number) (λ comm. comm.context.number ≡ number) }
{
    let context = Context::of_number(number)?;
    Some(Comm { context })
}

/// A position, or one that no communicator has.
pub(crate) fn position_of(number: u32) -> u8
    ensures { result ≡ min number 255 }
{
    if number > 255 { 255 } else { number as u8 }
}

/// So many bytes of room, which no letter is longer than from 65,535 on.
pub(crate) fn room_of(number: u32) -> u16
    ensures { result ≡ min number 65535 }
{
    if number > 65535 { 65535 } else { number as u16 }
}

/// A position, or any where the number is the greatest.
pub(crate) fn source_of(number: u32) -> Option<u8>
    ensures { result ≡ source_named number }
{
    if number == u32::MAX {
        return None;
    }
    Some(position_of(number))
}

/// A tag, or any where the number is the greatest.
pub(crate) fn tag_of(number: u32) -> Result<Option<Tag>, CallError>
    ensures { MatchResult result (λ tag. NamesTag number tag) (λ error. (error ≡ CallError.BadTag) × (32768 ≤ number) × (number ≢ any)) }
{
    if number == u32::MAX {
        return Ok(None);
    }
    Ok(Some(Tag::new(number)?))
}
