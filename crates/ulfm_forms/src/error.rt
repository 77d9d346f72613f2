//! Refusals.
ghost use Rattle.std.specs.Prelude.{◌≡◌, ◌++◌, OnOk, string_bytes};
ghost use Rattle.std.specs.Fmt.{decimal};
ghost use Rattle.std.specs.List.{after_first, before_first};
ghost use Rattle.ulfm_base.specs.Error.{error_text};
ghost use Rattle.ulfm_forms.specs.Parts.{error_json, is_space};

use std::alloc::AllocError;
use std::fmt;
use ulfm_base::CallError;

/// The number of a refusal, as its words have it.
fn number_of(error: CallError) -> u8
    ensures { decimal result ≡ before_first is_space (error_text error) }
{
    error as u8
}

/// The name of a refusal, as its words have it.
fn name_of(error: CallError) -> &'static str
    ensures { result.now ≡ after_first is_space (error_text error) }
{
    match error {
        CallError::NoComm => "NoComm",
        CallError::BadRank => "BadRank",
        CallError::BadTag => "BadTag",
        CallError::TooLong => "TooLong",
        CallError::ProcFailed => "ProcFailed",
        CallError::Revoked => "Revoked",
        CallError::NoRequest => "NoRequest",
        CallError::AlreadyMade => "AlreadyMade",
        CallError::NoContext => "NoContext",
        CallError::Stopped => "Stopped",
        CallError::NotMember => "NotMember",
        CallError::OutOfMemory => "OutOfMemory",
        CallError::BadSize => "BadSize",
        CallError::NotEntered => "NotEntered",
        CallError::Truncated => "Truncated",
    }
}

/// The keys of a refusal: its number and its name.
pub(crate) fn push_error(text: &mut String, error: CallError) -> Result<(), AllocError>
    ensures { OnOk result (string_bytes text.new ≡ string_bytes text.old ++ error_json error) }
{
    let number = number_of(error);
    let name = name_of(error);
    write!(text, ",\"error\":{number},\"name\":\"{name}\"")
}
