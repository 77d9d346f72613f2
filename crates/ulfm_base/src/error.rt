//! Why a call is refused.
ghost use Rattle.std.specs.Prelude.{◌≡◌, Some};

use std::alloc::{AllocError, AllocFailed};
use std::fmt;

/// Out of memory: the allocator refused a growth.
pub type OutOfMemory = AllocError;

/// Why a call is refused, or how a request is over. The numbers are this project's own.
#[derive(Clone, Copy, Debug, PartialEq, Eq)]
pub enum CallError {
    /// The communicator wasn't made.
    NoComm = 1,
    /// The communicator has no such rank.
    BadRank = 2,
    /// The tag is past 32767.
    BadTag = 3,
    /// The body is longer than 1,024 bytes.
    TooLong = 4,
    /// The other rank is known to have failed.
    ProcFailed = 5,
    /// The communicator is revoked.
    Revoked = 6,
    /// There is no such request, or it was released.
    NoRequest = 7,
    /// The communicator was duplicated before, or its shrink was entered or adopted before.
    AlreadyMade = 8,
    /// There is no context left for the new communicator.
    NoContext = 9,
    /// The rank has stopped.
    Stopped = 10,
    /// The decision isn't this rank's to adopt.
    NotMember = 11,
    /// A growth was refused.
    OutOfMemory = 12,
    /// Not 1 to 8 ranks, or a capacity that isn't 1 to 64.
    BadSize = 13,
    /// The rank hasn't entered the shrink.
    NotEntered = 14,
    /// The letter was longer than the room of its receive. An outcome of requests alone.
    Truncated = 15,
}

impl CallError {
    ghost use Rattle.ulfm_base.specs.Error.{error_text};

    /// Its number and its name, as they are printed.
    pub fn text(self) -> &'static str
        ensures { result.now ≡ error_text self }
    {
        match self {
            CallError::NoComm => "1 NoComm",
            CallError::BadRank => "2 BadRank",
            CallError::BadTag => "3 BadTag",
            CallError::TooLong => "4 TooLong",
            CallError::ProcFailed => "5 ProcFailed",
            CallError::Revoked => "6 Revoked",
            CallError::NoRequest => "7 NoRequest",
            CallError::AlreadyMade => "8 AlreadyMade",
            CallError::NoContext => "9 NoContext",
            CallError::Stopped => "10 Stopped",
            CallError::NotMember => "11 NotMember",
            CallError::OutOfMemory => "12 OutOfMemory",
            CallError::BadSize => "13 BadSize",
            CallError::NotEntered => "14 NotEntered",
            CallError::Truncated => "15 Truncated",
        }
    }
}

impl fmt::Display for CallError {
    ghost use Rattle.ulfm_base.specs.Error.{error_text};

    ghost output = { λ e. Some (error_text e) };

    fn fmt<W: fmt::Write>(&self, f: &mut fmt::Formatter<W>) -> fmt::Result {
        f.write_str(self.text())
    }
}

impl<T: Drop> From<AllocFailed<T>> for CallError {
    ghost use Rattle.std.specs.Prelude.{◌≡◌};
    ghost use Rattle.ulfm_base.specs.declared.error.CallError.TheVariants as error;

    ghost from_gives = { λ _ e. e ≡ error.OutOfMemory };

    fn from(_failed: AllocFailed<T>) -> CallError {
        CallError::OutOfMemory
    }
}

impl From<AllocError> for CallError {
    ghost use Rattle.std.specs.Prelude.{◌≡◌};
    ghost use Rattle.ulfm_base.specs.declared.error.CallError.TheVariants as error;

    ghost from_gives = { λ _ e. e ≡ error.OutOfMemory };

    fn from(_error: AllocError) -> CallError {
        CallError::OutOfMemory
    }
}
