//! Tags of messages (MPI 4.0, 3.2.3).
ghost use Rattle.std.specs.Prelude.{◌≡◌, ◌<◌, ◌≤◌, MatchResult};

use crate::error::CallError;

/// A tag, 0 to 32767.
#[derive(Clone, Copy, Debug, PartialEq, Eq)]
pub struct Tag {
    /// 0 to 32767.
    pub number: u16,
    pub ghost in_range: { number < 32768 },
}

impl Tag {
    /// The tag of this number.
    ///
    /// # Errors
    ///
    /// `BadTag` where it is past 32767.
    pub fn new(number: u32) -> Result<Tag, CallError>
        ensures { MatchResult result (λ tag. tag.number ≡ number) (λ error. (error ≡ CallError.BadTag) × (32768 ≤ number)) }
    {
        if number < 32768 {
            Ok(Tag {
                number: number as u16,
            })
        } else {
            Err(CallError::BadTag)
        }
    }
}
