//! The sources that a receive asks for (MPI 4.0, 3.2.4).
ghost use Rattle.std.specs.Prelude.{◌≡◌, ℕ, Some, ◌≤◌, length, IfOk, IfErr};
ghost use Rattle.ulfm_rank.specs.Calls.{IsSourceOf};
ghost use Rattle.ulfm_rank.specs.Standing.{IsSourceIn};

use ulfm_base::{CallError, Group, Source};

/// The member at a position, or any member.
///
/// # Errors
///
/// `BadRank` where the group has no such position.
pub(crate) fn source_of(group: &Group, position: Option<u8>) -> Result<Source, CallError>
    ensures named { IfOk result (IsSourceOf group.now position) }
    ensures members { IfOk result (IsSourceIn group.now) }
    ensures refused { IfErr result (λ error. (error ≡ CallError.BadRank) × ((p : ℕ) × (position ≡ Some p) × (length group.now ≤ p))) }
{
    match position {
        Some(position) => match group.world_of(position) {
            Some(rank) => Ok(Source::One(rank)),
            None => Err(CallError::BadRank),
        },
        None => Ok(Source::Any(group.members())),
    }
}
