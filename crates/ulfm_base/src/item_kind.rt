//! The kinds of the items that a log keeps.

use crate::context::Context;
use crate::entrance::Entrance;
use crate::noted_letter::NotedLetter;

/// An item in a log by its kind.
#[derive(Drop)]
pub enum ItemKind {
    /// A message.
    Letter(NotedLetter),
    /// The notice that its sender stopped.
    Gone,
    /// The notice that a context is revoked.
    Revoke(Context),
    /// That its sender entered a shrink or an agreement.
    Enter(Entrance),
}
