//! Items by what they are.

use ulfm_schedule::Cargo;

/// What an item is.
#[derive(Clone, Copy, Debug, PartialEq, Eq)]
pub(crate) enum Kind {
    /// A message.
    Message,
    /// The notice that its sender stopped.
    Notice,
    /// That a communicator is revoked.
    Revocation,
    /// That its sender entered a shrink.
    Shrink,
    /// That its sender entered an agreement.
    Agreement,
}

/// All kinds, in the order of legends.
pub(crate) const KINDS: [Kind; 5] = [
    Kind::Message,
    Kind::Notice,
    Kind::Revocation,
    Kind::Shrink,
    Kind::Agreement,
];

/// The kind of an item.
pub(crate) fn kind_of(cargo: Cargo) -> Kind {
    match cargo {
        Cargo::Message(_, _, _) => Kind::Message,
        Cargo::Notice => Kind::Notice,
        Cargo::Revocation(_) => Kind::Revocation,
        Cargo::Shrink(_) => Kind::Shrink,
        Cargo::Agreement(_) => Kind::Agreement,
    }
}
