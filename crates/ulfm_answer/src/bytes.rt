//! Bytes that are lent.
ghost use Rattle.std.specs.Prelude.{◌≡◌};

use std::marker::Model;

/// Bytes that are lent: those of a body, or ranks by their numbers. Contracts see the list of them.
#[derive(Drop)]
pub struct Bytes<'a> {
    bytes: &'a [u8],
}

impl<'a> Model for Bytes<'a> {
    ghost use Rattle.std.specs.Prelude.{ℕ, List};

    ghost Value = { List ℕ };

    ghost view = { λ b. b.bytes.now };
}

impl<'a> Bytes<'a> {
    /// These bytes.
    pub(crate) fn new(bytes: &'a [u8]) -> Bytes<'a>
        ensures { result ≡ bytes.now }
    {
        Bytes { bytes }
    }

    /// The bytes.
    pub fn as_slice(&self) -> &[u8]
        ensures { result.now ≡ self.now }
    {
        self.bytes
    }
}
