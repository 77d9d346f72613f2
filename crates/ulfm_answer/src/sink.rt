//! What takes a text, piece by piece.
ghost use Rattle.std.specs.Prelude.{◌≡◌, ◌++◌, List, ℕ, OnOk};
ghost use Rattle.hex.specs.Hex.{encode_lower};

use std::alloc::AllocError;

/// What takes a text, piece by piece.
pub(crate) trait Sink {
    /// Why a piece isn't taken.
    type Error;

    /// What a whole text comes to.
    ghost Whole: { Type 0 };

    /// What the text comes to that was taken so far, with this behind it.
    ghost with_rest: { Self → List ℕ → Whole };

    /// Takes a piece.
    ///
    /// # Errors
    ///
    /// The sink's own: a part of the piece may be taken then.
    fn put(&mut self, piece: &str) -> Result<(), Self::Error>
        ensures { OnOk result ((rest : List ℕ) → with_rest self.new rest ≡ with_rest self.old (piece.now ++ rest)) };

    /// Takes bytes, each by two digits.
    ///
    /// # Errors
    ///
    /// As those of `put`.
    fn put_digits(&mut self, bytes: &[u8]) -> Result<(), Self::Error>
        ensures { OnOk result ((rest : List ℕ) → with_rest self.new rest ≡ with_rest self.old (encode_lower bytes.now ++ rest)) };
}

impl Sink for String {
    ghost use Rattle.std.specs.Prelude.{◌++◌, List, ℕ, string_bytes};

    type Error = AllocError;

    ghost Whole = { List ℕ };

    ghost with_rest = { λ text rest. string_bytes text ++ rest };

    fn put(&mut self, piece: &str) -> Result<(), AllocError> {
        self.push_str(piece)
    }

    fn put_digits(&mut self, bytes: &[u8]) -> Result<(), AllocError> {
        let alloc = *self.allocator();
        let digits = hex::encode(alloc, bytes)?;
        self.push_str(digits.as_str())
    }
}
