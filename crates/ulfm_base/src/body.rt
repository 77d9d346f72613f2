//! The bytes of a message.
//!
//! It may have any length: the limit of 1,024 bytes is `isend`'s, which takes memory for more than 30 also where the rank is prepared.
ghost use Rattle.std.specs.Prelude.{◌≡◌, ◌==◌, ◌≤◌, length, IfOk, IsOk};

use crate::error::OutOfMemory;
use std::alloc::Global;
use std::marker::Model;

/// What a message carries: bytes. Up to 30 stand inline, more in one block of the heap. Contracts see the list of them.
#[derive(Drop)]
pub struct Body {
    bytes: Bytes,
}

/// Where the bytes of a body stand.
#[derive(Drop)]
pub(crate) enum Bytes {
    Inline(u8, [u8; 30]),
    Block(Vec<u8>),
}

impl Model for Body {
    ghost use Rattle.std.specs.Prelude.{ℕ, List};
    ghost use Rattle.ulfm_base.specs.inside.Body.{bytes_of, Fits};

    ghost Value = { List ℕ };

    ghost view = { λ b. bytes_of b.bytes };

    ghost invariant = { λ b. Fits b.bytes };
}

impl Clone for Body {
    ghost is_clone = { λ x y. y ≡ x };

    fn clone(&self) -> Result<Body, OutOfMemory> {
        let bytes = match &self.bytes {
            Bytes::Inline(used, bytes) => Bytes::Inline(*used, *bytes),
            Bytes::Block(block) => Bytes::Block(block.clone()?),
        };
        Ok(Body { bytes })
    }
}

impl Body {
    /// The body of these bytes.
    ///
    /// # Errors
    ///
    /// `OutOfMemory` where they are more than 30 and a growth was refused.
    pub fn from_bytes(alloc: Global, bytes: &[u8]) -> Result<Body, OutOfMemory>
        ensures bytes { IfOk result (λ body. body ≡ bytes.now) }
        ensures short { length bytes.now ≤ 30 → IsOk result }
    {
        if bytes.len() > 30 {
            return Ok(Body {
                bytes: Bytes::Block(Vec::from_slice(alloc, bytes)?),
            });
        }
        let mut inline = [0; 30];
        inline[..bytes.len()].copy_from_slice(bytes);
        Ok(Body {
            bytes: Bytes::Inline(bytes.len() as u8, inline),
        })
    }

    /// The bytes.
    pub fn as_bytes(&self) -> &[u8]
        ensures { result.now ≡ self.now }
    {
        match &self.bytes {
            Bytes::Inline(used, bytes) => &bytes[..*used as usize],
            Bytes::Block(block) => block.as_slice(),
        }
    }

    /// How many bytes there are.
    pub fn len(&self) -> usize
        ensures { result ≡ length self.now }
    {
        self.as_bytes().len()
    }

    /// Whether there are none.
    pub fn is_empty(&self) -> bool
        ensures { result ≡ (length self.now == 0) }
    {
        self.len() == 0
    }
}
