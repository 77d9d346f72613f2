//! Letters and their envelopes (MPI 4.0, 3.2.3).

ghost use Rattle.std.specs.Prelude.{◌≡◌};

use crate::body::Body;
use crate::context::Context;
use crate::error::OutOfMemory;
use crate::rank::WorldRank;
use crate::tag::Tag;

/// What a letter is matched by. The destination is the rank that holds it.
#[derive(Clone, Copy, Debug, PartialEq, Eq)]
pub struct Envelope {
    /// The communicator.
    pub context: Context,
    /// The sender.
    pub source: WorldRank,
    /// The tag that the sender chose.
    pub tag: Tag,
}

/// A message with its envelope.
#[derive(Drop)]
pub struct Letter {
    /// What matching looks at.
    pub envelope: Envelope,
    /// What is carried.
    pub body: Body,
}

impl Clone for Letter {
    ghost is_clone = { λ x y. y ≡ x };

    fn clone(&self) -> Result<Letter, OutOfMemory> {
        Ok(Letter {
            envelope: self.envelope,
            body: self.body.clone()?,
        })
    }
}
