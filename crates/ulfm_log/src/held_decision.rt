//! Decisions in blocks of their own.
//!
//! So that an entry of a log stays small (64 bytes at most, which is proved): `prepare` makes the block, or else the call that adopts.
ghost use Rattle.std.specs.Prelude.{◌≡◌, IsTrue, OnOk, OnErr, false};

use std::alloc::Global;
use std::marker::Model;
use std::mem;
use std::snapshot::Snapshot;
use ulfm_base::{Decision, OutOfMemory};

/// A decision in a block of its own, so that an entry of a log is small. Contracts see the decision.
#[derive(Drop)]
pub struct HeldDecision {
    block: Vec<Decision>,
    held: Snapshot<Decision>,
}

impl Model for HeldDecision {
    ghost use Rattle.std.specs.Prelude.{◌≡◌, ◌∷◌, []};
    ghost use Rattle.ulfm_base.specs.declared.decision.Decision.{Decision as Decided};

    ghost Value = { Decided };

    ghost view = { λ h. h.held.value };

    ghost invariant = { λ h. h.block.items ≡ h.held.value ∷ [] };
}

impl Clone for HeldDecision {
    ghost is_clone = { λ x y. y ≡ x };

    fn clone(&self) -> Result<HeldDecision, OutOfMemory> {
        let mut block = Vec::with_capacity(*self.block.allocator(), 1)?;
        let decision = self.decision().copied();
        let held = Snapshot::of(&decision);
        block.push_reserved(decision);
        Ok(HeldDecision { block, held })
    }
}

impl HeldDecision {
    /// The decision.
    pub fn decision(&self) -> &Decision
        ensures { result.now ≡ self.now }
    {
        &self.block[0]
    }
}

/// A block for the next decision, if there is one. Contracts see whether there is.
#[derive(Drop)]
pub struct Block {
    room: Vec<Decision>,
}

impl Model for Block {
    ghost use Rattle.std.specs.Prelude.{◌≡◌, Bool, nat_lt, vec_len, vec_capacity};

    ghost Value = { Bool };

    ghost view = { λ b. nat_lt 0 (vec_capacity b.room) };

    ghost invariant = { λ b. vec_len b.room ≡ 0 };
}

impl Block {
    /// No block.
    pub fn new(alloc: Global) -> Block {
        Block {
            room: Vec::new(alloc),
        }
    }

    /// Makes one, where there is none.
    ///
    /// # Errors
    ///
    /// `OutOfMemory` where there was none and a growth was refused.
    pub fn make(&mut self) -> Result<(), OutOfMemory>
        ensures there { OnOk result (IsTrue self.new) }
        ensures lacked { OnErr result (self.old ≡ false) }
        ensures stays { IsTrue self.old → IsTrue self.new }
    {
        self.room.reserve(1)
    }

    /// Whether there is one.
    pub fn is_there(&self) -> bool
        ensures { result ≡ self.now }
    {
        0 < self.room.capacity()
    }

    /// A decision in it.
    pub fn hold(&mut self, decision: Decision) -> HeldDecision
        requires { IsTrue self.old }
        ensures { result ≡ decision }
    {
        let none = Vec::new(*self.room.allocator());
        let mut block = mem::replace(&mut self.room, none);
        let held = Snapshot::of(&decision);
        block.push_reserved(decision);
        HeldDecision { block, held }
    }
}
