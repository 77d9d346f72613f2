//! The failures, acknowledgements and revocations that one rank knows of.
ghost use Rattle.std.specs.Prelude.{◌≡◌, ◌==◌, ℕ, not, true, false, [], if◌then◌else◌, IsTrue, IfOk, OnOk, OnErr};

use std::alloc::Global;
use std::marker::Model;
use ulfm_base::{Context, Group, OutOfMemory, RankSet, Table, WorldRank};

/// What one rank knows of failures and revocations. Contracts see it as `Facts`.
#[derive(Drop)]
pub struct Faults {
    known: Group,
    acknowledged: Table<u8>,
    revoked: Table<()>,
}

impl Model for Faults {
    ghost use Rattle.std.specs.Prelude.{◌&&◌};
    ghost use Rattle.ulfm_fault.specs.Facts.{FaultState};

    ghost Value = { FaultState };

    ghost view = { λ f. record {
      known = f.known;
      acknowledged = f.acknowledged.entries;
      revoked = f.revoked.entries;
      room = f.acknowledged.room && f.revoked.room;
    } };
}

impl Faults {
    ghost use Rattle.ulfm_base.specs.Group.{is_member, including};
    ghost use Rattle.ulfm_base.specs.RankSet.{has};
    ghost use Rattle.ulfm_fault.specs.Facts.{KnowsSame, known_in, acknowledged_in, is_revoked_in, ack_answer, has_unacked};

    /// No failure is known, none acknowledged, and no context revoked.
    pub fn new(alloc: Global) -> Faults
        ensures none_known { result.known ≡ [] }
        ensures none_acknowledged { (c : ℕ) → acknowledged_in result c ≡ 0 }
        ensures none_revoked { (c : ℕ) → is_revoked_in result c ≡ false }
    {
        Faults {
            known: Group::empty(alloc),
            acknowledged: Table::new(alloc),
            revoked: Table::new(alloc),
        }
    }

    /// The same knowledge. There may be less room for more.
    ///
    /// # Errors
    ///
    /// `OutOfMemory` where a growth was refused.
    pub fn copy(&self) -> Result<Faults, OutOfMemory>
        ensures { IfOk result (λ copy. KnowsSame self.now copy) }
    {
        Ok(Faults {
            known: self.known.clone()?,
            acknowledged: self.acknowledged.copy()?,
            revoked: self.revoked.copy()?,
        })
    }

    /// Makes room for one acknowledgement and one revocation.
    ///
    /// # Errors
    ///
    /// `OutOfMemory` where there was no such room and a growth was refused. Then nothing changed.
    pub fn make_place(&mut self) -> Result<(), OutOfMemory>
        ensures knows_the_same { KnowsSame self.old self.new }
        ensures room { OnOk result (IsTrue self.new.room) }
        ensures room_lacked { OnErr result (self.old.room ≡ false) }
        ensures unchanged_at_error { OnErr result (self.new ≡ self.old) }
        ensures stays { IsTrue self.old.room → IsTrue self.new.room }
    {
        self.acknowledged.make_place()?;
        self.revoked.make_place()
    }

    /// Whether there is room for one acknowledgement and one revocation.
    pub fn has_place(&self) -> bool
        ensures { result ≡ self.now.room }
    {
        self.acknowledged.has_place() && self.revoked.has_place()
    }

    /// Takes the notice of a rank's failure. A further notice of the same rank changes nothing.
    pub fn learn(&mut self, rank: WorldRank)
        ensures is_known_from_now_on { self.new.known ≡ including self.old.known rank.number }
        ensures totals_stay { self.new.acknowledged ≡ self.old.acknowledged }
        ensures marks_stay { self.new.revoked ≡ self.old.revoked }
        ensures room_stays { self.new.room ≡ self.old.room }
    {
        self.known.include(rank);
    }

    /// Whether a rank is known to have failed.
    pub fn is_known(&self, rank: WorldRank) -> bool
        ensures { result ≡ is_member self.now.known rank.number }
    {
        self.known.contains(rank)
    }

    /// The ranks that are known to have failed.
    pub fn known(&self) -> RankSet
        ensures { (r : ℕ) → has result r ≡ is_member self.now.known r }
    {
        self.known.members()
    }

    /// The members of a communicator's group that are known to have failed, in the order of their first notices (ULFM,
    /// `MPI_Comm_get_failed`).
    pub fn known_in(&self, group: &Group) -> Group
        ensures { result ≡ known_in self.now group.now }
    {
        self.known.intersection(group)
    }

    /// How many failures were acknowledged for a context.
    pub fn acknowledged(&self, context: Context) -> u8
        ensures { result ≡ acknowledged_in self.now context.number }
    {
        self.acknowledged.get(context).unwrap_or(0)
    }

    /// Acknowledges the first `n` failures that are known in the group of a context's communicator, or all of them where
    /// fewer are known, and never fewer than before; answers the total (ULFM, `MPI_Comm_ack_failed`). The room that
    /// `make_place` made may be used up.
    pub fn ack(&mut self, context: Context, group: &Group, n: u8) -> u8
        requires room { IsTrue self.old.room }
        ensures answers_the_total { result ≡ ack_answer self.old group.now context.number n }
        ensures sets_this_total_alone { (c : ℕ) → acknowledged_in self.new c ≡ (if context.number == c then result else acknowledged_in self.old c) }
        ensures known_stay { self.new.known ≡ self.old.known }
        ensures marks_stay { self.new.revoked ≡ self.old.revoked }
    {
        let known = self.known_in(group).size();
        let total = self.acknowledged(context).max(n.min(known));
        self.acknowledged.put(context, total);
        total
    }

    /// Whether more failures are known in the group of a context's communicator than were acknowledged for it.
    pub fn has_unacked(&self, context: Context, group: &Group) -> bool
        ensures { result ≡ has_unacked self.now group.now context.number }
    {
        self.acknowledged(context) < self.known_in(group).size()
    }

    /// Marks a context as revoked. It answers whether this is the first time. The room that `make_place` made may be used
    /// up.
    pub fn revoke(&mut self, context: Context) -> bool
        requires room { IsTrue self.old.room }
        ensures first_time { result ≡ not (is_revoked_in self.old context.number) }
        ensures marks_this_context_alone { (c : ℕ) → is_revoked_in self.new c ≡ (if context.number == c then true else is_revoked_in self.old c) }
        ensures known_stay { self.new.known ≡ self.old.known }
        ensures totals_stay { self.new.acknowledged ≡ self.old.acknowledged }
    {
        let first = !self.is_revoked(context);
        self.revoked.put(context, ());
        first
    }

    /// Whether a context is revoked.
    pub fn is_revoked(&self, context: Context) -> bool
        ensures { result ≡ is_revoked_in self.now context.number }
    {
        self.revoked.get(context).is_some()
    }
}
