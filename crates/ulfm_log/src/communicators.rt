//! The communicators of one rank (MPI 4.0, 7.4).
ghost use Rattle.std.specs.Prelude.{◌≡◌, ◌<◌, ◌++◌, ◌∷◌, ◌==◌, ◌^◌, ℕ, suc, [], Some, None, false, if◌then◌else◌, IfOk, IsTrue, MatchOption, OnErr, OnOk};
ghost use Rattle.ulfm_base.specs.Table.{count_at};
ghost use Rattle.ulfm_log.specs.Communicators.{decided_comm, find_group, HasSame};

use std::alloc::Global;
use std::marker::Model;
use ulfm_base::{Context, Decision, Group, OutOfMemory, Purpose, Table};

/// Each communicator's context with its group, in the order in which they were made, and by context how many duplicates are counted.
/// Contracts see whether there is room for one more of each, too.
#[derive(Drop)]
pub struct Communicators {
    made: Vec<(Context, Group)>,
    dups: Table<u64>,
}

impl Model for Communicators {
    ghost use Rattle.std.specs.Prelude.{◌&&◌, map, nat_lt, vec_len, vec_capacity};
    ghost use Rattle.ulfm_log.specs.Communicators.{CommunicatorsView};
    ghost use Rattle.ulfm_log.specs.inside.Made.{by_number};

    ghost Value = { CommunicatorsView };

    ghost view = { λ c. record { made = map by_number c.made.items; dups = c.dups.entries; room = nat_lt (vec_len c.made) (vec_capacity c.made) && c.dups.room } };
}

impl Communicators {
    /// The communicator of the world alone, with this group.
    ///
    /// # Errors
    ///
    /// `OutOfMemory` where the list finds no room.
    pub fn new(alloc: Global, world: Group) -> Result<Communicators, OutOfMemory>
        ensures made { IfOk result (λ communicators. communicators.made ≡ (0, world) ∷ []) }
        ensures dups { IfOk result (λ communicators. communicators.dups ≡ []) }
    {
        let mut made = Vec::with_capacity(alloc, 1)?;
        made.push_reserved((Context::WORLD, world));
        Ok(Communicators {
            made,
            dups: Table::new(alloc),
        })
    }

    /// The same communicators. There may be less room for more.
    ///
    /// # Errors
    ///
    /// `OutOfMemory` where a growth was refused.
    pub fn copy(&self) -> Result<Communicators, OutOfMemory>
        ensures { IfOk result (λ copy. HasSame self.now copy) }
    {
        let dups = self.dups.copy()?;
        let mut made = Vec::with_capacity(*self.made.allocator(), self.made.len())?;
        made.extend_with_clones(self.made.as_slice())?;
        Ok(Communicators { made, dups })
    }

    /// Makes room for one more.
    ///
    /// # Errors
    ///
    /// `OutOfMemory` where there was no such room and a growth was refused.
    pub fn make_place(&mut self) -> Result<(), OutOfMemory>
        ensures has_the_same { HasSame self.old self.new }
        ensures room { OnOk result (IsTrue self.new.room) }
        ensures room_lacked { OnErr result (self.old.room ≡ false) }
        ensures stays { IsTrue self.old.room → IsTrue self.new.room }
    {
        self.made.reserve(1)?;
        self.dups.make_place()
    }

    /// Whether there is room for one more.
    pub fn has_place(&self) -> bool
        ensures { result ≡ self.now.room }
    {
        self.made.len() < self.made.capacity() && self.dups.has_place()
    }

    /// Adds the communicator of a context, which isn't a duplicate. The room that `make_place` made is used up.
    fn add(&mut self, context: Context, group: Group)
        requires { IsTrue self.old.room }
        ensures made { self.new.made ≡ self.old.made ++ (context.number, group) ∷ [] }
        ensures dups_stay { self.new.dups ≡ self.old.dups }
    {
        self.made.push_reserved((context, group));
    }

    /// Adds the duplicate of this number of a communicator, which has this context and group. The room that `make_place` made is used
    /// up.
    pub fn duplicate(&mut self, of: Context, count: u64, context: Context, group: Group)
        requires room { IsTrue self.old.room }
        requires countable { count < 2 ^ 63 }
        ensures made { self.new.made ≡ self.old.made ++ (context.number, group) ∷ [] }
        ensures counts_this_one { (c : ℕ) → count_at self.new.dups c ≡ (if of.number == c then suc count else count_at self.old.dups c) }
    {
        self.dups.put(of, count + 1);
        self.made.push_reserved((context, group));
    }

    /// How many duplicates of a communicator are counted: one more than the greatest of their numbers.
    pub fn dups(&self, of: Context) -> u64
        ensures { result ≡ count_at self.now.dups of.number }
    {
        self.dups.get(of).unwrap_or(0)
    }

    /// Adds the communicator that a decision makes: a shrink makes one, and an agreement none. The room that `make_place` made may be
    /// used up.
    pub fn adopt(&mut self, decision: &Decision)
        requires { IsTrue self.old.room }
        ensures made { self.new.made ≡ self.old.made ++ decided_comm decision.now.topic.purpose decision.now.topic.context.number decision.now.fresh }
        ensures dups_stay { self.new.dups ≡ self.old.dups }
    {
        match decision.topic.purpose {
            Purpose::Shrink { round } => match decision.topic.context.nth_shrink(round) {
                Some(context) => self.add(context, decision.fresh.copied()),
                None => unreachable!(),
            },
            Purpose::Agree { .. } => {}
        }
    }

    /// The group of a context's communicator, where it was made.
    pub fn group_of(&self, context: Context) -> Option<&Group>
        ensures { MatchOption result (find_group context.number self.now.made ≡ None) (λ group. find_group context.number self.now.made ≡ Some group.now) }
    {
        for (made, group) in &self.made {
            if made.number == context.number {
                return Some(group);
            }
        }
        None
    }
}
