//! How many shrinks and agreements a rank entered on each communicator, and what is let go after a further one (ULFM, shrink and agree).
//!
//! As a rank enters a further shrink or a further agreement on a communicator, the entries that tell of earlier ones there go.
ghost use Rattle.std.specs.Prelude.{◌≡◌, ◌==◌, ◌+◌, ◌<◌, ◌^◌, ℕ, Bool, [], if◌then◌else◌, false, IsTrue, IfOk, OnOk, OnErr};
ghost use Rattle.ulfm_base.specs.Table.{count_at};
ghost use Rattle.ulfm_base.specs.Topic.{is_round_on};
ghost use Rattle.ulfm_log.specs.Decisive.{CountsSame, rounds_on, rounds_at, is_current, tells};

use crate::row::{Row, RowKind};
use std::alloc::Global;
use std::marker::Model;
use ulfm_base::{Context, OutOfMemory, Table, Topic};

/// By context, how many agreements, and how many shrinks, the rank entered on its communicator. Contracts see whether there is room for
/// one more context of each, too.
#[derive(Drop)]
pub struct Rounds {
    agreements: Table<u64>,
    shrinks: Table<u64>,
}

impl Model for Rounds {
    ghost use Rattle.std.specs.Prelude.{◌&&◌};
    ghost use Rattle.ulfm_log.specs.Decisive.{RoundsView};

    ghost Value = { RoundsView };

    ghost view = { λ r. record { agreements = r.agreements.entries; shrinks = r.shrinks.entries; room = r.agreements.room && r.shrinks.room } };
}

impl Rounds {
    /// Nothing was entered.
    pub fn new(alloc: Global) -> Rounds
        ensures agreements { result.agreements ≡ [] }
        ensures shrinks { result.shrinks ≡ [] }
    {
        Rounds {
            agreements: Table::new(alloc),
            shrinks: Table::new(alloc),
        }
    }

    /// The same counts. There may be less room for more.
    ///
    /// # Errors
    ///
    /// `OutOfMemory` where a growth was refused.
    pub fn copy(&self) -> Result<Rounds, OutOfMemory>
        ensures { IfOk result (λ copy. CountsSame self.now copy) }
    {
        let agreements = self.agreements.copy()?;
        let shrinks = self.shrinks.copy()?;
        Ok(Rounds {
            agreements,
            shrinks,
        })
    }

    /// Makes room for one entrance.
    ///
    /// # Errors
    ///
    /// `OutOfMemory` where there was no such room and a growth was refused. Then nothing changed.
    pub fn make_place(&mut self) -> Result<(), OutOfMemory>
        ensures counts { CountsSame self.old self.new }
        ensures room { OnOk result (IsTrue self.new.room) }
        ensures room_lacked { OnErr result (self.old.room ≡ false) }
        ensures unchanged_at_error { OnErr result (self.new ≡ self.old) }
        ensures stays { IsTrue self.old.room → IsTrue self.new.room }
    {
        self.agreements.make_place()?;
        self.shrinks.make_place()
    }

    /// Whether there is room for one entrance.
    pub fn has_place(&self) -> bool
        ensures { result ≡ self.now.room }
    {
        self.agreements.has_place() && self.shrinks.has_place()
    }

    /// How many were entered on a communicator: agreements, or else shrinks.
    pub fn on(&self, agrees: bool, context: Context) -> u64
        ensures { result ≡ rounds_on self.now agrees context.number }
    {
        if agrees {
            return counted(&self.agreements, context);
        }
        counted(&self.shrinks, context)
    }

    /// How many of a topic's kind were entered on its communicator.
    fn at(&self, topic: Topic) -> u64
        ensures { result ≡ rounds_at (rounds_on self.now) topic }
    {
        self.on(topic.purpose.is_agreement(), topic.context)
    }

    /// A topic was entered.
    ///
    /// # Errors
    ///
    /// `OutOfMemory` where there was no room and a growth was refused. Then nothing changed.
    pub fn enter(&mut self, topic: Topic) -> Result<(), OutOfMemory>
        requires { (agrees : Bool) → rounds_on self.old agrees topic.context.number < 2 ^ 63 }
        ensures counts { OnOk result ((agrees : Bool) (c : ℕ) → rounds_on self.new agrees c ≡ rounds_on self.old agrees c + (if is_round_on agrees c topic then 1 else 0)) }
        ensures room_lacked { OnErr result (self.old.room ≡ false) }
        ensures unchanged_at_error { OnErr result (self.new ≡ self.old) }
    {
        if topic.purpose.is_agreement() {
            count_one(&mut self.agreements, topic.context)?;
            return Ok(());
        }
        count_one(&mut self.shrinks, topic.context)?;
        Ok(())
    }

    /// Whether a topic is no round before the last one of its kind that was entered on its communicator.
    pub(crate) fn is_current(&self, topic: Topic) -> bool
        ensures { result ≡ is_current (rounds_on self.now) topic }
    {
        topic.purpose.round() >= self.at(topic).saturating_sub(1)
    }

    /// Whether a row tells of such a topic.
    pub(crate) fn keeps(&self, row: &Row) -> bool
        ensures { result ≡ tells (rounds_on self.now) row.now }
    {
        match row.kind() {
            RowKind::Entered(entrance) => self.is_current(entrance.topic),
            RowKind::Adopted(topic, _) => self.is_current(*topic),
            RowKind::Heard(_, entrance) => self.is_current(entrance.topic),
        }
    }
}

/// How many are counted on a communicator.
fn counted(counts: &Table<u64>, context: Context) -> u64
    ensures { result ≡ count_at counts.now.entries context.number }
{
    counts.get(context).unwrap_or(0)
}

/// One more is counted on a communicator.
fn count_one(counts: &mut Table<u64>, context: Context) -> Result<(), OutOfMemory>
    requires { count_at counts.old.entries context.number < 2 ^ 63 }
    ensures counts { OnOk result ((c : ℕ) → count_at counts.new.entries c ≡ count_at counts.old.entries c + (if context.number == c then 1 else 0)) }
    ensures room_lacked { OnErr result (counts.old.room ≡ false) }
    ensures unchanged_at_error { OnErr result (counts.new ≡ counts.old) }
{
    let more = counted(counts, context) + 1;
    counts.make_place()?;
    counts.put(context, more);
    Ok(())
}
