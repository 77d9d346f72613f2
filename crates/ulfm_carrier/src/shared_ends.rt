//! A rank's passes of the inboxes of all ranks, each of which all senders share.
ghost use Rattle.std.specs.Prelude.{◌≡◌};

use crate::emptying::gather_shared;
use crate::ends::Ends;
use crate::inbox::{InboxPass, SharedInbox, send};
use crate::own_inbox::{receive_own, send_own};
use crate::residue::Residue;
use std::collections::LinkedList;
use std::sync::{Arc, Wait};
use ulfm_base::{Item, WorldRank};

/// What tells the ends of a rank from all others. No value of it is made.
pub struct SharedName {
    /// The number of the rank.
    pub place: u8,
    /// The passes by which it pushes, by the receivers.
    pub outs: LinkedList<InboxPass>,
    /// The pass by which it pops.
    pub inlet: InboxPass,
}

/// A rank's passes of the inboxes of all ranks. It may move to a thread of its own.
#[derive(Drop)]
pub struct SharedEnds {
    pub(crate) me: WorldRank,
    pub(crate) inboxes: Arc<Vec<SharedInbox>>,
    /// The sender's pass of each inbox.
    pub(crate) outs: Vec<InboxPass>,
    /// The receiver's pass of the rank's own inbox.
    pub(crate) inlet: InboxPass,
    /// After a gathering: how many items it took.
    pub(crate) gathered: Option<usize>,
    /// Room for what is left in the rank's inbox at the end.
    pub(crate) left: Vec<(WorldRank, Item)>,
    /// Room for a list of what is left in each inbox.
    pub(crate) lists: Vec<Vec<(WorldRank, Item)>>,
}

impl Ends for SharedEnds {
    ghost use Rattle.std.specs.Prelude.{◌≡◌, ◌≢◌, ◌<◌, ◌≤◌, ◌++◌, ◌∷◌, [], ℕ, map, vec_len, MatchResult, MatchOption, OnErr, IfNone};
    ghost use Rattle.crossbeam_queue.specs.Fifo.{Held};
    ghost use Rattle.ulfm_carrier.specs.Family.{Keeps, IsGathered};
    ghost use Rattle.ulfm_base.specs.Items.{ComesFrom};
    ghost use Rattle.ulfm_base.specs.Lists.{at};
    ghost use Rattle.ulfm_carrier.specs.Shared.{shared_name, shared_pushed, shared_taken, inbox_capacity, OwnIsTakenAndHeldAt, IsReady, OneCall};

    type Name = SharedName;

    ghost name = { shared_name };

    ghost one_call = { OneCall };

    ghost place = { λ e. e.me.number };

    ghost count = { λ e. vec_len e.outs };

    ghost pushed = { shared_pushed };

    ghost taken = { shared_taken };

    ghost ready = { IsReady };

    fn me(&self) -> WorldRank {
        self.me
    }

    // The clauses of the trait and, beside them, that an item to the rank itself is refused only where its inbox can have
    // held as many items as it can, none of them of other ranks than those of its call. Of an item to another rank no
    // clause says more.
    fn push<R: Wait>(&mut self, rt: &R, dest: u8, item: Item) -> Result<(), Item>
        requires ready { IsReady self.old }
        requires dest { dest < vec_len self.old.outs }
        requires item { ComesFrom self.old.me.number item }
        ensures name { (shared_name self.new ≡ shared_name self.old) × (self.new.me.number ≡ self.old.me.number) × (vec_len self.new.outs ≡ vec_len self.old.outs) × IsReady self.new }
        ensures taken { (p : ℕ) → shared_taken self.new p ≡ shared_taken self.old p }
        ensures others { (p : ℕ) → p ≢ dest → shared_pushed self.new p ≡ shared_pushed self.old p }
        ensures pushed { MatchResult result (λ _. shared_pushed self.new dest ≡ shared_pushed self.old dest ++ item ∷ []) (λ back. (back ≡ item) × (shared_pushed self.new dest ≡ shared_pushed self.old dest)) }
        ensures own { OnErr result (dest ≡ self.old.me.number → Held (inbox_capacity self.old dest) (OwnIsTakenAndHeldAt self.old)) }
        ensures inboxes { self.new.inboxes ≡ self.old.inboxes }
    {
        let inbox: &SharedInbox = &self.inboxes[dest as usize];
        let out = &mut self.outs[dest as usize];
        if dest == self.me.number {
            return send_own(rt, inbox, out, &mut self.inlet, self.me, item);
        }
        send(rt, inbox, out, self.me, item)
    }

    // The clauses of the trait and, beside them, that nothing is found only where all that the rank pushed to itself was
    // taken. Of what other ranks pushed no clause says so.
    fn pop<R: Wait>(&mut self, rt: &R) -> Option<(WorldRank, Item)>
        requires ready { IsReady self.old }
        ensures name { (shared_name self.new ≡ shared_name self.old) × (self.new.me.number ≡ self.old.me.number) × (vec_len self.new.outs ≡ vec_len self.old.outs) × IsReady self.new }
        ensures pushed { (p : ℕ) → shared_pushed self.new p ≡ shared_pushed self.old p }
        ensures sender { MatchOption result (Unit {0}) (λ found. (found.0.number < vec_len self.old.outs) × ComesFrom found.0.number found.1) }
        ensures taken { MatchOption result ((p : ℕ) → shared_taken self.new p ≡ shared_taken self.old p)
            (λ found. (shared_taken self.new found.0.number ≡ shared_taken self.old found.0.number ++ found.1 ∷ []) × ((p : ℕ) → p ≢ found.0.number → shared_taken self.new p ≡ shared_taken self.old p)) }
        ensures own { IfNone result (shared_pushed self.old self.old.me.number ≡ shared_taken self.old self.old.me.number) }
        ensures no_others { IfNone result ((p : ℕ) → vec_len self.old.outs ≤ p → shared_taken self.old p ≡ []) }
        ensures inboxes { self.new.inboxes ≡ self.old.inboxes }
    {
        let inbox: &SharedInbox = &self.inboxes[self.me.number as usize];
        let own = &mut self.outs[self.me.number as usize];
        receive_own(rt, inbox, own, &mut self.inlet)
    }

    fn gather<R: Wait>(rt: &R, ends: Vec<SharedEnds>) -> (Residue, Vec<SharedEnds>)
        requires family { OneCall (map shared_name ends.items) }
        requires ready { (k : ℕ) (e : _) → at ends.items k e → IsReady e }
        ensures same { Keeps shared_name shared_pushed shared_taken ends.items result.1.items }
        ensures residue { IsGathered shared_pushed shared_taken ends.items result.0.inboxes.items }
    {
        gather_shared(rt, ends)
    }
}
