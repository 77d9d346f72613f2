//! What is left in the shared inboxes, once all ends are in one hand.
ghost use Rattle.std.specs.Prelude.{◌≡◌, ◌≢◌, ◌<◌, ◌≤◌, ◌+◌, ◌++◌, [], ℕ, List, map, slice_get, vec_len};
ghost use Rattle.std.specs.Arc.{arc_value};
ghost use Rattle.crossbeam_queue.specs.Passes.{view, IsSamePass};
ghost use Rattle.ulfm_base.specs.declared.item.Item.{Item as Sent};
ghost use Rattle.ulfm_carrier.specs.declared.inbox.Role.TheVariants as role;
ghost use Rattle.ulfm_carrier.specs.declared.shared_ends.SharedEnds.{SharedEnds as Shared};
ghost use Rattle.ulfm_carrier.specs.Family.{Keeps, IsGathered};
ghost use Rattle.ulfm_base.specs.Items.{items_from};
ghost use Rattle.ulfm_base.specs.Lists.{at};
ghost use Rattle.ulfm_carrier.specs.Inbox.{InboxPass as Pass};
ghost use Rattle.ulfm_carrier.specs.inside.Passes.{after_receipt};
ghost use Rattle.ulfm_carrier.specs.inside.Emptying.{HasAllReceipts, with_outs, with_inlet, AreOpenFrom};
ghost use Rattle.ulfm_carrier.specs.Shared.{pass_name, pushed_with, shared_name, shared_pushed, shared_taken, HasPasses, MaySend, IsReceiver, IsReady, OneCall};

use crate::inbox::{InboxPass, SharedInbox, close, hear, take_all};
use crate::residue::Residue;
use crate::shared_ends::SharedEnds;
use std::mem;
use std::sync::Wait;
use ulfm_base::{Item, WorldRank};

/// Empties the inboxes of all ends of one call. It never answers out of memory.
pub(crate) fn gather_shared<R: Wait>(
    rt: &R,
    mut ends: Vec<SharedEnds>,
) -> (Residue, Vec<SharedEnds>)
    requires family { OneCall (map shared_name ends.items) }
    requires ready { (k : ℕ) (e : Shared) → at ends.items k e → IsReady e }
    ensures same { Keeps shared_name shared_pushed shared_taken ends.items result.1.items }
    ensures residue { IsGathered shared_pushed shared_taken ends.items result.0.inboxes.items }
{
    let alloc = *ends.allocator();
    let first = &mut ends[0];
    let mut inboxes = mem::replace(&mut first.lists, Vec::new(alloc));
    for place in 0..ends.len() {
        let left = gather_one(rt, &mut ends, place);
        inboxes.push_reserved(left);
    }
    (Residue { inboxes }, ends)
}

/// Empties the inbox of one end, to which all ends close: answers what was left in it.
fn gather_one<R: Wait>(rt: &R, ends: &mut Vec<SharedEnds>, place: usize) -> Vec<(WorldRank, Item)>
    requires place { place < vec_len ends.old }
    requires family { OneCall (map shared_name ends.old.items) }
    requires still_open { AreOpenFrom place ends.old.items }
    ensures same { Keeps shared_name shared_pushed shared_taken ends.old.items ends.new.items }
    ensures still_open { AreOpenFrom (place + 1) ends.new.items }
    ensures left { (s : ℕ) (sender receiver : Shared) → at ends.old.items s sender → at ends.old.items place receiver → shared_pushed sender place ≡ shared_taken receiver s ++ items_from s result.items }
    ensures no_others { (s : ℕ) → vec_len ends.old ≤ s → items_from s result.items ≡ [] }
{
    for from in 0..ends.len() {
        let sender = &mut ends[from];
        let receipt = sender.close_to(place);
        let receiver = &mut ends[place];
        receiver.hear(receipt);
    }
    let receiver = &mut ends[place];
    receiver.empty(rt)
}

impl SharedEnds {
    /// Closes the pass of one inbox, which goes on showing what was pushed with it: what is left of it.
    fn close_to(&mut self, dest: usize) -> InboxPass
        requires passes { HasPasses self.old }
        requires dest { dest < vec_len self.old.outs }
        requires sender { MaySend self.old dest }
        ensures rest { self.new ≡ with_outs self.old self.new.outs }
        ensures names { map pass_name self.new.outs.items ≡ map pass_name self.old.outs.items }
        ensures pushed { map pushed_with self.new.outs.items ≡ map pushed_with self.old.outs.items }
        ensures others { (p : ℕ) → p ≢ dest → slice_get self.new.outs.items p ≡ slice_get self.old.outs.items p }
        ensures queue { (out : Pass) → at self.old.outs.items dest out → (result.table_id ≡ out.table_id) × (result.me.1 ≡ []) }
        ensures receipt { ((view result).role ≡ role.Receipt) × ((view result).from ≡ self.old.me.number) × ((view result).pushed ≡ shared_pushed self.old dest) }
    {
        let inbox: &SharedInbox = &self.inboxes[dest];
        close(inbox, &mut self.outs[dest])
    }

    /// Takes in what is left of a sender that has closed.
    fn hear(&mut self, receipt: InboxPass)
        requires passes { HasPasses self.old }
        requires receiver { IsReceiver self.old }
        requires receipt { (receipt.table_id ≡ self.old.inlet.table_id) × (receipt.me.1 ≡ []) × ((view receipt).role ≡ role.Receipt) }
        ensures rest { self.new ≡ with_inlet self.old self.new.inlet }
        ensures inlet { IsSamePass self.old.inlet self.new.inlet }
        ensures receipts { view self.new.inlet ≡ after_receipt (view self.old.inlet) (view receipt) }
    {
        let inbox: &SharedInbox = &self.inboxes[self.me.number as usize];
        hear(inbox, &mut self.inlet, receipt);
    }

    /// Takes all that is left in the rank's own inbox, once all ends have closed to it.
    fn empty<R: Wait>(&mut self, rt: &R) -> Vec<(WorldRank, Item)>
        requires passes { HasPasses self.old }
        requires receiver { IsReceiver self.old }
        requires receipts { HasAllReceipts (view self.old.inlet) }
        ensures rest { (self.new.me ≡ self.old.me) × (arc_value self.new.inboxes ≡ arc_value self.old.inboxes) × (self.new.outs ≡ self.old.outs) }
        ensures inlet { IsSamePass self.old.inlet self.new.inlet }
        ensures taken { (s : ℕ) → shared_taken self.new s ≡ shared_taken self.old s }
        ensures left { (k : ℕ) (x : ℕ × List Sent) → at (view self.old.inlet).receipts k x → x.1 ≡ shared_taken self.old x.0 ++ items_from x.0 result.items }
        ensures no_others { (s : ℕ) → vec_len self.old.outs ≤ s → items_from s result.items ≡ [] }
    {
        let alloc = *self.left.allocator();
        let mut left = mem::replace(&mut self.left, Vec::new(alloc));
        let inbox: &SharedInbox = &self.inboxes[self.me.number as usize];
        take_all(rt, inbox, &mut self.inlet, &mut left);
        self.gathered = Some(left.len());
        left
    }
}
