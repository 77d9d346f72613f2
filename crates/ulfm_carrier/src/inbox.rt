//! An inbox that all senders share.
ghost use Rattle.std.specs.Prelude.{◌≡◌, ◌<◌, ◌≤◌, [], IfOk, MatchOption, MatchResult, vec_capacity};
ghost use Rattle.crossbeam_queue.specs.Fifo.{Held};
ghost use Rattle.crossbeam_queue.specs.Passes.{view, IsPassOf, IsSamePass, ruled_capacity};
ghost use Rattle.ulfm_base.specs.Items.{ComesFrom};
ghost use Rattle.ulfm_carrier.specs.Inbox.{receiver, ReceiptsAreTakenAndHeld};
ghost use Rattle.ulfm_carrier.specs.inside.Passes.{sender, after_push, after_all, one_more, in_role, after_receipt, TakesOne};
ghost use Rattle.ulfm_carrier.specs.inside.Emptying.{ReceiptsAreTaken, HasAllReceipts, AllBelow};
ghost use Rattle.ulfm_carrier.specs.declared.inbox.Role.TheVariants as role;

use crossbeam_queue::protocol::{Join, Lesson, Outcome, Protocol, Split};
use crossbeam_queue::{Pass, RuledArrayQueue};
use std::alloc::{AllocError, Global};
use std::collections::LinkedList;
use std::sync::Wait;
use ulfm_base::{Item, WorldRank};

/// What a pass of an inbox is for. No value of it is made.
pub enum Role {
    Spent,
    Sender,
    /// What is left of a sender that has closed.
    Receipt,
    Receiver,
    /// A sender that is the receiver too.
    Owner,
}

/// What a pass of an inbox knows. No value of it is made.
pub struct PassView {
    pub role: Role,
    /// A sender's number.
    pub from: u8,
    /// What a sender pushed.
    pub pushed: LinkedList<Item>,
    /// How many senders the receiver made.
    pub made: u8,
    /// What the receiver took.
    pub taken: LinkedList<(WorldRank, Item)>,
    /// What the receiver was told of closed senders: their numbers, and what they pushed.
    pub receipts: LinkedList<(u8, LinkedList<Item>)>,
}

/// The rule of an inbox: what a sender pushed is what was taken of it and then what is held of it.
pub struct InOrder;

impl Protocol<(WorldRank, Item), PassView> for InOrder {
    ghost use Rattle.ulfm_carrier.specs.Inbox.{InboxRule, receiver};

    ghost holds = { InboxRule };

    ghost first = { receiver };
}

/// An inbox under its rule.
pub type SharedInbox = RuledArrayQueue<(WorldRank, Item), PassView, InOrder>;

/// A pass of an inbox, of a sender or of the receiver. It has no bytes.
pub type InboxPass = Pass<(WorldRank, Item), PassView>;

struct Pushes;

impl Outcome<(WorldRank, Item), PassView> for Pushes {
    ghost use Rattle.ulfm_carrier.specs.inside.Passes.{after_push};

    ghost then = { λ v x w. w ≡ after_push v x.1 };
}

// A sender alone learns nothing of what the inbox holds.
impl Lesson<(WorldRank, Item), PassView> for Pushes {
    ghost use Rattle.std.specs.Prelude.{⊤};

    ghost fact = { λ v held. ⊤ };
}

struct Takes;

impl Outcome<(WorldRank, Item), PassView> for Takes {
    ghost use Rattle.ulfm_carrier.specs.inside.Passes.{TakesOne};

    ghost then = { TakesOne };
}

impl Lesson<(WorldRank, Item), PassView> for Takes {
    ghost use Rattle.ulfm_carrier.specs.Inbox.{ReceiptsAreTakenAndHeld};

    ghost fact = { ReceiptsAreTakenAndHeld };
}

struct Makes;

impl Split<PassView> for Makes {
    ghost use Rattle.ulfm_carrier.specs.inside.Passes.{one_more, sender};

    ghost left = { one_more };

    ghost right = { λ v. sender v.made };
}

struct Closes;

impl Split<PassView> for Closes {
    ghost use Rattle.ulfm_carrier.specs.inside.Passes.{in_role};
    ghost use Rattle.ulfm_carrier.specs.declared.inbox.Role.TheVariants as role;

    ghost left = { in_role role.Spent };

    ghost right = { in_role role.Receipt };
}

struct Tells;

impl Join<PassView> for Tells {
    ghost use Rattle.ulfm_carrier.specs.inside.Passes.{after_receipt};
    ghost use Rattle.ulfm_carrier.specs.Inbox.{spent};

    ghost both = { after_receipt };

    ghost spent = { spent };
}

/// An empty inbox, and the pass of its receiver.
pub(crate) fn new_inbox(
    alloc: Global,
    capacity: usize,
) -> Result<(SharedInbox, InboxPass), AllocError>
    requires { 0 < capacity }
    ensures { IfOk result (λ made. (ruled_capacity made.0 ≡ capacity) × IsPassOf made.0 made.1 × (view made.1 ≡ receiver)) }
{
    SharedInbox::ruled(alloc, capacity)
}

/// The pass of the next sender.
pub(crate) fn next_sender(inbox: &SharedInbox, inlet: &mut InboxPass) -> InboxPass
    requires { IsPassOf inbox.now inlet.old × ((view inlet.old).role ≡ role.Receiver) }
    ensures inlet { IsSamePass inlet.old inlet.new × (view inlet.new ≡ one_more (view inlet.old)) }
    ensures out { IsPassOf inbox.now result × (view result ≡ sender (view inlet.old).made) }
{
    inbox.another::<Makes>(inlet)
}

/// Pushes an item.
pub(crate) fn send<R: Wait>(
    rt: &R,
    inbox: &SharedInbox,
    out: &mut InboxPass,
    source: WorldRank,
    item: Item,
) -> Result<(), Item>
    requires out { IsPassOf inbox.now out.old × ((view out.old).role ≡ role.Sender) × ((view out.old).from ≡ source.number) }
    requires item { ComesFrom source.number item }
    ensures out { IsSamePass out.old out.new }
    ensures pushed { MatchResult result (λ _. view out.new ≡ after_push (view out.old) item)
        (λ back. (back ≡ item) × (view out.new ≡ view out.old)) }
{
    match inbox.push_as::<Pushes, R>(rt, out, (source, item)) {
        Ok(()) => Ok(()),
        Err((_, back)) => Err(back),
    }
}

/// Takes the oldest item. None is found only where at one step of the call the inbox was empty, so that all that closed
/// senders pushed was taken.
fn receive<R: Wait>(rt: &R, inbox: &SharedInbox, inlet: &mut InboxPass) -> Option<(WorldRank, Item)>
    requires { IsPassOf inbox.now inlet.old × ((view inlet.old).role ≡ role.Receiver) }
    ensures inlet { IsSamePass inlet.old inlet.new }
    ensures taken { MatchOption result ((view inlet.new ≡ view inlet.old) × Held 0 (ReceiptsAreTakenAndHeld (view inlet.old)))
        (λ found. TakesOne (view inlet.old) found (view inlet.new)) }
{
    inbox.pop_as::<Takes, R>(rt, inlet)
}

/// A sender closes: what is left of it.
pub(crate) fn close(inbox: &SharedInbox, out: &mut InboxPass) -> InboxPass
    requires { IsPassOf inbox.now out.old × ((view out.old).role ≡ role.Sender) }
    ensures out { IsSamePass out.old out.new × (view out.new ≡ in_role role.Spent (view out.old)) }
    ensures receipt { IsPassOf inbox.now result × (view result ≡ in_role role.Receipt (view out.old)) }
{
    inbox.another::<Closes>(out)
}

/// The receiver is told what a closed sender pushed.
pub(crate) fn hear(inbox: &SharedInbox, inlet: &mut InboxPass, receipt: InboxPass)
    requires inlet { IsPassOf inbox.now inlet.old × ((view inlet.old).role ≡ role.Receiver) }
    requires receipt { IsPassOf inbox.now receipt × ((view receipt).role ≡ role.Receipt) }
    ensures inlet { IsSamePass inlet.old inlet.new }
    ensures receipts { view inlet.new ≡ after_receipt (view inlet.old) (view receipt) }
{
    inbox.absorb::<Tells>(inlet, receipt);
}

/// Takes all that the inbox holds, once all its senders have closed.
pub(crate) fn take_all<R: Wait>(
    rt: &R,
    inbox: &SharedInbox,
    inlet: &mut InboxPass,
    left: &mut Vec<(WorldRank, Item)>,
)
    requires inlet { IsPassOf inbox.now inlet.old × ((view inlet.old).role ≡ role.Receiver) }
    requires receipts { HasAllReceipts (view inlet.old) }
    requires left { left.old.items ≡ [] }
    requires room { ruled_capacity inbox.now ≤ vec_capacity left.old }
    ensures inlet { IsSamePass inlet.old inlet.new }
    ensures taken { view inlet.new ≡ after_all (view inlet.old) left.new.items }
    ensures all { ReceiptsAreTaken (view inlet.new) }
    ensures senders { AllBelow (view inlet.old).made left.new.items }
{
    let count = inbox.len_as::<Takes, R>(rt, inlet);
    for _ in 0..count {
        let Some(item) = receive(rt, inbox, inlet) else {
            return;
        };
        left.push_reserved(item);
    }
}
