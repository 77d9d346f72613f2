//! A rank's own inbox: what it pushes to itself, and what it takes, while one pass of it is that of sender and receiver.
ghost use Rattle.std.specs.Prelude.{◌≡◌, ◌++◌, ◌∷◌, [], MatchOption, MatchResult};
ghost use Rattle.crossbeam_queue.specs.Fifo.{Held};
ghost use Rattle.crossbeam_queue.specs.Passes.{view, IsPassOf, IsSamePass, ruled_capacity};
ghost use Rattle.ulfm_base.specs.Items.{ComesFrom};
ghost use Rattle.ulfm_carrier.specs.inside.Passes.{in_role, owner, returned, TakesOne};
ghost use Rattle.ulfm_carrier.specs.Inbox.{OwnIsTakenAndHeld};
ghost use Rattle.ulfm_carrier.specs.declared.inbox.Role.TheVariants as role;

use crate::inbox::{InboxPass, PassView, SharedInbox};
use crossbeam_queue::protocol::{Join, Lesson, Outcome, Split};
use std::sync::Wait;
use ulfm_base::{Item, WorldRank};

struct PushesOwn;

impl Outcome<(WorldRank, Item), PassView> for PushesOwn {
    ghost use Rattle.ulfm_carrier.specs.inside.Passes.{after_push};

    ghost then = { λ v x w. w ≡ after_push v x.1 };
}

impl Lesson<(WorldRank, Item), PassView> for PushesOwn {
    ghost use Rattle.ulfm_carrier.specs.Inbox.{OwnIsTakenAndHeld};

    ghost fact = { OwnIsTakenAndHeld };
}

struct TakesOwn;

impl Outcome<(WorldRank, Item), PassView> for TakesOwn {
    ghost use Rattle.ulfm_carrier.specs.inside.Passes.{TakesOne};

    ghost then = { TakesOne };
}

impl Lesson<(WorldRank, Item), PassView> for TakesOwn {
    ghost use Rattle.ulfm_carrier.specs.Inbox.{OwnIsTakenAndHeld};

    ghost fact = { OwnIsTakenAndHeld };
}

struct Lends;

impl Split<PassView> for Lends {
    ghost use Rattle.ulfm_carrier.specs.inside.Passes.{in_role};
    ghost use Rattle.ulfm_carrier.specs.declared.inbox.Role.TheVariants as role;

    ghost left = { in_role role.Spent };

    ghost right = { in_role role.Receiver };
}

struct Owns;

impl Join<PassView> for Owns {
    ghost use Rattle.ulfm_carrier.specs.inside.Passes.{owner};
    ghost use Rattle.ulfm_carrier.specs.Inbox.{spent};

    ghost both = { owner };

    ghost spent = { spent };
}

struct Parts;

impl Split<PassView> for Parts {
    ghost use Rattle.ulfm_carrier.specs.inside.Passes.{in_role};
    ghost use Rattle.ulfm_carrier.specs.declared.inbox.Role.TheVariants as role;

    ghost left = { in_role role.Sender };

    ghost right = { in_role role.Receiver };
}

struct Returns;

impl Join<PassView> for Returns {
    ghost use Rattle.ulfm_carrier.specs.inside.Passes.{returned};
    ghost use Rattle.ulfm_carrier.specs.Inbox.{spent};

    ghost both = { returned };

    ghost spent = { spent };
}

/// A rank's own sender has the receiver's pass too.
fn unite(inbox: &SharedInbox, own: &mut InboxPass, inlet: &mut InboxPass)
    requires own { IsPassOf inbox.now own.old × ((view own.old).role ≡ role.Sender) }
    requires inlet { IsPassOf inbox.now inlet.old × ((view inlet.old).role ≡ role.Receiver) }
    ensures own { IsSamePass own.old own.new × (view own.new ≡ owner (view own.old) (view inlet.old)) }
    ensures inlet { IsSamePass inlet.old inlet.new × (view inlet.new ≡ in_role role.Spent (view inlet.old)) }
{
    let lent = inbox.another::<Lends>(inlet);
    inbox.absorb::<Owns>(own, lent);
}

/// A rank's own sender gives the receiver's pass back.
fn divide(inbox: &SharedInbox, own: &mut InboxPass, inlet: &mut InboxPass)
    requires own { IsPassOf inbox.now own.old × ((view own.old).role ≡ role.Owner) }
    requires inlet { IsPassOf inbox.now inlet.old × ((view inlet.old).role ≡ role.Spent) }
    ensures own { IsSamePass own.old own.new × (view own.new ≡ in_role role.Sender (view own.old)) }
    ensures inlet { IsSamePass inlet.old inlet.new × (view inlet.new ≡ returned (view inlet.old) (view own.old)) }
{
    let part = inbox.another::<Parts>(own);
    inbox.absorb::<Returns>(inlet, part);
}

/// Pushes an item to the rank's own inbox. It comes back only where what the rank pushed to itself and didn't take, with items
/// of other ranks, can fill the inbox.
pub(crate) fn send_own<R: Wait>(
    rt: &R,
    inbox: &SharedInbox,
    own: &mut InboxPass,
    inlet: &mut InboxPass,
    source: WorldRank,
    item: Item,
) -> Result<(), Item>
    requires own { IsPassOf inbox.now own.old × ((view own.old).role ≡ role.Sender) × ((view own.old).from ≡ source.number) }
    requires inlet { IsPassOf inbox.now inlet.old × ((view inlet.old).role ≡ role.Receiver) }
    requires item { ComesFrom source.number item }
    ensures own { IsSamePass own.old own.new × ((view own.new).role ≡ role.Sender) × ((view own.new).from ≡ (view own.old).from) }
    ensures inlet { IsSamePass inlet.old inlet.new × (view inlet.new ≡ view inlet.old) }
    ensures pushed { MatchResult result (λ _. (view own.new).pushed ≡ (view own.old).pushed ++ item ∷ [])
        (λ back. (back ≡ item) × ((view own.new).pushed ≡ (view own.old).pushed) × Held (ruled_capacity inbox.now) (OwnIsTakenAndHeld (owner (view own.old) (view inlet.old)))) }
{
    unite(inbox, own, inlet);
    let pushed = inbox.push_as::<PushesOwn, R>(rt, own, (source, item));
    divide(inbox, own, inlet);
    match pushed {
        Ok(()) => Ok(()),
        Err((_, refused)) => Err(refused),
    }
}

/// Takes the oldest item out of the rank's own inbox. None is found only where all that it had pushed to itself was taken.
pub(crate) fn receive_own<R: Wait>(
    rt: &R,
    inbox: &SharedInbox,
    own: &mut InboxPass,
    inlet: &mut InboxPass,
) -> Option<(WorldRank, Item)>
    requires own { IsPassOf inbox.now own.old × ((view own.old).role ≡ role.Sender) }
    requires inlet { IsPassOf inbox.now inlet.old × ((view inlet.old).role ≡ role.Receiver) }
    ensures own { IsSamePass own.old own.new × ((view own.new).role ≡ role.Sender) × ((view own.new).from ≡ (view own.old).from) × ((view own.new).pushed ≡ (view own.old).pushed) }
    ensures inlet { IsSamePass inlet.old inlet.new }
    ensures taken { MatchOption result ((view inlet.new ≡ view inlet.old) × Held 0 (OwnIsTakenAndHeld (owner (view own.old) (view inlet.old))))
        (λ found. TakesOne (view inlet.old) found (view inlet.new)) }
{
    unite(inbox, own, inlet);
    let found = inbox.pop_as::<TakesOwn, R>(rt, own);
    divide(inbox, own, inlet);
    found
}
