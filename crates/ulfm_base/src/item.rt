//! What ranks hand to one another.

ghost use Rattle.std.specs.Prelude.{◌≡◌};

use crate::context::Context;
use crate::entrance::Entrance;
use crate::envelope::Letter;
use crate::error::OutOfMemory;

/// What stands in an outbox and in an inbox.
#[derive(Drop)]
pub enum Item {
    /// A message.
    Letter(Letter),
    /// The notice that its sender stopped.
    Gone,
    /// The notice that a context is revoked.
    Revoke(Context),
    /// That its sender entered a shrink or an agreement.
    Enter(Entrance),
}

const _: () = prove!(size_of::<Item>() <= 56);

impl Clone for Item {
    ghost is_clone = { λ x y. y ≡ x };

    fn clone(&self) -> Result<Item, OutOfMemory> {
        match self {
            Item::Letter(letter) => Ok(Item::Letter(letter.clone()?)),
            Item::Gone => Ok(Item::Gone),
            Item::Revoke(context) => Ok(Item::Revoke(*context)),
            Item::Enter(entrance) => Ok(Item::Enter(*entrance)),
        }
    }
}
