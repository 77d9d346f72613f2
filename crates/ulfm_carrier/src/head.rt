//! What is told of an item that stays in its ring.
ghost use Rattle.std.specs.Prelude.{◌≡◌};
ghost use Rattle.ulfm_carrier.specs.Head.{head_of};

use ulfm_base::{Context, Item, Tag, Topic};

/// What is told of an item: all but its source, the bytes of its body, and what its sender brings into a shrink or an agreement.
#[derive(Clone, Copy)]
pub enum Head {
    /// A message.
    Letter {
        context: Context,
        tag: Tag,
        length: usize,
    },
    /// The notice that its sender stopped.
    Gone,
    /// The notice that a context is revoked.
    Revoke(Context),
    /// That its sender entered a shrink or an agreement.
    Enter(Topic),
}

impl Head {
    /// What is told of an item.
    pub fn of(item: &Item) -> Head
        ensures { result ≡ head_of item.now }
    {
        match item {
            Item::Letter(letter) => Head::Letter {
                context: letter.envelope.context,
                tag: letter.envelope.tag,
                length: letter.body.len(),
            },
            Item::Gone => Head::Gone,
            Item::Revoke(context) => Head::Revoke(*context),
            Item::Enter(entrance) => Head::Enter(entrance.topic),
        }
    }
}
