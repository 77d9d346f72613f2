//! What a rank tells many others.
ghost use Rattle.std.specs.Prelude.{◌≡◌};
ghost use Rattle.ulfm_log.specs.Outboxes.{item_of_word};

use ulfm_base::{Context, Entrance, Item};

/// Word of a revocation or of an entrance. It is copied without memory.
#[derive(Clone, Copy)]
pub enum Word {
    Revoke(Context),
    Enter(Entrance),
}

impl Word {
    /// The item that brings it.
    pub(crate) fn item(self) -> Item
        ensures { result ≡ item_of_word self }
    {
        match self {
            Word::Revoke(context) => Item::Revoke(context),
            Word::Enter(entrance) => Item::Enter(entrance),
        }
    }
}
