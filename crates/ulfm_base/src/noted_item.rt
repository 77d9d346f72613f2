//! Items as a log keeps them.
ghost use Rattle.std.specs.Prelude.{◌≡◌};

use crate::error::OutOfMemory;
use crate::item::Item;
use crate::item_kind::ItemKind;
use crate::noted_letter::NotedLetter;
use std::marker::Model;

/// An item in a log, without the bytes of a letter's body. Contracts see the whole item.
#[derive(Drop)]
pub struct NotedItem {
    kind: ItemKind,
}

impl Model for NotedItem {
    ghost use Rattle.ulfm_base.specs.declared.item.Item.{Item};
    ghost use Rattle.ulfm_base.specs.Noted.{item_of};

    ghost Value = { Item };

    ghost view = { λ n. item_of n.kind };
}

impl Clone for NotedItem {
    ghost is_clone = { λ x y. y ≡ x };

    fn clone(&self) -> Result<NotedItem, OutOfMemory> {
        let kind = match &self.kind {
            ItemKind::Letter(letter) => ItemKind::Letter(letter.clone()?),
            ItemKind::Gone => ItemKind::Gone,
            ItemKind::Revoke(context) => ItemKind::Revoke(*context),
            ItemKind::Enter(entrance) => ItemKind::Enter(*entrance),
        };
        Ok(NotedItem { kind })
    }
}

impl NotedItem {
    ghost use Rattle.ulfm_base.specs.Noted.{item_of};

    /// What a log keeps of an item. It never answers out of memory.
    pub fn of(item: &Item) -> NotedItem
        ensures { result ≡ item.now }
    {
        let kind = match item {
            Item::Letter(letter) => ItemKind::Letter(NotedLetter::of(letter)),
            Item::Gone => ItemKind::Gone,
            Item::Revoke(context) => ItemKind::Revoke(*context),
            Item::Enter(entrance) => ItemKind::Enter(*entrance),
        };
        NotedItem { kind }
    }

    /// Its kind.
    pub fn kind(&self) -> &ItemKind
        ensures { self.now ≡ item_of result.now }
    {
        &self.kind
    }
}
