//! Items without their source.
//!
//! The ring's place gives the source back. Rank 0 stands in its place, so that the rest needn't be copied once more.
ghost use Rattle.std.specs.Prelude.{◌≡◌};
ghost use Rattle.ulfm_carrier.specs.Carried.{signed_by, carried_of, item_from};

use ulfm_base::{Envelope, Item, WorldRank};

/// The source that stands in an item without one.
const BLANK: WorldRank = WorldRank { number: 0 };

/// What a ring carries: an item whose source is blank, since it is the rank at the ring's other end.
#[derive(Drop)]
pub struct Carried {
    pub(crate) item: Item,
}

impl Carried {
    /// The item without its source.
    pub fn of(item: Item) -> Carried
        ensures { result ≡ carried_of item }
    {
        let mut item = item;
        sign(&mut item, BLANK);
        Carried { item }
    }

    /// The item that this is, where it came from a rank.
    pub fn from(self, source: WorldRank) -> Item
        ensures { result ≡ item_from source self }
    {
        let mut item = self.item;
        sign(&mut item, source);
        item
    }
}

/// Gives an item this source, where it has one.
// The envelope is written whole: where a part of it is, the rest moves in words that overlap, and each waits for the one before.
#[inline(always)]
pub(crate) fn sign(item: &mut Item, source: WorldRank)
    ensures { item.new ≡ signed_by source item.old }
{
    if let Item::Letter(letter) = item {
        let Envelope { context, tag, .. } = letter.envelope;
        letter.envelope = Envelope {
            context,
            source,
            tag,
        };
    }
}
