//! Letters of one byte, and what a gathering gives of them.
ghost use Rattle.std.specs.Prelude.{IfOk};
ghost use Rattle.ulfm_base.specs.Items.{ComesFrom};

use std::alloc::Global;
use ulfm_base::{Body, CallError, Context, Envelope, Item, Letter, Tag, WorldRank};
use ulfm_carrier::Residue;

// A letter of one byte.
pub(crate) fn letter(alloc: Global, source: u8, byte: u8) -> Result<Item, CallError>
    ensures { IfOk result (λ item. ComesFrom source item) }
{
    if source >= 8 {
        return Err(CallError::BadRank);
    }
    let envelope = Envelope {
        context: Context::WORLD,
        source: WorldRank { number: source },
        tag: Tag::new(5)?,
    };
    let body = Body::from_bytes(alloc, &[byte])?;
    Ok(Item::Letter(Letter { envelope, body }))
}

// The byte of a letter of one byte, 0 of anything else.
pub(crate) fn byte_of(item: &Item) -> u8 {
    match item {
        Item::Letter(letter) => letter.body.as_bytes().first().copied().unwrap_or(0),
        _ => 0,
    }
}

// Whether these letters are left, by their receivers, and no more.
pub(crate) fn is_left(residue: &Residue, wants: &[&[(u8, u8)]]) -> bool {
    if residue.inboxes.len() != wants.len() {
        return false;
    }
    for (inbox, want) in residue.inboxes.iter().zip(wants) {
        if !are_letters(inbox, want) {
            return false;
        }
    }
    true
}

// Whether these are the letters of an inbox, in this order.
fn are_letters(inbox: &[(WorldRank, Item)], wants: &[(u8, u8)]) -> bool {
    if inbox.len() != wants.len() {
        return false;
    }
    for ((source, item), (number, byte)) in inbox.iter().zip(wants) {
        if source.number != *number || byte_of(item) != *byte {
            return false;
        }
    }
    true
}
