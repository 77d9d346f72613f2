//! What C is told of the first item in a ring.
ghost use Rattle.std.specs.Prelude.{◌≡◌};
ghost use Rattle.ulfm_c.specs.NextItem.{bare_item, next_item, entry_item};

use ulfm_base::{Purpose, Topic};
use ulfm_carrier::Head;

/// What is told of the first item in a ring.
#[repr(C)]
#[derive(Clone, Copy)]
pub struct CNextItem {
    /// Its kind, or 0 where there is none.
    pub kind: u32,
    /// Its tag.
    pub tag: u32,
    /// Its communicator.
    pub comm: u64,
    /// How many bytes.
    pub length: u64,
    /// Which shrink or agreement.
    pub round: u64,
}

const _: () = prove!(size_of::<CNextItem>() == 32);

/// An item without a tag, a length and a round.
fn bare_item(kind: u32, comm: u64) -> CNextItem
    ensures { result ≡ bare_item kind comm }
{
    CNextItem {
        kind,
        tag: 0,
        comm,
        length: 0,
        round: 0,
    }
}

/// What is told of an entry.
fn entry_item(topic: Topic) -> CNextItem
    ensures { result ≡ entry_item topic }
{
    let comm = topic.context.number;
    match topic.purpose {
        Purpose::Shrink { round } => CNextItem {
            round,
            ..bare_item(4, comm)
        },
        Purpose::Agree { round } => CNextItem {
            round,
            ..bare_item(5, comm)
        },
    }
}

/// What is told of the first item in a ring, or that there is none.
pub(crate) fn next_item(head: Option<Head>) -> CNextItem
    ensures { result ≡ next_item head }
{
    match head {
        None => bare_item(0, 0),
        Some(
            Head::Letter {
                context,
                tag,
                length,
            },
        ) => CNextItem {
            tag: tag.number as u32,
            length: length as u64,
            ..bare_item(1, context.number)
        },
        Some(Head::Gone) => bare_item(2, 0),
        Some(Head::Revoke(context)) => bare_item(3, context.number),
        Some(Head::Enter(topic)) => entry_item(topic),
    }
}
