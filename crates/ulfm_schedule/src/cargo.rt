//! What an item brings.
ghost use Rattle.std.specs.Prelude.{◌≡◌, ◌++◌, ℕ, OnOk, string_bytes};
ghost use Rattle.ulfm_schedule.specs.Words.{cargo_text, item_text};

use std::alloc::AllocError;
use ulfm_base::{Context, Item, Purpose, Tag};

/// What an item brings from one rank to another.
#[derive(Clone, Copy, Debug, PartialEq, Eq)]
pub enum Cargo {
    /// A message, with so many bytes.
    Message(Tag, usize, Context),
    /// The notice that its sender stopped.
    Notice,
    /// That a communicator is revoked.
    Revocation(Context),
    /// That its sender entered the shrink of a communicator.
    Shrink(Context),
    /// That its sender entered an agreement on a communicator.
    Agreement(Context),
}

impl Cargo {
    /// Of an item.
    pub fn of(item: &Item) -> Cargo
        ensures { (s : ℕ) → cargo_text s result ≡ item_text s item.now }
    {
        match item {
            Item::Letter(letter) => Cargo::Message(
                letter.envelope.tag,
                letter.body.len(),
                letter.envelope.context,
            ),
            Item::Gone => Cargo::Notice,
            Item::Revoke(context) => Cargo::Revocation(*context),
            Item::Enter(entrance) => match entrance.topic.purpose {
                Purpose::Shrink { .. } => Cargo::Shrink(entrance.topic.context),
                Purpose::Agree { .. } => Cargo::Agreement(entrance.topic.context),
            },
        }
    }
}

/// Puts the words of what goes out from the rank `s`.
///
/// # Errors
///
/// `AllocError` where a growth was refused.
pub fn push_cargo(text: &mut String, s: u8, cargo: Cargo) -> Result<(), AllocError>
    ensures { OnOk result (string_bytes text.new ≡ string_bytes text.old ++ cargo_text s cargo) }
{
    match cargo {
        Cargo::Message(tag, length, comm) => write!(
            text,
            "message tag {} length {length} comm {}",
            tag.number, comm.number
        ),
        Cargo::Notice => write!(text, "notice that {s} stopped"),
        Cargo::Revocation(comm) => write!(text, "revocation of comm {}", comm.number),
        Cargo::Shrink(comm) => write!(text, "entry into the shrink of comm {}", comm.number),
        Cargo::Agreement(comm) => write!(text, "entry into an agreement on comm {}", comm.number),
    }
}
