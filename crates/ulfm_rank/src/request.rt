//! Receives and messages that aren't released, and what became of them.
ghost use Rattle.std.specs.Prelude.{◌≡◌};
ghost use Rattle.ulfm_rank.specs.Fates.{fate_of, is_waiting, over_named, over_context};
ghost use Rattle.ulfm_rank.specs.Standing.{is_found};
ghost use Rattle.ulfm_rank.specs.Messages.{with_room};

use ulfm_base::{Context, Letter, OutOfMemory, Pattern, WorldRank};

/// What became of a receive, or the letter of a message that a probe found.
#[derive(Drop)]
pub enum Fate {
    /// The receive waits.
    Waiting,
    /// The receive got this letter.
    Paired(Letter),
    /// It is a message, and this is its letter.
    Found(Letter),
    /// The receive is over, since its source failed.
    Failed,
    /// The receive is over, since its communicator was revoked.
    Cleared,
}

/// A receive or a message that isn't released.
#[derive(Drop)]
pub struct Request {
    /// What the receive asks for.
    pub pattern: Pattern,
    /// What became of it.
    pub fate: Fate,
}

impl Clone for Fate {
    ghost is_clone = { λ x y. y ≡ x };

    fn clone(&self) -> Result<Fate, OutOfMemory> {
        match self {
            Fate::Waiting => Ok(Fate::Waiting),
            Fate::Paired(letter) => Ok(Fate::Paired(letter.clone()?)),
            Fate::Found(letter) => Ok(Fate::Found(letter.clone()?)),
            Fate::Failed => Ok(Fate::Failed),
            Fate::Cleared => Ok(Fate::Cleared),
        }
    }
}

impl Clone for Request {
    ghost is_clone = { λ x y. y ≡ x };

    fn clone(&self) -> Result<Request, OutOfMemory> {
        Ok(Request {
            pattern: self.pattern,
            fate: self.fate.clone()?,
        })
    }
}

/// What becomes of a receive at its post, where its source is known to have failed or isn't.
pub(crate) fn fate_of(letter: Option<Letter>, gone: bool) -> Fate
    ensures { result ≡ fate_of letter gone }
{
    match letter {
        Some(letter) => Fate::Paired(letter),
        None => {
            if gone {
                return Fate::Failed;
            }
            Fate::Waiting
        }
    }
}

/// Whether it is a receive that waits.
pub(crate) fn is_waiting(fate: &Fate) -> bool
    ensures { result ≡ is_waiting fate.now }
{
    matches!(fate, Fate::Waiting)
}

/// Whether it is the letter of a message.
pub(crate) fn is_found(fate: &Fate) -> bool
    ensures { result ≡ is_found fate.now }
{
    matches!(fate, Fate::Found(_))
}

/// What a receive asks for, with room for so many bytes.
pub(crate) fn with_room(pattern: &Pattern, room: u16) -> Pattern
    ensures { result ≡ with_room pattern.now room }
{
    Pattern { room, ..*pattern }
}

/// What becomes of a request when a rank fails.
pub(crate) fn over_named(request: &mut Request, rank: WorldRank)
    ensures { request.new ≡ over_named rank.number request.old }
{
    if is_waiting(&request.fate) && request.pattern.source.names(rank) {
        request.fate = Fate::Failed;
    }
}

/// What becomes of a request when a context is revoked.
pub(crate) fn over_context(request: &mut Request, context: Context)
    ensures { request.new ≡ over_context context.number request.old }
{
    if is_waiting(&request.fate) && request.pattern.context.number == context.number {
        request.fate = Fate::Cleared;
    }
}
