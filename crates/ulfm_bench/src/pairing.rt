//! What pairs letters with receives: the matcher, and the plain lists beside it.
ghost use Rattle.std.specs.Prelude.{◌≡◌, ◌+◌, ◌<◌, ◌^◌, IsTrue, false};
ghost use Rattle.ulfm_match.specs.State.{is_cleared};

use ulfm_base::{Context, Letter, Pattern};
use ulfm_match::plain::Plain;
use ulfm_match::{Arrived, Matcher};

/// What pairs letters with receives.
pub trait Pairing: Drop {
    /// Posts a receive: the letter that it gets.
    fn post(&mut self, pattern: Pattern) -> Option<Letter>;

    /// Hands on a letter: whether a receive got it.
    fn arrive(&mut self, letter: Letter) -> bool;
}

/// Whether the matcher can be handed something of a context.
fn is_open(matcher: &Matcher, context: Context) -> bool
    ensures { IsTrue result → (is_cleared matcher.now context.number ≡ false) × (matcher.now.count + 1 < 2 ^ 64) }
{
    !matcher.is_cleared(context) && matcher.count() < u64::MAX
}

/// The matcher that ranks have.
#[derive(Drop)]
pub struct Indexed {
    pub matcher: Matcher,
}

impl Pairing for Indexed {
    fn post(&mut self, pattern: Pattern) -> Option<Letter> {
        if self.matcher.prepare().is_err() || !is_open(&self.matcher, pattern.context) {
            return None;
        }
        self.matcher.post(pattern).1
    }

    fn arrive(&mut self, letter: Letter) -> bool {
        if self.matcher.prepare().is_err() || !is_open(&self.matcher, letter.envelope.context) {
            return false;
        }
        match self.matcher.arrive(letter) {
            Arrived::Paired(_, _) => true,
            Arrived::Kept => false,
        }
    }
}

/// Two plain lists.
#[derive(Drop)]
pub struct Lists {
    pub plain: Plain,
}

impl Pairing for Lists {
    fn post(&mut self, pattern: Pattern) -> Option<Letter> {
        match self.plain.post(pattern) {
            Ok((_, letter)) => letter,
            Err(_) => None,
        }
    }

    fn arrive(&mut self, letter: Letter) -> bool {
        match self.plain.arrive(letter) {
            Ok(paired) => paired.is_some(),
            Err(_) => false,
        }
    }
}
