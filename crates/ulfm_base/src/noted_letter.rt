//! Letters as a log keeps them.

use crate::envelope::Letter;
use crate::noted::Noted;

/// A letter in a log.
pub type NotedLetter = Noted<Letter>;
