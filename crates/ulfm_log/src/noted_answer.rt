//! Answers as a log keeps them.

use crate::entry::TestAnswer;
use ulfm_base::Noted;

/// An answer in a log, without its bytes. Contracts see the whole answer.
pub type NotedAnswer = Noted<TestAnswer>;
