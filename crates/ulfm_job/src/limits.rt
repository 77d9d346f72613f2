//! The limits of a job's text (docs/JOBS.md), each once.

use ulfm_base::CONTEXTS;

/// The most ranks.
pub const MOST_RANKS: u8 = 8;

/// The greatest number of a rank.
pub const LAST_RANK: u32 = MOST_RANKS as u32 - 1;

/// The most places of an inbox.
pub const MOST_CAPACITY: u8 = 64;

/// The most polls of a step.
pub const MOST_TURNS: u32 = 10_000_000;

/// The most steps, of all ranks together.
pub const MOST_STEPS: usize = 256;

/// The greatest number of a step.
pub const LAST_STEP: u32 = MOST_STEPS as u32 - 1;

/// The greatest tag.
pub const LAST_TAG: u32 = 32_767;

/// The greatest context of a communicator.
pub const LAST_COMM: u32 = CONTEXTS as u32 - 1;

/// The most bytes of a body that is sent.
pub const MOST_BODY: usize = 1024;

/// The most bytes that a receive has room for.
pub const MOST_ROOM: u32 = MOST_BODY as u32;

/// The greatest flag.
pub const LAST_FLAG: u32 = 4_294_967_295;

/// The most bytes of a name.
pub const MOST_NAME: usize = 32;

/// The most bytes of a note's text.
pub const MOST_LABEL: usize = 32;

/// The most texts of an `is`, a `not` or an `expect`, and the most tables of an `if` or an `all`.
pub const MOST_ITEMS: usize = 16;

/// The most bytes of such a text.
pub const MOST_WORDS: usize = 1024;

/// The fewest texts of a row.
pub const FEWEST_OF_ROW: usize = 2;

/// The most texts of a row.
pub const MOST_OF_ROW: usize = 8;

/// The most bytes of a job.
pub const MOST_BYTES: usize = 1_048_576;
