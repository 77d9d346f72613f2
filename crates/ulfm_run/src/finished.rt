//! How many ranks have finished.

use std::sync::atomic::AtomicU8;

/// How many ranks of a run have finished: no step is left to them, or they stopped. Their threads share it. No clause knows the number, and no
/// answer depends on it: it ends turns alone.
#[derive(Drop)]
pub(crate) struct Finished {
    pub(crate) count: AtomicU8,
}
