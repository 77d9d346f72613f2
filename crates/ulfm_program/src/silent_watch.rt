//! Who isn't told how far a search is.

use ulfm_reach::Watch;

/// Who isn't told how far a search is.
#[derive(Clone, Copy)]
pub(crate) struct Nobody;

impl Watch for Nobody {
    fn see(&mut self, _looked_at: usize, _found: usize) {}
}
