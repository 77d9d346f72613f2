//! What the clauses of a step are read with.

use crate::name::Name;
use ulfm_job::Step;

/// A step by its rank and its number there, the steps of the rank and the names that were read before it, and its place in the file.
#[derive(Clone, Copy)]
pub struct Asker<'a> {
    pub rank: u8,
    pub at: u16,
    pub script: &'a [Step],
    pub names: &'a [Name],
    pub place: u16,
}
