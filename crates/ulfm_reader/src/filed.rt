//! Where steps stand in the file.

/// A step by its rank and its number there, and the place in the file of what it comes from: that of the block, where one has it, and of
/// the step for several ranks, where it is one of these.
#[derive(Clone, Copy, Debug, PartialEq, Eq)]
pub struct Filed {
    pub rank: u8,
    pub at: u16,
    pub place: u16,
}
