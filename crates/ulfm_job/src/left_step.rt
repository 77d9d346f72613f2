//! Steps that may be given up.

/// A step of a rank that may be given up though polls are left, as by a rank that dies inside it.
#[derive(Clone, Copy, Debug, PartialEq, Eq)]
pub struct LeftStep {
    /// The rank.
    pub rank: u8,
    /// The number of the step.
    pub at: u16,
}
