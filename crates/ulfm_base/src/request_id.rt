//! How a posted receive is named.

/// The number of a receive: how many posts and arrivals came before it. No two receives have the same.
#[derive(Clone, Copy, Debug, PartialEq, Eq)]
pub struct RequestId {
    /// How many posts and arrivals came before.
    pub number: u64,
}
