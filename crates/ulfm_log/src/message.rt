//! How a letter that a probe found is named.

/// The number of a message: a letter that a probe found (MPI 4.0, 3.8.2). It is the number of the receive by which the
/// probe found it, so no request or other message of the rank has the same.
#[derive(Clone, Copy, Debug, PartialEq, Eq)]
pub struct MessageId {
    /// How many posts and arrivals came before.
    pub number: u64,
}
