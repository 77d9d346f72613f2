//! What a test of a request would come to.

/// What a test of a request would come to.
#[derive(Clone, Copy, Debug, PartialEq, Eq)]
pub enum Outlook {
    /// It would be over, with a letter or without, and released.
    Over,
    /// It would pend.
    Pending,
    /// It would wait.
    NotYet,
}
