//! What a move sends.

use crate::cargo::Cargo;

/// An item that goes out by a move.
#[derive(Clone, Copy, Debug, PartialEq, Eq)]
pub struct Parcel {
    /// The rank that it goes to.
    pub to: u8,
    /// What it brings.
    pub cargo: Cargo,
}
