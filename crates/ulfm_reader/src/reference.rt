//! How a step names an earlier one.

/// A step of the same rank, by its number or by its name.
#[derive(Clone, Copy)]
pub enum Reference<'a> {
    /// By its number.
    Number(i64),
    /// By its name.
    Name(&'a str),
}
