//! How a step is told of.

use std::fmt;

/// A step by its number, as it is written, and its name, where it has one.
#[derive(Clone, Copy)]
pub struct Numbered<'a, N> {
    pub number: N,
    pub name: Option<&'a str>,
}

impl<N: fmt::Display> fmt::Display for Numbered<'_, N> {
    fn fmt<W: fmt::Write>(&self, f: &mut fmt::Formatter<W>) -> fmt::Result {
        write!(f, "step {}", self.number)?;
        match self.name {
            Some(name) => write!(f, " '{name}'"),
            None => Ok(()),
        }
    }
}
