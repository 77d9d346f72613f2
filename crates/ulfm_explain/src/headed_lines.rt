//! Lines that are told below their count.

use std::alloc::{AllocError, Global};

/// Lines, each once, and how many they are.
#[derive(Drop)]
pub struct Counted {
    alloc: Global,
    lines: String,
    count: usize,
}

impl Counted {
    /// None yet.
    pub fn new(alloc: Global) -> Counted {
        Counted {
            alloc,
            lines: String::new(alloc),
            count: 0,
        }
    }

    /// Adds a line, where it isn't there.
    pub fn add(&mut self, line: &str) -> Result<(), AllocError> {
        if !self.lines.contains(line) {
            self.lines.push_str(line)?;
            self.count = self.count.saturating_add(1);
        }
        Ok(())
    }

    /// The lines below a head with their count. Nothing where there are none.
    pub fn below(&self, head: &str) -> Result<String, AllocError> {
        if self.count == 0 {
            return Ok(String::new(self.alloc));
        }
        format!(in self.alloc; "{head}: {}\n{}", self.count, self.lines)
    }
}
