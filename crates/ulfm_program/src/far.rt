//! How far a search came that met its limit: for people, and none of it is promised.

use std::alloc::{AllocError, Global};
use std::io::Write;
use ulfm_reader::write_whole;

/// How far a search came.
#[derive(Clone, Copy)]
pub struct Far {
    /// How many states were looked at, in the latest search, or at all places.
    pub(crate) looked_at: usize,
    /// How many places are listed.
    pub(crate) listed: usize,
    /// Of how many: none where no lists of places are asked for.
    pub(crate) places: usize,
}

impl Far {
    /// Tells it in a line. Where that finds no memory, nothing is told.
    pub fn tell<E: Write>(&self, alloc: Global, errors: &mut E) {
        if let Ok(line) = self.line(alloc) {
            let _is_written = write_whole(errors, line.as_bytes());
        }
    }

    /// The line that tells it.
    fn line(&self, alloc: Global) -> Result<String, AllocError> {
        let Far {
            looked_at,
            listed,
            places,
        } = *self;
        if places == 0 {
            return format!(in alloc; "of the states that are known it had looked at {looked_at}\n");
        }
        format!(in alloc;
            "{listed} of {places} places are listed, and {looked_at} states were looked at in all\n"
        )
    }
}
