//! What the words are followed with.

use std::alloc::Global;

/// What the words are followed with: the threads, files and clock of the system, the search of schedules, and memory.
#[derive(Drop)]
pub struct Engine<'a, T, F> {
    pub rt: &'a T,
    pub finder: &'a F,
    pub alloc: Global,
}
