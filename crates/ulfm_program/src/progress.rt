//! How far a list of outcomes is, for who looks on: none of it is promised.
//!
//! It asks for a flag, since the kit's program can't ask whether standard error is a terminal: `./ulfm` asks, and adds it.

use crate::far::Far;
use std::alloc::{AllocError, Global};
use std::io::Write;
use std::sync::Mutex;
use std::sync::atomic::{AtomicUsize, Ordering};
use std::time::{Clock, Instant};
use ulfm_command_line::{ListOptions, Place, Wanted};
use ulfm_outcomes_reply::Onlooker;
use ulfm_reach::Watch;
use ulfm_reader::write_whole;

/// After how many states it is told.
const STRIDE: usize = 1000;

/// What takes the cursor to the front of a terminal's line, and empties it.
const EMPTY_LINE: &[u8] = b"\r\x1b[K";

/// Tells a terminal on one line, again and again, how many states were looked at, and how many a second, if that is wanted. Of the states at
/// places threads tell at once.
#[derive(Drop)]
pub struct Progress<'a, T: Clock, E: Write> {
    rt: &'a T,
    alloc: Global,
    /// Where it is told, by one thread at a time.
    errors: Mutex<&'a mut E>,
    is_wanted: bool,
    /// When it began, by a clock that could be read.
    start: Option<Instant>,
    /// How many states the latest search looked at, of one place.
    looked_at: usize,
    /// How many states were looked at, at all places.
    at_places: AtomicUsize,
    /// How many places are listed, of how many.
    listed: AtomicUsize,
    places: AtomicUsize,
}

impl<'a, T: Clock, E: Write> Progress<'a, T, E> {
    /// What tells `errors`, if the words ask for it.
    pub fn new(rt: &'a T, alloc: Global, errors: &'a mut E, wanted: Wanted) -> Progress<'a, T, E> {
        Progress {
            rt,
            alloc,
            errors: Mutex::new(errors),
            is_wanted: matches!(
                wanted,
                Wanted::Outcomes(ListOptions {
                    wants_progress: true,
                    ..
                })
            ),
            start: Instant::now(rt).ok(),
            looked_at: 0,
            at_places: AtomicUsize::new(0),
            listed: AtomicUsize::new(0),
            places: AtomicUsize::new(0),
        }
    }

    /// Empties the line, for what comes after, and answers how far it came.
    pub fn end(mut self) -> Far {
        if self.is_wanted {
            let _is_written = write_whole(self.errors.get_mut(), EMPTY_LINE);
        }
        Far {
            looked_at: self.looked_at.max(self.at_places.load(Ordering::SeqCst)),
            listed: self.listed.load(Ordering::SeqCst),
            places: self.places.load(Ordering::SeqCst),
        }
    }

    /// The line that tells it.
    fn line(&self, looked_at: usize, found: usize) -> Result<String, AllocError> {
        match self.pace(looked_at) {
            Some(pace) => format!(in self.alloc;
                "\r{looked_at} states looked at, of {found} so far, {pace} a second"
            ),
            None => format!(in self.alloc; "\r{looked_at} states looked at, of {found} so far"),
        }
    }

    /// The line that tells it of places, in the place of the one before, which may be longer.
    fn line_at(&self, place: Place, looked_at: usize) -> Result<String, AllocError> {
        match self.pace(looked_at) {
            Some(pace) => format!(in self.alloc;
                "\r\x1b[Kat {place}: {looked_at} states looked at in all, {pace} a second"
            ),
            None => {
                format!(in self.alloc; "\r\x1b[Kat {place}: {looked_at} states looked at in all")
            }
        }
    }

    /// How many states were looked at in a second, on the average.
    fn pace(&self, looked_at: usize) -> Option<u128> {
        let passed = self.start?.elapsed(self.rt).ok()?;
        (looked_at as u128 * 1000).checked_div(passed.as_millis())
    }
}

impl<T: Clock, E: Write> Watch for Progress<'_, T, E> {
    fn see(&mut self, looked_at: usize, found: usize) {
        self.looked_at = looked_at;
        if !self.is_wanted || looked_at % STRIDE != 0 {
            return;
        }
        if let Ok(line) = self.line(looked_at, found) {
            let _is_written = write_whole(self.errors.get_mut(), line.as_bytes());
        }
    }
}

impl<T: Clock, E: Write> Onlooker for Progress<'_, T, E> {
    fn see(&self, place: Place, states: usize) {
        let before = self.at_places.fetch_add(states, Ordering::SeqCst);
        let looked_at = before.wrapping_add(states);
        if !self.is_wanted || before / STRIDE == looked_at / STRIDE {
            return;
        }
        // While another thread tells it, this one goes on.
        let Some(mut errors) = self.errors.try_lock() else {
            return;
        };
        if let Ok(line) = self.line_at(place, looked_at) {
            let _is_written = write_whole(&mut *errors, line.as_bytes());
        }
    }

    fn see_listed(&self, listed: usize, places: usize) {
        self.listed.store(listed, Ordering::SeqCst);
        self.places.store(places, Ordering::SeqCst);
    }
}
