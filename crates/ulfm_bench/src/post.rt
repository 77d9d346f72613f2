//! What sends letters and receives them.

use crate::pairs::letter;
use crate::way::Way;
use std::alloc::Global;
use std::sync::Wait;
use std::thread;
use ulfm_base::{Body, Item};

/// How often an end tries again where there is no room, or nothing to pop.
pub const TRIES: u64 = 1_000_000_000;

/// One of two that write to one another.
pub trait Post: Drop {
    /// Sends a letter of these bytes, trying as often as it takes: whether it went out.
    fn send<R: Wait>(&mut self, rt: &R, bytes: &[u8]) -> bool;

    /// Receives a letter into a room, trying as often as it takes: how many bytes it has. Nothing where none came, or one that
    /// is longer than the room.
    fn receive<R: Wait>(&mut self, rt: &R, room: &mut [u8]) -> Option<usize>;
}

/// An end of a way, with no rank round it.
#[derive(Drop)]
pub struct Bare<W: Way> {
    pub way: W,
    pub alloc: Global,
}

impl<W: Way> Post for Bare<W> {
    fn send<R: Wait>(&mut self, rt: &R, bytes: &[u8]) -> bool {
        let Ok(mut item) = letter(self.alloc, self.way.me(), bytes) else {
            return false;
        };
        for _ in 0..TRIES {
            match self.way.push(rt, item) {
                Ok(()) => return true,
                Err(back) => item = back,
            }
            thread::yield_now();
        }
        false
    }

    fn receive<R: Wait>(&mut self, rt: &R, room: &mut [u8]) -> Option<usize> {
        for _ in 0..TRIES {
            if let Some(item) = self.way.pop(rt) {
                return match item {
                    Item::Letter(letter) => put(room, &letter.body),
                    _ => None,
                };
            }
            thread::yield_now();
        }
        None
    }
}

/// Copies a body into a room: how many bytes it has, if the room is long enough.
pub fn put(room: &mut [u8], body: &Body) -> Option<usize> {
    let bytes = body.as_bytes();
    room.get_mut(..bytes.len())?.copy_from_slice(bytes);
    Some(bytes.len())
}
