//! Two ranks in one thread, and nothing between them.

use crate::post::Post;
use crate::side::{Tested, start_receive, start_send, take_in, take_out, test_into};
use std::sync::Wait;
use ulfm_base::{RequestId, WorldRank};
use ulfm_rank::Rank;

/// Ranks 0 and 1 of two, and the receive that rank 1 posted.
#[derive(Drop)]
pub struct Both {
    pub zero: Rank,
    pub one: Rank,
    pub posted: Option<RequestId>,
}

impl Both {
    /// Rank 1 posts a receive, and rank 0 sends a letter that rank 1 takes.
    fn carry(&mut self, bytes: &[u8]) -> Option<()> {
        let (zero, one) = (WorldRank { number: 0 }, WorldRank { number: 1 });
        self.posted = Some(start_receive(&mut self.one, zero)?);
        if !start_send(&mut self.zero, one, bytes) {
            return None;
        }
        let item = take_out(&mut self.zero, one.number)?;
        if take_in(&mut self.one, zero, item) {
            Some(())
        } else {
            None
        }
    }
}

impl Post for Both {
    fn send<R: Wait>(&mut self, _rt: &R, bytes: &[u8]) -> bool {
        self.carry(bytes).is_some()
    }

    fn receive<R: Wait>(&mut self, _rt: &R, room: &mut [u8]) -> Option<usize> {
        match test_into(&mut self.one, self.posted?, room) {
            Tested::Done(length) => Some(length),
            Tested::NotYet | Tested::Failed => None,
        }
    }
}
