//! A player once more.
ghost use Rattle.std.specs.Prelude.{◌≡◌, ◌<◌, vec_len, vec_capacity, IfOk};

use super::Player;
use std::alloc::{AllocError, Global};
use ulfm_answer::StepReport;
use ulfm_base::OutOfMemory;

/// The same reports once more, with room for one more.
fn copy_reports(alloc: Global, reports: &[StepReport]) -> Result<Vec<StepReport>, OutOfMemory>
    ensures items { IfOk result (λ copy. copy.items ≡ reports.now) }
    ensures room { IfOk result (λ copy. vec_len copy < vec_capacity copy) }
{
    let Some(places) = reports.len().checked_add(1) else {
        return Err(AllocError);
    };
    let mut copy = Vec::with_capacity(alloc, places)?;
    copy.extend_with_clones(reports)?;
    Ok(copy)
}

/// A copy has room for one more answer, and its rank is yet to be prepared.
impl Clone for Player {
    ghost is_clone = { λ x y. y.player ≡ x.player };

    fn clone(&self) -> Result<Player, OutOfMemory> {
        let alloc = *self.done.allocator();
        let current = match &self.current {
            Some(step) => Some(step.copy(alloc)?),
            None => None,
        };
        let done = copy_reports(alloc, self.done.as_slice())?;
        // Last: a rank that is let go where a later growth is refused costs the check a minute.
        let rank = self.rank.copy()?;
        Ok(Player {
            rank,
            done,
            current,
            at: self.at,
            polls: self.polls,
        })
    }
}
