//! How much is left in inboxes, once the ranks are done.
ghost use Rattle.std.specs.Prelude.{◌≡◌, ◌≤◌, ◌↔◌, ℕ, IsTrue, length};
ghost use Rattle.ulfm_base.specs.Items.{items_from};
ghost use Rattle.ulfm_report_laws.specs.Flow.{AreWithin};
ghost use Rattle.ulfm_run.specs.Flow.{contents};

use ulfm_base::{Item, MOST_RANKS, WorldRank};

/// Whether no inbox holds more items of any rank than there are places.
#[tactic(auto, using(crate::proofs::Leftover::all_within, crate::proofs::Leftover::one_within))]
pub(crate) fn are_within(inboxes: &[Vec<(WorldRank, Item)>], places: u8) -> bool
    ensures { IsTrue result ↔ AreWithin (contents inboxes.now) places }
{
    for inbox in inboxes {
        if !is_within(inbox, places) {
            return false;
        }
    }
    true
}

/// Whether an inbox holds no more items of any rank than there are places.
#[tactic(auto, using(crate::proofs::Leftover::far_within))]
fn is_within(inbox: &[(WorldRank, Item)], places: u8) -> bool
    ensures { IsTrue result ↔ ((s : ℕ) → length (items_from s inbox.now) ≤ places) }
{
    for source in 0..MOST_RANKS {
        if len_from(inbox, source) > places as usize {
            return false;
        }
    }
    true
}

/// How many items of this rank there are.
#[tactic(auto, using(ulfm_report_laws::proofs::Counted::counted_from))]
fn len_from(inbox: &[(WorldRank, Item)], source: u8) -> usize
    ensures { result ≡ length (items_from source inbox.now) }
{
    inbox.iter().filter(|x| x.0.number == source).count()
}
