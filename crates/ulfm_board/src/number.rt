//! Which row and which cell a topic has.
ghost use Rattle.std.specs.Prelude.{◌≡◌, ◌<◌, ◌%◌, ◌^◌};
ghost use Rattle.ulfm_base.specs.Topic.{round_of};
ghost use Rattle.ulfm_board.specs.Known.{kind_of, row_of, number_of};

use crate::row::CELLS;
use ulfm_base::{PAST_CONTEXTS, Purpose, Topic};

/// Which of a communicator's two kinds of rows a purpose has.
fn kind_of(purpose: Purpose) -> u128
    ensures kind { result ≡ kind_of purpose }
    ensures low { result < 2 }
{
    match purpose {
        Purpose::Shrink { .. } => 0,
        Purpose::Agree { .. } => 1,
    }
}

/// The number of the row of a topic.
pub(crate) fn row_of(topic: Topic) -> u128
    ensures row { result ≡ row_of topic }
    ensures low { result < 2 ^ 104 }
{
    let block = topic.purpose.round() as u128 / CELLS as u128;
    2 * PAST_CONTEXTS as u128 * block + (2 * topic.context.number as u128 + kind_of(topic.purpose))
}

/// Which of its row's cells a topic has.
pub(crate) fn cell_of(topic: Topic) -> usize
    ensures place { result ≡ round_of topic.purpose % 64 }
    ensures low { result < 64 }
{
    (topic.purpose.round() % CELLS as u64) as usize
}

/// The number of a topic. No other topic has it.
pub fn number_of(topic: Topic) -> u128
    ensures number { result ≡ number_of topic }
    ensures own { (other : Topic) → number_of other ≡ number_of topic → other ≡ topic }
{
    CELLS as u128 * row_of(topic) + cell_of(topic) as u128
}
