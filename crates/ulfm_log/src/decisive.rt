//! The entries of a log that tell of the last shrinks and the last agreements (ULFM, shrink and agree).
ghost use Rattle.std.specs.Prelude.{◌≡◌, ◌<◌, ◌≤◌, [], ◌∷◌, ◌++◌, filter, vec_len, vec_capacity, OnOk, OnErr};
ghost use Rattle.ulfm_log.specs.Decisive.{rounds_on, tells};
ghost use Rattle.ulfm_log.specs.declared.entry.Entry.TheVariants.{Took};

use crate::rounds::Rounds;
use crate::row::Row;
use ulfm_base::{Item, OutOfMemory, WorldRank};

/// Makes room for one of them.
///
/// # Errors
///
/// `OutOfMemory` where there was no such room and a growth was refused.
pub fn make_place(told: &mut Vec<Row>) -> Result<(), OutOfMemory>
    ensures items { told.new.items ≡ told.old.items }
    ensures len { vec_len told.new ≡ vec_len told.old }
    ensures ok { OnOk result (vec_len told.new < vec_capacity told.new) }
    ensures capacity { vec_capacity told.old ≤ vec_capacity told.new }
    ensures full { OnErr result (vec_capacity told.old ≤ vec_len told.old) }
{
    told.reserve(1)
}

/// One of them more.
pub fn tell(told: &mut Vec<Row>, row: Row)
    requires { vec_len told.old < vec_capacity told.old }
    ensures items { told.new.items ≡ told.old.items ++ row ∷ [] }
{
    told.push_reserved(row);
}

/// One of them more, where the item that was taken from a rank is such.
pub fn hear(told: &mut Vec<Row>, rounds: &Rounds, source: WorldRank, item: &Item)
    requires { vec_len told.old < vec_capacity told.old }
    ensures items { told.new.items ≡ told.old.items ++ filter (tells (rounds_on rounds.now)) (Took source item.now ∷ []) }
{
    match item {
        Item::Enter(entrance) => {
            if rounds.is_current(entrance.topic) {
                told.push_reserved(Row::heard(source, *entrance));
            }
        }
        _ => {}
    }
}

/// What belongs to shrinks and agreements before the last ones goes.
pub fn forget(told: &mut Vec<Row>, rounds: &Rounds)
    ensures items { told.new.items ≡ filter (tells (rounds_on rounds.now)) told.old.items }
    ensures len { vec_len told.new ≤ vec_len told.old }
    ensures capacity { vec_capacity told.new ≡ vec_capacity told.old }
{
    told.retain(|row| rounds.keeps(row));
}
