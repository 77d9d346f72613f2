//! A small system, explored.

mod counters;

use crate::reach::counters::TwoCounters;
use std::test::Fail;
use ulfm_reach::{Reach, Reached, Rows, Watch, explore};

/// What was told last.
#[derive(Drop)]
struct Told {
    looked_at: usize,
    found: usize,
}

impl Watch for Told {
    fn see(&mut self, looked_at: usize, found: usize) {
        self.looked_at = looked_at;
        self.found = found;
    }
}

/// All that two counters reach, if that isn't more than so many states, and how many states were told of last.
#[tactic(auto, using(crate::proofs::Counting::lawful))]
fn explored(rt: &HostRuntime, limit: usize) -> Result<(Option<Reached>, Told), Fail> {
    let system = TwoCounters { alloc: rt.alloc() };
    let mut told = Told {
        looked_at: 0,
        found: 0,
    };
    match explore(rt.alloc(), &system, limit, &mut told)? {
        Reach::All(reached) => Ok((Some(reached), told)),
        Reach::More => Ok((None, told)),
    }
}

/// All that two counters reach, if that isn't more than so many states.
fn reached(rt: &HostRuntime, limit: usize) -> Result<Option<Reached>, Fail> {
    let (reached, _) = explored(rt, limit)?;
    Ok(reached)
}

/// Whether the first row is this one.
fn begins_with(rows: &Rows, row: &[u8]) -> bool {
    rows.row(0) == Some(row)
}

/// Whether these are the nine states of two counters, from 0 0 to 2 2.
fn are_nine(reached: &Reached) -> bool {
    reached.keys.len() == 9
        && begins_with(&reached.keys, &[0, 0])
        && reached.keys.contains(&[2, 2])
        && !reached.keys.contains(&[0, 3])
}

#[test]
fn nine_states_of_two_counters(rt: HostRuntime) -> Result<(), Fail> {
    let reached = reached(&rt, 9)?.expect(&rt, "nine states");
    let is_right = are_nine(&reached);
    // Let go by the standard library, which is cheaper to check.
    drop(reached);
    assert!(rt; is_right);
    Ok(())
}

/// Whether these events and this final state alone were found.
fn are_twelve_and_one(reached: &Reached) -> bool {
    reached.found.len() == 13
        && reached.found.contains(&[0, 1, 2])
        && reached.found.contains(&[1, 0, 1])
        && !reached.found.contains(&[1, 0, 0])
        && reached.found.contains(&[9])
}

#[test]
fn twelve_events_and_one_final_state(rt: HostRuntime) -> Result<(), Fail> {
    let reached = reached(&rt, 100)?.expect(&rt, "nine states");
    let is_right = are_twelve_and_one(&reached);
    drop(reached);
    assert!(rt; is_right);
    Ok(())
}

/// How many states were looked at and found in the end.
fn told_last(rt: &HostRuntime) -> Result<(usize, usize), Fail> {
    let (reached, told) = explored(rt, 9)?;
    drop(reached);
    Ok((told.looked_at, told.found))
}

#[test]
fn each_state_is_told_of(rt: HostRuntime) -> Result<(), Fail> {
    assert!(rt; told_last(&rt)? == (9, 9));
    Ok(())
}

/// Whether two counters reach more than so many states.
fn are_more_than(rt: &HostRuntime, limit: usize) -> Result<bool, Fail> {
    let reached = reached(rt, limit)?;
    let is_more = reached.is_none();
    drop(reached);
    Ok(is_more)
}

#[test]
fn nine_states_are_more_than_eight(rt: HostRuntime) -> Result<(), Fail> {
    assert!(rt; are_more_than(&rt, 8)?);
    assert!(rt; are_more_than(&rt, 0)?);
    Ok(())
}
