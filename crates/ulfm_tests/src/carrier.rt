//! What the ends of both carriers accept, refuse and find, and what is left in their inboxes.

mod acts;
mod letters;

use self::acts::{Act, played};
use self::letters::is_left;
use std::alloc::{AllocError, Global};
use std::test::Fail;
use ulfm_carrier::{lanes, shared};

/// What the ranks of a new carrier do, and the letters that are left in each inbox: what it shows, the ranks, the capacity, the acts, and
/// of each inbox the senders and the bytes.
type Row = (
    &'static str,
    u8,
    u8,
    &'static [Act],
    &'static [&'static [(u8, u8)]],
);

/// Rows of rings.
const OVER_LANES: &[Row] = &[
    (
        "one place in each ring",
        2,
        1,
        &[
            Act::Push(0, 1, b'A', true),
            Act::Push(0, 1, b'B', false),
            Act::Pop(1, Some((0, b'A'))),
            Act::Pop(1, None),
            Act::Push(0, 1, b'B', true),
        ],
        &[&[], &[(0, b'B')]],
    ),
    (
        "left by three, in the order of the ranks",
        3,
        3,
        &[
            Act::Push(2, 1, b'a', true),
            Act::Push(0, 1, b'b', true),
            Act::Push(1, 1, b'c', true),
            Act::Push(0, 1, b'd', true),
            Act::Push(2, 1, b'e', true),
            Act::Push(0, 1, b'f', true),
            Act::Pop(1, Some((0, b'b'))),
            Act::Pop(1, Some((1, b'c'))),
        ],
        &[&[], &[(0, b'd'), (0, b'f'), (2, b'a'), (2, b'e')], &[]],
    ),
    (
        "senders in turn, from the one after the last",
        3,
        4,
        &[
            Act::Push(2, 1, b'a', true),
            Act::Push(2, 1, b'b', true),
            Act::Push(0, 1, b'c', true),
            Act::Push(1, 1, b'd', true),
            Act::Push(0, 1, b'e', true),
            Act::Pop(1, Some((0, b'c'))),
            Act::Pop(1, Some((1, b'd'))),
            Act::Pop(1, Some((2, b'a'))),
            Act::Pop(1, Some((0, b'e'))),
            Act::Pop(1, Some((2, b'b'))),
            Act::Pop(1, None),
            Act::Push(1, 1, b'f', true),
            Act::Pop(1, Some((1, b'f'))),
            Act::Push(0, 1, b'g', true),
            Act::Push(2, 1, b'h', true),
            Act::Pop(1, Some((2, b'h'))),
            Act::Pop(1, Some((0, b'g'))),
            Act::Pop(0, None),
        ],
        &[&[], &[], &[]],
    ),
];

/// Rows of shared inboxes.
const OVER_SHARED: &[Row] = &[(
    "two places for three",
    3,
    2,
    &[
        Act::Push(0, 1, b'A', true),
        Act::Push(2, 1, b'B', true),
        Act::Push(0, 1, b'C', false),
        Act::Pop(1, Some((0, b'A'))),
        Act::Push(0, 1, b'C', true),
    ],
    &[&[], &[(2, b'B'), (0, b'C')], &[]],
)];

#[test]
fn rings_by_acts(rt: HostRuntime) -> Result<(), Fail> {
    for (name, ranks, capacity, acts, left) in OVER_LANES {
        let ends = lanes(rt.alloc(), *ranks, *capacity)?;
        let (other, residue) = played(&rt, ends, acts)?;
        assert_eq!(rt; other, None, "{name}");
        assert!(rt; is_left(&residue, left), "{name}");
    }
    Ok(())
}

#[test]
fn shared_inboxes_by_acts(rt: HostRuntime) -> Result<(), Fail> {
    for (name, ranks, capacity, acts, left) in OVER_SHARED {
        let ends = shared(rt.alloc(), *ranks, *capacity)?;
        let (other, residue) = played(&rt, ends, acts)?;
        assert_eq!(rt; other, None, "{name}");
        assert!(rt; is_left(&residue, left), "{name}");
    }
    Ok(())
}

/// An inbox of rank 1 takes as many letters as it has room for, of all ranks by turns, refuses one more of the first and of the last, and
/// gives them back in their order.
fn filled_and_emptied(alloc: Global, ranks: u8, capacity: u8) -> Result<Vec<Act>, AllocError> {
    let mut acts = Vec::new(alloc);
    for byte in 0..capacity {
        acts.push(Act::Push(byte % ranks.max(1), 1, byte, true))?;
    }
    acts.push(Act::Push(0, 1, b'A', false))?;
    acts.push(Act::Push(ranks.saturating_sub(1), 1, b'B', false))?;
    for byte in 0..capacity {
        acts.push(Act::Pop(1, Some((byte % ranks.max(1), byte))))?;
    }
    acts.push(Act::Pop(1, None))?;
    Ok(acts)
}

#[test]
fn inboxes_of_their_capacity(rt: HostRuntime) -> Result<(), Fail> {
    for (ranks, capacity) in [(2, 1), (2, 2), (2, 64), (8, 1), (8, 64)] {
        let acts = filled_and_emptied(rt.alloc(), ranks, capacity)?;
        let ends = shared(rt.alloc(), ranks, capacity)?;
        let (other, _residue) = played(&rt, ends, acts.as_slice())?;
        assert_eq!(rt; other, None, "{ranks} ranks, capacity {capacity}");
    }
    Ok(())
}

/// Each of eight ranks, one at a time, pushes two letters to each, itself too, where there is one place: the second is accepted once
/// the first is taken.
fn through_each_pair(alloc: Global) -> Result<Vec<Act>, AllocError> {
    let mut acts = Vec::new(alloc);
    for pair in 0..64 {
        let (from, to) = (pair / 8, pair % 8);
        acts.push(Act::Push(from, to, b'A', true))?;
        acts.push(Act::Push(from, to, b'B', false))?;
        acts.push(Act::Pop(to, Some((from, b'A'))))?;
        acts.push(Act::Pop(to, None))?;
        acts.push(Act::Push(from, to, b'B', true))?;
        acts.push(Act::Pop(to, Some((from, b'B'))))?;
    }
    Ok(acts)
}

#[test]
fn letters_of_each_pair(rt: HostRuntime) -> Result<(), Fail> {
    let acts = through_each_pair(rt.alloc())?;
    let (over_lanes, _residue) = played(&rt, lanes(rt.alloc(), 8, 1)?, acts.as_slice())?;
    let (over_shared, _residue) = played(&rt, shared(rt.alloc(), 8, 1)?, acts.as_slice())?;
    assert_eq!(rt; over_lanes, None);
    assert_eq!(rt; over_shared, None);
    Ok(())
}
