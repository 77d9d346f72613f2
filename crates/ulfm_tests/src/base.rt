//! Worked examples.

use std::test::Fail;
use ulfm_base::{CallError, Context, Group, RankSet, WorldRank};

// The world of four ranks, and the same without rank 1.
fn four_and_three(rt: &HostRuntime) -> Result<(Group, Group), CallError> {
    let world = Group::world(rt.alloc(), 4)?;
    let mut failed = RankSet::new();
    failed.insert(WorldRank { number: 1 });
    let rest = world.excluding(failed);
    Ok((world, rest))
}

// Whether positions of a group are these of another.
fn translates(
    from: &Group,
    to: &Group,
    positions: &[u8],
    wants: &[Option<u8>],
) -> Result<bool, CallError> {
    Ok(from.translate(positions, to)?.as_slice() == wants)
}

// The positions of the world in the rest of it.
const IN_THE_REST: [Option<u8>; 4] = [Some(0), None, Some(1), Some(2)];

// The positions of the rest in the world.
const IN_THE_WORLD: [Option<u8>; 3] = [Some(0), Some(2), Some(3)];

// Whether positions of the world are these of the rest of it, and the other way round, and one that the rest hasn't is refused.
fn translates_both_ways(world: &Group, rest: &Group) -> Result<bool, CallError> {
    let into_the_world = translates(rest, world, &[0, 1, 2], &IN_THE_WORLD)?;
    let into_the_rest = translates(world, rest, &[0, 1, 2, 3], &IN_THE_REST)?;
    let none = translates(world, rest, &[], &[])?;
    let is_refused = matches!(rest.translate(&[3], world), Err(CallError::BadRank));
    Ok(into_the_world && into_the_rest && none && is_refused)
}

#[test]
fn translates_between_a_group_and_the_rest_of_it(rt: HostRuntime) -> Result<(), Fail> {
    let (world, rest) = four_and_three(&rt)?;
    let both = translates_both_ways(&world, &rest)?;
    assert!(rt; both);
    Ok(())
}

// All refusals, in the order of their numbers.
const REFUSALS: [CallError; 15] = [
    CallError::NoComm,
    CallError::BadRank,
    CallError::BadTag,
    CallError::TooLong,
    CallError::ProcFailed,
    CallError::Revoked,
    CallError::NoRequest,
    CallError::AlreadyMade,
    CallError::NoContext,
    CallError::Stopped,
    CallError::NotMember,
    CallError::OutOfMemory,
    CallError::BadSize,
    CallError::NotEntered,
    CallError::Truncated,
];

// A line for each refusal.
const NAMES: &str =
    "1 NoComm\n2 BadRank\n3 BadTag\n4 TooLong\n5 ProcFailed\n6 Revoked\n7 NoRequest\n8 AlreadyMade\n9 NoContext\n10 Stopped\n11 NotMember\n12 OutOfMemory\n13 BadSize\n14 NotEntered\n15 Truncated\n";

#[test]
fn refusals_have_numbers_and_names(rt: HostRuntime) -> Result<(), Fail> {
    let mut names = String::new(rt.alloc());
    let mut number = 0_u8;
    for error in REFUSALS {
        number = number.saturating_add(1);
        assert_eq!(rt; error as u8, number);
        write!(names, "{error}\n")?;
    }
    assert_eq!(rt; names.as_str(), NAMES);
    Ok(())
}

// The contexts of the world's first duplicates, each with that of the shrink of the same number.
const CHILDREN: [(u64, u64); 5] = [(1, 2), (67, 75), (91, 71), (103, 119), (151, 167)];

// Whether a context is there, and has this number.
fn has_number(context: Option<Context>, number: u64) -> bool {
    match context {
        Some(context) => context.number == number,
        None => false,
    }
}

#[test]
fn children_are_numbered_by_their_paths(rt: HostRuntime) -> Result<(), Fail> {
    let mut count = 0_u64;
    for (dup, shrink) in CHILDREN {
        let are_numbered = has_number(Context::WORLD.nth_dup(count), dup)
            && has_number(Context::WORLD.nth_shrink(count), shrink);
        assert!(rt; are_numbered);
        count = count.saturating_add(1);
    }
    Ok(())
}

#[test]
fn the_world_has_no_duplicate_past_the_last_context(rt: HostRuntime) -> Result<(), Fail> {
    let is_last = Context::WORLD.nth_dup(3_495_252).is_some()
        && Context::WORLD.nth_dup(3_495_253).is_none();
    assert!(rt; is_last);
    Ok(())
}
