//! Communicators and their groups (MPI 4.0, chapter 7).
ghost use Rattle.std.specs.Prelude.{◌≡◌, true, false};
ghost use Rattle.ulfm_c.specs.Calls.{Call};
ghost use Rattle.ulfm_c.specs.Communicators.{DupCall, GroupCall, PositionCall};

use crate::Process;
use crate::c_status::{CGroup, list};
use crate::handle::{Handle, with};
use crate::words::{comm_of, number_of};
use std::alloc::Global;

fn group_of(process: &Process, comm: u64, group: &mut CGroup) -> u32
    ensures { GroupCall process.now.view process.now.view comm group.old group.new result }
{
    let comm = match comm_of(comm) {
        Some(comm) => comm,
        None => return 1,
    };
    match process.group(comm) {
        Ok(members) => {
            *group = list(&members);
            return 0;
        }
        Err(error) => return number_of(error),
    }
}

/// The group of a communicator (`Process::group`).
#[unsafe(no_mangle)]
pub extern "C" fn ulfm_c_group_of(
    alloc: Global,
    handle: &mut Handle,
    comm: u64,
    group: &mut CGroup,
) -> u32
    ensures { Call handle.old.slot.held handle.new.slot.held result (group.new ≡ group.old) (λ old new. GroupCall old new comm group.old group.new result) }
{
    with!(handle, alloc, |process| group_of(&process, comm, group))
}

fn dup(process: &mut Process, comm: u64, again: bool, made: &mut u64) -> u32
    ensures { DupCall process.old.view process.new.view comm again made.old made.new result }
{
    let comm = match comm_of(comm) {
        Some(comm) => comm,
        None => return 1,
    };
    match process.dup_with(comm, again) {
        Ok(copy) => {
            *made = copy.context.number;
            return 0;
        }
        Err(error) => return number_of(error),
    }
}

/// Duplicates a communicator (`Process::dup_with`), if it is to have one duplicate.
#[unsafe(no_mangle)]
pub extern "C" fn ulfm_c_dup(alloc: Global, handle: &mut Handle, comm: u64, made: &mut u64) -> u32
    ensures { Call handle.old.slot.held handle.new.slot.held result (made.new ≡ made.old) (λ old new. DupCall old new comm false made.old made.new result) }
{
    with!(
        handle,
        alloc,
        |process| dup(&mut process, comm, false, made)
    )
}

/// Duplicates a communicator (`Process::dup_with`), also one that was duplicated before.
#[unsafe(no_mangle)]
pub extern "C" fn ulfm_c_dup_again(
    alloc: Global,
    handle: &mut Handle,
    comm: u64,
    made: &mut u64,
) -> u32
    ensures { Call handle.old.slot.held handle.new.slot.held result (made.new ≡ made.old) (λ old new. DupCall old new comm true made.old made.new result) }
{
    with!(handle, alloc, |process| dup(&mut process, comm, true, made))
}

/// This rank's position in a communicator. 11: it is no member.
fn position(process: &Process, comm: u64, position: &mut u32) -> u32
    ensures { PositionCall process.now.view process.now.view comm position.old position.new result }
{
    let comm = match comm_of(comm) {
        Some(comm) => comm,
        None => return 1,
    };
    let group = match process.group(comm) {
        Ok(group) => group,
        Err(error) => return number_of(error),
    };
    match group.rank_of(process.me()) {
        Some(found) => {
            *position = found as u32;
            return 0;
        }
        None => return 11,
    }
}

/// This rank's position in a communicator.
#[unsafe(no_mangle)]
pub extern "C" fn ulfm_c_position(
    alloc: Global,
    handle: &mut Handle,
    comm: u64,
    at: &mut u32,
) -> u32
    ensures { Call handle.old.slot.held handle.new.slot.held result (at.new ≡ at.old) (λ old new. PositionCall old new comm at.old at.new result) }
{
    with!(handle, alloc, |process| position(&process, comm, at))
}
