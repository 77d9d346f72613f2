//! The decisions of shrinks and agreements (ULFM, shrink and agree).
ghost use Rattle.std.specs.Prelude.{◌≡◌};
ghost use Rattle.ulfm_c.specs.Calls.{AreKept, Call};
ghost use Rattle.ulfm_c.specs.Deciding.{AgreeCall, ShrinkCall};

use crate::Process;
use crate::c_status::{CGroup, list};
use crate::handle::{Handle, with};
use crate::words::{comm_of, number_of};
use std::alloc::Global;

/// The decision of a shrink.
fn poll_shrink(process: &mut Process, comm: u64, made: &mut u64) -> u32
    ensures { ShrinkCall process.old.view process.new.view comm made.old made.new result }
{
    let comm = match comm_of(comm) {
        Some(comm) => comm,
        None => return 1,
    };
    match process.poll_shrink(comm) {
        Ok(Some(child)) => {
            *made = child.context.number;
            return 0;
        }
        Ok(None) => return 17,
        Err(error) => return number_of(error),
    }
}

/// Asks for the decision of a shrink (`Process::poll_shrink`).
#[unsafe(no_mangle)]
pub extern "C" fn ulfm_c_poll_shrink(
    alloc: Global,
    handle: &mut Handle,
    comm: u64,
    made: &mut u64,
) -> u32
    ensures { Call handle.old.slot.held handle.new.slot.held result (made.new ≡ made.old) (λ old new. ShrinkCall old new comm made.old made.new result) }
{
    with!(
        handle,
        alloc,
        |process| poll_shrink(&mut process, comm, made)
    )
}

/// The decision of an agreement.
fn poll_agree(process: &mut Process, comm: u64, value: &mut u32, missing: &mut CGroup) -> u32
    ensures { AgreeCall process.old.view process.new.view comm value.old value.new missing.old missing.new result }
{
    let comm = match comm_of(comm) {
        Some(comm) => comm,
        None => return 1,
    };
    match process.poll_agree(comm) {
        Ok(Some((bits, group))) => {
            *value = bits;
            *missing = list(&group);
            return 0;
        }
        Ok(None) => return 17,
        Err(error) => return number_of(error),
    }
}

/// Asks for the decision of an agreement (`Process::poll_agree`).
#[unsafe(no_mangle)]
pub extern "C" fn ulfm_c_poll_agree(
    alloc: Global,
    handle: &mut Handle,
    comm: u64,
    value: &mut u32,
    missing: &mut CGroup,
) -> u32
    ensures { Call handle.old.slot.held handle.new.slot.held result (AreKept value.old value.new missing.old missing.new) (λ old new. AgreeCall old new comm value.old value.new missing.old missing.new result) }
{
    with!(
        handle,
        alloc,
        |process| poll_agree(&mut process, comm, value, missing)
    )
}
