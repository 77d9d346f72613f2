//! Failures, revocations, and entries into shrinks and agreements (ULFM).
ghost use Rattle.std.specs.Prelude.{◌≡◌, ⊤, true, false};
ghost use Rattle.ulfm_c.specs.Calls.{Call};
ghost use Rattle.ulfm_c.specs.Recovery.{AckCall, EnterAgreeCall, EnterShrinkCall, FailedCall, IsRevokedCall, RevokeCall};

use crate::Process;
use crate::c_status::{CGroup, list};
use crate::handle::{Handle, with};
use crate::words::{comm_of, number_of, position_of};
use std::alloc::Global;

fn revoke(process: &mut Process, comm: u64) -> u32
    ensures { RevokeCall process.old.view process.new.view comm result }
{
    let comm = match comm_of(comm) {
        Some(comm) => comm,
        None => return 1,
    };
    match process.revoke(comm) {
        Ok(()) => {
            return 0;
        }
        Err(error) => return number_of(error),
    }
}

/// Revokes a communicator (`Process::revoke`).
#[unsafe(no_mangle)]
pub extern "C" fn ulfm_c_revoke(alloc: Global, handle: &mut Handle, comm: u64) -> u32
    ensures { Call handle.old.slot.held handle.new.slot.held result ⊤ (λ old new. RevokeCall old new comm result) }
{
    with!(handle, alloc, |process| revoke(&mut process, comm))
}

fn enter_shrink(process: &mut Process, comm: u64, again: bool) -> u32
    ensures { EnterShrinkCall process.old.view process.new.view comm again result }
{
    let comm = match comm_of(comm) {
        Some(comm) => comm,
        None => return 1,
    };
    match process.enter_shrink_with(comm, again) {
        Ok(()) => {
            return 0;
        }
        Err(error) => return number_of(error),
    }
}

/// Enters the shrink of a communicator (`Process::enter_shrink_with`), if it is to have one.
#[unsafe(no_mangle)]
pub extern "C" fn ulfm_c_enter_shrink(alloc: Global, handle: &mut Handle, comm: u64) -> u32
    ensures { Call handle.old.slot.held handle.new.slot.held result ⊤ (λ old new. EnterShrinkCall old new comm false result) }
{
    with!(
        handle,
        alloc,
        |process| enter_shrink(&mut process, comm, false)
    )
}

/// Enters the next shrink of a communicator (`Process::enter_shrink_with`), also of one that was shrunk before.
#[unsafe(no_mangle)]
pub extern "C" fn ulfm_c_enter_shrink_again(alloc: Global, handle: &mut Handle, comm: u64) -> u32
    ensures { Call handle.old.slot.held handle.new.slot.held result ⊤ (λ old new. EnterShrinkCall old new comm true result) }
{
    with!(
        handle,
        alloc,
        |process| enter_shrink(&mut process, comm, true)
    )
}

fn enter_agree(process: &mut Process, comm: u64, flag: u32) -> u32
    ensures { EnterAgreeCall process.old.view process.new.view comm flag result }
{
    let comm = match comm_of(comm) {
        Some(comm) => comm,
        None => return 1,
    };
    match process.enter_agree(comm, flag) {
        Ok(()) => {
            return 0;
        }
        Err(error) => return number_of(error),
    }
}

/// Enters the next agreement on a communicator (`Process::enter_agree`).
#[unsafe(no_mangle)]
pub extern "C" fn ulfm_c_enter_agree(
    alloc: Global,
    handle: &mut Handle,
    comm: u64,
    flag: u32,
) -> u32
    ensures { Call handle.old.slot.held handle.new.slot.held result ⊤ (λ old new. EnterAgreeCall old new comm flag result) }
{
    with!(
        handle,
        alloc,
        |process| enter_agree(&mut process, comm, flag)
    )
}

fn ack_failed(process: &mut Process, comm: u64, count: u32, total: &mut u32) -> u32
    ensures { AckCall process.old.view process.new.view comm count total.old total.new result }
{
    let comm = match comm_of(comm) {
        Some(comm) => comm,
        None => return 1,
    };
    match process.ack_failed(comm, position_of(count)) {
        Ok(acknowledged) => {
            *total = acknowledged as u32;
            return 0;
        }
        Err(error) => return number_of(error),
    }
}

/// Acknowledges failures (`Process::ack_failed`).
#[unsafe(no_mangle)]
pub extern "C" fn ulfm_c_ack_failed(
    alloc: Global,
    handle: &mut Handle,
    comm: u64,
    count: u32,
    total: &mut u32,
) -> u32
    ensures { Call handle.old.slot.held handle.new.slot.held result (total.new ≡ total.old) (λ old new. AckCall old new comm count total.old total.new result) }
{
    with!(
        handle,
        alloc,
        |process| ack_failed(&mut process, comm, count, total)
    )
}

fn is_revoked(process: &Process, comm: u64, revoked: &mut u32) -> u32
    ensures { IsRevokedCall process.now.view process.now.view comm revoked.old revoked.new result }
{
    let comm = match comm_of(comm) {
        Some(comm) => comm,
        None => return 1,
    };
    match process.is_revoked(comm) {
        Ok(is_it) => {
            *revoked = if is_it { 1 } else { 0 };
            return 0;
        }
        Err(error) => return number_of(error),
    }
}

/// Whether a communicator is revoked (`Process::is_revoked`).
#[unsafe(no_mangle)]
pub extern "C" fn ulfm_c_is_revoked(
    alloc: Global,
    handle: &mut Handle,
    comm: u64,
    revoked: &mut u32,
) -> u32
    ensures { Call handle.old.slot.held handle.new.slot.held result (revoked.new ≡ revoked.old) (λ old new. IsRevokedCall old new comm revoked.old revoked.new result) }
{
    with!(handle, alloc, |process| is_revoked(&process, comm, revoked))
}

fn get_failed(process: &Process, comm: u64, failed: &mut CGroup) -> u32
    ensures { FailedCall process.now.view process.now.view comm failed.old failed.new result }
{
    let comm = match comm_of(comm) {
        Some(comm) => comm,
        None => return 1,
    };
    match process.get_failed(comm) {
        Ok(group) => {
            *failed = list(&group);
            return 0;
        }
        Err(error) => return number_of(error),
    }
}

/// The members that are known to have failed (`Process::get_failed`).
#[unsafe(no_mangle)]
pub extern "C" fn ulfm_c_get_failed(
    alloc: Global,
    handle: &mut Handle,
    comm: u64,
    failed: &mut CGroup,
) -> u32
    ensures { Call handle.old.slot.held handle.new.slot.held result (failed.new ≡ failed.old) (λ old new. FailedCall old new comm failed.old failed.new result) }
{
    with!(handle, alloc, |process| get_failed(&process, comm, failed))
}
