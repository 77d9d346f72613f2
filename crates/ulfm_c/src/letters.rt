//! Sends, receives, their tests and cancels (MPI 4.0, 3.7 and 3.8.4).
ghost use Rattle.std.specs.Prelude.{◌≡◌, ⊤};
ghost use Rattle.ulfm_c.specs.Calls.{AreKept, Call};
ghost use Rattle.ulfm_c.specs.Letters.{CancelCall, ReceiveCall, SendCall, TestCall};

use crate::Process;
use crate::c_status::{CStatus, ended, tell};
use crate::handle::{Handle, with};
use crate::words::{comm_of, number_of, position_of, room_of, source_of, tag_of};
use std::alloc::Global;
use ulfm_base::{RequestId, Tag};
use ulfm_log::Cancel;

/// A send to the member at a position.
fn send(process: &mut Process, comm: u64, dest: u32, tag: u32, body: &[u8]) -> u32
    ensures { SendCall process.old.view process.new.view comm dest tag body.now result }
{
    let comm = match comm_of(comm) {
        Some(comm) => comm,
        None => return 1,
    };
    let tag = match Tag::new(tag) {
        Ok(tag) => tag,
        Err(_) => return 3,
    };
    match process.isend(comm, position_of(dest), tag, body) {
        Ok(()) => return 0,
        Err(error) => return number_of(error),
    }
}

/// Starts a send (`Process::isend`).
#[unsafe(no_mangle)]
pub extern "C" fn ulfm_c_isend(
    alloc: Global,
    handle: &mut Handle,
    comm: u64,
    dest: u32,
    tag: u32,
    body: &[u8],
) -> u32
    ensures { Call handle.old.slot.held handle.new.slot.held result ⊤ (λ old new. SendCall old new comm dest tag body.now result) }
{
    with!(
        handle,
        alloc,
        |process| send(&mut process, comm, dest, tag, body)
    )
}

/// A receive from a position or any.
fn receive(
    process: &mut Process,
    comm: u64,
    source: u32,
    tag: u32,
    room: u32,
    request: &mut u64,
) -> u32
    ensures { ReceiveCall process.old.view process.new.view comm source tag room request.old request.new result }
{
    let comm = match comm_of(comm) {
        Some(comm) => comm,
        None => return 1,
    };
    let tag = match tag_of(tag) {
        Ok(tag) => tag,
        Err(_) => return 3,
    };
    match process.irecv(comm, source_of(source), tag, room_of(room)) {
        Ok(id) => {
            *request = id.number;
            return 0;
        }
        Err(error) => return number_of(error),
    }
}

/// Posts a receive (`Process::irecv`).
#[unsafe(no_mangle)]
pub extern "C" fn ulfm_c_irecv(
    alloc: Global,
    handle: &mut Handle,
    comm: u64,
    source: u32,
    tag: u32,
    room: u32,
    request: &mut u64,
) -> u32
    ensures { Call handle.old.slot.held handle.new.slot.held result (request.new ≡ request.old) (λ old new. ReceiveCall old new comm source tag room request.old request.new result) }
{
    with!(
        handle,
        alloc,
        |process| receive(&mut process, comm, source, tag, room, request)
    )
}

/// A test of a receive.
fn test(process: &mut Process, request: u64, status: &mut CStatus, body: &mut [u8]) -> u32
    ensures { TestCall process.old.view process.new.view request status.old status.new body.old body.new result }
{
    match process.test(RequestId { number: request }) {
        Ok(answer) => return tell(answer, status, body),
        Err(error) => return number_of(error),
    }
}

/// Tests a receive (`Process::test`).
#[unsafe(no_mangle)]
pub extern "C" fn ulfm_c_test(
    alloc: Global,
    handle: &mut Handle,
    request: u64,
    status: &mut CStatus,
    body: &mut [u8],
) -> u32
    ensures { Call handle.old.slot.held handle.new.slot.held result (AreKept status.old status.new body.old body.new) (λ old new. TestCall old new request status.old status.new body.old body.new result) }
{
    with!(
        handle,
        alloc,
        |process| test(&mut process, request, status, body)
    )
}

/// A cancel of a receive.
fn cancel(process: &mut Process, request: u64, status: &mut CStatus, body: &mut [u8]) -> u32
    ensures { CancelCall process.old.view process.new.view request status.old status.new body.old body.new result }
{
    match process.cancel(RequestId { number: request }) {
        Ok(Cancel::Completed(answer)) => return tell(answer, status, body),
        Ok(Cancel::Cancelled) => {
            *status = ended(0, 1);
            return 0;
        }
        Err(error) => return number_of(error),
    }
}

/// Cancels a receive (`Process::cancel`).
#[unsafe(no_mangle)]
pub extern "C" fn ulfm_c_cancel(
    alloc: Global,
    handle: &mut Handle,
    request: u64,
    status: &mut CStatus,
    body: &mut [u8],
) -> u32
    ensures { Call handle.old.slot.held handle.new.slot.held result (AreKept status.old status.new body.old body.new) (λ old new. CancelCall old new request status.old status.new body.old body.new result) }
{
    with!(
        handle,
        alloc,
        |process| cancel(&mut process, request, status, body)
    )
}
