//! Probes and their messages (MPI 4.0, 3.8.1 to 3.8.3).
ghost use Rattle.std.specs.Prelude.{◌≡◌};
ghost use Rattle.ulfm_c.specs.Calls.{AreKept, Call};
ghost use Rattle.ulfm_c.specs.Probes.{LookCall, MessageCall, ProbeCall};

use crate::Process;
use crate::c_status::{CStatus, status_of, tell};
use crate::handle::{Handle, with};
use crate::words::{comm_of, number_of, source_of, tag_of};
use std::alloc::Global;
use ulfm_log::{MessageId, Probed};

/// A probe that changes nothing.
fn iprobe(process: &Process, comm: u64, source: u32, tag: u32, status: &mut CStatus) -> u32
    ensures { LookCall process.now.view process.now.view comm source tag status.old status.new result }
{
    let comm = match comm_of(comm) {
        Some(comm) => comm,
        None => return 1,
    };
    let tag = match tag_of(tag) {
        Ok(tag) => tag,
        Err(_) => return 3,
    };
    match process.iprobe(comm, source_of(source), tag) {
        Ok(Some(told)) => {
            *status = status_of(told);
            return 0;
        }
        Ok(None) => return 17,
        Err(error) => return number_of(error),
    }
}

/// Looks for a letter, and leaves it (`Process::iprobe`).
#[unsafe(no_mangle)]
pub extern "C" fn ulfm_c_iprobe(
    alloc: Global,
    handle: &mut Handle,
    comm: u64,
    source: u32,
    tag: u32,
    status: &mut CStatus,
) -> u32
    ensures { Call handle.old.slot.held handle.new.slot.held result (status.new ≡ status.old) (λ old new. LookCall old new comm source tag status.old status.new result) }
{
    with!(
        handle,
        alloc,
        |process| iprobe(&process, comm, source, tag, status)
    )
}

/// A probe that makes what it finds a message.
fn improbe(
    process: &mut Process,
    comm: u64,
    source: u32,
    tag: u32,
    message: &mut u64,
    status: &mut CStatus,
) -> u32
    ensures { ProbeCall process.old.view process.new.view comm source tag message.old message.new status.old status.new result }
{
    let comm = match comm_of(comm) {
        Some(comm) => comm,
        None => return 1,
    };
    let tag = match tag_of(tag) {
        Ok(tag) => tag,
        Err(_) => return 3,
    };
    match process.improbe(comm, source_of(source), tag) {
        Ok(Probed::Found(id, told)) => {
            *message = id.number;
            *status = status_of(told);
            return 0;
        }
        Ok(Probed::Nothing) => return 17,
        Err(error) => return number_of(error),
    }
}

/// Looks for a letter, which becomes a message (`Process::improbe`).
#[unsafe(no_mangle)]
pub extern "C" fn ulfm_c_improbe(
    alloc: Global,
    handle: &mut Handle,
    comm: u64,
    source: u32,
    tag: u32,
    message: &mut u64,
    status: &mut CStatus,
) -> u32
    ensures { Call handle.old.slot.held handle.new.slot.held result (AreKept message.old message.new status.old status.new) (λ old new. ProbeCall old new comm source tag message.old message.new status.old status.new result) }
{
    with!(
        handle,
        alloc,
        |process| improbe(&mut process, comm, source, tag, message, status)
    )
}

/// The receive of a message.
fn mrecv(process: &mut Process, message: u64, status: &mut CStatus, body: &mut [u8]) -> u32
    ensures { MessageCall process.old.view process.new.view message status.old status.new body.old body.new result }
{
    let room = body.len().min(65535) as u16;
    match process.mrecv(MessageId { number: message }, room) {
        Ok(answer) => return tell(answer, status, body),
        Err(error) => return number_of(error),
    }
}

/// Receives a message (`Process::mrecv`).
#[unsafe(no_mangle)]
pub extern "C" fn ulfm_c_mrecv(
    alloc: Global,
    handle: &mut Handle,
    message: u64,
    status: &mut CStatus,
    body: &mut [u8],
) -> u32
    ensures { Call handle.old.slot.held handle.new.slot.held result (AreKept status.old status.new body.old body.new) (λ old new. MessageCall old new message status.old status.new body.old body.new result) }
{
    with!(
        handle,
        alloc,
        |process| mrecv(&mut process, message, status, body)
    )
}
