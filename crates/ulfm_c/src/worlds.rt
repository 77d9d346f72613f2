//! Worlds.
ghost use Rattle.std.specs.Prelude.{◌≡◌, None, Some, IfOk, IfErr, box_value, is_some, length, map, vec_len, if◌then◌else◌};
ghost use Rattle.ulfm_c.specs.Worlds.{WorldCall, process_in};

use crate::handle::Handle;
use crate::words::number_of;
use crate::{Process, world};
use std::alloc::Global;
use ulfm_base::{CallError, RANK_PLACES};

/// The processes, each in a block of its own.
fn boxed(alloc: Global, processes: Vec<Process>) -> Result<Vec<Box<Process>>, CallError>
    ensures values { IfOk result (λ boxes. map box_value boxes.items ≡ processes.items) }
    ensures starves { IfErr result (λ error. error ≡ CallError.OutOfMemory) }
{
    let mut boxes = Vec::new(alloc);
    for process in processes {
        let block = Box::new(alloc, process)?;
        boxes.push(block)?;
    }
    Ok(boxes)
}

/// Puts a process into a handle, whose own one is ended.
fn replace(alloc: Global, handle: &mut Handle, process: Box<Process>)
    ensures { process_in handle.new ≡ Some process.value }
{
    drop(handle.take(alloc));
    handle.put(process);
}

/// Puts each process into the handle at its place.
fn fill(alloc: Global, handles: &mut [Handle], boxes: Vec<Box<Process>>)
    requires { vec_len boxes ≡ length handles.old }
    ensures { map process_in handles.new ≡ map Some (map box_value boxes.items) }
{
    let mut place = 0;
    for process in boxes {
        replace(alloc, &mut handles[place], process);
        place += 1;
    }
}

/// Makes a world, with a process for each handle.
#[unsafe(no_mangle)]
pub extern "C" fn ulfm_c_world(alloc: Global, handles: &mut [Handle], capacity: u8) -> u32
    ensures { WorldCall handles.old handles.new capacity result }
{
    if handles.len() > RANK_PLACES {
        return 13;
    }
    let processes = match world(alloc, handles.len() as u8, capacity) {
        Ok(processes) => processes,
        Err(error) => return number_of(error),
    };
    match boxed(alloc, processes) {
        Ok(boxes) => {
            fill(alloc, handles, boxes);
            0
        }
        Err(error) => number_of(error),
    }
}

/// Ends a process. 16: there is none.
#[unsafe(no_mangle)]
pub extern "C" fn ulfm_c_end(alloc: Global, handle: &mut Handle) -> u32
    ensures none { handle.new.slot.held ≡ None }
    ensures code { result ≡ (if is_some handle.old.slot.held then 0 else 16) }
{
    match handle.take(alloc) {
        Some(process) => {
            drop(process);
            0
        }
        None => 16,
    }
}
