//! What moves one step at a time, and what would come.
ghost use Rattle.std.specs.Prelude.{◌≡◌};
ghost use Rattle.ulfm_c.specs.Calls.{Call, RoomCall};
ghost use Rattle.ulfm_c.specs.Steps.{NextCall, PushCall, TakeCall, WouldCall, number_of_outlook};

use crate::handle::{Handle, with};
use crate::next_item::{CNextItem, next_item};
use crate::words::{number_of, position_of};
use crate::{Outlook, Process};
use std::alloc::Global;
use ulfm_base::RequestId;

/// Pushes what waits to go out.
fn push(process: &mut Process, moved: &mut u32) -> u32
    ensures { PushCall process.old.view process.new.view moved.new result }
{
    *moved = if process.push() { 1 } else { 0 };
    0
}

/// Pushes what waits to go out (`Process::push`).
#[unsafe(no_mangle)]
pub extern "C" fn ulfm_c_push(alloc: Global, handle: &mut Handle, moved: &mut u32) -> u32
    ensures { Call handle.old.slot.held handle.new.slot.held result (moved.new ≡ moved.old) (λ old new. PushCall old new moved.new result) }
{
    with!(handle, alloc, |process| push(&mut process, moved))
}

/// Takes the first item that came from a rank.
fn take(process: &mut Process, source: u32, took: &mut u32) -> u32
    ensures { TakeCall process.old process.new source took.old took.new result }
{
    match process.take_from(position_of(source)) {
        Ok(is_one) => {
            *took = if is_one { 1 } else { 0 };
            return 0;
        }
        Err(error) => return number_of(error),
    }
}

/// Takes the first item that came from a rank (`Process::take_from`).
#[unsafe(no_mangle)]
pub extern "C" fn ulfm_c_take(
    alloc: Global,
    handle: &mut Handle,
    source: u32,
    took: &mut u32,
) -> u32
    ensures { RoomCall handle.old.slot.held handle.new.slot.held result (took.new ≡ took.old) (λ old new. TakeCall old new source took.old took.new result) }
{
    with!(handle, alloc, |process| take(&mut process, source, took))
}

/// What stands first in the ring from a rank.
fn next(process: &mut Process, source: u32, item: &mut CNextItem) -> u32
    ensures { NextCall process.old.view process.new.view source item.old item.new result }
{
    match process.next_from(position_of(source)) {
        Ok(head) => {
            *item = next_item(head);
            return 0;
        }
        Err(error) => return number_of(error),
    }
}

/// What stands first in the ring from a rank (`Process::next_from`).
#[unsafe(no_mangle)]
pub extern "C" fn ulfm_c_next(
    alloc: Global,
    handle: &mut Handle,
    source: u32,
    item: &mut CNextItem,
) -> u32
    ensures { Call handle.old.slot.held handle.new.slot.held result (item.new ≡ item.old) (λ old new. NextCall old new source item.old item.new result) }
{
    with!(handle, alloc, |process| next(&mut process, source, item))
}

/// The code of what a test would come to.
fn number_of_outlook(outlook: Outlook) -> u32
    ensures { result ≡ number_of_outlook outlook }
{
    match outlook {
        Outlook::Over => 0,
        Outlook::NotYet => 17,
        Outlook::Pending => 18,
    }
}

/// The code that a test of a request would answer.
fn would(process: &mut Process, request: u64, code: &mut u32) -> u32
    ensures { WouldCall process.old.view process.new.view request code.new result }
{
    *code = match process.would(RequestId { number: request }) {
        Ok(outlook) => number_of_outlook(outlook),
        Err(error) => number_of(error),
    };
    0
}

/// The code that a test of a request would answer (`Process::would`).
#[unsafe(no_mangle)]
pub extern "C" fn ulfm_c_would(
    alloc: Global,
    handle: &mut Handle,
    request: u64,
    code: &mut u32,
) -> u32
    ensures { Call handle.old.slot.held handle.new.slot.held result (code.new ≡ code.old) (λ old new. WouldCall old new request code.new result) }
{
    with!(handle, alloc, |process| would(&mut process, request, code))
}
