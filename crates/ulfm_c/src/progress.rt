//! What comes in and goes out, and the rank itself.
ghost use Rattle.std.specs.Prelude.{◌≡◌, ⊤};
ghost use Rattle.ulfm_c.specs.Calls.{Call, RoomCall};
ghost use Rattle.ulfm_c.specs.Progress.{TellsFlushed, TurnCall};
ghost use Rattle.ulfm_c.specs.View.{with_rank};
ghost use Rattle.ulfm_rank.specs.Calls.{stopping};

use crate::Process;
use crate::handle::{Handle, with};
use std::alloc::Global;

/// A turn: 12 where the rank runs, had no room and a growth was refused.
fn turn(process: &mut Process, moved: &mut u32) -> u32
    ensures { TurnCall process.old process.new moved.old moved.new result }
{
    match process.turn() {
        Ok(true) => {
            *moved = 1;
            return 0;
        }
        Ok(false) => {
            *moved = 0;
            return 0;
        }
        Err(_) => return 12,
    }
}

/// A turn (`Process::turn`).
#[unsafe(no_mangle)]
pub extern "C" fn ulfm_c_turn(alloc: Global, handle: &mut Handle, moved: &mut u32) -> u32
    ensures { RoomCall handle.old.slot.held handle.new.slot.held result (moved.new ≡ moved.old) (λ old new. TurnCall old new moved.old moved.new result) }
{
    with!(handle, alloc, |process| turn(&mut process, moved))
}

/// Whether nothing waits to go out to a rank that isn't known to have failed.
fn flushed(process: &Process, flushed: &mut u32) -> u32
    ensures { (result ≡ 0) × TellsFlushed process.now.view flushed.new }
{
    if process.has_pushed_all() {
        *flushed = 1;
        return 0;
    }
    *flushed = 0;
    0
}

/// Whether nothing waits to go out to a rank that isn't known to have failed (`Process::has_pushed_all`).
#[unsafe(no_mangle)]
pub extern "C" fn ulfm_c_flushed(alloc: Global, handle: &mut Handle, all: &mut u32) -> u32
    ensures { Call handle.old.slot.held handle.new.slot.held result (all.new ≡ all.old) (λ old new. (new ≡ old) × (result ≡ 0) × TellsFlushed old all.new) }
{
    with!(handle, alloc, |process| flushed(&process, all))
}

/// The rank's number.
fn me(process: &Process, rank: &mut u32) -> u32
    ensures { (result ≡ 0) × (rank.new ≡ process.now.view.rank.me) }
{
    *rank = process.me().number as u32;
    0
}

/// The rank's number in the world (`Process::me`).
#[unsafe(no_mangle)]
pub extern "C" fn ulfm_c_me(alloc: Global, handle: &mut Handle, rank: &mut u32) -> u32
    ensures { Call handle.old.slot.held handle.new.slot.held result (rank.new ≡ rank.old) (λ old new. (new ≡ old) × (result ≡ 0) × (rank.new ≡ old.rank.me)) }
{
    with!(handle, alloc, |process| me(&process, rank))
}

/// The stop.
fn stop(process: &mut Process) -> u32
    ensures { (result ≡ 0) × (process.new.view ≡ with_rank process.old.view (stopping process.old.view.rank)) }
{
    process.stop();
    0
}

/// The rank stops (`Process::stop`).
#[unsafe(no_mangle)]
pub extern "C" fn ulfm_c_stop(alloc: Global, handle: &mut Handle) -> u32
    ensures { Call handle.old.slot.held handle.new.slot.held result ⊤ (λ old new. (result ≡ 0) × (new ≡ with_rank old (stopping old.rank))) }
{
    with!(handle, alloc, |process| stop(&mut process))
}
