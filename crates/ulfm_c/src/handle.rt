//! What C holds of a process.
ghost use Rattle.std.specs.Prelude.{◌≡◌, Some, None, MatchOption};
ghost use Rattle.ulfm_c.specs.Calls.{holding};

use crate::Process;
use crate::slot::Slot;
use std::alloc::Global;

/// The code of a call of the process that a handle holds, and holds again after it. 16: it holds none, and nothing is called.
// It is no function, since a clause over all that a call which it is given may do is refused: its type is Type 1.
macro_rules! with {
    ($handle:ident, $alloc:ident, |$process:ident| $call:expr) => {
        match $handle.take($alloc) {
            Some(mut $process) => {
                let code = $call;
                $handle.put($process);
                code
            }
            None => 16,
        }
    };
}

pub(crate) use with;

/// A process, or none: all zeros are none. Nobody copies it while it has one.
#[repr(C)]
pub struct Handle {
    pub(crate) slot: Slot,
    holds: u32,
    pub ghost told: { holds ≡ holding slot.held },
}

const _: () = prove!(size_of::<Handle>() == 16);

impl Handle {
    /// Takes the process out, where there is one.
    pub(crate) fn take(&mut self, alloc: Global) -> Option<Box<Process>>
        ensures taken { MatchOption result (self.old.slot.held ≡ None) (λ process. self.old.slot.held ≡ Some process.value) }
        ensures none { self.new.slot.held ≡ None }
    {
        if self.holds == 0 {
            return None;
        }
        let process = self.slot.take(alloc);
        self.holds = 0;
        Some(process)
    }

    /// Puts a process in.
    pub(crate) fn put(&mut self, process: Box<Process>)
        ensures { self.new.slot.held ≡ Some process.value }
    {
        self.slot.put(process);
        self.holds = 1;
    }
}
