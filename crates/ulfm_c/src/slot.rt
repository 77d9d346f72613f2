//! A process behind a pointer that C holds.
ghost use Rattle.ulfm_c.specs.declared.process.Process.{Process as Held};
ghost use Rattle.std.specs.Prelude.{◌≡◌, Option, Some, None, IsSome};

use crate::Process;
use crate::loose::Loose;
use std::alloc::Global;
use std::marker::Model;
use std::ptr::null_mut;

/// A process, or none, which is null.
#[repr(C)]
pub struct Slot {
    at: *mut u8,
    pub ghost held: { Option Held },
}

impl Model for Slot {
    ghost use Rattle.ulfm_c.specs.Slot.{slot_owns};
    ghost use Rattle.std.specs.contracts.impls.GlobalAllocator.TheImpl.{ghosts};

    ghost also_owns = { λ s. slot_owns (ghosts.dealloc_token (record { memory = record { seal = tt } })) s.at s.held };
}

impl Slot {
    /// The process. The slot is null then.
    pub(crate) fn take(&mut self, alloc: Global) -> Box<Process>
        requires { IsSome self.old.held }
        ensures value { Some result.value ≡ self.old.held }
        ensures none { self.new.held ≡ None }
    {
        self.taken(alloc).into_box()
    }

    /// A process.
    pub(crate) fn put(&mut self, process: Box<Process>)
        ensures { self.new.held ≡ Some process.value }
    {
        self.set(Loose::of(process));
    }

    fn taken(&mut self, alloc: Global) -> Loose<Process, Global>
        requires { IsSome self.old.held }
        ensures value { Some result.value ≡ self.old.held }
        ensures none { self.new.held ≡ None }
    {
        let at = self.at as *mut Process;
        self.at = null_mut();
        Loose { at, alloc }
    }

    fn set(&mut self, process: Loose<Process, Global>)
        ensures { self.new.held ≡ Some process.value }
    {
        let Loose { at, alloc: _ } = process;
        self.at = at as *mut u8;
    }
}

// C hands a slot to the thread of its rank.
unsafe impl Send for Slot {}
