//! The law of the communicator that stands for one that wasn't made, stated by the contract of a function that does nothing.
ghost use Rattle.std.specs.Prelude.{◌≡◌, ℕ, List, false};
ghost use Rattle.ulfm_log.specs.Communicators.{is_made};
ghost use Rattle.ulfm_log.specs.declared.entry.Entry.{Entry};
ghost use Rattle.ulfm_script.specs.Meant.{nowhere};

/// No rank has the communicator [`NOWHERE`](crate::NOWHERE): a step that names one that made none is refused.
pub fn nowhere_is_never_made()
    ensures { (n : ℕ) (log : List Entry) → is_made n log nowhere.number ≡ false }
{}
