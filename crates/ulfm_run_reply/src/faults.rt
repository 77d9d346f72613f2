//! Which failure a fault of a run is.
ghost use Rattle.std.specs.Prelude.{◌≡◌};
ghost use Rattle.ulfm_run_reply.specs.Failing.{failure_of};

use ulfm_command_line::Failure;
use ulfm_script::RunFault;

/// The failure that a run's fault is. Ends that don't fit the job are none: the program makes ends and deciders that fit, so that fault never
/// comes here, which is proved.
pub fn failure_of(fault: RunFault) -> Option<Failure>
    ensures { result ≡ failure_of fault }
{
    match fault {
        RunFault::NoThread => Some(Failure::NoThread),
        RunFault::OutOfMemory => Some(Failure::OutOfMemory),
        RunFault::Untrue(_) => Some(Failure::Untrue),
        RunFault::BadEnds => None,
    }
}
