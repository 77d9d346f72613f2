//! Why a run has no trace, and its reply.
ghost use Rattle.std.specs.Prelude.{◌≡◌};
ghost use Rattle.ulfm_command_line.specs.Failure.{failed_in};
ghost use Rattle.ulfm_command_line.specs.declared.body.Body.TheVariants.{Failed};

use crate::body::Body;
use crate::reply::{RUN_FAILED, Reply};
use ulfm_forms::Form;

/// Why a run has no trace.
#[derive(Clone, Copy, Debug, PartialEq, Eq)]
pub enum Failure {
    /// A thread couldn't be started.
    NoThread,
    /// Memory ran out.
    OutOfMemory,
    /// A decision that a rank adopted is untrue of what the ranks did, or no rank had proposed it before. Or a step is refused since the
    /// decision isn't one for its rank to adopt (11). Or no rank's own call made a revocation that a rank took notice of. Or what they did
    /// has no one order, or none that rings of the job's places allow. Or more is left of a sender in an inbox than such a ring has places.
    Untrue,
}

/// The line where a run failed, in this form.
pub fn failed_line(form: Form, failure: Failure) -> &'static str
    ensures { result.now ≡ failed_in form failure }
{
    match (form, failure) {
        (Form::Words(_), Failure::NoThread) => "run failed: F2\n",
        (Form::Words(_), Failure::OutOfMemory) => "run failed: F3\n",
        (Form::Words(_), Failure::Untrue) => "run failed: F4\n",
        (Form::Json, Failure::NoThread) => "{\"failed\":\"F2\"}\n",
        (Form::Json, Failure::OutOfMemory) => "{\"failed\":\"F3\"}\n",
        (Form::Json, Failure::Untrue) => "{\"failed\":\"F4\"}\n",
    }
}

/// The reply where a run failed.
pub fn failed(failure: Failure) -> Reply
    ensures status { result.status ≡ 3 }
    ensures body { result.body ≡ Failed failure }
{
    Reply {
        status: RUN_FAILED,
        body: Body::Failed(failure),
        remarks: None,
    }
}
