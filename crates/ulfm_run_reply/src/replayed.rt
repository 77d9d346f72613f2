//! The reply of `replay`.
ghost use Rattle.std.specs.Prelude.{IfOk};
ghost use Rattle.ulfm_forms.specs.declared.form.Form.{Form};
ghost use Rattle.ulfm_run_reply.specs.AnyBody.{text_in};
ghost use Rattle.ulfm_run_reply.specs.Played.{IsReplayReply};
ghost use Rattle.ulfm_command_line.specs.CommandLine.{AreTurns};

use crate::any_reply::AnyReply;
use crate::trace::trace_reply;
use crate::turns::given_turns;
use std::alloc::{AllocError, Global};
use ulfm_command_line::{Place, asked_at};
use ulfm_replay::replay;

/// The reply of `replay`.
pub fn replay_reply(
    alloc: Global,
    is_strict: bool,
    turns: Option<u32>,
    place: Place,
    bytes: &[u8],
) -> Result<AnyReply, AllocError>
    requires { AreTurns turns }
    ensures { IfOk result (λ r. (form : Form) → IsReplayReply form is_strict turns place bytes.now r.status (text_in form r.body)) }
{
    let read = asked_at(alloc, place, bytes)?;
    let asked = match read {
        Ok(asked) => given_turns(asked, turns),
        Err(reply) => return Ok(AnyReply::plain(reply)),
    };
    match replay(alloc, &asked.job) {
        Ok(reports) => Ok(trace_reply(alloc, is_strict, asked, reports)),
        Err(_) => Err(AllocError),
    }
}
