//! The reply of `draw`: a picture of a replay.
ghost use Rattle.std.specs.Prelude.{◌≡◌, IfOk};
ghost use Rattle.ulfm_run_reply.specs.Played.{IsDrawReply};
ghost use Rattle.ulfm_run_reply.specs.AnyBody.{text_in};
ghost use Rattle.ulfm_command_line.specs.CommandLine.{AreTurns};

use crate::any_body::AnyBody;
use crate::any_reply::AnyReply;
use crate::turns::given_turns;
use std::alloc::{AllocError, Global};
use ulfm_command_line::{Body, DONE, Place, asked_at};
use ulfm_draw::drawn;
use ulfm_forms::{Form, Style, Wording};
use ulfm_job::Job;
use ulfm_replay::{Played, replay_in_order};
use ulfm_schedule::replayed;

/// The reply of `draw`, in this style.
pub fn draw_reply(
    alloc: Global,
    form: Form,
    style: Style,
    turns: Option<u32>,
    place: Place,
    bytes: &[u8],
) -> Result<AnyReply, AllocError>
    requires { AreTurns turns }
    ensures { IfOk result (λ r. IsDrawReply form turns place bytes.now r.status (text_in form r.body)) }
{
    let read = asked_at(alloc, place, bytes)?;
    let asked = match read {
        Ok(asked) => given_turns(asked, turns),
        Err(reply) => return Ok(AnyReply::plain(reply)),
    };
    match replay_in_order(alloc, &asked.job) {
        Ok(played) => picture_of(alloc, style, form.wording(), &asked.job, played),
        Err(_) => Err(AllocError),
    }
}

/// The picture of a replay.
fn picture_of(
    alloc: Global,
    style: Style,
    wording: Wording,
    job: &Job,
    played: Played,
) -> Result<AnyReply, AllocError>
    ensures { IfOk result (λ r. r.status ≡ 0) }
{
    let schedule = replayed(alloc, job, played.moves, played.reports.as_slice())?;
    let text = drawn(alloc, style, wording, job, &schedule, "")?;
    Ok(AnyReply {
        status: DONE,
        body: AnyBody::Plain(Body::Text(text)),
        remarks: None,
    })
}
