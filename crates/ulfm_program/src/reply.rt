//! The reply to a job's bytes.
ghost use Rattle.std.specs.Prelude.{◌≡◌, false, IfOk};
ghost use Rattle.ulfm_program.specs.Replies.{IsReplyBy, IsReplyIn, IsReplyNaming};
ghost use Rattle.ulfm_program.specs.inside.Threads.{needs_threads};
ghost use Rattle.ulfm_run_reply.specs.AnyBody.{text_in};
ghost use Rattle.ulfm_command_line.specs.CommandLine.{HasRanges};
ghost use Rattle.ulfm_command_line.specs.Wish.{WishView, wish_view};

use crate::engine::Engine;
use std::alloc::{AllocError, Global};
use std::sync::Wait;
use std::thread::Threads;
use ulfm_command_line::{Asked, Wanted, check_reply, expand_reply, places_reply, settled_place};
use ulfm_forms::Form;
use ulfm_outcomes_reply::{Onlooker, Search, list_reply};
use ulfm_outcomes_spec::Finder;
use ulfm_reach::Watch;
use ulfm_run_reply::{AnyReply, draw_reply, replay_reply, run_reply, sweep_reply};

/// The reply to what the words ask for. `watch` is told how far a list of outcomes is.
pub fn reply_to<R, F, P>(
    engine: &Engine<'_, R, F>,
    asked: &Asked<'_>,
    bytes: &[u8],
    watch: &mut P,
) -> Result<AnyReply, AllocError>
where
    R: Threads + Wait + Sync,
    F: Finder + Sync,
    P: Watch + Onlooker + Sync,
    requires { HasRanges asked.now.wanted }
    ensures { IfOk result (λ r. IsReplyIn asked.now.form (wish_view asked.now.wish) asked.now.wanted bytes.now r.status (text_in asked.now.form r.body)) }
{
    match asked.wish.stop {
        Some(text) => naming_reply(engine, asked, text, bytes, watch),
        None => settled_reply(engine, asked, asked.wanted, bytes, watch),
    }
}

/// The reply where ranks stop by a text that names steps.
fn naming_reply<R, F, P>(
    engine: &Engine<'_, R, F>,
    asked: &Asked<'_>,
    text: &str,
    bytes: &[u8],
    watch: &mut P,
) -> Result<AnyReply, AllocError>
where
    R: Threads + Wait + Sync,
    F: Finder + Sync,
    P: Watch + Onlooker + Sync,
    requires { HasRanges asked.now.wanted }
    ensures { IfOk result (λ r. IsReplyNaming asked.now.form (wish_view asked.now.wish) asked.now.wanted text.now bytes.now r.status (text_in asked.now.form r.body)) }
{
    let settled = settled_place(engine.alloc, text, bytes)?;
    match settled {
        Ok(place) => {
            let wanted = asked.wanted.at(place);
            settled_reply(engine, asked, wanted, bytes, watch)
        }
        Err(reply) => Ok(AnyReply::plain(reply)),
    }
}

/// What the words ask for, with the stops that names of steps come to.
pub(crate) fn settled(alloc: Global, asked: &Asked<'_>, bytes: &[u8]) -> Wanted {
    let Some(text) = asked.wish.stop else {
        return asked.wanted;
    };
    match settled_place(alloc, text, bytes) {
        Ok(Ok(place)) => asked.wanted.at(place),
        _ => asked.wanted,
    }
}

/// The reply to this in place of what the words ask for: with ranks stopped by the numbers of steps.
fn settled_reply<R, F, P>(
    engine: &Engine<'_, R, F>,
    asked: &Asked<'_>,
    wanted: Wanted,
    bytes: &[u8],
    watch: &mut P,
) -> Result<AnyReply, AllocError>
where
    R: Threads + Wait + Sync,
    F: Finder + Sync,
    P: Watch + Onlooker + Sync,
    requires { HasRanges wanted }
    ensures { IfOk result (λ r. IsReplyBy asked.now.form (wish_view asked.now.wish) wanted bytes.now r.status (text_in asked.now.form r.body)) }
{
    let form = asked.form;
    match wanted {
        Wanted::Run(options) => run_reply(engine.rt, engine.alloc, form, options, bytes),
        Wanted::Outcomes(options) => {
            let search = Search {
                finder: engine.finder,
                alloc: engine.alloc,
                form,
                options,
                choice: asked.wish.choice,
            };
            let reply = list_reply(engine.rt, &search, asked.wish.show, bytes, watch)?;
            Ok(AnyReply::plain(reply))
        }
        _ => plain_reply(engine.alloc, form, wanted, bytes),
    }
}

/// The reply to what the words ask for, where no threads work on it.
fn plain_reply(
    alloc: Global,
    form: Form,
    wanted: Wanted,
    bytes: &[u8],
) -> Result<AnyReply, AllocError>
    requires ranges { HasRanges wanted }
    requires plain { needs_threads wanted ≡ false }
    ensures { IfOk result (λ r. (wish : WishView) → IsReplyBy form wish wanted bytes.now r.status (text_in form r.body)) }
{
    match wanted {
        Wanted::Check => Ok(AnyReply::plain(check_reply(alloc, bytes))),
        Wanted::Replay {
            is_strict,
            turns,
            place,
        } => replay_reply(alloc, is_strict, turns, place, bytes),
        Wanted::Sweep => sweep_reply(alloc, bytes),
        Wanted::Places(stops) => Ok(AnyReply::plain(places_reply(alloc, stops, bytes)?)),
        Wanted::Expand => Ok(AnyReply::plain(expand_reply(alloc, bytes)?)),
        Wanted::Draw {
            style,
            turns,
            place,
        } => draw_reply(alloc, form, style, turns, place, bytes),
        _ => unreachable!(),
    }
}
