//! From words and bytes to a status and bytes.
ghost use Rattle.std.specs.Prelude.{◌≢◌, ◌≡◌, ◌≤◌, ◌⊎◌, [], false, map, IsTrue};
ghost use Rattle.std.specs.Io.KnownBytes.{Keeps, Appends};
ghost use Rattle.ulfm_program.specs.Replies.{IsReplyIn, IsReplyTo, IsWhole, GetsReply, GetsBeginning, GetsFront, GetsFrontOf, not_text};
ghost use Rattle.ulfm_program.specs.inside.Printed.{GetsPrinted};
ghost use Rattle.ulfm_command_line.specs.declared.command.Wanted.{Wanted};
ghost use Rattle.ulfm_command_line.specs.CommandLine.{AsksFor, HasRanges, faults, form_asked, IsWordsStatus};
ghost use Rattle.ulfm_command_line.specs.Failure.{out_of_memory_in, out_of_memory_text};
ghost use Rattle.ulfm_command_line.specs.Wish.{wish_asked, wish_view};

use crate::engine::Engine;
use crate::far::Far;
use crate::progress::Progress;
use crate::reply::{reply_to, settled};
use std::alloc::Global;
use std::convert::AsStr;
use std::io::{Read, Write};
use std::sync::Wait;
use std::thread::Threads;
use std::time::Clock;
use ulfm_command_line::{
    Asked, DONE, Failure, INPUT_FAILED, OUTPUT_FAILED, PAST_LIMIT, RUN_FAILED, USAGE, Unfollowed,
    asked_for, failed_line,
};
use ulfm_explain::{write_fault, write_notes, write_past_limit, write_reasons, write_verdict};
use ulfm_forms::{Form, Wording};
use ulfm_outcomes_spec::Finder;
use ulfm_reader::{InputFault, read_front, write_whole};
use ulfm_run_reply::{AnyBody, AnyReply};

/// What standard error says of a run that came to rest.
const AT_REST: &str = "the run came to rest: nothing waits for a rank that runs on\n";

/// What it says of one that didn't.
const NOT_AT_REST: &str =
    "the run ended before it came to rest: something waits for a rank that runs on\n";

/// What is written where a word can't be read.
const NOT_TEXT: &str = "a word of the command line isn't UTF-8\n";

/// Follows the words: looks at them first, then reads the input whole, then its job, then runs it, and writes the whole
/// reply. Standard error gets how far a list of outcomes is, where that is asked for, and then what a person wants to know beside
/// the reply. Answers the status (docs/JSON.md). With 2 the words were looked at alone.
pub fn run_on<T, F, S, R, W, E>(
    engine: &Engine<'_, T, F>,
    words: &[S],
    input: &mut R,
    output: &mut W,
    errors: &mut E,
) -> u8
where
    T: Threads + Wait + Clock + Sync,
    F: Finder + Sync,
    S: AsStr,
    R: Read,
    W: Write,
    E: Write + Send,
    ensures replies { (wanted : Wanted) → AsksFor wanted (map S.text words.now) → IsWhole result
        → GetsReply (IsReplyTo (form_asked (map S.text words.now)) (wish_asked (map S.text words.now)) wanted) (R.remaining input.old) (W.contents output.old) (W.contents output.new) result }
    ensures in_form { R.remaining input.new ≢ R.remaining input.old → (wanted : Wanted) → AsksFor wanted (map S.text words.now) → IsWhole result
        → GetsReply (IsReplyIn (form_asked (map S.text words.now)) (wish_asked (map S.text words.now)) wanted) (R.remaining input.old) (W.contents output.old) (W.contents output.new) result }
    ensures cut_off { (wanted : Wanted) → AsksFor wanted (map S.text words.now) → result ≡ 4
        → GetsBeginning (IsReplyTo (form_asked (map S.text words.now)) (wish_asked (map S.text words.now)) wanted) (R.remaining input.old) (W.contents output.old) (W.contents output.new) }
    ensures output_failed { result ≡ 4 → GetsFront (W.contents output.old) (W.contents output.new) }
    ensures input_failed { result ≡ 5 → Keeps (W.contents output.old) (W.contents output.new) }
    ensures words_first { result ≡ 2 → R.remaining input.new ≡ R.remaining input.old }
    ensures not_followed { faults (map S.text words.now) ≢ [] → (R.remaining input.new ≡ R.remaining input.old) × IsWordsStatus (faults (map S.text words.now)) result }
    ensures known { result ≤ 9 }
{
    let alloc = engine.alloc;
    match asked_for(alloc, words) {
        Ok(asked) => follow(engine, &asked, input, output, errors),
        Err(Unfollowed::Help(text)) => write_reply(output, DONE, text.as_bytes()),
        Err(Unfollowed::Usage(text)) => {
            let status = write_reply(output, USAGE, text.as_bytes());
            write_fault(alloc, text.as_str(), errors);
            status
        }
        Err(Unfollowed::OutOfMemory) => write_starved(output, Form::Words(Wording::Plain)),
    }
}

/// The reply where the words can't be had: they find no memory, or aren't UTF-8. Answers the status.
pub fn without_words<W: Write, E: Write>(
    alloc: Global,
    is_starved: bool,
    output: &mut W,
    errors: &mut E,
) -> u8
    ensures starved { IsTrue is_starved → result ≢ 4 → (result ≡ 3) × Appends (W.contents output.old) (W.contents output.new) out_of_memory_text }
    ensures starved_cut_off { IsTrue is_starved → result ≡ 4 → GetsFrontOf (W.contents output.old) (W.contents output.new) out_of_memory_text }
    ensures not_text { is_starved ≡ false → result ≢ 4 → (result ≡ 2) × Appends (W.contents output.old) (W.contents output.new) not_text }
    ensures not_text_cut_off { is_starved ≡ false → result ≡ 4 → GetsFrontOf (W.contents output.old) (W.contents output.new) not_text }
    ensures known { result ≤ 4 }
{
    if is_starved {
        return write_starved(output, Form::Words(Wording::Plain));
    }
    let status = write_reply(output, USAGE, NOT_TEXT.as_bytes());
    write_fault(alloc, NOT_TEXT, errors);
    status
}

/// Reads the input, and writes the reply to it, and then the notes on it.
pub(crate) fn follow<T, F, R, W, E>(
    engine: &Engine<'_, T, F>,
    asked: &Asked<'_>,
    input: &mut R,
    output: &mut W,
    errors: &mut E,
) -> u8
where
    T: Threads + Wait + Clock + Sync,
    F: Finder + Sync,
    R: Read,
    W: Write,
    E: Write + Send,
    requires { HasRanges asked.now.wanted }
    ensures replies { IsWhole result → GetsReply (IsReplyIn asked.now.form (wish_view asked.now.wish) asked.now.wanted) (R.remaining input.old) (W.contents output.old) (W.contents output.new) result }
    ensures cut_off { result ≡ 4 → GetsBeginning (IsReplyIn asked.now.form (wish_view asked.now.wish) asked.now.wanted) (R.remaining input.old) (W.contents output.old) (W.contents output.new) }
    ensures output_failed { result ≡ 4 → GetsFront (W.contents output.old) (W.contents output.new) }
    ensures input_failed { result ≡ 5 → Keeps (W.contents output.old) (W.contents output.new) }
    ensures no_usage { result ≢ 2 }
    ensures known { result ≤ 9 }
{
    let alloc = engine.alloc;
    let form = asked.form;
    let bytes = match read_front(alloc, input) {
        Ok(bytes) => bytes,
        Err(InputFault::Failed) => return INPUT_FAILED,
        Err(InputFault::OutOfMemory) => return write_starved(output, form),
    };
    let mut progress = Progress::new(engine.rt, alloc, &mut *errors, asked.wanted);
    let told = reply_to(engine, asked, bytes.as_slice(), &mut progress);
    let far = progress.end();
    match told {
        Ok(reply) => {
            if let Some(remarks) = &reply.remarks {
                write_verdict(alloc, asked.has_colour, remarks.as_slice(), errors);
            }
            let status = write_body(alloc, form, &reply, output);
            write_remarks(alloc, asked, bytes.as_slice(), &reply, far, errors);
            status
        }
        Err(_) => write_starved(output, form),
    }
}

/// Prints a reply in this form, or writes that memory ran out, and answers the status of that, or of output that failed.
fn write_body<W: Write>(alloc: Global, form: Form, reply: &AnyReply, output: &mut W) -> u8
    requires { IsWhole reply.now.status }
    ensures { GetsPrinted form reply.now (W.contents output.old) (W.contents output.new) result }
{
    match reply.body.text(alloc, form) {
        Ok(text) => write_reply(output, reply.status, text.as_bytes()),
        Err(_) => write_starved(output, form),
    }
}

/// Writes the notes on a reply, and before them how far a search came that met its limit.
fn write_remarks<E: Write>(
    alloc: Global,
    asked: &Asked<'_>,
    bytes: &[u8],
    reply: &AnyReply,
    far: Far,
    errors: &mut E,
) {
    if reply.status == PAST_LIMIT {
        far.tell(alloc, errors);
        write_past_limit(errors);
        return;
    }
    let wanted = settled(alloc, asked, bytes);
    if let AnyBody::Plain(body) = &reply.body {
        write_reasons(alloc, wanted, asked.wish.stop, bytes, body, errors);
    }
    if let Some(remarks) = &reply.remarks {
        write_notes(alloc, wanted, bytes, remarks.as_slice(), errors);
    }
    if let AnyBody::Ran(_, ran) = &reply.body {
        write_rest(ran.is_at_rest, errors);
    }
}

/// Says whether a run came to rest.
fn write_rest<E: Write>(is_at_rest: bool, errors: &mut E) {
    let line = if is_at_rest { AT_REST } else { NOT_AT_REST };
    let _is_written = write_whole(errors, line.as_bytes());
}

/// Writes that memory ran out, in this form, and answers the status of that, or of output that failed.
pub(crate) fn write_starved<W: Write>(output: &mut W, form: Form) -> u8
    ensures written { result ≢ 4 → (result ≡ 3) × Appends (W.contents output.old) (W.contents output.new) (out_of_memory_in form) }
    ensures failed { result ≡ 4 → GetsFrontOf (W.contents output.old) (W.contents output.new) (out_of_memory_in form) }
    ensures known { (result ≡ 3) ⊎ (result ≡ 4) }
{
    let line = failed_line(form, Failure::OutOfMemory);
    write_reply(output, RUN_FAILED, line.as_bytes())
}

/// Writes a text, and answers the status of what it says, or of output that failed.
fn write_reply<W: Write>(output: &mut W, status: u8, text: &[u8]) -> u8
    requires { IsWhole status }
    ensures written { result ≢ 4 → (result ≡ status) × Appends (W.contents output.old) (W.contents output.new) text.now }
    ensures failed { result ≡ 4 → GetsFrontOf (W.contents output.old) (W.contents output.new) text.now }
    ensures known { (result ≡ status) ⊎ (result ≡ 4) }
{
    if write_whole(output, text) {
        status
    } else {
        OUTPUT_FAILED
    }
}
