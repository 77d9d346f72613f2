//! Jobs by file.
ghost use Rattle.std.specs.Prelude.{◌≡◌, ◌≢◌, ◌≤◌, ◌⊎◌, [], map, IsTrue};
ghost use Rattle.std.specs.Io.KnownBytes.{Keeps, Appends};
ghost use Rattle.ulfm_program.specs.Files.{GetsAnswer, GetsAnswers, IsReplyOf, head_of};
ghost use Rattle.ulfm_program.specs.Replies.{IsReplyIn, IsReplyTo, IsWhole, GetsReply, GetsBeginning, GetsFront, GetsFrontOf, GetsStarved};
ghost use Rattle.ulfm_command_line.specs.declared.command.Wanted.{Wanted};
ghost use Rattle.ulfm_command_line.specs.CommandLine.{AsksFor, HasRanges, IsWordsStatus, asked, faults, files_in, form_asked};
ghost use Rattle.ulfm_command_line.specs.Wish.{wish_asked, wish_view};

use crate::app::{follow, run_on, write_starved};
use crate::engine::Engine;
use crate::opens::Opens;
use crate::page_file::write_page;
use std::alloc::Global;
use std::convert::AsStr;
use std::fmt;
use std::io::{Read, Write};
use std::rt::Files;
use std::sync::Wait;
use std::thread::Threads;
use std::time::Clock;
use ulfm_command_line::{Asked, DONE, INPUT_FAILED, OUTPUT_FAILED, Unfollowed, asked_for};
use ulfm_forms::{Form, Wording};
use ulfm_outcomes_spec::Finder;
use ulfm_reader::write_whole;

/// Follows the words for each file that they name, in turn, as `run_on` follows them with that file's bytes as its input, or for `input`
/// where they name none. Above the answers of several files stands a line with each one's name. A file that can't be read has the status
/// of an input that fails, and standard error names it. Answers the greatest status (docs/JSON.md). Where the words name files, the input
/// isn't read.
pub fn run_each<T, F, S, R, W, E>(
    engine: &Engine<'_, T, F>,
    words: &[S],
    input: &mut R,
    output: &mut W,
    errors: &mut E,
) -> u8
where
    T: Files + Opens + Threads + Wait + Clock + Sync,
    F: Finder + Sync,
    S: AsStr,
    R: Read,
    W: Write,
    E: Write + Send,
    ensures replies { files_in (asked (map S.text words.now)) ≡ [] → (wanted : Wanted) → AsksFor wanted (map S.text words.now) → IsWhole result
        → GetsReply (IsReplyTo (form_asked (map S.text words.now)) (wish_asked (map S.text words.now)) wanted) (R.remaining input.old) (W.contents output.old) (W.contents output.new) result }
    ensures in_form { files_in (asked (map S.text words.now)) ≡ [] → R.remaining input.new ≢ R.remaining input.old → (wanted : Wanted) → AsksFor wanted (map S.text words.now) → IsWhole result
        → GetsReply (IsReplyIn (form_asked (map S.text words.now)) (wish_asked (map S.text words.now)) wanted) (R.remaining input.old) (W.contents output.old) (W.contents output.new) result }
    ensures cut_off { files_in (asked (map S.text words.now)) ≡ [] → (wanted : Wanted) → AsksFor wanted (map S.text words.now) → result ≡ 4
        → GetsBeginning (IsReplyTo (form_asked (map S.text words.now)) (wish_asked (map S.text words.now)) wanted) (R.remaining input.old) (W.contents output.old) (W.contents output.new) }
    ensures output_failed { files_in (asked (map S.text words.now)) ≡ [] → result ≡ 4 → GetsFront (W.contents output.old) (W.contents output.new) }
    ensures input_failed { files_in (asked (map S.text words.now)) ≡ [] → result ≡ 5 → Keeps (W.contents output.old) (W.contents output.new) }
    ensures words_first { result ≡ 2 → R.remaining input.new ≡ R.remaining input.old }
    ensures not_followed { faults (map S.text words.now) ≢ [] → (R.remaining input.new ≡ R.remaining input.old) × IsWordsStatus (faults (map S.text words.now)) result }
    ensures untouched { files_in (asked (map S.text words.now)) ≢ [] → R.remaining input.new ≡ R.remaining input.old }
    ensures of_files { files_in (asked (map S.text words.now)) ≢ [] → (wanted : Wanted) → AsksFor wanted (map S.text words.now) → GetsStarved (W.contents output.old) (W.contents output.new) result
        ⊎ GetsAnswers (IsReplyIn (form_asked (map S.text words.now)) (wish_asked (map S.text words.now)) wanted) (T.bytes_of engine.now.rt.now) (files_in (asked (map S.text words.now))) (W.contents output.old) (W.contents output.new) result }
    ensures known { result ≤ 9 }
{
    match asked_for(engine.alloc, words) {
        Ok(asked) => {
            if asked.files.is_empty() {
                follow(engine, &asked, input, output, errors)
            } else {
                run_files(engine, &asked, output, errors)
            }
        }
        Err(Unfollowed::OutOfMemory) => write_starved(output, Form::Words(Wording::Plain)),
        Err(_) => run_on(engine, words, input, output, errors),
    }
}

/// Follows the words for each file that they name, and answers the greatest status.
fn run_files<T, F, W, E>(
    engine: &Engine<'_, T, F>,
    asked: &Asked<'_>,
    output: &mut W,
    errors: &mut E,
) -> u8
where
    T: Files + Opens + Threads + Wait + Clock + Sync,
    F: Finder + Sync,
    W: Write,
    E: Write + Send,
    requires { HasRanges asked.now.wanted }
    ensures answers { GetsAnswers (IsReplyIn asked.now.form (wish_view asked.now.wish) asked.now.wanted) (T.bytes_of engine.now.rt.now) (map (λ f. f.now) asked.now.files.items) (W.contents output.old) (W.contents output.new) result }
    ensures known { result ≤ 9 }
{
    let files = asked.files.as_slice();
    let has_head = files.len() > 1;
    let mut greatest = DONE;
    for file in files {
        let status = run_file(engine, asked, file, has_head, output, errors);
        if greatest < status {
            greatest = status;
        }
        if status == OUTPUT_FAILED {
            return greatest;
        }
    }
    greatest
}

/// Follows the words for a file, below a line with its name where that is wanted, and answers the status.
fn run_file<T, F, W, E>(
    engine: &Engine<'_, T, F>,
    asked: &Asked<'_>,
    file: &str,
    has_head: bool,
    output: &mut W,
    errors: &mut E,
) -> u8
where
    T: Files + Opens + Threads + Wait + Clock + Sync,
    F: Finder + Sync,
    W: Write,
    E: Write + Send,
    requires { HasRanges asked.now.wanted }
    ensures answer { GetsAnswer (IsReplyOf (IsReplyIn asked.now.form (wish_view asked.now.wish) asked.now.wanted) (T.bytes_of engine.now.rt.now file.now)) (head_of has_head file.now) (W.contents output.old) (W.contents output.new) result }
    ensures known { result ≤ 9 }
{
    if !write_head(file, has_head, output) {
        return OUTPUT_FAILED;
    }
    match engine.rt.open_named(file) {
        Ok(mut opened) => run_opened(engine, asked, file, &mut opened, output, errors),
        Err(error) => {
            write_unread(engine.alloc, file, error, errors);
            INPUT_FAILED
        }
    }
}

/// Follows the words for a file that is open, and answers the status. Standard error is told where it can't be read.
fn run_opened<T, F, R, W, E>(
    engine: &Engine<'_, T, F>,
    asked: &Asked<'_>,
    file: &str,
    opened: &mut R,
    output: &mut W,
    errors: &mut E,
) -> u8
where
    T: Files + Threads + Wait + Clock + Sync,
    F: Finder + Sync,
    R: Read,
    W: Write,
    E: Write + Send,
    requires { HasRanges asked.now.wanted }
    ensures replies { IsWhole result → GetsReply (IsReplyIn asked.now.form (wish_view asked.now.wish) asked.now.wanted) (R.remaining opened.old) (W.contents output.old) (W.contents output.new) result }
    ensures cut_off { result ≡ 4 → GetsBeginning (IsReplyIn asked.now.form (wish_view asked.now.wish) asked.now.wanted) (R.remaining opened.old) (W.contents output.old) (W.contents output.new) }
    ensures input_failed { result ≡ 5 → Keeps (W.contents output.old) (W.contents output.new) }
    ensures known { result ≤ 9 }
{
    let status = follow(engine, asked, opened, output, errors);
    write_page(engine, asked, file, status, errors);
    if status == INPUT_FAILED {
        write_unread(engine.alloc, file, "the read failed", errors);
    }
    status
}

/// Writes the line above the answer of a file where that is wanted, or a beginning of it.
fn write_head<W: Write>(file: &str, has_head: bool, output: &mut W) -> bool
    ensures written { IsTrue result → Appends (W.contents output.old) (W.contents output.new) (head_of has_head file.now) }
    ensures beginning { GetsFrontOf (W.contents output.old) (W.contents output.new) (head_of has_head file.now) }
{
    if !has_head {
        return true;
    }
    if !write_whole(output, b"== ") {
        return false;
    }
    if !write_whole(output, file.as_bytes()) {
        return false;
    }
    write_whole(output, b"\n")
}

/// Tells that a file can't be read, and why. Where that finds no memory, nothing is told.
fn write_unread<C: fmt::Display + Drop, E: Write>(
    alloc: Global,
    file: &str,
    why: C,
    errors: &mut E,
) {
    if let Ok(line) = format!(in alloc; "ulfm: '{file}' can't be read: {why}\n") {
        let _is_written = write_whole(errors, line.as_bytes());
    }
}
