//! The program's `main`: it hands the words of the command line and the streams to `run_each` of `ulfm_program`, with the search of
//! `ulfm_outcomes`. Nothing else stands here, and nothing stands on it. If the words can't be had, `without_words` says why.
//!
//! What is written is what `run_each` promises. That it is this function which gets the words and the streams is read here, not proved.
#![tactic(auto)]

use std::env;
use std::io::ErrorKind;
use std::process::ExitCode;
use ulfm_outcomes::Exploration;
use ulfm_program::{Engine, run_each, without_words};

fn main(rt: HostRuntime) -> ExitCode {
    let mut output = rt.stdout();
    let status = match words_of(&rt) {
        Ok(words) => {
            let engine = Engine {
                rt: &rt,
                finder: &Exploration,
                alloc: rt.alloc(),
            };
            let words = words.as_slice();
            run_each(
                &engine,
                words,
                &mut rt.stdin(),
                &mut output,
                &mut rt.stderr(),
            )
        }
        Err(kind) => without_words(
            rt.alloc(),
            kind == ErrorKind::OutOfMemory,
            &mut output,
            &mut rt.stderr(),
        ),
    };
    ExitCode::from(status)
}

/// The words of the command line, the program's name first.
fn words_of(rt: &HostRuntime) -> Result<Vec<String>, ErrorKind> {
    let words = env::args(rt).map_err(|error| error.kind())?;
    words
        .collect(rt.alloc())
        .map_err(|_| ErrorKind::OutOfMemory)
}
