//! The page of `--html`: for people, and none of it is promised.

use crate::engine::Engine;
use crate::page_of;
use std::alloc::AllocError;
use std::fs::File;
use std::io::Write;
use std::rt::Files;
use ulfm_command_line::{Asked, JOB_REFUSED, ListOptions, Wanted};
use ulfm_forms::{Form, Wording};
use ulfm_outcomes_reply::Search;
use ulfm_outcomes_spec::Finder;
use ulfm_reader::{read_front, write_whole};

/// What is told where the words name several jobs.
const UNPAGED: &str = "ulfm: --html is for one job, so no page is written\n";

/// What is told where the page would take the place of the job.
const ITSELF: &str = "ulfm: --html names the job's own file, so no page is written\n";

/// What is told where the page can't be made or written.
const UNWRITTEN: &str = "ulfm: the page can't be written\n";

/// Writes the page of the job in a file, whose answer had this status, if the words ask for one. Where it can't be written, standard error says so.
pub(crate) fn write_page<T: Files, F: Finder, E: Write>(
    engine: &Engine<'_, T, F>,
    asked: &Asked<'_>,
    file: &str,
    status: u8,
    errors: &mut E,
) {
    let Some(page) = asked.page else {
        return;
    };
    let Some((options, stops)) = lists_of(asked) else {
        let _is_written = write_whole(errors, UNPAGED.as_bytes());
        return;
    };
    if page == file {
        let _is_written = write_whole(errors, ITSELF.as_bytes());
        return;
    }
    let search = Search {
        finder: engine.finder,
        alloc: engine.alloc,
        form: Form::Words(Wording::Plain),
        options: ListOptions {
            is_brief: true,
            ..options
        },
        choice: asked.wish.choice,
    };
    match made(engine.rt, &search, stops, file) {
        // Standard error has said what is wrong with the job.
        Ok(None) if status == JOB_REFUSED => {}
        Ok(Some(text)) if is_kept(engine.rt, page, text.as_str()) => {}
        _ => {
            let _is_written = write_whole(errors, UNWRITTEN.as_bytes());
        }
    }
}

/// The options of the lists that the words ask for, and at how many stops, where they are of one job.
fn lists_of(asked: &Asked<'_>) -> Option<(ListOptions, u8)> {
    match asked.wanted {
        Wanted::Outcomes(options) if asked.files.len() == 1 => Some((options, options.stops?)),
        _ => None,
    }
}

/// The page of the job in a file, where that is one. The file is read once more, so what can be read but once has none.
fn made<T: Files, F: Finder>(
    rt: &T,
    search: &Search<'_, F>,
    stops: u8,
    file: &str,
) -> Result<Option<String>, AllocError> {
    let Ok(mut opened) = File::open(rt, file) else {
        return Ok(None);
    };
    match read_front(search.alloc, &mut opened) {
        Ok(bytes) => page_of(search, stops, file, bytes.as_slice()),
        Err(_) => Ok(None),
    }
}

/// Whether a page is written whole into a file.
fn is_kept<T: Files>(rt: &T, file: &str, page: &str) -> bool {
    match File::create(rt, file) {
        Ok(mut opened) => write_whole(&mut opened, page.as_bytes()),
        Err(_) => false,
    }
}
