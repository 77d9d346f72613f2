//! Where ranks stop, by the options of a command.
ghost use Rattle.std.specs.Prelude.{◌≡◌, ◌<◌, ◌≤◌, option_map, IfSome};
ghost use Rattle.clap.specs.Words.{found_of, rows_of};
ghost use Rattle.ulfm_command_line.specs.CommandLine.{AreStops, AreThreads, are_together, is_given, is_page_of_file, number_given, place_given, place_in, place_written, stops_in, stops_wanted, threads_in};

use crate::command::value_of;
use crate::number::number_given;
use crate::options::{MOST_STOPS, MOST_THREADS};
use crate::place_names::may_name;
use clap::ArgMatches;
use ulfm_job::Place;

/// Where `--stop` stops ranks by the numbers of steps: nowhere if it is left out. Nothing where its text can't be a place.
pub(crate) fn place_in(options: &ArgMatches<'_>) -> Option<Place>
    ensures { result ≡ place_in (rows_of (found_of options.now)) }
{
    place_given(value_of(options, "stop"))
}

/// Where the text of `--stop` stops ranks by the numbers of steps: nowhere if it is left out. Nothing where it can't be a place.
fn place_given(text: Option<&str>) -> Option<Place>
    ensures { result ≡ place_given (option_map (λ s. s.now) text.entry) }
{
    match text {
        Some(text) => place_written(text),
        None => Some(Place::Nowhere),
    }
}

/// Where a text stops ranks by the numbers of steps: nowhere if it may name steps, which the job settles.
fn place_written(text: &str) -> Option<Place>
    ensures { result ≡ place_written text.now }
{
    match Place::parse(text) {
        Some(place) => Some(place),
        None => {
            if may_name(text) {
                Some(Place::Nowhere)
            } else {
                None
            }
        }
    }
}

/// The number of stops of `--stops`, where it is given.
pub(crate) fn stops_in(options: &ArgMatches<'_>) -> Option<u8>
    ensures exact { result ≡ stops_in (rows_of (found_of options.now)) }
    ensures range { AreStops result }
{
    small_given(value_of(options, "stops"), MOST_STOPS)
}

/// Those that `places` is asked for: 1 where `--stops` is left out.
pub(crate) fn stops_wanted(options: &ArgMatches<'_>) -> u8
    ensures exact { result ≡ stops_wanted (rows_of (found_of options.now)) }
    ensures some { 0 < result }
    ensures few { result ≤ 2 }
{
    stops_in(options).unwrap_or(1)
}

/// The number of threads of `--threads`, where it is given.
pub(crate) fn threads_in(options: &ArgMatches<'_>) -> Option<u8>
    ensures exact { result ≡ threads_in (rows_of (found_of options.now)) }
    ensures range { AreThreads result }
{
    small_given(value_of(options, "threads"), MOST_THREADS)
}

/// The number that an option was given, from 1 to the most.
fn small_given(text: Option<&str>, most: u32) -> Option<u8>
    requires { most ≤ 255 }
    ensures exact { result ≡ number_given most (option_map (λ s. s.now) text.entry) }
    ensures range { IfSome result (λ n. (0 < n) × (n ≤ most)) }
{
    match number_given(text, most) {
        Some(number) => Some(number as u8),
        None => None,
    }
}

/// Whether the options of places go together: `--stops` without `--stop`, `--threads` and `--html` with `--stops`, and `--html` with a file.
pub(crate) fn are_together(options: &ArgMatches<'_>) -> bool
    ensures { result ≡ are_together (rows_of (found_of options.now)) }
{
    if is_given(options, "stops") {
        !is_given(options, "stop") && is_page_of_file(options)
    } else {
        !is_given(options, "threads") && !is_given(options, "html")
    }
}

/// Whether a page is asked for of a file alone.
fn is_page_of_file(options: &ArgMatches<'_>) -> bool
    ensures { result ≡ is_page_of_file (rows_of (found_of options.now)) }
{
    !is_given(options, "html") || is_given(options, "file")
}

/// Whether an option was given, by its name.
pub(crate) fn is_given(options: &ArgMatches<'_>, name: &str) -> bool
    ensures { result ≡ is_given name.now (rows_of (found_of options.now)) }
{
    value_of(options, name).is_some()
}
