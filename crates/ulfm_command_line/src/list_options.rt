//! What `outcomes` is asked for.
ghost use Rattle.std.specs.Prelude.{◌≡◌, IfSome};
ghost use Rattle.clap.specs.Words.{found_of, rows_of};
ghost use Rattle.ulfm_command_line.specs.CommandLine.{AreListed, HasRanges, IsLimit, limit_in, list_options, listed};

use crate::command::{ListOptions, Wanted, value_of};
use crate::flagged::{drawn_in, is_flagged, is_strict, wants_progress};
use crate::number::number_given;
use crate::options::{MOST_STATES, USUAL_STATES};
use crate::place_option::{are_together, stops_in, threads_in};
use clap::ArgMatches;
use ulfm_job::Place;

/// What `outcomes` is asked for, where its options go together.
pub(crate) fn listed(options: &ArgMatches<'_>, place: Place) -> Option<Wanted>
    ensures exact { result ≡ listed (rows_of (found_of options.now)) place }
    ensures ranges { IfSome result HasRanges }
{
    if are_together(options) {
        Some(Wanted::Outcomes(list_options(options, place)))
    } else {
        None
    }
}

/// What the options of `outcomes` ask for.
fn list_options(options: &ArgMatches<'_>, place: Place) -> ListOptions
    ensures exact { result ≡ list_options (rows_of (found_of options.now)) place }
    ensures ranges { AreListed result }
{
    ListOptions {
        place,
        stops: stops_in(options),
        threads: threads_in(options),
        limit: limit_in(options),
        is_strict: is_strict(options),
        wants_progress: wants_progress(options),
        is_brief: is_flagged(options, "brief"),
        drawn: drawn_in(options),
    }
}

/// The most states that are looked at: those of `--limit`, where it is given.
fn limit_in(options: &ArgMatches<'_>) -> u32
    ensures exact { result ≡ limit_in (rows_of (found_of options.now)) }
    ensures range { IsLimit result }
{
    number_given(value_of(options, "limit"), MOST_STATES).unwrap_or(USUAL_STATES)
}
