//! The command line.
ghost use Rattle.std.specs.Prelude.{◌≡◌, [], codes, Some, map, option_map, unwrap_or, IfOk, IfSome};
ghost use Rattle.clap.specs.Words.{FailsBy, all_of, first_of, found_of, rows_of, subcommand_rows_of};
ghost use Rattle.ulfm_command_line.specs.CommandLine.{AreInRange, HasRanges, asked, carrier_named, faults, form_asked, form_in, form_of, wording_of, AreTurns, files_in, meant, named, named_at, run_options, turns_in};
ghost use Rattle.ulfm_command_line.specs.Wish.{wish_asked, wish_view};

use crate::flagged::{is_flagged, is_strict, style_of};
use crate::list_options::listed;
use crate::number::number_given;
use crate::options::MOST_RUNS;
use crate::place_option::{place_in, stops_wanted};
use crate::subcommands::command_line;
use crate::unmeant::unmeant;
use crate::wish::{Wish, wish_in};
use clap::error::ErrorKind;
use clap::{ArgMatches, Command, Error};
use std::alloc::{AllocError, Global};
use std::convert::AsStr;
use ulfm_forms::{Form, Style, Wording};
use ulfm_job::Place;
use ulfm_job::limits::MOST_TURNS;

/// What takes the items of a run from rank to rank.
#[derive(Clone, Copy, Debug, PartialEq, Eq)]
pub enum Carrier {
    /// A ring for each ordered pair of ranks.
    Lanes,
    /// One inbox for each rank, which all senders share.
    Shared,
}

/// The options of `run`.
#[derive(Clone, Copy)]
pub struct RunOptions {
    /// What takes the items from rank to rank.
    pub carrier: Carrier,
    /// Where ranks stop, besides the stops of the job.
    pub place: Place,
    /// Whether an unfinished step has a status of its own.
    pub is_strict: bool,
    /// The turns of the job, in place of its own, 1 to 10,000,000.
    pub turns: Option<u32>,
    /// How many runs are counted, 1 to 10,000.
    pub repeat: Option<u32>,
    /// Whether what all counted runs have is told once.
    pub is_brief: bool,
}

/// The options of `outcomes`.
#[derive(Clone, Copy)]
pub struct ListOptions {
    /// Where ranks stop, besides the stops of the job.
    pub place: Place,
    /// At how many stops at most the job is looked at, 1 or 2, each at any place, where it is to be at all of them.
    pub stops: Option<u8>,
    /// By how many threads, 1 to 64: as many as there are processors where it is left out.
    pub threads: Option<u8>,
    /// The most states that are looked at, 1 to 100,000,000.
    pub limit: u32,
    /// Whether a step that never ends has a status of its own.
    pub is_strict: bool,
    /// Whether standard error tells how far it is.
    pub wants_progress: bool,
    /// Whether a schedule is told without the events that it can do without.
    pub is_brief: bool,
    /// The form in which the schedule that is shown is drawn, where it is to be.
    pub drawn: Option<Style>,
}

/// What the words ask for.
#[derive(Clone, Copy)]
pub enum Wanted {
    /// The line of a job, or of its refusal.
    Check,
    /// The trace of a replay.
    Replay {
        /// Whether an unfinished step has a status of its own.
        is_strict: bool,
        /// The turns of the job, in place of its own, 1 to 10,000,000.
        turns: Option<u32>,
        /// Where ranks stop, besides the stops of the job.
        place: Place,
    },
    /// The trace of a run.
    Run(RunOptions),
    /// A line for each place of a stop.
    Sweep,
    /// A line for each step, with all that it may be answered, or a schedule that shows some of it.
    Outcomes(ListOptions),
    /// A line for each place at which ranks may stop, at most so many of them, 1 or 2.
    Places(u8),
    /// The text of a job with its steps written out.
    Expand,
    /// A picture of a replay.
    Draw {
        /// Its form.
        style: Style,
        /// The turns of the job, in place of its own, 1 to 10,000,000.
        turns: Option<u32>,
        /// Where ranks stop, besides the stops of the job.
        place: Place,
    },
}

/// What the words ask for, and of which files.
#[derive(Drop)]
pub struct Asked<'a> {
    /// What they ask for, of each job.
    pub wanted: Wanted,
    /// In which form.
    pub form: Form,
    /// What of a job's outcomes is told.
    pub wish: Wish<'a>,
    /// The files that they name, in their order. Where there are none, the job comes on standard input.
    pub files: Vec<&'a str>,
    /// Where a page of lists is to be written, where it is to be: for people, and none of it is promised.
    pub page: Option<&'a str>,
    /// Whether what a list comes to has a colour on standard error, of which nothing is promised either.
    pub has_colour: bool,
}

/// What the words ask for. An error is a wrong command line, or help or the version that is asked for.
pub fn asked_of<'a, S: AsStr>(alloc: Global, words: &'a [S]) -> Result<Asked<'a>, Error>
    ensures wanted { IfOk result (λ a. meant (asked (map S.text words.now)) ≡ Some a.wanted) }
    ensures form { IfOk result (λ a. a.form ≡ form_asked (map S.text words.now)) }
    ensures wish { IfOk result (λ a. wish_view a.wish ≡ wish_asked (map S.text words.now)) }
    ensures files { IfOk result (λ a. map (λ f. f.now) a.files.items ≡ files_in (asked (map S.text words.now))) }
    ensures ranges { IfOk result (λ a. HasRanges a.wanted) }
    ensures kinds { FailsBy (faults (map S.text words.now)) result }
{
    let mut command = command_line(alloc)?;
    let matches = command.try_get_matches_from_mut(words)?;
    match wanted_in(&matches) {
        Some(wanted) => Ok(Asked {
            wanted,
            form: form_in(&matches),
            wish: wish_in(&matches),
            files: files_in(alloc, &matches)?,
            page: page_in(&matches),
            has_colour: has_colour(&matches),
        }),
        None => Err(unmeant(alloc, &mut command, &matches)?),
    }
}

/// What the words ask for, by what was found in them.
fn wanted_in(matches: &ArgMatches<'_>) -> Option<Wanted>
    ensures exact { result ≡ meant (subcommand_rows_of matches.now) }
    ensures ranges { IfSome result HasRanges }
{
    let (name, options) = matches.subcommand()?;
    named(name, options)
}

/// The command of a name, with what was found of its options.
fn named(name: &str, options: &ArgMatches<'_>) -> Option<Wanted>
    ensures exact { result ≡ named name.now (rows_of (found_of options.now)) }
    ensures ranges { IfSome result HasRanges }
{
    match place_in(options) {
        Some(place) => named_at(name, options, place),
        None => None,
    }
}

/// The command of a name, with what was found of its options, and where ranks stop.
fn named_at(name: &str, options: &ArgMatches<'_>, place: Place) -> Option<Wanted>
    ensures exact { result ≡ named_at name.now (rows_of (found_of options.now)) place }
    ensures ranges { IfSome result HasRanges }
{
    match name {
        "check" => Some(Wanted::Check),
        "replay" => Some(Wanted::Replay {
            is_strict: is_strict(options),
            turns: turns_in(options),
            place,
        }),
        "run" => match run_options(options, place) {
            Some(options) => Some(Wanted::Run(options)),
            None => None,
        },
        "sweep" => Some(Wanted::Sweep),
        "outcomes" => listed(options, place),
        "places" => Some(Wanted::Places(stops_wanted(options))),
        "expand" => Some(Wanted::Expand),
        "draw" => Some(Wanted::Draw {
            style: style_of(options),
            turns: turns_in(options),
            place,
        }),
        _ => None,
    }
}

/// What the options of `run` ask for, where there is a carrier of that name.
fn run_options(options: &ArgMatches<'_>, place: Place) -> Option<RunOptions>
    ensures exact { result ≡ run_options (rows_of (found_of options.now)) place }
    ensures ranges { IfSome result AreInRange }
{
    match carrier_named(value_of(options, "carrier")) {
        Some(carrier) => Some(RunOptions {
            carrier,
            place,
            is_strict: is_strict(options),
            turns: turns_in(options),
            repeat: number_given(value_of(options, "repeat"), MOST_RUNS),
            is_brief: is_flagged(options, "brief"),
        }),
        None => None,
    }
}

/// The turns that `--turns` gives the job, where it is given.
fn turns_in(options: &ArgMatches<'_>) -> Option<u32>
    ensures exact { result ≡ turns_in (rows_of (found_of options.now)) }
    ensures range { AreTurns result }
{
    number_given(value_of(options, "turns"), MOST_TURNS)
}

/// The form that the words ask for, by what was found in them.
fn form_in(matches: &ArgMatches<'_>) -> Form
    ensures { result ≡ form_in (subcommand_rows_of matches.now) }
{
    match matches.subcommand() {
        Some((_, options)) => form_of(options),
        None => Form::Words(Wording::Plain),
    }
}

/// The form that a command's options ask for.
fn form_of(options: &ArgMatches<'_>) -> Form
    ensures { result ≡ form_of (rows_of (found_of options.now)) }
{
    if is_flagged(options, "json") {
        Form::Json
    } else {
        Form::Words(wording_of(options))
    }
}

/// The words that a command's options ask for.
fn wording_of(options: &ArgMatches<'_>) -> Wording
    ensures { result ≡ wording_of (rows_of (found_of options.now)) }
{
    if is_flagged(options, "mpi") {
        Wording::Mpi
    } else {
        Wording::Plain
    }
}

/// Where a page of lists is to be written, by what was found in the words.
fn page_in<'a>(matches: &ArgMatches<'a>) -> Option<&'a str> {
    match matches.subcommand() {
        Some((_, options)) => value_of(options, "html"),
        None => None,
    }
}

/// Whether what a list comes to has a colour, by what was found in the words.
fn has_colour(matches: &ArgMatches<'_>) -> bool {
    match matches.subcommand() {
        Some((_, options)) => is_flagged(options, "color"),
        None => false,
    }
}

/// The files that the words name, by what was found in them.
fn files_in<'a>(alloc: Global, matches: &ArgMatches<'a>) -> Result<Vec<&'a str>, AllocError>
    ensures { IfOk result (λ files. map (λ f. f.now) files.items ≡ files_in (subcommand_rows_of matches.now)) }
{
    match matches.subcommand() {
        Some((_, options)) => files_of(alloc, options),
        None => Ok(Vec::new(alloc)),
    }
}

/// The files among what was found of a command's options.
fn files_of<'a>(alloc: Global, options: &ArgMatches<'a>) -> Result<Vec<&'a str>, AllocError>
    ensures { IfOk result (λ files. map (λ f. f.now) files.items ≡ unwrap_or (all_of (codes "file") (rows_of (found_of options.now))) []) }
{
    match options.get_strs("file") {
        Some(names) => Vec::from_slice(alloc, names),
        None => Ok(Vec::new(alloc)),
    }
}

/// The first value that was found of an option, by its name.
pub(crate) fn value_of<'a>(options: &ArgMatches<'a>, name: &str) -> Option<&'a str>
    ensures { option_map (λ s. s.now) result ≡ first_of name.now (rows_of (found_of options.now)) }
{
    options.get_str(name)
}

/// The carrier of a name.
fn carrier_named(name: Option<&str>) -> Option<Carrier>
    ensures { result ≡ carrier_named (option_map (λ s. s.now) name.entry) }
{
    match name {
        Some("lanes") => Some(Carrier::Lanes),
        Some("shared") => Some(Carrier::Shared),
        _ => None,
    }
}
