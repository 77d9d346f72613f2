//! The options of the commands.
ghost use Rattle.std.specs.Prelude.{◌≡◌, false};
ghost use Rattle.clap.specs.Words.{rule_of};
ghost use Rattle.ulfm_command_line.specs.Rules.{brief_rule, carrier_rule, flag_rule, html_rule, json_rule, file_rule, number_rule, only_rule, progress_rule, show_rule, stop_rule, stops_rule, strict_rule, turns_rule};

use clap::builder::ValueParser;
use clap::{Arg, ArgAction};
use std::alloc::Global;
use ulfm_job::limits::MOST_TURNS;

/// The most runs that `--repeat` can ask for.
pub const MOST_RUNS: u32 = 10_000;

/// The most states that `--limit` can allow.
pub const MOST_STATES: u32 = 100_000_000;

/// The most states that are looked at where there is no `--limit`.
pub const USUAL_STATES: u32 = 1_000_000;

/// The most stops of a place.
pub const MOST_STOPS: u32 = 2;

/// The most threads that `--threads` can ask for.
pub const MOST_THREADS: u32 = 64;

/// The files of jobs, as many as there are.
pub fn files<'a>(alloc: Global) -> Arg<'a>
    ensures rule { rule_of result ≡ file_rule }
    ensures local { result.global ≡ false }
{
    Arg::new(alloc, "file")
        .value_name("FILE")
        .help("Jobs, each answered in turn; standard input where none is named")
        .action(ArgAction::Append)
}

/// The option `--turns`.
pub fn turns_option<'a>(alloc: Global) -> Arg<'a>
    ensures rule { rule_of result ≡ turns_rule }
    ensures local { result.global ≡ false }
{
    number_option(
        alloc,
        "turns",
        MOST_TURNS,
        "Gives the job this number of turns in place of its own [1 to 10000000]",
    )
}

/// The option `--stop`.
pub fn stop_option<'a>(alloc: Global) -> Arg<'a>
    ensures rule { rule_of result ≡ stop_rule }
    ensures local { result.global ≡ false }
{
    Arg::new(alloc, "stop")
        .long("stop")
        .value_name("PLACE")
        .help(
            "Stops ranks: 0.2 is rank 0 before its step 2, or 0.NAME before that of a name, 1.5* rank 1 inside its step 5, 0.2+1.3 two ranks, - none",
        )
}

/// The option `--stops`, with what it does to a command.
pub fn stops_option<'a>(alloc: Global, help: &'a str) -> Arg<'a>
    ensures rule { rule_of result ≡ stops_rule }
    ensures local { result.global ≡ false }
{
    number_option(alloc, "stops", MOST_STOPS, help)
}

/// The option `--carrier`. It takes any text, as clap keeps a parser's possible values behind references, of which no definition can say where
/// they point. The name of no carrier is made an error of clap's kind, which tells the name.
pub fn carrier_option<'a>(alloc: Global) -> Arg<'a>
    ensures rule { rule_of result ≡ carrier_rule }
    ensures local { result.global ≡ false }
{
    Arg::new(alloc, "carrier")
        .long("carrier")
        .value_name("CARRIER")
        .help("What takes items from rank to rank [possible values: lanes, shared]")
        .required(true)
}

/// The flag `--strict`.
pub fn strict_flag<'a>(alloc: Global) -> Arg<'a>
    ensures rule { rule_of result ≡ strict_rule }
    ensures local { result.global ≡ false }
{
    Arg::new(alloc, "strict")
        .long("strict")
        .help(
            "Ends with status 6 in place of 0 where a trace has an unfinished step, or a list one that never ends",
        )
        .action(ArgAction::SetTrue)
}

/// The flag `--brief`, with what it does to a command.
pub fn brief_flag<'a>(alloc: Global, help: &'a str) -> Arg<'a>
    ensures rule { rule_of result ≡ brief_rule }
    ensures local { result.global ≡ false }
{
    Arg::new(alloc, "brief")
        .long("brief")
        .help(help)
        .action(ArgAction::SetTrue)
}

/// The option `--show`.
pub fn show_option<'a>(alloc: Global) -> Arg<'a>
    ensures rule { rule_of result ≡ show_rule }
    ensures local { result.global ≡ false }
{
    Arg::new(alloc, "show")
        .long("show")
        .value_name("GOALS")
        .help("Prints a schedule with these answers, as '0.commit agreed 1; 2.5 never ends'")
}

/// The option `--only`.
pub fn only_option<'a>(alloc: Global) -> Arg<'a>
    ensures rule { rule_of result ≡ only_rule }
    ensures local { result.global ≡ false }
{
    Arg::new(alloc, "only")
        .long("only")
        .value_name("STEPS")
        .help(
            "Lists the lines of these steps alone, by their names or as 1.5, with commas between them",
        )
}

/// The option `--html`.
pub fn html_option<'a>(alloc: Global) -> Arg<'a>
    ensures rule { rule_of result ≡ html_rule }
    ensures local { result.global ≡ false }
{
    Arg::new(alloc, "html").long("html").value_name("PAGE").help(
        "With --stops writes a page of steps by places too, with schedules as pictures",
    )
}

/// The flag `--json`.
pub fn json_flag<'a>(alloc: Global) -> Arg<'a>
    ensures rule { rule_of result ≡ json_rule }
    ensures local { result.global ≡ false }
{
    Arg::new(alloc, "json")
        .long("json")
        .help("Writes JSON, an object a line")
        .action(ArgAction::SetTrue)
}

/// A flag of this name, with what it does.
pub fn plain_flag<'a>(alloc: Global, name: &'a str, help: &'a str) -> Arg<'a>
    ensures rule { rule_of result ≡ flag_rule name.entry.now }
    ensures local { result.global ≡ false }
{
    Arg::new(alloc, name)
        .long(name)
        .help(help)
        .action(ArgAction::SetTrue)
}

/// The flag `--progress`.
pub fn progress_flag<'a>(alloc: Global) -> Arg<'a>
    ensures rule { rule_of result ≡ progress_rule }
    ensures local { result.global ≡ false }
{
    Arg::new(alloc, "progress")
        .long("progress")
        .help("Tells standard error how far it is, as ./ulfm asks where that is a terminal")
        .action(ArgAction::SetTrue)
}

/// An option whose value is a number, from 1 to the most.
pub fn number_option<'a>(alloc: Global, name: &'a str, most: u32, help: &'a str) -> Arg<'a>
    ensures rule { rule_of result ≡ number_rule name.entry.now most }
    ensures local { result.global ≡ false }
{
    Arg::new(alloc, name)
        .long(name)
        .value_name("N")
        .help(help)
        .value_parser(ValueParser::Unsigned(1, u64::from(most)))
}
