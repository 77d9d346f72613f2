//! The command `ulfm` and its commands, each with its options.
ghost use Rattle.std.specs.Prelude.{◌≡◌, false, IfOk};
ghost use Rattle.clap.specs.declared.builder.command.Command.TheViews.{out-Command};
ghost use Rattle.clap.specs.Words.{App, app_of, with_subcommand};
ghost use Rattle.ulfm_command_line.specs.Rules.{check_app, demanding_app, draw_app, expand_app, of_chosen, of_jobs, of_pictures, of_places, of_schedules, of_stopped, of_told, outcomes_app, places_app, replay_app, run_app, sweep_app, tool_app};

use crate::help::{ABOUT, HELP};
use crate::options::{
    MOST_RUNS, MOST_STATES, MOST_THREADS, brief_flag, carrier_option, files, html_option,
    json_flag, number_option, only_option, plain_flag, progress_flag, show_option, stop_option,
    stops_option, strict_flag, turns_option,
};
use crate::version::VERSION;
use clap::Command;
use std::alloc::{AllocError, Global};

/// The command line that is followed.
pub fn command_line<'a>(alloc: Global) -> Result<Command<'a>, AllocError>
    ensures { IfOk result (λ command. app_of command ≡ tool_app) }
{
    let command = joined(Ok(bare_command(alloc)), check_command(alloc));
    let command = joined(command, replay_command(alloc));
    let command = joined(command, run_command(alloc));
    let command = joined(command, sweep_command(alloc));
    let command = joined(command, outcomes_command(alloc));
    let command = joined(command, places_command(alloc));
    let command = joined(command, expand_command(alloc));
    joined(command, draw_command(alloc))
}

/// A command with one more below it, where both are there. Here alone a command is let go of: each such exit is dear to check.
fn joined<'a>(
    command: Result<Command<'a>, AllocError>,
    below: Result<Command<'a>, AllocError>,
) -> Result<Command<'a>, AllocError>
    requires { IfOk below (λ it. (out-Command it).has_globals ≡ false) }
    ensures { (top under : App) → IfOk command.entry (λ it. app_of it ≡ top) → IfOk below.entry (λ it. app_of it ≡ under) → IfOk result (λ whole. app_of whole ≡ with_subcommand top under.top) }
{
    let command = command?;
    command.subcommand(below?)
}

/// The command `ulfm` without its commands.
fn bare_command<'a>(alloc: Global) -> Command<'a>
    ensures { app_of result ≡ demanding_app }
{
    Command::new(alloc, "ulfm")
        .about(ABOUT)
        .after_help(HELP)
        .version(VERSION)
        .subcommand_required(true)
}

/// A command with what each of them has: the flag `--json`, and files.
fn of_jobs<'a>(alloc: Global, command: Command<'a>) -> Result<Command<'a>, AllocError>
    requires { (out-Command command).has_globals ≡ false }
    ensures app { IfOk result (λ r. app_of r ≡ of_jobs (app_of command.entry)) }
    ensures local { IfOk result (λ r. (out-Command r).has_globals ≡ false) }
{
    let command = command.arg(json_flag(alloc))?;
    command.arg(files(alloc))
}

/// A command with the option `--stop`, with the flag `--mpi`, and with what each of them has.
fn of_stopped<'a>(alloc: Global, command: Command<'a>) -> Result<Command<'a>, AllocError>
    requires { (out-Command command).has_globals ≡ false }
    ensures app { IfOk result (λ r. app_of r ≡ of_stopped (app_of command.entry)) }
    ensures local { IfOk result (λ r. (out-Command r).has_globals ≡ false) }
{
    let command = command.arg(stop_option(alloc))?;
    let mpi = plain_flag(
        alloc,
        "mpi",
        "Writes calls and answers in the words of MPI and ULFM",
    );
    let command = command.arg(mpi)?;
    of_jobs(alloc, command)
}

/// The command `check`.
fn check_command<'a>(alloc: Global) -> Result<Command<'a>, AllocError>
    ensures app { IfOk result (λ command. app_of command ≡ check_app) }
    ensures local { IfOk result (λ command. (out-Command command).has_globals ≡ false) }
{
    let command = Command::new(alloc, "check")
        .about("Says whether a job can be run")
        .after_help("Example: ulfm check jobs/one_letter.toml");
    of_jobs(alloc, command)
}

/// The command `replay` with its options.
fn replay_command<'a>(alloc: Global) -> Result<Command<'a>, AllocError>
    ensures app { IfOk result (λ command. app_of command ≡ replay_app) }
    ensures local { IfOk result (λ command. (out-Command command).has_globals ≡ false) }
{
    let command = Command::new(alloc, "replay")
        .about("Plays a job round by round and prints its trace")
        .after_help("Example: ulfm replay --strict jobs/one_letter.toml")
        .arg(strict_flag(alloc))?;
    let command = command.arg(turns_option(alloc))?;
    of_stopped(alloc, command)
}

/// The command `run` with its options.
fn run_command<'a>(alloc: Global) -> Result<Command<'a>, AllocError>
    ensures app { IfOk result (λ command. app_of command ≡ run_app) }
    ensures local { IfOk result (λ command. (out-Command command).has_globals ≡ false) }
{
    let command = Command::new(alloc, "run")
        .about("Runs a job, each rank in a thread of its own, and prints its trace")
        .after_help(
            "Example: ulfm run --carrier lanes --turns 1000000 --repeat 20 jobs/one_letter.toml",
        )
        .arg(carrier_option(alloc))?;
    let command = command.arg(strict_flag(alloc))?;
    let command = command.arg(turns_option(alloc))?;
    let repeat = number_option(
        alloc,
        "repeat",
        MOST_RUNS,
        "Runs the job so many times and prints each distinct trace once, with its count [1 to 10000]",
    );
    let command = command.arg(repeat)?;
    let brief = brief_flag(
        alloc,
        "With --repeat prints the lines of all traces once, and the others with their counts",
    );
    let command = command.arg(brief)?;
    of_stopped(alloc, command)
}

/// The command `sweep`.
fn sweep_command<'a>(alloc: Global) -> Result<Command<'a>, AllocError>
    ensures app { IfOk result (λ command. app_of command ≡ sweep_app) }
    ensures local { IfOk result (λ command. (out-Command command).has_globals ≡ false) }
{
    let command = Command::new(alloc, "sweep")
        .about("Replays a job with a stop at each place in turn and counts the answers")
        .after_help("Example: ulfm sweep jobs/recovery_of_three.toml");
    of_jobs(alloc, command)
}

/// The command `outcomes` with its options.
fn outcomes_command<'a>(alloc: Global) -> Result<Command<'a>, AllocError>
    ensures app { IfOk result (λ command. app_of command ≡ outcomes_app) }
    ensures local { IfOk result (λ command. (out-Command command).has_globals ≡ false) }
{
    let command = Command::new(alloc, "outcomes")
        .about("Lists what each step of a job may be answered, over every schedule")
        .after_help("Example: ulfm outcomes --stops 1 --strict jobs/leaves_early.toml")
        .arg(show_option(alloc))?;
    let brief = brief_flag(
        alloc,
        "Prints a schedule without the events that it can do without",
    );
    let command = command.arg(brief)?;
    let command = command.arg(strict_flag(alloc))?;
    let limit = number_option(
        alloc,
        "limit",
        MOST_STATES,
        "Gives up past so many states [1 to 100000000; 1000000 if left out]",
    );
    let command = command.arg(limit)?;
    let command = command.arg(progress_flag(alloc))?;
    let command = of_schedules(alloc, command)?;
    let command = of_places(alloc, command)?;
    of_stopped(alloc, command)
}

/// A command with the options of places: `--stops` and `--threads`, and with what tells people of lists.
fn of_places<'a>(alloc: Global, command: Command<'a>) -> Result<Command<'a>, AllocError>
    requires { (out-Command command).has_globals ≡ false }
    ensures app { IfOk result (λ r. app_of r ≡ of_places (app_of command.entry)) }
    ensures local { IfOk result (λ r. (out-Command r).has_globals ≡ false) }
{
    let stops = stops_option(
        alloc,
        "Lists the answers with at most so many ranks stopping, each at any place [1 or 2]",
    );
    let command = command.arg(stops)?;
    let threads = number_option(
        alloc,
        "threads",
        MOST_THREADS,
        "With --stops looks at places by so many threads [1 to 64; one a processor if left out]",
    );
    let command = command.arg(threads)?;
    of_told(alloc, command)
}

/// A command with what chooses lines of a list: the option `--only` and the flag `--notes`.
fn of_chosen<'a>(alloc: Global, command: Command<'a>) -> Result<Command<'a>, AllocError>
    requires { (out-Command command).has_globals ≡ false }
    ensures app { IfOk result (λ r. app_of r ≡ of_chosen (app_of command.entry)) }
    ensures local { IfOk result (λ r. (out-Command r).has_globals ≡ false) }
{
    let command = command.arg(only_option(alloc))?;
    let notes = plain_flag(
        alloc,
        "notes",
        "Lists the lines of notes alone, or beside those of --only",
    );
    command.arg(notes)
}

/// A command with what tells people of lists, the flag `--color` and the option `--html`, and with what chooses their lines. `--color` takes no
/// words as `auto`, `always` and `never`: clap would refuse others through references, of which no definition can say where they point. So
/// `./ulfm` asks whether there is a terminal, and `NO_COLOR` keeps it from asking.
fn of_told<'a>(alloc: Global, command: Command<'a>) -> Result<Command<'a>, AllocError>
    requires { (out-Command command).has_globals ≡ false }
    ensures app { IfOk result (λ r. app_of r ≡ of_told (app_of command.entry)) }
    ensures local { IfOk result (λ r. (out-Command r).has_globals ≡ false) }
{
    let color = plain_flag(
        alloc,
        "color",
        "Marks what a list comes to, on standard error, as ./ulfm asks where that is a terminal",
    );
    let command = command.arg(color)?;
    let command = command.arg(html_option(alloc))?;
    of_chosen(alloc, command)
}

/// The command `places` with its option.
fn places_command<'a>(alloc: Global) -> Result<Command<'a>, AllocError>
    ensures app { IfOk result (λ command. app_of command ≡ places_app) }
    ensures local { IfOk result (λ command. (out-Command command).has_globals ≡ false) }
{
    let stops = stops_option(
        alloc,
        "Allows at most so many ranks to stop [1 or 2; 1 if left out]",
    );
    let command = Command::new(alloc, "places")
        .about("Lists the places at which ranks of a job may stop, for --stop")
        .after_help("Example: ulfm places --stops 2 jobs/recovery_of_three.toml")
        .arg(stops)?;
    of_jobs(alloc, command)
}

/// The command `expand`.
fn expand_command<'a>(alloc: Global) -> Result<Command<'a>, AllocError>
    ensures app { IfOk result (λ command. app_of command ≡ expand_app) }
    ensures local { IfOk result (λ command. (out-Command command).has_globals ≡ false) }
{
    let command = Command::new(alloc, "expand")
        .about("Prints a job with its steps written out, one for each rank")
        .after_help("Example: ulfm expand jobs/shared_ring.toml");
    of_jobs(alloc, command)
}

/// A command with the flag `--draw`, and with the forms of a picture.
fn of_schedules<'a>(alloc: Global, command: Command<'a>) -> Result<Command<'a>, AllocError>
    requires { (out-Command command).has_globals ≡ false }
    ensures app { IfOk result (λ r. app_of r ≡ of_schedules (app_of command.entry)) }
    ensures local { IfOk result (λ r. (out-Command r).has_globals ≡ false) }
{
    let draw = plain_flag(
        alloc,
        "draw",
        "Draws the schedule of --show, or else of the first step that never ends, as SVG",
    );
    let command = command.arg(draw)?;
    of_pictures(alloc, command)
}

/// A command with the forms of a picture: the flags `--mermaid` and `--text`.
fn of_pictures<'a>(alloc: Global, command: Command<'a>) -> Result<Command<'a>, AllocError>
    requires { (out-Command command).has_globals ≡ false }
    ensures app { IfOk result (λ r. app_of r ≡ of_pictures (app_of command.entry)) }
    ensures local { IfOk result (λ r. (out-Command r).has_globals ≡ false) }
{
    let mermaid = plain_flag(
        alloc,
        "mermaid",
        "Draws a Mermaid sequence diagram in place of SVG",
    );
    let command = command.arg(mermaid)?;
    let text = plain_flag(
        alloc,
        "text",
        "Draws text in place of SVG, a column for each rank",
    );
    command.arg(text)
}

/// The command `draw` with its options.
fn draw_command<'a>(alloc: Global) -> Result<Command<'a>, AllocError>
    ensures app { IfOk result (λ command. app_of command ≡ draw_app) }
    ensures local { IfOk result (λ command. (out-Command command).has_globals ≡ false) }
{
    let command = Command::new(alloc, "draw")
        .about("Plays a job round by round and draws what its ranks did, as SVG")
        .after_help("Example: ulfm draw jobs/one_letter.toml > run.svg")
        .arg(turns_option(alloc))?;
    let command = of_pictures(alloc, command)?;
    of_stopped(alloc, command)
}
