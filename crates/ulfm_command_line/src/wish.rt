//! What the words say in names of a job's steps.
ghost use Rattle.std.specs.Prelude.{◌≡◌, option_map};
ghost use Rattle.clap.specs.Words.{found_of, rows_of, subcommand_rows_of};
ghost use Rattle.ulfm_command_line.specs.Wish.{choice_of, choice_view, unnumbered, wish_in, wish_of, wish_view};

use crate::command::value_of;
use crate::flagged::is_flagged;
use clap::ArgMatches;
use ulfm_job::Place;

/// Which lines of steps a list has: each, or where some are asked for those alone.
#[derive(Clone, Copy)]
pub struct Choice<'a> {
    /// Those of the steps that this text names, parted by commas.
    pub only: Option<&'a str>,
    /// Those of notes.
    pub has_notes: bool,
}

/// What is told, a list with these lines or a schedule, and where ranks stop by the names of steps.
#[derive(Clone, Copy)]
pub struct Wish<'a> {
    /// The answers that a schedule is to show, where one is asked for.
    pub show: Option<&'a str>,
    /// The lines of a list.
    pub choice: Choice<'a>,
    /// Where ranks stop, where that isn't said by the numbers of steps alone.
    pub stop: Option<&'a str>,
}

/// What is told and where, by what was found in the words.
pub(crate) fn wish_in<'a>(matches: &ArgMatches<'a>) -> Wish<'a>
    ensures { wish_view result ≡ wish_in (subcommand_rows_of matches.now) }
{
    match matches.subcommand() {
        Some((_, options)) => wish_of(options),
        None => Wish {
            show: None,
            choice: Choice {
                only: None,
                has_notes: false,
            },
            stop: None,
        },
    }
}

/// What is told and where, by the options of a command.
fn wish_of<'a>(options: &ArgMatches<'a>) -> Wish<'a>
    ensures { wish_view result ≡ wish_of (rows_of (found_of options.now)) }
{
    Wish {
        show: value_of(options, "show"),
        choice: choice_of(options),
        stop: unnumbered(value_of(options, "stop")),
    }
}

/// A text, where it is no place by the numbers of steps.
fn unnumbered<'a>(text: Option<&'a str>) -> Option<&'a str>
    ensures { option_map (λ s. s.now) result ≡ unnumbered (option_map (λ s. s.now) text.entry) }
{
    match text {
        Some(text) => {
            if Place::parse(text).is_some() {
                None
            } else {
                Some(text)
            }
        }
        None => None,
    }
}

/// The lines of a list, by the options of a command.
fn choice_of<'a>(options: &ArgMatches<'a>) -> Choice<'a>
    ensures { choice_view result ≡ choice_of (rows_of (found_of options.now)) }
{
    Choice {
        only: value_of(options, "only"),
        has_notes: is_flagged(options, "notes"),
    }
}
