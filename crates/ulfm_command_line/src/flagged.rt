//! Flags among the options of a command.
ghost use Rattle.std.specs.Prelude.{◌≡◌};
ghost use Rattle.clap.specs.Words.{found_of, rows_of};
ghost use Rattle.ulfm_command_line.specs.CommandLine.{drawn_in, is_flagged, is_strict, style_of, wants_progress};

use crate::command::value_of;
use clap::ArgMatches;
use ulfm_forms::Style;

/// Whether the flag `--strict` was given.
pub(crate) fn is_strict(options: &ArgMatches<'_>) -> bool
    ensures { result ≡ is_strict (rows_of (found_of options.now)) }
{
    is_flagged(options, "strict")
}

/// Whether the flag `--progress` was given.
pub(crate) fn wants_progress(options: &ArgMatches<'_>) -> bool
    ensures { result ≡ wants_progress (rows_of (found_of options.now)) }
{
    is_flagged(options, "progress")
}

/// Whether a flag was given, by its name.
pub(crate) fn is_flagged(options: &ArgMatches<'_>, name: &str) -> bool
    ensures { result ≡ is_flagged name.now (rows_of (found_of options.now)) }
{
    match value_of(options, name) {
        Some(text) => text == "true",
        None => false,
    }
}

/// The form of a picture that the options ask for.
pub(crate) fn style_of(options: &ArgMatches<'_>) -> Style
    ensures { result ≡ style_of (rows_of (found_of options.now)) }
{
    if is_flagged(options, "mermaid") {
        Style::Mermaid
    } else if is_flagged(options, "text") {
        Style::Text
    } else {
        Style::Svg
    }
}

/// The form in which the schedule that is shown is drawn, where it is to be.
pub(crate) fn drawn_in(options: &ArgMatches<'_>) -> Option<Style>
    ensures { result ≡ drawn_in (rows_of (found_of options.now)) }
{
    if is_flagged(options, "draw") {
        Some(style_of(options))
    } else {
        None
    }
}
