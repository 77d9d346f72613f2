//! What is said of a command line that clap takes, and that asks for nothing all the same.
ghost use Rattle.std.specs.Prelude.{◌≡◌, IfOk};
ghost use Rattle.clap.specs.Words.{kind_of};

use crate::command::value_of;
use crate::place_names::may_name;
use crate::place_option::is_given;
use clap::error::ErrorKind;
use clap::{ArgMatches, Command, Error};
use std::alloc::{AllocError, Global};
use ulfm_job::Place;

/// The error of a command line that clap takes, and that asks for nothing all the same.
pub(crate) fn unmeant(
    alloc: Global,
    command: &mut Command<'_>,
    matches: &ArgMatches<'_>,
) -> Result<Error, AllocError>
    ensures { IfOk result (λ error. kind_of error ≡ ErrorKind.InvalidValue) }
{
    let message = match matches.subcommand() {
        Some((_, options)) => unmeant_text(alloc, options)?,
        None => String::new(alloc),
    };
    command.error(ErrorKind::InvalidValue, message.as_str())
}

/// Why these options of a command ask for nothing: a place, two options or a carrier.
fn unmeant_text(alloc: Global, options: &ArgMatches<'_>) -> Result<String, AllocError> {
    if let Some(text) = value_of(options, "stop") {
        if Place::parse(text).is_none() && !may_name(text) {
            return format!(in alloc;
                "invalid value '{text}' for '--stop <PLACE>'\n  [a rank, a dot and the number or the name of a step, as 0.2, with a star to die inside it, as 1.5*; two of them, as 0.2+1.3; or -]"
            );
        }
    }
    if let Some(text) = apart(options) {
        return String::from_str(alloc, text);
    }
    let value = value_of(options, "carrier").unwrap_or("");
    format!(in alloc;
        "invalid value '{value}' for '--carrier <CARRIER>'\n  [possible values: lanes, shared]"
    )
}

/// What is said of options of places that don't go together.
fn apart(options: &ArgMatches<'_>) -> Option<&'static str> {
    match (is_given(options, "stops"), is_given(options, "html")) {
        (true, _) if is_given(options, "stop") => {
            Some("the argument '--stop <PLACE>' cannot be used with '--stops <N>'")
        }
        (true, true) => Some(
            "the argument '--html <PAGE>' is for a job in a file, and no FILE is named behind it",
        ),
        (false, true) => Some("the argument '--html <PAGE>' is for '--stops <N>' alone"),
        (false, false) if is_given(options, "threads") => {
            Some("the argument '--threads <N>' is for '--stops <N>' alone")
        }
        _ => None,
    }
}
