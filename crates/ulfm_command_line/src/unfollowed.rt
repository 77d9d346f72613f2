//! What the words ask for, or what is said in place of it.
ghost use Rattle.std.specs.Prelude.{◌≡◌, [], Some, map, IfErr, IfOk, OnOk};
ghost use Rattle.clap.specs.Words.{kind_of};
ghost use Rattle.ulfm_command_line.specs.Asked.{IsTold, IsToldAs};
ghost use Rattle.ulfm_command_line.specs.CommandLine.{HasRanges, asked, faults, files_in, form_asked, meant};
ghost use Rattle.ulfm_command_line.specs.Wish.{wish_asked, wish_view};

use crate::command::{Asked, asked_of};
use crate::tips::tipped;
use clap::Error;
use clap::error::ErrorKind;
use std::alloc::{AllocError, Global};
use std::convert::AsStr;

/// Why words aren't followed.
#[derive(Drop)]
pub enum Unfollowed {
    /// Memory ran out.
    OutOfMemory,
    /// They ask for help: its text.
    Help(String),
    /// They can't be followed: why.
    Usage(String),
}

/// What the words ask for.
///
/// # Errors
///
/// What to write in place of a reply: help that is asked for, or what is wrong with the words. Or memory ran out.
pub fn asked_for<'a, S: AsStr>(alloc: Global, words: &'a [S]) -> Result<Asked<'a>, Unfollowed>
    ensures ok { IfOk result (λ a. meant (asked (map S.text words.now)) ≡ Some a.wanted) }
    ensures form { IfOk result (λ a. a.form ≡ form_asked (map S.text words.now)) }
    ensures wish { IfOk result (λ a. wish_view a.wish ≡ wish_asked (map S.text words.now)) }
    ensures files { IfOk result (λ a. map (λ f. f.now) a.files.items ≡ files_in (asked (map S.text words.now))) }
    ensures ranges { IfOk result (λ a. HasRanges a.wanted) }
    ensures no_fault { OnOk result (faults (map S.text words.now) ≡ []) }
    ensures told { IfErr result (IsTold (faults (map S.text words.now))) }
{
    match asked_of(alloc, words) {
        Ok(asked) => Ok(asked),
        Err(error) => {
            if error.kind() == ErrorKind::OutOfMemory {
                return Err(Unfollowed::OutOfMemory);
            }
            match told_of(alloc, &error) {
                Ok(told) => Err(told),
                Err(_) => Err(Unfollowed::OutOfMemory),
            }
        }
    }
}

/// What is said of words that can't be followed, or that ask for help.
fn told_of(alloc: Global, error: &Error) -> Result<Unfollowed, AllocError>
    ensures { IfOk result (IsToldAs (kind_of error.now)) }
{
    let text = format!(in alloc; "{error}")?;
    let text = tipped(alloc, text.as_str())?;
    Ok(if error.use_stderr() {
        Unfollowed::Usage(text)
    } else {
        Unfollowed::Help(text)
    })
}
