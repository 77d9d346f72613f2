//! A list as it is printed.
ghost use Rattle.std.specs.Prelude.{◌≡◌, ◌++◌, IfOk, OnOk, string_bytes};
ghost use Rattle.ulfm_outcomes_list.specs.Listed.{list_view};
ghost use Rattle.ulfm_outcomes_list.specs.ListJson.{more_in, printed};

use crate::list_json::push_objects;
use crate::list_text::push_words;
use crate::step_list::StepList;
use std::alloc::{AllocError, Global};
use ulfm_base::OutOfMemory;
use ulfm_forms::Form;
use ulfm_reader::Name;

/// Puts a list of steps that have these names behind a text, in this form: a line for each step with its answers, in the order in which they
/// are listed, and last that it never ends in some schedule; then how many states were visited.
///
/// # Errors
///
/// A growth was refused: some lines may stand in the text then.
pub fn push_list(
    text: &mut String,
    form: Form,
    names: &[Name],
    list: &StepList<'_>,
) -> Result<(), AllocError>
    ensures { OnOk result (string_bytes text.new ≡ string_bytes text.old ++ printed form names.now (list_view list.now)) }
{
    match form {
        Form::Words(wording) => push_words(text, wording, list),
        Form::Json => push_objects(text, names, list),
    }
}

/// That there are more states than the limit.
///
/// # Errors
///
/// `OutOfMemory` where a growth was refused.
pub fn more_in(alloc: Global, form: Form, limit: usize) -> Result<String, OutOfMemory>
    ensures { IfOk result (λ text. string_bytes text ≡ more_in form limit) }
{
    match form {
        Form::Words(_) => Ok(format!(in alloc; "more than {limit} states\n")?),
        Form::Json => Ok(format!(in alloc; "{{\"more_states_than\":{limit}}}\n")?),
    }
}
