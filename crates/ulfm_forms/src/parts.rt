//! Parts of the objects.
ghost use Rattle.std.specs.Prelude.{◌≡◌, ◌++◌, map, OnOk, string_bytes};
ghost use Rattle.ulfm_forms.specs.Parts.{behind_commas, numbers_json, number_json, object_json, objects_json, text_json, texts_json};

use std::alloc::AllocError;
use std::fmt;
use ulfm_answer::numbers_of;
use ulfm_base::Group;

/// Numbers, each behind a comma.
fn push_more_numbers(text: &mut String, numbers: &[u8]) -> Result<(), AllocError>
    ensures { OnOk result (string_bytes text.new ≡ string_bytes text.old ++ behind_commas number_json numbers.now) }
{
    for number in numbers {
        write!(text, ",{number}")?;
    }
    Ok(())
}

/// An array of numbers.
pub(crate) fn push_numbers(text: &mut String, numbers: &[u8]) -> Result<(), AllocError>
    ensures { OnOk result (string_bytes text.new ≡ string_bytes text.old ++ numbers_json numbers.now) }
{
    match numbers.split_first() {
        Some((first, rest)) => {
            write!(text, "[{first}")?;
            push_more_numbers(text, rest)?;
            text.push_str("]")
        }
        None => text.push_str("[]"),
    }
}

/// An array of the ranks of the world in a group.
pub(crate) fn push_group(text: &mut String, group: &Group) -> Result<(), AllocError>
    ensures { OnOk result (string_bytes text.new ≡ string_bytes text.old ++ numbers_json group.now) }
{
    let numbers = numbers_of(*text.allocator(), group);
    push_numbers(text, numbers.as_slice())
}

/// Texts, each in quotes behind a comma.
fn push_more_texts(text: &mut String, texts: &[String]) -> Result<(), AllocError>
    ensures { OnOk result (string_bytes text.new ≡ string_bytes text.old ++ behind_commas text_json (map string_bytes texts.now)) }
{
    for one in texts {
        write!(text, ",\"{one}\"")?;
    }
    Ok(())
}

/// An array of texts that have neither quotes nor backslashes.
pub fn push_texts(text: &mut String, texts: &[String]) -> Result<(), AllocError>
    ensures { OnOk result (string_bytes text.new ≡ string_bytes text.old ++ texts_json (map string_bytes texts.now)) }
{
    match texts.split_first() {
        Some((first, rest)) => {
            write!(text, "[\"{first}\"")?;
            push_more_texts(text, rest)?;
            text.push_str("]")
        }
        None => text.push_str("[]"),
    }
}

/// Objects, each behind a comma.
fn push_more_objects(text: &mut String, objects: &[String]) -> Result<(), AllocError>
    ensures { OnOk result (string_bytes text.new ≡ string_bytes text.old ++ behind_commas object_json (map string_bytes objects.now)) }
{
    for object in objects {
        write!(text, ",{object}")?;
    }
    Ok(())
}

/// An array of objects that are written already.
pub fn push_objects(text: &mut String, objects: &[String]) -> Result<(), AllocError>
    ensures { OnOk result (string_bytes text.new ≡ string_bytes text.old ++ objects_json (map string_bytes objects.now)) }
{
    match objects.split_first() {
        Some((first, rest)) => {
            write!(text, "[{first}")?;
            push_more_objects(text, rest)?;
            text.push_str("]")
        }
        None => text.push_str("[]"),
    }
}
