//! The tag of a step in an iteration of its block.
ghost use Rattle.std.specs.Prelude.{◌≡◌, ◌≤◌, IfOk, IfSome};
ghost use Rattle.toml.specs.View.{view};
ghost use Rattle.ulfm_reader.specs.Iterations.{added, digits_from, tag_by};

use std::alloc::{AllocError, Global};
use toml::Value;
use ulfm_job::limits::LAST_TAG;

/// The number of these digits, if it is at most 32767.
fn number_of(digits: &[u8]) -> Option<u32>
    ensures exact { result ≡ digits_from 0 digits.now }
    ensures few { IfSome result (λ n. n ≤ 32767) }
{
    let mut number: u32 = 0;
    for digit in digits {
        if !digit.is_ascii_digit() {
            return None;
        }
        number = number * 10 + u32::from(*digit - b'0');
        if number > LAST_TAG {
            return None;
        }
    }
    Some(number)
}

/// How much the text of a tag adds to the number of the iteration.
fn added(text: &[u8]) -> Option<u32>
    ensures exact { result ≡ added text.now }
    ensures few { IfSome result (λ n. n ≤ 32767) }
{
    match text {
        [letter] => { if *letter == b'i' { Some(0) } else { None } }
        [letter, sign, digits @ ..] => {
            if *letter == b'i' && *sign == b'+' && !digits.is_empty() {
                number_of(digits)
            } else {
                None
            }
        }
        _ => None,
    }
}

/// The tag of an iteration, by its text.
pub fn tag_in(alloc: Global, i: u16, text: &str) -> Result<Value, AllocError>
    ensures { IfOk result (λ tag. view tag ≡ tag_by i text.now (added text.now)) }
{
    match added(text.as_bytes()) {
        Some(more) => Ok(Value::Integer(i64::from(i) + i64::from(more))),
        None => Ok(Value::String(String::from_str(alloc, text)?)),
    }
}
