//! Names of steps.
ghost use Rattle.std.specs.Prelude.{◌≡◌};
ghost use Rattle.std.specs.List.{list_all};
ghost use Rattle.std.specs.Option.{option_copied};
ghost use Rattle.ulfm_reader.specs.Reacting.{is_name, is_name_byte, is_name_of, name_at, named, is_called, is_new_name};

use ulfm_job::Label;
use ulfm_job::limits::MOST_NAME;

/// The name of a step: its rank, its number there, and the text.
#[derive(Drop)]
pub struct Name {
    pub rank: u8,
    pub at: u16,
    pub text: Label,
}

/// Whether a step of this rank has this name.
fn is_called(rank: u8, text: &str, name: &Name) -> bool
    ensures { result ≡ is_called rank text.now name.now }
{
    name.rank == rank && name.text.as_str() == text
}

/// The number of the step of a rank with this name.
pub fn named(names: &[Name], rank: u8, text: &str) -> Option<u16>
    ensures { result ≡ named names.now rank text.now }
{
    let found = names.iter().find(|name| is_called(rank, text, name))?;
    Some(found.at)
}

/// Whether this is the name of the step `k` of a rank.
fn is_name_of(rank: u8, k: usize, name: &Name) -> bool
    ensures { result ≡ is_name_of rank k name.now }
{
    name.rank == rank && name.at as usize == k
}

/// The name of the step `k` of a rank, where it has one.
pub fn name_at(names: &[Name], rank: u8, k: usize) -> Option<&str>
    ensures { option_copied result ≡ name_at names.now rank k }
{
    let found = names.iter().find(|name| is_name_of(rank, k, name))?;
    Some(found.text.as_str())
}

/// Whether a byte may stand in a name: a letter, a digit, `_` or `-`.
fn is_name_byte(byte: u8) -> bool
    ensures { result ≡ is_name_byte byte }
{
    (b'a' <= byte && byte <= b'z')
        || (b'A' <= byte && byte <= b'Z')
        || (b'0' <= byte && byte <= b'9')
        || byte == b'_'
        || byte == b'-'
}

/// Whether a text may be a name: 1 to 32 letters, digits, `_` and `-`.
pub fn is_name(text: &str) -> bool
    ensures { result ≡ is_name text.now }
{
    let bytes = text.as_bytes();
    if bytes.is_empty() || bytes.len() > MOST_NAME {
        return false;
    }
    are_name_bytes(bytes)
}

/// Whether each byte may stand in a name.
fn are_name_bytes(bytes: &[u8]) -> bool
    ensures { result ≡ list_all is_name_byte bytes.now }
{
    bytes.iter().all(|byte| is_name_byte(*byte))
}

/// Whether a text is a name that no earlier step of the rank has.
pub fn is_new_name(names: &[Name], rank: u8, text: &str) -> bool
    ensures { result ≡ is_new_name names.now rank text.now }
{
    is_name(text) && named(names, rank, text).is_none()
}
