//! What a note says.
ghost use Rattle.std.specs.Prelude.{◌≡◌};
ghost use Rattle.std.specs.List.{list_all};
ghost use Rattle.ulfm_job.specs.Label.{is_label, is_label_byte, label_of};

use crate::limits::MOST_LABEL;
use std::marker::Model;

/// The text of a note: 1 to 32 letters, digits, spaces, `_`, `-` and `.`. It stands inline. Contracts see the list of its bytes.
#[derive(Drop)]
pub struct Label {
    used: u8,
    bytes: [u8; MOST_LABEL],
}

impl Model for Label {
    ghost use Rattle.std.specs.Prelude.{ℕ, List, take};
    ghost use Rattle.ulfm_job.specs.inside.Label.{IsKept};

    ghost Value = { List ℕ };

    ghost view = { λ l. take l.used l.bytes };

    ghost invariant = { λ l. IsKept l.used l.bytes };
}

impl PartialEq for Label {
    ghost use Rattle.std.specs.Prelude.{nat_eq};
    ghost use Rattle.std.specs.Cmp.{partial_equiv_from_equiv};
    ghost use Rattle.std.specs.Cmp.Lexicographic.{pointwise, nat_list_eq_equiv};

    ghost eq = { λ a b. pointwise nat_eq a b };

    ghost laws = { partial_equiv_from_equiv nat_list_eq_equiv };

    fn eq(&self, other: &Label) -> bool {
        self.as_str().as_bytes() == other.as_str().as_bytes()
    }
}

impl Label {
    /// The label of a text, or nothing where it can't be one.
    pub fn new(text: &str) -> Option<Label>
        ensures { result ≡ label_of text.now }
    {
        let bytes = text.as_bytes();
        if !is_label(bytes) {
            return None;
        }
        let mut kept = [0; MOST_LABEL];
        kept[..bytes.len()].copy_from_slice(bytes);
        Some(Label {
            used: bytes.len() as u8,
            bytes: kept,
        })
    }

    /// The same label once more.
    pub fn copy(&self) -> Label
        ensures { result ≡ self.now }
    {
        Label {
            used: self.used,
            bytes: self.bytes,
        }
    }

    /// The text.
    pub fn as_str(&self) -> &str
        ensures { result.now ≡ self.now }
    {
        match std::str::from_utf8(&self.bytes[..self.used as usize]) {
            Ok(text) => text,
            Err(_) => unreachable!(),
        }
    }
}

/// Whether a byte may stand in a label.
fn is_label_byte(byte: u8) -> bool
    ensures { result ≡ is_label_byte byte }
{
    (b'a' <= byte && byte <= b'z')
        || (b'A' <= byte && byte <= b'Z')
        || (b'0' <= byte && byte <= b'9')
        || byte == b' '
        || byte == b'_'
        || byte == b'-'
        || byte == b'.'
}

/// Whether each byte may stand in a label.
fn are_label_bytes(bytes: &[u8]) -> bool
    ensures { result ≡ list_all is_label_byte bytes.now }
{
    bytes.iter().all(|byte| is_label_byte(*byte))
}

/// Whether a text is a label.
fn is_label(bytes: &[u8]) -> bool
    ensures { result ≡ is_label bytes.now }
{
    if bytes.is_empty() || bytes.len() > MOST_LABEL {
        return false;
    }
    are_label_bytes(bytes)
}
