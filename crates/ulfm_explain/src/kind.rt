//! The kinds of values that stand at the keys of a job (docs/JOBS.md).

use std::fmt;
use ulfm_job::limits::{MOST_LABEL, MOST_NAME};

/// What stands at a key.
#[derive(Clone, Copy, PartialEq, Eq)]
pub enum Kind {
    /// An integer from the first to the second.
    Integer(i64, i64),
    /// An integer from the first to the second; if the key is left out, any.
    OrAny(i64, i64),
    /// An integer from the first to the second, a list of them, or a text that stands for all.
    Ranks(i64, i64),
    /// An integer from the first to the second, or a text that names a rank by the rank of the step.
    Peer(i64, i64),
    /// An integer from the first to the second, or a text that names a rank by the rank of the step; if the key is left out, any.
    PeerOrAny(i64, i64),
    /// `true` or `false`.
    Truth,
    /// A text.
    Text,
    /// An array of tables.
    Tables,
    /// An integer from the first to the second, or the name of an earlier step.
    Reference(i64, i64),
    /// An integer from the first to the second, or the name of an earlier step that makes a communicator.
    Comm(i64, i64),
    /// A name.
    Name,
    /// The text of a note.
    Label,
    /// A table, or an array of 1 to 16.
    Conditions,
    /// An array of 1 to 16 tables.
    Together,
    /// An array of 1 to 16 texts.
    Words,
    /// An array of 1 to 16 texts, or a table with such an array and with a name.
    Expected,
    /// A text that is the name of a step.
    Called,
    /// An array of texts.
    Texts,
    /// An array of texts, or a table with one and with a name.
    Row,
    /// An array of such.
    Rows,
}

impl Kind {
    /// The first and the last of its integers, where it has some.
    pub(crate) fn range(self) -> Option<(i64, i64)> {
        match self {
            Kind::Integer(least, most) => Some((least, most)),
            Kind::OrAny(least, most) => Some((least, most)),
            Kind::Ranks(least, most) => Some((least, most)),
            Kind::Peer(least, most) => Some((least, most)),
            Kind::PeerOrAny(least, most) => Some((least, most)),
            Kind::Reference(least, most) => Some((least, most)),
            Kind::Comm(least, most) => Some((least, most)),
            _ => None,
        }
    }

    /// The most letters of its text, where that may not have more.
    fn letters(self) -> Option<usize> {
        match self {
            Kind::Name => Some(MOST_NAME),
            Kind::Label => Some(MOST_LABEL),
            _ => None,
        }
    }

    /// What else it is.
    fn words(self) -> &'static str {
        match self {
            Kind::Integer(_, _) => "",
            Kind::OrAny(_, _) => ", or left out for any",
            Kind::Ranks(_, _) => ", a list of them, or \"all\"",
            Kind::Peer(_, _) => ", or \"me\", \"left\", \"right\" or \"me+1\" to \"me+7\"",
            Kind::PeerOrAny(_, _) => {
                ", \"me\", \"left\", \"right\" or \"me+1\" to \"me+7\", or left out for any"
            }
            Kind::Truth => "true or false",
            Kind::Text => "a text in quotes",
            Kind::Tables => "an array of tables",
            Kind::Reference(_, _) => ", or the name of an earlier step in quotes",
            Kind::Comm(_, _) => ", or the name of an earlier dup or shrink in quotes",
            Kind::Name => " letters, digits, '_' and '-'",
            Kind::Label => " letters, digits, spaces, '_', '-' and '.'",
            Kind::Conditions => {
                "a table with 'step' and 'is' or 'not', or with 'all', or a list of 1 to 16"
            }
            Kind::Together => "a list of 1 to 16 tables with 'step' and 'is' or 'not'",
            Kind::Words => "a list of 1 to 16 texts in quotes",
            Kind::Expected => {
                "a list of 1 to 16 texts in quotes, or a table with such a list 'is' and with 'before'"
            }
            Kind::Called => "the name of a step in quotes",
            Kind::Texts => "a list of texts in quotes",
            Kind::Row => {
                "a list of texts in quotes, or a table with such a list 'row' and with 'before'"
            }
            Kind::Rows => {
                "a list of lists of texts in quotes, or of tables with such a list 'row' and with 'before'"
            }
        }
    }
}

impl fmt::Display for Kind {
    fn fmt<W: fmt::Write>(&self, f: &mut fmt::Formatter<W>) -> fmt::Result {
        if let Some((least, most)) = self.range() {
            write!(f, "an integer from {least} to {most}")?;
        }
        if let Some(most) = self.letters() {
            write!(f, "a text of 1 to {most}")?;
        }
        f.write_str(self.words())
    }
}
