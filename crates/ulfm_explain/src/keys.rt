//! What is wrong with the keys of a table.

use crate::cause::Cause;
use crate::excerpt::{Shown, shown_value};
use crate::explanation::StepPlace;
use crate::findings::Findings;
use crate::kind::Kind;
use crate::nearest::nearest_key;
use crate::row_fault::explain_row_kinds;
use crate::rules::{Key, Rules};
use crate::script::is_label;
use std::alloc::AllocError;
use toml::{Table, Value};

/// A table of a job, the keys that it may have, and the number of ranks that the job has.
#[derive(Clone, Copy)]
pub struct Sheet<'a> {
    pub table: &'a Table,
    pub rules: Rules,
    /// The step that the table is; none for the job.
    pub step: Option<StepPlace>,
    pub ranks: u8,
    /// The key of the step in which the table stands; none where it is the step, or the job.
    pub within: Option<Key>,
}

impl Sheet<'_> {
    /// The number of its step in the file.
    fn in_file(&self) -> Option<usize> {
        self.step.map(|step| step.in_file)
    }

    /// Where a key begins, or the key within which the table stands.
    fn place_of(&self, findings: &Findings<'_>, key: &str) -> Option<usize> {
        let name = match self.within {
            Some(within) => within.name(),
            None => key,
        };
        findings.place_of(self.in_file(), name)
    }

    /// Tells what is missing or of a wrong kind, then what is unknown, then what is out of range.
    pub fn explain(&self, findings: &mut Findings<'_>) -> Result<(), AllocError> {
        self.explain_kinds(findings)?;
        self.explain_unknown(findings)?;
        self.explain_ranges(findings)
    }

    /// Tells of required keys that are missing, and of keys of a wrong kind.
    pub fn explain_kinds(&self, findings: &mut Findings<'_>) -> Result<(), AllocError> {
        for key in self.rules.required {
            if self.rules.has(*key) {
                match self.table.get(key.name()) {
                    Some(value) => self.explain_kind(findings, *key, value)?,
                    None => self.explain_missing(findings, *key)?,
                }
            }
        }
        for key in self.rules.optional {
            if self.rules.has(*key) {
                if let Some(value) = self.table.get(key.name()) {
                    self.explain_kind(findings, *key, value)?;
                }
            }
        }
        Ok(())
    }

    /// Tells of a required key that is missing.
    fn explain_missing(&self, findings: &mut Findings<'_>, key: Key) -> Result<(), AllocError> {
        if self.step.is_none() {
            if let Some(at) = findings.place_in_steps(key.name()) {
                return findings.tell(Some(at), None, Cause::InStep(key));
            }
        }
        let at = match self.within {
            Some(within) => findings.place_of(self.in_file(), within.name()),
            None => findings.place_of_step(self.in_file()),
        };
        findings.tell(at, self.step, Cause::Missing(key, key.kind(self.ranks)))
    }

    /// Tells of a value that isn't of its key's kind.
    pub fn explain_kind(
        &self,
        findings: &mut Findings<'_>,
        key: Key,
        value: &Value,
    ) -> Result<(), AllocError> {
        let wanted = key.kind(self.ranks);
        match (wanted, value.as_array()) {
            (Kind::Tables, Some(items)) => return explain_items(findings, items.as_slice()),
            (Kind::Rows, Some(rows)) if rows.is_empty() || !are_texts(value) => {
                return explain_row_kinds(findings, rows.as_slice());
            }
            _ => {}
        }
        if is_of_kind(value, wanted) {
            return Ok(());
        }
        let at = self.place_of(findings, key.name());
        if wanted == Kind::Tables && value.is_table() {
            return findings.tell(at, self.step, Cause::OneTable);
        }
        let found = shown_value(findings.alloc, value)?;
        findings.tell(at, self.step, Cause::WrongKind(key, found, wanted))
    }

    /// Tells of keys that the table doesn't have.
    pub fn explain_unknown(&self, findings: &mut Findings<'_>) -> Result<(), AllocError> {
        for name in self.table.keys() {
            if self.rules.find(name.as_str()).is_none() && !findings.is_full() {
                let word = Shown::new(findings.alloc, name.as_str())?;
                let nearest = nearest_key(findings.alloc, name.as_str(), &self.rules)?;
                let at = self.place_of(findings, name.as_str());
                findings.tell(at, self.step, Cause::UnknownKey(word, nearest, self.rules))?;
            }
        }
        Ok(())
    }

    /// Tells of numbers that are out of their ranges, and of a text that can't be that of a note.
    pub fn explain_ranges(&self, findings: &mut Findings<'_>) -> Result<(), AllocError> {
        for key in self.rules.required.iter().chain(self.rules.optional.iter()) {
            if !self.rules.has(*key) {
                continue;
            }
            let wanted = key.kind(self.ranks);
            if let Some(number) = integer_at(self.table, *key) {
                if is_outside(number, wanted) {
                    let at = self.place_of(findings, key.name());
                    findings.tell(at, self.step, Cause::OutOfRange(*key, number, wanted))?;
                }
            }
            if wanted == Kind::Label {
                self.explain_label(findings, *key)?;
            }
        }
        Ok(())
    }

    /// Tells of a text that can't be that of a note.
    fn explain_label(&self, findings: &mut Findings<'_>, key: Key) -> Result<(), AllocError> {
        match text_at(self.table, key) {
            Some(text) if !is_label(text) => {
                let shown = Shown::new(findings.alloc, text)?;
                let at = self.place_of(findings, key.name());
                findings.tell(at, self.step, Cause::NoLabel(shown))
            }
            _ => Ok(()),
        }
    }
}

/// Tells of steps that are no tables.
fn explain_items(findings: &mut Findings<'_>, items: &[Value]) -> Result<(), AllocError> {
    for (in_file, item) in items.iter().enumerate() {
        if !item.is_table() {
            let step = StepPlace {
                in_file,
                of_rank: None,
            };
            let at = findings.place_of_step(Some(in_file));
            findings.tell(at, Some(step), Cause::NoTable(item.type_str()))?;
        }
    }
    Ok(())
}

/// The integer at a key, if there is one.
pub fn integer_at(table: &Table, key: Key) -> Option<i64> {
    match table.get(key.name()) {
        Some(value) => value.as_integer(),
        None => None,
    }
}

/// Whether a key says so.
pub fn is_true_at(table: &Table, key: Key) -> bool {
    match table.get(key.name()) {
        Some(value) => value.as_bool().unwrap_or(false),
        None => false,
    }
}

/// The text at a key, if there is one.
pub fn text_at(table: &Table, key: Key) -> Option<&str> {
    match table.get(key.name()) {
        Some(value) => value.as_str(),
        None => None,
    }
}

/// The list at a key, if there is one.
pub fn list_at<'a>(table: &'a Table, key: &str) -> Option<&'a [Value]> {
    let values = table.get(key)?.as_array()?;
    Some(values.as_slice())
}

/// The list at a key of a value, if it is a table that has one.
pub fn list_in<'a>(value: &'a Value, key: &str) -> Option<&'a [Value]> {
    list_at(value.as_table()?, key)
}

/// Whether a value is of a kind, other than an array of tables or of rows.
fn is_of_kind(value: &Value, kind: Kind) -> bool {
    match kind {
        Kind::Integer(_, _)
        | Kind::OrAny(_, _)
        | Kind::Ranks(_, _)
        | Kind::Peer(_, _)
        | Kind::PeerOrAny(_, _) => value.is_integer(),
        Kind::Truth => value.is_bool(),
        Kind::Text | Kind::Name | Kind::Label | Kind::Called => value.is_str(),
        Kind::Reference(_, _) | Kind::Comm(_, _) => value.is_integer() || value.is_str(),
        Kind::Conditions | Kind::Expected => value.is_table() || value.is_array(),
        Kind::Texts => are_texts(value),
        Kind::Words | Kind::Together => value.is_array(),
        Kind::Tables | Kind::Row | Kind::Rows => false,
    }
}

/// Whether a value is an array of texts.
fn are_texts(value: &Value) -> bool {
    match value.as_array() {
        Some(texts) => texts.iter().all(|text| text.is_str()),
        None => false,
    }
}

/// Whether a number is out of the range of a kind.
fn is_outside(number: i64, kind: Kind) -> bool {
    match kind.range() {
        Some((least, most)) => number < least || most < number,
        None => false,
    }
}
