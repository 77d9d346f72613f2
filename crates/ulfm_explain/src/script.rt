//! The steps of one rank.

use crate::keys::text_at;
use crate::rules::Key;
use crate::steps::rank_of;
use std::alloc::{AllocError, Global};
use toml::Value;
use ulfm_job::{Label, Op};
use ulfm_reader::is_name;

/// The steps of one rank, among those of the file.
#[derive(Clone, Copy)]
pub struct Script<'a> {
    pub steps: &'a [Value],
    pub rank: i64,
}

impl<'a> Script<'a> {
    /// The step of this number.
    pub fn step(&self, number: usize) -> Option<&'a Value> {
        let mut of_rank = self
            .steps
            .iter()
            .filter(|step| rank_of(*step) == Some(self.rank));
        of_rank.nth(number)
    }

    /// The op of the step of this number, if it is known.
    pub fn op(&self, number: usize) -> Option<Op> {
        op_of(self.step(number)?)
    }

    /// The number of the first step with this name among so many.
    pub fn named(&self, name: &str, many: usize) -> Option<usize> {
        for number in 0..many {
            let step = self.step(number)?;
            if name_of(step) == Some(name) {
                return Some(number);
            }
        }
        None
    }

    /// The number of the step that a value names, by a number, or by the name of one of so many.
    pub fn number_of(&self, value: &Value, many: usize) -> Option<i64> {
        if let Some(number) = value.as_integer() {
            return Some(number);
        }
        let number = self.named(value.as_str()?, many)?;
        i64::try_from(number).ok()
    }
}

/// The name of a step, where it has one.
pub fn name_of(step: &Value) -> Option<&str> {
    text_at(step.as_table()?, Key::Name)
}

/// A copy of the name of a step, where it has one that may be a name.
pub fn kept_name(alloc: Global, step: &Value) -> Result<Option<String>, AllocError> {
    match name_of(step) {
        Some(name) if is_name(name) => Ok(Some(String::from_str(alloc, name)?)),
        _ => Ok(None),
    }
}

/// Whether a text may be that of a note.
pub fn is_label(text: &str) -> bool {
    Label::new(text).is_some()
}

/// The op of a step, if it is known.
pub fn op_of(step: &Value) -> Option<Op> {
    Op::named(text_at(step.as_table()?, Key::Op)?)
}

/// Whether a step has a condition.
pub fn has_condition(step: &Value) -> bool {
    match step.as_table() {
        Some(table) => table.get("if").is_some(),
        None => false,
    }
}
