//! Words of the job's text, as they are shown.

use crate::rules::any_step_rules;
use std::alloc::{AllocError, Global};
use std::fmt;
use toml::Value;

/// The most characters of a word that are shown.
const MOST: usize = 40;

/// The beginning of a word of the job, on one line.
#[derive(Drop)]
pub struct Shown {
    text: String,
}

impl Shown {
    /// The beginning of a text, without control characters.
    pub fn new(alloc: Global, text: &str) -> Result<Shown, AllocError> {
        let mut kept = String::new(alloc);
        for letter in text.chars().take(MOST) {
            kept.push(if letter.is_control() { '?' } else { letter })?;
        }
        if text.chars().nth(MOST).is_some() {
            kept.push_str("..")?;
        }
        Ok(Shown { text: kept })
    }

    /// What is shown.
    pub(crate) fn as_str(&self) -> &str {
        self.text.as_str()
    }

    /// Whether nothing is shown.
    pub fn is_empty(&self) -> bool {
        self.text.is_empty()
    }

    /// Whether it begins as a line of a step does: with its head, or with one of its keys.
    pub fn is_of_step(&self) -> bool {
        let line = self.text.as_str();
        let key = line.split(' ').next().unwrap_or("");
        line.starts_with("[step]") || any_step_rules().find(key).is_some()
    }
}

impl fmt::Display for Shown {
    fn fmt<W: fmt::Write>(&self, f: &mut fmt::Formatter<W>) -> fmt::Result {
        f.write_str(self.text.as_str())
    }
}

/// A value of a wrong kind, as it is shown.
pub fn shown_value(alloc: Global, value: &Value) -> Result<String, AllocError> {
    match value {
        Value::String(text) => {
            let text = Shown::new(alloc, text.as_str())?;
            format!(in alloc; "the text \"{text}\"")
        }
        Value::Float(_) | Value::Integer(_) | Value::Boolean(_) | Value::Datetime(_) => {
            format!(in alloc; "the {} {value}", value.type_str())
        }
        Value::Array(_) => String::from_str(alloc, "an array"),
        Value::Table(_) => String::from_str(alloc, "a table"),
    }
}
