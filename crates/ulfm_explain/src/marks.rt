//! Where the keys and the steps of a job begin.

use crate::walk::{after, after_equals, after_value};
use std::alloc::{AllocError, Global};
use toml_parser::text::{skip_blank, skip_ws};
use toml_parser::{Key, ParseError, dotted_key};

/// Where a step begins, or a key of the job or of a step.
#[derive(Drop)]
pub struct Mark {
    /// The number of the step in the file; none for the job's own keys.
    pub step: Option<usize>,
    /// The key; none for the step itself.
    pub key: Option<String>,
    /// How many bytes stand before it.
    pub at: usize,
}

/// A walk over a text, which keeps the marks that it met.
#[derive(Drop)]
struct Walk<'a> {
    alloc: Global,
    text: &'a str,
    marks: Vec<Mark>,
    /// How many steps began.
    steps: usize,
    /// Whose keys come: of the job, of the last step, or of neither.
    owner: Owner,
}

#[derive(Clone, Copy)]
enum Owner {
    Job,
    Step(usize),
    Other,
}

/// The marks of a TOML document.
pub fn marks_of(alloc: Global, text: &str) -> Result<Vec<Mark>, AllocError> {
    let mut walk = Walk {
        alloc,
        text,
        marks: Vec::new(alloc),
        steps: 0,
        owner: Owner::Job,
    };
    match walk.run() {
        Err(ParseError::OutOfMemory) => Err(AllocError),
        _ => Ok(walk.marks),
    }
}

impl<'a> Walk<'a> {
    /// Goes over the whole text.
    fn run(&mut self) -> Result<(), ParseError> {
        let mut rest = self.text;
        for _ in 0..self.text.len() {
            rest = skip_blank(rest, true);
            if rest.is_empty() {
                return Ok(());
            }
            rest = if rest.starts_with("[[") {
                self.array_header(rest)?
            } else if rest.starts_with('[') {
                self.table_header(rest)?
            } else {
                self.statement(rest)?
            };
        }
        Ok(())
    }

    /// Keeps a mark before the rest of the text.
    fn mark(
        &mut self,
        step: Option<usize>,
        key: Option<String>,
        rest: &str,
    ) -> Result<(), ParseError> {
        let at = self.text.len().saturating_sub(rest.len());
        self.marks.push(Mark { step, key, at })?;
        Ok(())
    }

    /// Keeps a mark of a new step, and gives its number.
    fn mark_step(&mut self, rest: &str) -> Result<usize, ParseError> {
        let step = self.steps;
        self.steps = step.saturating_add(1);
        self.mark(Some(step), None, rest)?;
        Ok(step)
    }

    /// Keeps a mark of a key of whoever has the keys now.
    fn mark_key(&mut self, key: String, rest: &str) -> Result<(), ParseError> {
        match self.owner {
            Owner::Job => self.mark(None, Some(key), rest),
            Owner::Step(step) => self.mark(Some(step), Some(key), rest),
            Owner::Other => Ok(()),
        }
    }

    /// The header of a table in an array.
    fn array_header(&mut self, text: &'a str) -> Result<&'a str, ParseError> {
        let (Key { path, last }, rest) = dotted_key(self.alloc, skip_ws(after(text, "[[")))?;
        if path.is_empty() && last.as_str() == "step" {
            let step = self.mark_step(text)?;
            self.owner = Owner::Step(step);
        } else {
            self.header_key(path, last, text)?;
        }
        Ok(after(rest, "]]"))
    }

    /// The header of a table.
    fn table_header(&mut self, text: &'a str) -> Result<&'a str, ParseError> {
        let (key, rest) = dotted_key(self.alloc, skip_ws(after(text, "[")))?;
        self.header_key(key.path, key.last, text)?;
        Ok(after(rest, "]"))
    }

    /// Keeps a mark of the key that a header makes: one of the job, or one of the last step.
    fn header_key(
        &mut self,
        path: Vec<String>,
        last: String,
        text: &str,
    ) -> Result<(), ParseError> {
        let is_of_step = matches!(path.first(), Some(first) if first.as_str() == "step");
        let step = if is_of_step {
            self.steps.checked_sub(1)
        } else {
            None
        };
        self.owner = Owner::Other;
        match step {
            Some(step) => self.mark(Some(step), Some(last), text),
            None => {
                let first = first_of(path, last);
                self.mark(None, Some(first), text)
            }
        }
    }

    /// A key with its value.
    fn statement(&mut self, text: &'a str) -> Result<&'a str, ParseError> {
        let (key, rest) = dotted_key(self.alloc, text)?;
        let is_step = key.path.is_empty() && key.last.as_str() == "step";
        let first = first_of(key.path, key.last);
        self.mark_key(first, text)?;
        let value = after_equals(rest);
        if is_step && matches!(self.owner, Owner::Job) && value.starts_with('[') {
            return self.array(after(value, "["));
        }
        after_value(self.alloc, value)
    }

    /// The steps of an array, and what follows it.
    fn array(&mut self, text: &'a str) -> Result<&'a str, ParseError> {
        let mut rest = text;
        for _ in 0..text.len() {
            rest = skip_blank(rest, true);
            if rest.starts_with(']') {
                return Ok(after(rest, "]"));
            }
            if rest.starts_with(',') {
                rest = after(rest, ",");
                continue;
            }
            let step = self.mark_step(rest)?;
            rest = if rest.starts_with('{') {
                self.inline_table(step, after(rest, "{"))?
            } else {
                after_value(self.alloc, rest)?
            };
        }
        Ok(rest)
    }

    /// The keys of a step in braces, and what follows it.
    fn inline_table(&mut self, step: usize, text: &'a str) -> Result<&'a str, ParseError> {
        let mut rest = text;
        for _ in 0..text.len() {
            rest = skip_blank(rest, true);
            if rest.starts_with('}') {
                return Ok(after(rest, "}"));
            }
            if rest.starts_with(',') {
                rest = after(rest, ",");
                continue;
            }
            let (key, behind) = dotted_key(self.alloc, rest)?;
            self.mark(Some(step), Some(first_of(key.path, key.last)), rest)?;
            rest = after_value(self.alloc, after_equals(behind))?;
        }
        Ok(rest)
    }
}

/// The first part of a key with dots.
fn first_of(path: Vec<String>, last: String) -> String {
    match path.into_iter().next() {
        Some(first) => first,
        None => last,
    }
}
