//! What is wrong with the name of a step, with its conditions, and with what it expects.

use crate::answers::{is_of_wait, may_begin};
use crate::cause::Cause;
use crate::excerpt::{Shown, shown_value};
use crate::explanation::StepPlace;
use crate::findings::Findings;
use crate::keys::{Sheet, text_at};
use crate::rules::{Key, Rules, all_rules, condition_rules, expect_rules};
use crate::script::{Script, is_label};
use std::alloc::AllocError;
use toml::{Table, Value};
use ulfm_job::Op;
use ulfm_job::limits::{MOST_ITEMS, MOST_WORDS};
use ulfm_reader::is_name;

/// A step whose rank can be read, and where it stands.
#[derive(Clone, Copy)]
struct Asker<'a> {
    op: Op,
    sheet: &'a Sheet<'a>,
    place: StepPlace,
    script: Script<'a>,
    /// Its number among the steps of its rank.
    number: usize,
}

/// Tells what is wrong with a `req` that is a name, then with `name`, `if` and `expect`, and then with a `comm` that is a name.
pub fn explain_asking<'a>(
    findings: &mut Findings<'_>,
    steps: &'a [Value],
    place: StepPlace,
    op: Op,
    sheet: &'a Sheet<'a>,
) -> Result<(), AllocError> {
    let Some((rank, number)) = place.of_rank else {
        return Ok(());
    };
    let asker = Asker {
        op,
        sheet,
        place,
        script: Script { steps, rank },
        number,
    };
    if let (Some(_), Some(value)) = (sheet.rules.find("req"), sheet.table.get("req")) {
        asker.explain_reference(findings, Key::Req, value)?;
    }
    asker.explain_name(findings)?;
    asker.explain_if(findings)?;
    asker.explain_expect(findings)?;
    match (sheet.rules.find("comm"), sheet.table.get("comm")) {
        (Some(_), Some(value)) => asker.explain_comm(findings, value),
        _ => Ok(()),
    }
}

impl Asker<'_> {
    /// Tells a cause, at a key of the step.
    fn tell(&self, findings: &mut Findings<'_>, key: Key, cause: Cause) -> Result<(), AllocError> {
        let at = findings.place_of(Some(self.place.in_file), key.name());
        findings.tell(at, Some(self.place), cause)
    }

    /// Tells of a name that no earlier step has.
    fn explain_reference(
        &self,
        findings: &mut Findings<'_>,
        key: Key,
        value: &Value,
    ) -> Result<(), AllocError> {
        if let Some(name) = value.as_str() {
            if self.script.named(name, self.number).is_none() {
                let shown = Shown::new(findings.alloc, name)?;
                let at = match key {
                    Key::Req | Key::Comm => key,
                    _ => Key::If,
                };
                return self.tell(findings, at, Cause::NotNamed(key, shown));
            }
        }
        Ok(())
    }

    /// Tells of the name of a communicator that no earlier step has, or one that makes none.
    fn explain_comm(&self, findings: &mut Findings<'_>, value: &Value) -> Result<(), AllocError> {
        self.explain_reference(findings, Key::Comm, value)?;
        let Some(name) = value.as_str() else {
            return Ok(());
        };
        let Some(number) = self.script.named(name, self.number) else {
            return Ok(());
        };
        match self.script.op(number) {
            None | Some(Op::Dup | Op::Shrink) => Ok(()),
            Some(op) => {
                let shown = Shown::new(findings.alloc, name)?;
                self.tell(findings, Key::Comm, Cause::NoMaker(shown, op))
            }
        }
    }

    /// Tells what is wrong with its name.
    fn explain_name(&self, findings: &mut Findings<'_>) -> Result<(), AllocError> {
        let Some(value) = self.sheet.table.get("name") else {
            return Ok(());
        };
        let Some(name) = value.as_str() else {
            return self.sheet.explain_kind(findings, Key::Name, value);
        };
        let shown = Shown::new(findings.alloc, name)?;
        if !is_name(name) {
            return self.tell(findings, Key::Name, Cause::NoName(shown));
        }
        match self.script.named(name, self.number) {
            Some(other) => self.tell(findings, Key::Name, Cause::NameTaken(shown, other)),
            None => Ok(()),
        }
    }

    /// Tells what is wrong with its conditions.
    fn explain_if(&self, findings: &mut Findings<'_>) -> Result<(), AllocError> {
        let Some(value) = self.sheet.table.get("if") else {
            return Ok(());
        };
        if let Some(table) = value.as_table() {
            return self.explain_alternative(findings, table);
        }
        let Some(items) = value.as_array() else {
            return self.sheet.explain_kind(findings, Key::If, value);
        };
        if items.is_empty() || items.len() > MOST_ITEMS {
            return self.tell(findings, Key::If, Cause::Count(Key::If, items.len()));
        }
        self.explain_alternatives(findings, items.as_slice())
    }

    /// Tells what is wrong with each of its alternatives.
    fn explain_alternatives(
        &self,
        findings: &mut Findings<'_>,
        items: &[Value],
    ) -> Result<(), AllocError> {
        for item in items {
            match item.as_table() {
                Some(table) => self.explain_alternative(findings, table)?,
                None => self.explain_item(findings, Key::If, Key::If, item)?,
            }
        }
        Ok(())
    }

    /// A table within a key of the step, which may have these keys.
    fn sheet_within<'a>(&'a self, key: Key, table: &'a Table, rules: Rules) -> Sheet<'a> {
        Sheet {
            table,
            rules,
            step: Some(self.place),
            ranks: self.sheet.ranks,
            within: Some(key),
        }
    }

    /// Tells what is wrong with one alternative: a condition, or by `all` some that have to hold together.
    fn explain_alternative(
        &self,
        findings: &mut Findings<'_>,
        table: &Table,
    ) -> Result<(), AllocError> {
        let Some(value) = table.get("all") else {
            return self.explain_condition(findings, table);
        };
        let sheet = self.sheet_within(Key::If, table, all_rules());
        sheet.explain_kinds(findings)?;
        sheet.explain_unknown(findings)?;
        let Some(items) = value.as_array() else {
            return Ok(());
        };
        let count = items.len();
        if count > MOST_ITEMS && !findings.is_long(self.place.in_file) {
            return self.tell(findings, Key::If, Cause::Together(count));
        }
        if items.is_empty() || count > MOST_ITEMS {
            return self.tell(findings, Key::If, Cause::Count(Key::All, count));
        }
        for item in items {
            match item.as_table() {
                Some(table) => self.explain_condition(findings, table)?,
                None => self.explain_item(findings, Key::If, Key::All, item)?,
            }
        }
        Ok(())
    }

    /// Tells of an item of a wrong kind.
    fn explain_item(
        &self,
        findings: &mut Findings<'_>,
        at: Key,
        key: Key,
        item: &Value,
    ) -> Result<(), AllocError> {
        let found = shown_value(findings.alloc, item)?;
        let cause = Cause::WrongKind(key, found, key.kind(self.sheet.ranks));
        self.tell(findings, at, cause)
    }

    /// Tells what is wrong with one condition.
    fn explain_condition(
        &self,
        findings: &mut Findings<'_>,
        table: &Table,
    ) -> Result<(), AllocError> {
        let is = table.get("is");
        let not = table.get("not");
        let sheet = self.sheet_within(Key::If, table, condition_rules(is.is_some(), not.is_some()));
        sheet.explain_kinds(findings)?;
        sheet.explain_unknown(findings)?;
        let Some(value) = table.get("step") else {
            return Ok(());
        };
        self.explain_reference(findings, Key::Earlier, value)?;
        let Some(number) = self.script.number_of(value, self.number) else {
            return Ok(());
        };
        let earlier = usize::try_from(number)
            .ok()
            .filter(|earlier| *earlier < self.number);
        let Some(earlier) = earlier else {
            return self.tell(findings, Key::If, Cause::NotEarlier(number));
        };
        match (self.script.op(earlier), is, not) {
            (Some(op), Some(words), _) => self.explain_words(findings, Key::If, Key::Is, op, words),
            (Some(op), None, Some(words)) => {
                self.explain_words(findings, Key::If, Key::Not, op, words)
            }
            _ => Ok(()),
        }
    }

    /// Tells what is wrong with what it expects.
    fn explain_expect(&self, findings: &mut Findings<'_>) -> Result<(), AllocError> {
        let Some(value) = self.sheet.table.get("expect") else {
            return Ok(());
        };
        let sheet = self.sheet;
        if let Some(table) = value.as_table() {
            return self.explain_expected(findings, table);
        }
        if !value.is_array() {
            return sheet.explain_kind(findings, Key::Expect, value);
        }
        self.explain_words(findings, Key::Expect, Key::Expect, self.op, value)
    }

    /// Tells of the keys of what it expects only before the steps of a name.
    fn explain_expected_keys(
        &self,
        findings: &mut Findings<'_>,
        table: &Table,
    ) -> Result<(), AllocError> {
        let sheet = self.sheet_within(Key::Expect, table, expect_rules());
        sheet.explain_kinds(findings)?;
        sheet.explain_unknown(findings)
    }

    /// Tells what is wrong with what it expects only before the steps of a name.
    fn explain_expected(
        &self,
        findings: &mut Findings<'_>,
        table: &Table,
    ) -> Result<(), AllocError> {
        self.explain_expected_keys(findings, table)?;
        if let Some(name) = text_at(table, Key::Before) {
            if !is_label(name) {
                let shown = Shown::new(findings.alloc, name)?;
                self.tell(findings, Key::Expect, Cause::NotThere(shown, None))?;
            }
        }
        match table.get("is") {
            Some(words) => self.explain_words(findings, Key::Expect, Key::Expect, self.op, words),
            None => Ok(()),
        }
    }

    /// Tells of words with which no answer of an op begins.
    fn explain_words(
        &self,
        findings: &mut Findings<'_>,
        at: Key,
        key: Key,
        op: Op,
        value: &Value,
    ) -> Result<(), AllocError> {
        let Some(items) = value.as_array() else {
            return Ok(());
        };
        if items.is_empty() || items.len() > MOST_ITEMS {
            return self.tell(findings, at, Cause::Count(key, items.len()));
        }
        for item in items {
            match item.as_str() {
                None => self.explain_item(findings, at, key, item)?,
                Some(words) if words.len() > MOST_WORDS => {
                    self.tell(findings, at, Cause::LongWords(key, words.len()))?;
                }
                Some(words) => {
                    if !may_begin(op, key, words) {
                        let shown = Shown::new(findings.alloc, words)?;
                        let cause = if is_of_wait(op, words) {
                            Cause::OfWait(key, shown)
                        } else {
                            Cause::NoAnswer(key, shown, op)
                        };
                        self.tell(findings, at, cause)?;
                    }
                }
            }
        }
        Ok(())
    }
}
