//! What is wrong with a job.

use crate::block::BlockFault;
use crate::excerpt::Shown;
use crate::kind::Kind;
use crate::line::{Line, Part};
use crate::refusal_cause::Doom;
use crate::row_fault::RowFault;
use crate::rules::{Key, Rules};
use std::fmt;
use toml::de::Error;
use ulfm_job::Op;
use ulfm_job::limits::{
    FEWEST_OF_ROW, MOST_BYTES, MOST_ITEMS, MOST_LABEL, MOST_NAME, MOST_OF_ROW, MOST_STEPS,
    MOST_WORDS,
};
use ulfm_reader::MOST_ROWS;

/// What is wrong.
#[derive(Drop)]
pub enum Cause {
    /// A byte that isn't UTF-8.
    NotUtf8,
    /// No TOML, and what stands there.
    NotToml(Error, Shown),
    /// The text of a program.
    Program,
    /// No step at all.
    NoSteps,
    /// More bytes than a job may have.
    TooManyBytes,
    /// More steps than a job may have.
    TooManySteps(usize),
    /// More steps than a job may have, once they are written out.
    TooManyWritten,
    /// A block of steps that isn't one.
    NoBlock(BlockFault),
    /// A required key is missing, which has to be of this kind.
    Missing(Key, Kind),
    /// A required key of the job is missing, and stands in a step.
    InStep(Key),
    /// A key has a value of this kind, and not of the kind that it has to have.
    WrongKind(Key, String, Kind),
    /// The `step` of the job is a table, and no array of tables.
    OneTable,
    /// A step is no table, but a value of this kind.
    NoTable(&'static str),
    /// A key that the table doesn't have, and the nearest that it has.
    UnknownKey(Shown, Option<Key>, Rules),
    /// A number out of its range.
    OutOfRange(Key, i64, Kind),
    /// An op that there isn't, and the nearest one.
    UnknownOp(Shown, Option<Op>),
    /// A call of MPI that no op does, and what a job has in its place.
    NoOp(Shown, &'static str),
    /// A text that can't be a name.
    NoName(Shown),
    /// A text that can't be that of a note.
    NoLabel(Shown),
    /// A name that the step of its rank with this number has.
    NameTaken(Shown, usize),
    /// A name that no earlier step of its rank has.
    NotNamed(Key, Shown),
    /// The name of a step that makes no communicator.
    NoMaker(Shown, Op),
    /// A name that no step has, where stops are to lie before the steps of that name, and the nearest that one has.
    NotThere(Shown, Option<Shown>),
    /// A number that is none of an earlier step of its rank.
    NotEarlier(i64),
    /// A list of so many, where 1 to 16 may be.
    Count(Key, usize),
    /// So many conditions that have to hold together by `on_error`, where 16 are the most.
    Together(usize),
    /// Words with which no answer of this op begins.
    NoAnswer(Key, Shown, Op),
    /// Words with which no answer of a receive begins, but one of its wait.
    OfWait(Key, Shown),
    /// A row of `never` of a wrong kind.
    NoRow(RowFault),
    /// So many rows of `never`, where 1 to 1024 may be.
    Rows(usize),
    /// More rows of `never` than that, written out.
    ManyRows,
    /// A row of this number has so many texts, where 2 to 8 may be.
    RowLength(usize, usize),
    /// A text of a row that isn't written as one.
    NoPlace(Shown),
    /// A text of a row whose step there isn't.
    NoStep(Shown),
    /// A text of a row over ranks, where no ranks have steps of the names that the row says.
    NoRanks(Shown),
    /// Words of so many bytes, where 1024 are the most.
    LongWords(Key, usize),
    /// The step can be read, and will be refused when it runs; the name of the other step of which that tells.
    Doomed(Doom, Option<String>),
}

impl Cause {
    /// The line that tells it, but for its end.
    fn line(&self) -> Line<'_> {
        match self {
            Cause::NotUtf8 => Line::Plain("this byte is no UTF-8; save the file as UTF-8"),
            Cause::NotToml(error, rest) => Line::One("{}", Part::Broken(error, rest)),
            Cause::Program => Line::Plain(
                "this is a program in C, and no job; docs/C.md says how a program runs with a stop at every call, and docs/JOBS.md what a job is",
            ),
            Cause::NoSteps => Line::Plain(
                "the job has no steps, so nothing is asked; write each below a [[step]] of its own",
            ),
            Cause::TooManyBytes => Line::One(
                "the text has more than {} bytes, which are the most",
                Part::Count(MOST_BYTES),
            ),
            Cause::TooManySteps(count) => Line::Two(
                "there are {} steps, and {} are the most",
                Part::Count(*count),
                Part::Count(MOST_STEPS),
            ),
            Cause::TooManyWritten => Line::Two(
                "there are more than {} steps, one for each rank and each iteration, and {} are the most",
                Part::Count(MOST_STEPS),
                Part::Count(MOST_STEPS),
            ),
            Cause::NoBlock(fault) => fault.line(),
            Cause::Missing(Key::Op, _) => Line::One(
                "key 'op' is missing; the ops are {}",
                Part::Ops,
            ),
            Cause::Missing(key, wanted) => Line::Two(
                "key '{}' is missing; it has to be {}",
                Part::Key(*key),
                Part::Kind(*wanted),
            ),
            Cause::InStep(key) => Line::One(
                "key '{}' is missing above the first step, and stands in a step here; move it up",
                Part::Key(*key),
            ),
            Cause::WrongKind(key, found, wanted) => Line::Three(
                "key '{}' is {}, and has to be {}",
                Part::Key(*key),
                Part::Text(found.as_str()),
                Part::Kind(*wanted),
            ),
            Cause::OneTable => Line::Plain(
                "key 'step' is one table, and has to be an array of tables; write [[step]] above each step",
            ),
            Cause::NoTable(found) => Line::One(
                "the step is a TOML {}, and has to be a table",
                Part::Text(*found),
            ),
            Cause::UnknownKey(word, nearest, rules) => {
                let meant = Part::Meant(nearest.map(|key| key.name()));
                Line::Three(
                    "key '{}' is unknown{} {}",
                    Part::Text(word.as_str()),
                    meant,
                    Part::Rules(*rules),
                )
            }
            Cause::OutOfRange(key, value, wanted) => Line::Three(
                "key '{}' is {}, and has to be {}",
                Part::Key(*key),
                Part::Number(*value),
                Part::Kind(*wanted),
            ),
            Cause::UnknownOp(word, nearest) => Line::Three(
                "op '{}' is unknown{} the ops are {}",
                Part::Text(word.as_str()),
                Part::Meant(nearest.map(|op| op.name())),
                Part::Ops,
            ),
            Cause::NoOp(word, instead) => Line::Three(
                "op '{}' is unknown{} the ops are {}",
                Part::Text(word.as_str()),
                Part::Text(*instead),
                Part::Ops,
            ),
            Cause::NoName(text) => Line::Two(
                "name '{}' has to be 1 to {} letters, digits, '_' and '-'",
                Part::Text(text.as_str()),
                Part::Count(MOST_NAME),
            ),
            Cause::NoLabel(text) => Line::Two(
                "text '{}' has to be 1 to {} letters, digits, spaces, '_', '-' and '.'",
                Part::Text(text.as_str()),
                Part::Count(MOST_LABEL),
            ),
            Cause::NameTaken(text, step) => Line::Two(
                "name '{}' is that of step {} of its rank too",
                Part::Text(text.as_str()),
                Part::Count(*step),
            ),
            Cause::NotNamed(key, text) => Line::Two(
                "key '{}' is '{}', and no earlier step of its rank has this name",
                Part::Key(*key),
                Part::Text(text.as_str()),
            ),
            Cause::NoMaker(text, op) => Line::Two(
                "key 'comm' is '{}', and the step of this name is a {}, which makes no communicator",
                Part::Text(text.as_str()),
                Part::Op(*op),
            ),
            Cause::NotThere(text, Some(nearest)) => Line::Two(
                "key 'before' is '{}', and no step has this name; did you mean '{}'?",
                Part::Text(text.as_str()),
                Part::Text(nearest.as_str()),
            ),
            Cause::NotThere(text, None) => Line::One(
                "key 'before' is '{}', and no step has this name",
                Part::Text(text.as_str()),
            ),
            Cause::NotEarlier(number) => Line::One(
                "key 'if' names step {}, and that is no earlier step of its rank",
                Part::Number(*number),
            ),
            Cause::Count(key, count) => Line::Three(
                "key '{}' has {} items, and has to have 1 to {}",
                Part::Key(*key),
                Part::Count(*count),
                Part::Count(MOST_ITEMS),
            ),
            Cause::Together(count) => Line::Three(
                "by 'on_error' {} conditions have to hold together here: those of its own 'if', and one for each step before it, back to the last one without an 'if'; {} are the most, so at most {} steps with an 'if' may stand in a row in a block",
                Part::Count(*count),
                Part::Count(MOST_ITEMS),
                Part::Count(MOST_ITEMS - 1),
            ),
            Cause::NoAnswer(key, words, op) => Line::Four(
                "key '{}' has '{}', and no answer of '{}' begins so; its answers begin with {}",
                Part::Key(*key),
                Part::Text(words.as_str()),
                Part::Op(*op),
                Part::Beginnings(*op, *key),
            ),
            Cause::OfWait(key, words) => Line::Six(
                "key '{}' has '{}', and no answer of '{}' begins so, but one of its '{}': ask that step; the answers of '{}' begin with {}",
                Part::Key(*key),
                Part::Text(words.as_str()),
                Part::Op(Op::Recv),
                Part::Op(Op::Wait),
                Part::Op(Op::Recv),
                Part::Beginnings(Op::Recv, *key),
            ),
            Cause::NoRow(fault) => fault.line(),
            Cause::Rows(count) => Line::Two(
                "key 'never' has {} rows, and has to have 1 to {}",
                Part::Count(*count),
                Part::Count(MOST_ROWS),
            ),
            Cause::ManyRows => Line::Two(
                "key 'never' has more than {} rows, one for each of the ranks for which 'all' and 'any' stand, and {} are the most",
                Part::Count(MOST_ROWS),
                Part::Count(MOST_ROWS),
            ),
            Cause::RowLength(row, count) => Line::Four(
                "row {} of key 'never' has {} texts, and has to have {} to {}",
                Part::Count(*row),
                Part::Count(*count),
                Part::Count(FEWEST_OF_ROW),
                Part::Count(MOST_OF_ROW),
            ),
            Cause::NoPlace(text) => Line::One(
                "key 'never' has '{}', and each text has to be a rank, a dot, a step of it, a space, and how its answer begins",
                Part::Text(text.as_str()),
            ),
            Cause::NoStep(text) => Line::One(
                "key 'never' has '{}', and there is no such step",
                Part::Text(text.as_str()),
            ),
            Cause::NoRanks(text) => Line::One(
                "key 'never' has '{}', and no ranks have steps of the names that its row says of 'all' and 'any'",
                Part::Text(text.as_str()),
            ),
            Cause::LongWords(key, count) => Line::Three(
                "key '{}' has a text of {} bytes, and {} are the most",
                Part::Key(*key),
                Part::Count(*count),
                Part::Count(MOST_WORDS),
            ),
            Cause::Doomed(doom, Some(name)) => doom.line(Some(name.as_str())),
            Cause::Doomed(doom, None) => doom.line(None),
        }
    }

    /// The end of that line.
    fn end(&self) -> &'static str {
        match self {
            Cause::Doomed(doom, _) => doom.end(),
            _ => "",
        }
    }
}

impl fmt::Display for Cause {
    fn fmt<W: fmt::Write>(&self, f: &mut fmt::Formatter<W>) -> fmt::Result {
        write!(f, "{}{}", self.line(), self.end())
    }
}
