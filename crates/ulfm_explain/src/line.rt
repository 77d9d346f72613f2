//! A line of text, and what stands in it.

use crate::answers::{beginnings, comes};
use crate::excerpt::Shown;
use crate::kind::Kind;
use crate::numbered_step::Numbered;
use crate::rules::{Key, Rules};
use std::fmt;
use toml::de::Error;
use ulfm_job::{OPS, Op};

/// What stands in a line.
#[derive(Clone, Copy)]
pub enum Part<'a> {
    Key(Key),
    Kind(Kind),
    Rules(Rules),
    Number(i64),
    Count(usize),
    Text(&'a str),
    /// What to write in place of a word, where there is a word like it.
    Meant(Option<&'a str>),
    /// The name of an op.
    Op(Op),
    /// The ops.
    Ops,
    /// How an answer of a step with this op may begin, for which words at this key ask.
    Beginnings(Op, Key),
    /// A step by its number, and its name, where it has one.
    Step(usize, Option<&'a str>),
    /// An op behind its article.
    An(Op),
    /// The op that makes this communicator, and from which.
    Maker(i64),
    /// Why a text is no TOML, and what stands there, if there is anything.
    Broken(&'a Error, &'a Shown),
}

/// A text, and what stands in it at each `{}`.
#[derive(Clone, Copy)]
pub enum Line<'a> {
    Plain(&'static str),
    One(&'static str, Part<'a>),
    Two(&'static str, Part<'a>, Part<'a>),
    Three(&'static str, Part<'a>, Part<'a>, Part<'a>),
    Four(&'static str, Part<'a>, Part<'a>, Part<'a>, Part<'a>),
    Six(&'static str, Part<'a>, Part<'a>, Part<'a>, Part<'a>, Part<'a>, Part<'a>),
}

impl fmt::Display for Line<'_> {
    fn fmt<W: fmt::Write>(&self, f: &mut fmt::Formatter<W>) -> fmt::Result {
        match *self {
            Line::Plain(text) => f.write_str(text),
            Line::One(text, one) => write_parts(f, text, &[one]),
            Line::Two(text, one, two) => write_parts(f, text, &[one, two]),
            Line::Three(text, one, two, three) => write_parts(f, text, &[one, two, three]),
            Line::Four(text, one, two, three, four) => {
                write_parts(f, text, &[one, two, three, four])
            }
            Line::Six(text, one, two, three, four, five, six) => {
                write_parts(f, text, &[one, two, three, four, five, six])
            }
        }
    }
}

/// Writes a text, and at each `{}` the next of these parts.
fn write_parts<W: fmt::Write>(
    f: &mut fmt::Formatter<W>,
    text: &str,
    parts: &[Part<'_>],
) -> fmt::Result {
    let mut rest = text;
    for part in parts {
        let (before, behind) = rest.split_once("{}").unwrap_or((rest, ""));
        write!(f, "{before}{part}")?;
        rest = behind;
    }
    f.write_str(rest)
}

impl fmt::Display for Part<'_> {
    fn fmt<W: fmt::Write>(&self, f: &mut fmt::Formatter<W>) -> fmt::Result {
        match *self {
            Part::Key(key) => f.write_str(key.name()),
            Part::Kind(kind) => write!(f, "{kind}"),
            Part::Rules(rules) => write!(f, "{rules}"),
            Part::Number(number) => write!(f, "{number}"),
            Part::Count(count) => write!(f, "{count}"),
            Part::Text(text) => f.write_str(text),
            Part::Meant(word) => write_meant(f, word),
            Part::Op(op) => f.write_str(op.name()),
            Part::Ops => write_ops(f),
            Part::Beginnings(op, key) => write_beginnings(f, op, key),
            Part::Step(number, name) => write!(f, "{}", Numbered { number, name }),
            Part::An(op) => write_an(f, op),
            Part::Maker(comm) => write_maker(f, comm),
            Part::Broken(error, rest) => write_broken(f, error, rest),
        }
    }
}

/// Writes a word that is like the one that stands there, if there is one.
fn write_meant<W: fmt::Write>(f: &mut fmt::Formatter<W>, word: Option<&str>) -> fmt::Result {
    match word {
        Some(word) => write!(f, "; did you mean '{word}'?"),
        None => f.write_str(";"),
    }
}

/// Writes the ops, parted by commas.
fn write_ops<W: fmt::Write>(f: &mut fmt::Formatter<W>) -> fmt::Result {
    let mut mark = "";
    for op in OPS {
        write!(f, "{mark}{}", op.name())?;
        mark = ", ";
    }
    Ok(())
}

/// Writes those of these words with which answers of an op come, parted by commas, the first behind this.
fn write_listed<W: fmt::Write>(
    f: &mut fmt::Formatter<W>,
    op: Op,
    first: &str,
    words: &[&'static str],
) -> fmt::Result {
    let mut mark = first;
    for word in words {
        if comes(op, *word) {
            write!(f, "{mark}{word}")?;
            mark = ", ";
        }
    }
    Ok(())
}

/// Writes how an answer of a step with this op may begin, for which words at this key ask.
fn write_beginnings<W: fmt::Write>(f: &mut fmt::Formatter<W>, op: Op, key: Key) -> fmt::Result {
    let mut mark = "";
    for words in beginnings(op, key) {
        write_listed(f, op, mark, words)?;
        if !words.is_empty() {
            mark = ", ";
        }
    }
    Ok(())
}

/// Writes an op behind its article.
fn write_an<W: fmt::Write>(f: &mut fmt::Formatter<W>, op: Op) -> fmt::Result {
    let has_vowel = matches!(op, Op::Ack | Op::Agree | Op::Mrecv);
    let article = if has_vowel { "an" } else { "a" };
    write!(f, "{article} {}", op.name())
}

/// Writes the op that makes a communicator, and from which.
fn write_maker<W: fmt::Write>(f: &mut fmt::Formatter<W>, comm: i64) -> fmt::Result {
    let parent = comm.saturating_sub(1) / 2;
    let op = if comm % 2 == 1 { Op::Dup } else { Op::Shrink };
    write!(f, "a {} of {parent}", op.name())
}

/// Writes why a text is no TOML, and what stands there, if there is anything.
fn write_broken<W: fmt::Write>(
    f: &mut fmt::Formatter<W>,
    error: &Error,
    rest: &Shown,
) -> fmt::Result {
    let why = error.message();
    write!(f, "this is no TOML: {why}")?;
    if !rest.is_empty() {
        write!(f, ", at '{rest}'")?;
    }
    if why == "duplicate key" && rest.is_of_step() {
        f.write_str(" (each step begins with a [[step]] of its own)")?;
    }
    Ok(())
}
