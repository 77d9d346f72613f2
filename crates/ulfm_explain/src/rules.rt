//! The keys that the tables of a job may have (docs/JOBS.md).

use crate::kind::Kind;
use std::fmt;
use ulfm_job::Op;
use ulfm_job::limits::{
    LAST_COMM, LAST_FLAG, LAST_RANK, LAST_STEP, LAST_TAG, MOST_CAPACITY, MOST_RANKS, MOST_ROOM,
    MOST_TURNS,
};

/// A key of a job or of a step.
#[derive(Clone, Copy, PartialEq, Eq)]
pub enum Key {
    Ranks,
    Capacity,
    Turns,
    Step,
    Never,
    Op,
    Rank,
    To,
    From,
    Tag,
    /// The tag of a receive or a probe.
    TagOrAny,
    Body,
    Room,
    Req,
    Count,
    Flag,
    Comm,
    /// Whether a further communicator is made.
    Again,
    /// The text of a note.
    Text,
    Name,
    If,
    Expect,
    /// The name before whose steps every stop has to lie.
    Before,
    /// The texts of a row of `never` that has a `before`.
    Row,
    /// The step that a condition names.
    Earlier,
    Is,
    Not,
    All,
}

impl Key {
    /// How it is written.
    pub fn name(self) -> &'static str {
        match self {
            Key::Ranks => "ranks",
            Key::Capacity => "capacity",
            Key::Turns => "turns",
            Key::Step | Key::Earlier => "step",
            Key::Never => "never",
            Key::Op => "op",
            Key::Rank => "rank",
            Key::To => "to",
            Key::From => "from",
            Key::Tag | Key::TagOrAny => "tag",
            Key::Body => "body",
            Key::Room => "room",
            Key::Req => "req",
            Key::Count => "count",
            Key::Flag => "flag",
            Key::Comm => "comm",
            Key::Again => "again",
            Key::Text => "text",
            Key::Name => "name",
            Key::If => "if",
            Key::Expect => "expect",
            Key::Before => "before",
            Key::Row => "row",
            Key::Is => "is",
            Key::Not => "not",
            Key::All => "all",
        }
    }

    /// What stands at it, in a job of so many ranks.
    pub fn kind(self, ranks: u8) -> Kind {
        match self {
            Key::Ranks => Kind::Integer(1, i64::from(MOST_RANKS)),
            Key::Capacity => Kind::Integer(1, i64::from(MOST_CAPACITY)),
            Key::Turns => Kind::Integer(1, i64::from(MOST_TURNS)),
            Key::Step => Kind::Tables,
            Key::Never => Kind::Rows,
            Key::Op | Key::Body => Kind::Text,
            Key::Rank => Kind::Ranks(0, i64::from(ranks.saturating_sub(1))),
            Key::To => Kind::Peer(0, i64::from(LAST_RANK)),
            Key::From => Kind::PeerOrAny(0, i64::from(LAST_RANK)),
            Key::Tag => Kind::Integer(0, i64::from(LAST_TAG)),
            Key::TagOrAny => Kind::OrAny(0, i64::from(LAST_TAG)),
            Key::Room => Kind::Integer(0, i64::from(MOST_ROOM)),
            Key::Req | Key::Earlier => Kind::Reference(0, i64::from(LAST_STEP)),
            Key::Count => Kind::Integer(0, i64::from(MOST_RANKS)),
            Key::Flag => Kind::Integer(0, i64::from(LAST_FLAG)),
            Key::Comm => Kind::Comm(0, i64::from(LAST_COMM)),
            Key::Again => Kind::Truth,
            Key::Text => Kind::Label,
            Key::Name => Kind::Name,
            Key::If => Kind::Conditions,
            Key::All => Kind::Together,
            Key::Expect => Kind::Expected,
            Key::Before => Kind::Called,
            Key::Row => Kind::Texts,
            Key::Is | Key::Not => Kind::Words,
        }
    }

    /// Whether a step of an op may have it. A send has to have its tag, and each other step that has one may leave it out.
    fn is_of(self, op: Op) -> bool {
        let is_meant = match self {
            Key::Tag => op == Op::Send,
            Key::TagOrAny => op != Op::Send,
            _ => true,
        };
        is_meant && op.keys().iter().any(|name| *name == self.name())
    }
}

/// The keys of a table.
#[derive(Clone, Copy)]
pub struct Rules {
    /// Whose keys these are.
    pub owner: &'static str,
    pub required: &'static [Key],
    pub optional: &'static [Key],
    /// Keys that each step may have, and which are looked at last.
    pub asking: &'static [Key],
    /// The op of a step, if it is known. Of all these keys the table has those of this op.
    pub op: Option<Op>,
}

/// The keys that each step may have, and which are looked at last.
pub const ASKING: &[Key] = &[Key::Name, Key::If, Key::Expect];

/// The keys of a job.
pub fn job_rules() -> Rules {
    Rules {
        owner: "a job",
        required: &[Key::Ranks, Key::Capacity, Key::Turns],
        optional: &[Key::Step, Key::Never],
        asking: &[],
        op: None,
    }
}

/// The keys of one condition, by whether it has an `is` and a `not`.
pub fn condition_rules(has_is: bool, has_not: bool) -> Rules {
    Rules {
        owner: if has_is && has_not {
            "an if with 'is'"
        } else {
            "an if"
        },
        required: if has_not && !has_is {
            &[Key::Earlier, Key::Not]
        } else {
            &[Key::Earlier, Key::Is]
        },
        optional: &[],
        asking: &[],
        op: None,
    }
}

/// The keys of conditions that have to hold together.
pub fn all_rules() -> Rules {
    Rules {
        owner: "an if with 'all'",
        required: &[Key::All],
        optional: &[],
        asking: &[],
        op: None,
    }
}

/// The keys of what a step expects only before the steps of a name.
pub fn expect_rules() -> Rules {
    Rules {
        owner: "an expect with 'before'",
        required: &[Key::Is, Key::Before],
        optional: &[],
        asking: &[],
        op: None,
    }
}

/// The keys of a row of `never` that holds only before the steps of a name.
pub fn row_rules() -> Rules {
    Rules {
        owner: "a row with 'before'",
        required: &[Key::Row, Key::Before],
        optional: &[],
        asking: &[],
        op: None,
    }
}

/// The keys of a step whose op isn't known: those of all ops.
pub fn any_step_rules() -> Rules {
    Rules {
        owner: "a step",
        required: &[Key::Op, Key::Rank],
        optional: &[
            Key::To,
            Key::From,
            Key::Tag,
            Key::Body,
            Key::Room,
            Key::Req,
            Key::Count,
            Key::Flag,
            Key::Comm,
            Key::Again,
            Key::Text,
        ],
        asking: ASKING,
        op: None,
    }
}

/// The keys of a step of an op, which are its own: their owner is its name.
pub fn step_rules(op: Op) -> Rules {
    Rules {
        owner: op.name(),
        required: &[
            Key::Op,
            Key::Rank,
            Key::To,
            Key::Tag,
            Key::Body,
            Key::Req,
            Key::Count,
            Key::Flag,
            Key::Text,
        ],
        optional: &[Key::From, Key::TagOrAny, Key::Room, Key::Comm, Key::Again],
        asking: ASKING,
        op: Some(op),
    }
}

impl Rules {
    /// Whether the table has this key of its lists.
    pub fn has(&self, key: Key) -> bool {
        match self.op {
            Some(op) => key.is_of(op),
            None => true,
        }
    }

    /// The key that is written like this, if the table has it.
    pub fn find(&self, name: &str) -> Option<Key> {
        let own = self.required.iter().chain(self.optional.iter());
        for key in own.chain(self.asking.iter()) {
            if key.name() == name && self.has(*key) {
                return Some(*key);
            }
        }
        None
    }
}

impl fmt::Display for Key {
    fn fmt<W: fmt::Write>(&self, f: &mut fmt::Formatter<W>) -> fmt::Result {
        f.write_str(self.name())
    }
}

/// Whose keys these are, and which.
impl fmt::Display for Rules {
    fn fmt<W: fmt::Write>(&self, f: &mut fmt::Formatter<W>) -> fmt::Result {
        write!(f, "{} has", self.owner)?;
        let mut is_first = true;
        let own = self.required.iter().chain(self.optional.iter());
        for key in own.chain(self.asking.iter()) {
            if self.has(*key) {
                if !is_first {
                    f.write_str(",")?;
                }
                write!(f, " {key}")?;
                is_first = false;
            }
        }
        Ok(())
    }
}
