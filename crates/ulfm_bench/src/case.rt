//! Letters and receives in which the matcher has to look far: the first receive asks for what came last.

use ulfm_base::{Context, Envelope, Pattern, RankSet, Source, Tag, WorldRank};

/// In what the letters of a case differ, and what its receives leave open.
#[derive(Clone, Copy)]
pub enum Keys {
    /// Each letter has a tag of its own.
    Tags,
    /// All have one tag. An eighth of them comes from each source, one source after the other.
    Sources,
    /// Each has a tag of its own, and they come as those of `Sources`. The receives name the source alone.
    AnyTag,
    /// Each has a tag of its own, and the sources take turns. The receives name the tag alone.
    AnySource,
}

/// A case: its letters, and whether they come before the receives, and are kept, or after them.
#[derive(Clone, Copy)]
pub struct Case {
    pub keys: Keys,
    pub kept: bool,
    /// How many letters there are.
    pub count: u16,
}

impl Case {
    /// What the case is called.
    pub fn name(&self) -> &'static str {
        match (self.keys, self.kept) {
            (Keys::Tags, true) => "distinct tags, kept",
            (Keys::Sources, true) => "eight sources, kept",
            (Keys::AnyTag, true) => "any tag, kept",
            (Keys::AnySource, true) => "any source, kept",
            (Keys::Tags, false) => "distinct tags, posted",
            (Keys::Sources, false) => "eight sources, posted",
            (Keys::AnyTag, false) => "any tag, posted",
            (Keys::AnySource, false) => "any source, posted",
        }
    }

    /// The envelope of a letter, by its place among them.
    pub fn envelope(&self, place: u16) -> Envelope {
        Envelope {
            context: Context::WORLD,
            source: match self.keys {
                Keys::Tags => rank(0),
                Keys::Sources | Keys::AnyTag => self.block(place),
                Keys::AnySource => rank(place),
            },
            tag: match self.keys {
                Keys::Sources => tag(0),
                _ => tag(place),
            },
        }
    }

    /// What the receive asks for that gets one of the letters of this place's source or tag.
    pub fn pattern(&self, place: u16) -> Pattern {
        let envelope = self.envelope(place);
        Pattern {
            context: envelope.context,
            source: match self.keys {
                Keys::AnySource => any(),
                _ => Source::One(envelope.source),
            },
            tag: match self.keys {
                Keys::AnyTag => None,
                _ => Some(envelope.tag),
            },
            room: 1024,
        }
    }

    /// The rank from which this place's eighth of the letters comes.
    fn block(&self, place: u16) -> WorldRank {
        let eighth = (self.count / 8).max(1);
        rank((place / eighth).min(7))
    }
}

/// The rank of a number, counted round and round the eight ranks.
fn rank(number: u16) -> WorldRank {
    WorldRank {
        number: (number % 8) as u8,
    }
}

/// The tag of a number, counted round and round all tags.
fn tag(number: u16) -> Tag {
    Tag {
        number: number % 32768,
    }
}

/// Any of the eight ranks.
fn any() -> Source {
    let mut members = RankSet::new();
    for number in 0..8 {
        members.insert(rank(number));
    }
    Source::Any(members)
}
