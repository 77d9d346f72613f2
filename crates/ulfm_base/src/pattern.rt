//! What receives ask for (MPI 4.0, 3.2.4).
ghost use Rattle.std.specs.Prelude.{◌≡◌, ◌↔◌, IsTrue};

use crate::context::Context;
use crate::envelope::Envelope;
use crate::rank::WorldRank;
use crate::rank_set::RankSet;
use crate::tag::Tag;

/// The sources whose letters a receive takes: one, or any member of a communicator's group.
#[derive(Clone, Copy, Debug, PartialEq, Eq)]
pub enum Source {
    /// This rank alone.
    One(WorldRank),
    /// Any of these ranks, which are the members of a group.
    Any(RankSet),
}

/// What a receive asks for: a context, one source or any, one tag or any, and its room in bytes.
#[derive(Clone, Copy, Debug, PartialEq, Eq)]
pub struct Pattern {
    /// The communicator, which is never left open.
    pub context: Context,
    /// Whose letters are taken.
    pub source: Source,
    /// The tag, or any.
    pub tag: Option<Tag>,
    /// How many bytes there is room for. It plays no part in matching.
    pub room: u16,
}

impl Source {
    ghost use Rattle.ulfm_base.specs.Pattern.{AdmitsSource, names, is_any};

    /// Whether a rank is one of these sources.
    pub fn admits(&self, source: WorldRank) -> bool
        ensures { IsTrue result ↔ AdmitsSource self.now source }
    {
        match *self {
            Source::One(rank) => source == rank,
            Source::Any(members) => members.contains(source),
        }
    }

    /// Whether this is a rank by name. A source that is left open names none.
    pub fn names(&self, rank: WorldRank) -> bool
        ensures { result ≡ names self.now rank.number }
    {
        match *self {
            Source::One(named) => named.number == rank.number,
            Source::Any(_) => false,
        }
    }

    /// Whether any member of the group is a source.
    pub fn is_any(&self) -> bool
        ensures { result ≡ is_any self.now }
    {
        matches!(self, Source::Any(_))
    }
}

impl Pattern {
    ghost use Rattle.ulfm_base.specs.Pattern.{Admits, AdmitsTag};

    fn admits_tag(&self, tag: Tag) -> bool
        ensures { IsTrue result ↔ AdmitsTag self.now.tag tag }
    {
        match self.tag {
            None => true,
            Some(named) => tag == named,
        }
    }

    /// Whether a receive that asks for this may be paired with a letter of this envelope. The room plays no part.
    pub fn admits(&self, envelope: &Envelope) -> bool
        ensures { IsTrue result ↔ Admits self.now envelope.now }
    {
        if envelope.context != self.context {
            return false;
        }
        if !self.source.admits(envelope.source) {
            return false;
        }
        self.admits_tag(envelope.tag)
    }
}
