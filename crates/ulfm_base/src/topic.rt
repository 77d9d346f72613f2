//! What ranks decide about (ULFM, shrink and agree).
//!
//! Shrinks and agreements have one machinery: a topic is a context and a purpose, and entry, proposal, decision and adoption go by topics.
ghost use Rattle.std.specs.Prelude.{◌≡◌};

use crate::context::Context;

/// What a decision is for.
#[derive(Clone, Copy, Debug, PartialEq, Eq)]
pub enum Purpose {
    /// The communicator of the survivors (ULFM, shrink), by the shrink of this number of its communicator, from 0.
    Shrink { round: u64 },
    /// One value for all members (ULFM, agree), in the agreement of this number on its communicator, from 0.
    Agree { round: u64 },
}

impl Purpose {
    ghost use Rattle.ulfm_base.specs.Topic.{is_agreement, is_of_kind, round_of};

    /// Whether it is an agreement.
    pub fn is_agreement(self) -> bool
        ensures { result ≡ is_agreement self }
    {
        match self {
            Purpose::Shrink { .. } => false,
            Purpose::Agree { .. } => true,
        }
    }

    /// Whether it is an agreement, or else a shrink.
    pub fn is_of_kind(self, agrees: bool) -> bool
        ensures { result ≡ is_of_kind agrees self }
    {
        if agrees {
            return self.is_agreement();
        }
        !self.is_agreement()
    }

    /// Its number among the shrinks, or among the agreements, of its communicator.
    pub fn round(self) -> u64
        ensures { result ≡ round_of self }
    {
        match self {
            Purpose::Shrink { round } => round,
            Purpose::Agree { round } => round,
        }
    }
}

/// What one decision is about: one of the shrinks of a communicator, or one of its agreements.
#[derive(Clone, Copy, Debug, PartialEq, Eq)]
pub struct Topic {
    /// The communicator.
    pub context: Context,
    /// Whether it is shrunk or agreed on.
    pub purpose: Purpose,
}

impl Topic {
    ghost use Rattle.ulfm_base.specs.Topic.{is_topic, topic_on};

    /// The round of this number on a communicator: an agreement, or else a shrink.
    pub fn round_on(agrees: bool, context: Context, round: u64) -> Topic
        ensures { result ≡ topic_on agrees context round }
    {
        let purpose = if agrees {
            Purpose::Agree { round }
        } else {
            Purpose::Shrink { round }
        };
        Topic { context, purpose }
    }

    /// Whether the other topic is the same.
    pub fn is_same(self, other: Topic) -> bool
        ensures { result ≡ is_topic self other }
    {
        self == other
    }
}
