//! The decisions of shrinks and agreements (ULFM, shrink and agree).
ghost use Rattle.std.specs.Prelude.{◌≡◌, ℕ, ◌↔◌, IsTrue, length};
ghost use Rattle.ulfm_base.specs.Decision.{IsLawfulDecision, IsLawfulDecision-prop, is_listed, left_out};
ghost use Rattle.ulfm_base.specs.RankSet.{has};
ghost use Rattle.ulfm_base.specs.declared.rank.TheConstants.{RANK_PLACES};

use crate::contribution::Contribution;
use crate::error::OutOfMemory;
use crate::group::Group;
use crate::rank::{MOST_RANKS, RANK_PLACES, WorldRank};
use crate::rank_set::RankSet;
use crate::topic::Topic;

/// By its number, what each rank brought that is listed.
pub type Listing = [Option<Contribution>; RANK_PLACES];

/// What was decided: about which shrink or agreement, the group of its communicator, what each listed rank brought at
/// its entry, the excluded members, the group without them, and the value of an agreement.
#[derive(Drop)]
pub struct Decision {
    /// What it is about.
    pub topic: Topic,
    /// The group of the communicator.
    pub old: Group,
    /// By its number, what each rank brought that is listed.
    pub entries: Listing,
    /// The members that failed.
    pub excluded: RankSet,
    /// The other members: the new group, where the communicator is shrunk.
    pub fresh: Group,
    /// The AND of the listed flags, in an agreement.
    pub value: Option<u32>,
    pub ghost sized: { length entries ≡ RANK_PLACES },
    pub ghost lawful: { IsLawfulDecision topic old entries excluded fresh value } by { IsLawfulDecision-prop topic old entries excluded fresh value },
}

impl Clone for Decision {
    ghost is_clone = { λ x y. y ≡ x };

    fn clone(&self) -> Result<Decision, OutOfMemory> {
        Ok(self.copied())
    }
}

impl Decision {
    /// The same decision. It can't run out of memory.
    pub fn copied(&self) -> Decision
        ensures { result ≡ self.now }
    {
        Decision {
            topic: self.topic,
            old: self.old.copied(),
            entries: self.entries,
            excluded: self.excluded,
            fresh: self.fresh.copied(),
            value: self.value,
        }
    }

    /// Whether the other decision is the same in all its parts.
    pub fn is_same(&self, other: &Decision) -> bool
        ensures { IsTrue result ↔ (self.now ≡ other.now) }
    {
        if self.topic != other.topic {
            return false;
        }
        if !self.old.is_same(&other.old) {
            return false;
        }
        if !is_same_listing(&self.entries, &other.entries) {
            return false;
        }
        if !self.excluded.is_same(other.excluded) {
            return false;
        }
        if !self.fresh.is_same(&other.fresh) {
            return false;
        }
        self.value == other.value
    }

    /// The members of the old group that aren't listed, in order (ULFM, `MPI_Comm_agree`). It can't run out of memory.
    pub fn left_out(&self) -> Group
        ensures { result ≡ left_out self.now.old self.now.entries }
    {
        self.old.excluding(listed(&self.entries))
    }
}

/// The ranks that are listed.
fn listed(entries: &Listing) -> RankSet
    ensures { (r : ℕ) → has result r ≡ is_listed entries.now r }
{
    let mut ranks = RankSet::new();
    for number in 0..MOST_RANKS {
        if entries[number as usize].is_some() {
            ranks.insert(WorldRank { number });
        }
    }
    ranks
}

/// Whether the same ranks are listed with the same contributions.
fn is_same_listing(entries: &Listing, other: &Listing) -> bool
    ensures { IsTrue result ↔ (entries.now ≡ other.now) }
{
    entries == other
}
