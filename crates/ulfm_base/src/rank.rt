//! Ranks of the world.
ghost use Rattle.std.specs.Prelude.{◌<◌};
ghost use Rattle.ulfm_base.specs.declared.rank.TheConstants.{MOST_RANKS};

/// The most ranks of a world.
pub const MOST_RANKS: u8 = 8;

/// The places of what has one for each rank.
pub const RANK_PLACES: usize = MOST_RANKS as usize;

/// A rank of the world's communicator, 0 to 7.
#[derive(Clone, Copy, Debug, PartialEq, Eq)]
pub struct WorldRank {
    /// 0 to 7.
    pub number: u8,
    pub ghost in_range: { number < MOST_RANKS },
}
