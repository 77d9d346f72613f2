//! What a list comes to, in a word or two: the first ones of the line on standard error. Which step or row it is, and where, stands in the other
//! objects already.
ghost use Rattle.std.specs.Prelude.{◌≡◌};
ghost use Rattle.ulfm_outcomes_list.specs.Judgement.{good_judgement, judgement_words, unmet_judgement};

use crate::unmet::Unmet;

/// What a list comes to.
#[derive(Clone, Copy, Debug, PartialEq, Eq)]
pub enum Judgement {
    /// A step never ends in some schedule.
    Hangs,
    /// A step has an answer that it doesn't expect.
    NotAsExpected,
    /// All answers of a row of `never` come.
    ComeTogether,
    /// Whether those of a row of `never` come isn't known, past the limit.
    NotKnown,
    /// Each step ends, and each answer is as the job asks.
    AsExpected,
    /// Each step ends.
    EveryStepEnds,
}

impl Judgement {
    /// What a list comes to below which nothing stands, where some step never ends or none does, and its job asks for something or for nothing.
    pub fn good(is_open: bool, asks: bool) -> Judgement
        ensures { result ≡ good_judgement is_open asks }
    {
        match (is_open, asks) {
            (true, _) => Judgement::Hangs,
            (false, true) => Judgement::AsExpected,
            (false, false) => Judgement::EveryStepEnds,
        }
    }

    /// What a list comes to with a step that isn't as it expects.
    pub fn unmet(unmet: Unmet) -> Judgement
        ensures { result ≡ unmet_judgement unmet }
    {
        if unmet.is_open {
            Judgement::Hangs
        } else {
            Judgement::NotAsExpected
        }
    }

    /// Its words.
    pub fn words(self) -> &'static str
        ensures { result.now ≡ judgement_words self }
    {
        match self {
            Judgement::Hangs => "hangs",
            Judgement::NotAsExpected => "not as expected",
            Judgement::ComeTogether => "come together",
            Judgement::NotKnown => "not known",
            Judgement::AsExpected => "as expected",
            Judgement::EveryStepEnds => "every step ends",
        }
    }
}
