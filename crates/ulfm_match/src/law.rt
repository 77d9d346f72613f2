//! Laws of lawful pairings, each stated by the contract of a function that does nothing.
ghost use Rattle.std.specs.Prelude.{◌≡◌, ◌↔◌, ◌++◌, ℕ, Bool, Option, length, []};
ghost use Rattle.ulfm_base.specs.declared.envelope.Letter.{Letter};
ghost use Rattle.ulfm_base.specs.declared.pattern.Pattern.{Pattern};
ghost use Rattle.ulfm_match.specs.Calls.{TracksPost, TracksProbe, TracksArrival};
ghost use Rattle.ulfm_match.specs.History.{History};
ghost use Rattle.ulfm_match.specs.Pairing.{Pairing, Pairs, LawfulPairing, pairs_below};
ghost use Rattle.ulfm_match.specs.State.{Matching, Tracks};

/// The empty history has the empty pairing, of which nothing remains; no context was cleared.
pub fn nothing_remains_at_first()
    ensures { (prepared : Bool) → Tracks [] [] (record { waiting = []; kept = []; count = 0; cleared = []; prepared = prepared }) }
{}

/// A history has one lawful pairing at most, whatever ends and is cleared in it: two have the same pairs.
pub fn one_lawful_pairing()
    ensures { (history : History) (r s : Pairing) → LawfulPairing history r → LawfulPairing history s →
        (i b : ℕ) → Pairs r i b ↔ Pairs s i b }
{}

/// A lawful pairing, cut to a beginning of its history, is lawful there.
pub fn beginnings_are_lawful()
    ensures { (front back : History) (pairing : Pairing) → LawfulPairing (front ++ back) pairing →
        LawfulPairing front (pairs_below (length front) pairing) }
{}

/// What a post answers is determined: its contract allows no two answers of a state that tracks some history.
pub fn one_answer_to_a_post()
    ensures { (history : History) (pairing : Pairing) (pattern : Pattern) (old new other : Matching) (answer another : Option Letter) →
        Tracks history pairing old →
        TracksPost pattern old answer new → TracksPost pattern old another other → answer ≡ another }
{}

/// So is what a probe answers.
pub fn one_answer_to_a_probe()
    ensures { (history : History) (pairing : Pairing) (pattern : Pattern) (old new other : Matching) (answer another : Option Letter) →
        Tracks history pairing old →
        TracksProbe pattern old answer new → TracksProbe pattern old another other → answer ≡ another }
{}

/// So is which receive an arriving letter goes to, if any.
pub fn one_answer_to_an_arrival()
    ensures { (history : History) (pairing : Pairing) (letter : Letter) (old new other : Matching) (answer another : Option ℕ) →
        Tracks history pairing old →
        TracksArrival letter old answer new → TracksArrival letter old another other → answer ≡ another }
{}
