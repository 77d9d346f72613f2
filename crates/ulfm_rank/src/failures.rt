//! What a rank's knowledge of failures and revocations says of sources, receives and items.
ghost use Rattle.std.specs.Prelude.{◌≡◌, List, [], ◌∷◌, ◌++◌, IsTrue};
ghost use Rattle.ulfm_log.specs.declared.entry.Entry.{Entry};
ghost use Rattle.ulfm_rank.specs.inside.Fields.{HasFaults, names_known, pends_by, was_revoked_in};

use ulfm_base::{Group, Item, Pattern, Source, WorldRank};
use ulfm_fault::Faults;

/// Whether a source names a rank that is known to have failed.
pub(crate) fn names_known(faults: &Faults, source: Source) -> bool
    ensures { result ≡ names_known faults.now source }
{
    match source {
        Source::One(rank) => faults.is_known(rank),
        Source::Any(_) => false,
    }
}

/// Whether an unpaired receive pends, on a communicator of this group.
pub(crate) fn pends(faults: &Faults, group: &Group, pattern: &Pattern) -> bool
    ensures { result ≡ pends_by faults.now group.now pattern.now }
{
    pattern.source.is_any()
        && !faults.is_revoked(pattern.context)
        && faults.has_unacked(pattern.context, group)
}

/// Whether an item is a letter on a revoked context or the notice of a context that was revoked before.
pub(crate) fn was_revoked(faults: &Faults, item: &Item) -> bool
    ensures { result ≡ was_revoked_in faults.now item.now }
{
    match item {
        Item::Letter(letter) => faults.is_revoked(letter.envelope.context),
        Item::Revoke(context) => faults.is_revoked(*context),
        _ => false,
    }
}

/// Takes in what an item tells of failures and revocations. The room for one revocation may be used up.
pub(crate) fn learn(faults: &mut Faults, source: WorldRank, item: &Item)
    requires { IsTrue faults.old.room }
    ensures { (log : List Entry) → HasFaults log faults.old → HasFaults (log ++ Entry.Took source item.now ∷ []) faults.new }
{
    match item {
        Item::Gone => faults.learn(source),
        Item::Revoke(context) => {
            let _ = faults.revoke(*context);
        }
        _ => {}
    }
}
