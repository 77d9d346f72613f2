//! What leaves by a clear or by the failure of a source.
ghost use Rattle.std.specs.Prelude.{◌≡◌, ◌==◌, ℕ, filter, not, nat_eq};
ghost use Rattle.indexmap.specs.IndexMap.{IsUnique};
ghost use Rattle.ulfm_base.specs.Pattern.{names};
ghost use Rattle.ulfm_match.specs.inside.Key.{IsKeyOf, IsKeyOfReceive};
ghost use Rattle.ulfm_match.specs.inside.Pools.{all_of, HasPlace, IsPool};

use crate::buckets::forget_gone;
use crate::pool::{Numbered, Pool};
use crate::recent::{drop_letters, drop_named, drop_receives};
use ulfm_base::{Context, Letter, Pattern, WorldRank};

/// Drops the early receives of a context.
fn clear_waiting(waiting: &mut Numbered<Pattern>, context: Context)
    ensures left { waiting.new.entries ≡ filter (λ (y : ℕ × Pattern). not (y.1.context.number == context.number)) waiting.old.entries }
    ensures unique { IsUnique nat_eq waiting.new }
{
    waiting.retain(
        |_number: &u64, pattern: &mut Pattern| -> bool
            ensures { (result ≡ not (pattern.old.context.number == context.number)) × (pattern.new ≡ pattern.old) }
        { pattern.context.number != context.number },
    );
}

/// Drops the early letters of a context.
fn clear_kept(kept: &mut Numbered<Letter>, context: Context)
    ensures left { kept.new.entries ≡ filter (λ (y : ℕ × Letter). not (y.1.envelope.context.number == context.number)) kept.old.entries }
    ensures unique { IsUnique nat_eq kept.new }
{
    kept.retain(
        |_number: &u64, letter: &mut Letter| -> bool
            ensures { (result ≡ not (letter.old.envelope.context.number == context.number)) × (letter.new ≡ letter.old) }
        { letter.envelope.context.number != context.number },
    );
}

/// Drops the early receives that name a rank as their source.
fn end_waiting(waiting: &mut Numbered<Pattern>, rank: WorldRank)
    ensures left { waiting.new.entries ≡ filter (λ (y : ℕ × Pattern). not (names y.1.source rank.number)) waiting.old.entries }
    ensures unique { IsUnique nat_eq waiting.new }
{
    waiting.retain(
        |_number: &u64, pattern: &mut Pattern| -> bool
            ensures { (result ≡ not (names pattern.old.source rank.number)) × (pattern.new ≡ pattern.old) }
        { !pattern.source.names(rank) },
    );
}

/// Drops the receives of a context.
pub(crate) fn clear_receives(pool: &mut Pool<Pattern>, context: Context)
    requires { (count : ℕ) × IsPool IsKeyOfReceive count pool.old }
    ensures left { all_of pool.new ≡ filter (λ (y : ℕ × Pattern). not (y.1.context.number == context.number)) (all_of pool.old) }
    ensures pool { (count : ℕ) → IsPool IsKeyOfReceive count pool.old → IsPool IsKeyOfReceive count pool.new }
    ensures place { HasPlace pool.old → HasPlace pool.new }
{
    clear_waiting(&mut pool.early, context);
    forget_gone(&mut pool.buckets, &pool.early);
    drop_receives(&mut pool.recent, context);
}

/// Drops the letters of a context.
pub(crate) fn clear_letters(pool: &mut Pool<Letter>, context: Context)
    requires { (count : ℕ) × IsPool IsKeyOf count pool.old }
    ensures left { all_of pool.new ≡ filter (λ (y : ℕ × Letter). not (y.1.envelope.context.number == context.number)) (all_of pool.old) }
    ensures pool { (count : ℕ) → IsPool IsKeyOf count pool.old → IsPool IsKeyOf count pool.new }
    ensures place { HasPlace pool.old → HasPlace pool.new }
{
    clear_kept(&mut pool.early, context);
    forget_gone(&mut pool.buckets, &pool.early);
    drop_letters(&mut pool.recent, context);
}

/// Drops the receives that name a rank as their source.
pub(crate) fn end_receives(pool: &mut Pool<Pattern>, rank: WorldRank)
    requires { (count : ℕ) × IsPool IsKeyOfReceive count pool.old }
    ensures left { all_of pool.new ≡ filter (λ (y : ℕ × Pattern). not (names y.1.source rank.number)) (all_of pool.old) }
    ensures pool { (count : ℕ) → IsPool IsKeyOfReceive count pool.old → IsPool IsKeyOfReceive count pool.new }
    ensures place { HasPlace pool.old → HasPlace pool.new }
{
    end_waiting(&mut pool.early, rank);
    forget_gone(&mut pool.buckets, &pool.early);
    drop_named(&mut pool.recent, rank);
}
