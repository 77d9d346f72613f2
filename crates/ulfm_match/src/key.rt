//! What the entries of a bucket have in common: a context, one source or any, one tag or any. Each such has one number.
ghost use Rattle.std.specs.Prelude.{◌≡◌, ◌<◌, false};
ghost use Rattle.ulfm_base.specs.declared.context.TheConstants.{PAST_CONTEXTS};
ghost use Rattle.ulfm_match.specs.inside.Key.{key_number, key_of, key_from, key_at, IsWild};

use ulfm_base::{Envelope, MOST_RANKS, Pattern, Source, WorldRank};

/// What stands for any source in a key: no rank has this number.
const ANY_SOURCE: u8 = MOST_RANKS;

/// What stands for any tag in a key: no tag has this number.
const ANY_TAG: u16 = 32768;

fn key(context: u64, source: u8, tag: u16) -> u64
    requires { context < PAST_CONTEXTS }
    ensures { result ≡ key_number context source tag }
{
    (context * 9 + u64::from(source)) * 32769 + u64::from(tag)
}

/// The key of a receive. Those from any source have one key, whatever the sources are.
pub(crate) fn key_of(pattern: &Pattern) -> u64
    ensures { result ≡ key_of pattern.now }
{
    let source = match pattern.source {
        Source::One(rank) => rank.number,
        Source::Any(_) => ANY_SOURCE,
    };
    let tag = match pattern.tag {
        Some(tag) => tag.number,
        None => ANY_TAG,
    };
    key(pattern.context.number, source, tag)
}

/// Whether a receive leaves its source or its tag open.
pub(crate) fn is_wild(pattern: &Pattern) -> bool
    ensures { result ≡ false → IsWild (key_of pattern.now) → ⊥ }
{
    match (pattern.source, pattern.tag) {
        (Source::One(_), Some(_)) => false,
        _ => true,
    }
}

/// The key of the letters from a source that a receive may get.
pub(crate) fn key_from(source: WorldRank, pattern: &Pattern) -> u64
    ensures { result ≡ key_from source.number pattern.now }
{
    let tag = match pattern.tag {
        Some(tag) => tag.number,
        None => ANY_TAG,
    };
    key(pattern.context.number, source.number, tag)
}

/// The key of the receives that name the source of a letter or any, and its tag or any.
pub(crate) fn key_at(envelope: &Envelope, any_source: bool, any_tag: bool) -> u64
    ensures { result ≡ key_at any_source any_tag envelope.now }
{
    let source = if any_source {
        ANY_SOURCE
    } else {
        envelope.source.number
    };
    let tag = if any_tag {
        ANY_TAG
    } else {
        envelope.tag.number
    };
    key(envelope.context.number, source, tag)
}
