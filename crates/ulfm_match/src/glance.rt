//! What tells of most envelopes at once that a pattern doesn't admit them.
ghost use Rattle.std.specs.Prelude.{◌≡◌, ◌<◌, ◌↔◌, IsTrue};
ghost use Rattle.ulfm_base.specs.declared.context.TheConstants.{PAST_CONTEXTS};
ghost use Rattle.ulfm_match.specs.inside.Glance.{word_of, Suits};

use ulfm_base::Envelope;

/// What is looked for in an envelope.
#[derive(Clone, Copy)]
pub(crate) enum Glance {
    /// A context, a source and a tag, in one word.
    Named(u64),
    /// The source of this number.
    From(u8),
    /// The tag of this number.
    Tagged(u16),
}

/// A context, a source and a tag in one word.
pub(crate) fn word(context: u64, source: u8, tag: u16) -> u64
    requires { context < PAST_CONTEXTS }
    ensures { result ≡ word_of context source tag }
{
    context * 262144 + u64::from(source) * 32768 + u64::from(tag)
}

impl Glance {
    /// Whether the envelope has what is looked for.
    #[inline(always)]
    pub(crate) fn suits(self, envelope: &Envelope) -> bool
        ensures { IsTrue result ↔ Suits self envelope.now }
    {
        match self {
            Glance::Named(named) => {
                named
                    == word(
                        envelope.context.number,
                        envelope.source.number,
                        envelope.tag.number,
                    )
            }
            Glance::From(number) => envelope.source.number == number,
            Glance::Tagged(number) => envelope.tag.number == number,
        }
    }
}
