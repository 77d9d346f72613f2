//! Colours and forms.

use crate::kind::Kind;

/// The colour of texts and marks.
pub(crate) const DARK: &str = "#1b1b1b";

/// The colour of stops, and of circles of ranks.
pub(crate) const ALARM: &str = "#a31621";

/// The colour of the items of a kind, dark enough on white.
pub(crate) fn colour(kind: Kind) -> &'static str {
    match kind {
        Kind::Message => "#1a4f9c",
        Kind::Notice => ALARM,
        Kind::Revocation => "#8a5000",
        Kind::Shrink => "#1f6f3a",
        Kind::Agreement => "#5b3a9c",
    }
}

/// The dashes of their arrows. Messages have none.
pub(crate) fn dashes(kind: Kind) -> &'static str {
    match kind {
        Kind::Message => "none",
        Kind::Notice => "2 4",
        Kind::Revocation => "9 4",
        Kind::Shrink => "10 3 2 3",
        Kind::Agreement => "5 2",
    }
}

/// The name of the head of their arrows.
pub(crate) fn head(kind: Kind) -> &'static str {
    match kind {
        Kind::Message => "message",
        Kind::Notice => "notice",
        Kind::Revocation => "revocation",
        Kind::Shrink => "shrink",
        Kind::Agreement => "agreement",
    }
}

/// What they are, in words.
pub(crate) fn name(kind: Kind) -> &'static str {
    match kind {
        Kind::Message => "message",
        Kind::Notice => "notice of a stop",
        Kind::Revocation => "revocation",
        Kind::Shrink => "entry into a shrink",
        Kind::Agreement => "entry into an agreement",
    }
}
