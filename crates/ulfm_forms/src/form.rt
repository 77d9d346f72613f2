//! The forms of what is written.

use crate::wording::Wording;

/// How what came of a job is written.
#[derive(Clone, Copy, Debug, PartialEq, Eq)]
pub enum Form {
    /// As words, for people: in these words.
    Words(Wording),
    /// As JSON, an object a line, for programs.
    Json,
}

impl Form {
    ghost use Rattle.std.specs.Prelude.{◌≡◌};
    ghost use Rattle.ulfm_forms.specs.Form.{wording};

    /// The words of calls and answers: objects have plain ones.
    pub fn wording(self) -> Wording
        ensures { result ≡ wording self }
    {
        match self {
            Form::Words(wording) => wording,
            Form::Json => Wording::Plain,
        }
    }
}
