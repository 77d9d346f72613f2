//! The kinds of answers that a sweep counts.
ghost use Rattle.std.specs.Prelude.{◌≡◌};
ghost use Rattle.ulfm_replay.specs.inside.Kinds.{kind_of};

use ulfm_answer::StepAnswer;

/// A kind of answers.
#[derive(Clone, Copy)]
pub(crate) enum Kind {
    /// A wait, a late cancel or a receive of what a probe found got a letter.
    Done,
    /// What such a step asks for is over.
    Over,
    /// A wait met failures that aren't acknowledged.
    Pending,
    /// A step was given up.
    Unfinished,
    /// A call was refused.
    Refused,
}

impl Kind {
    /// Whether an answer is of this kind.
    pub(crate) fn has(self, answer: &StepAnswer) -> bool
        ensures { result ≡ kind_of self answer.now }
    {
        match self {
            Kind::Done => matches!(answer, StepAnswer::Done(_, _)),
            Kind::Over => matches!(answer, StepAnswer::Over(_)),
            Kind::Pending => matches!(answer, StepAnswer::Pending),
            Kind::Unfinished => matches!(answer, StepAnswer::Unfinished),
            Kind::Refused => matches!(answer, StepAnswer::Refused(_)),
        }
    }
}
