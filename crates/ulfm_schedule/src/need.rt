//! What is waited for.
ghost use Rattle.std.specs.Prelude.{◌≡◌, ℕ, IfSome};
ghost use Rattle.ulfm_schedule.specs.Waits.{need_text};
ghost use Rattle.ulfm_schedule.specs.Values.{need_words};

use ulfm_base::{Context, Tag};
use ulfm_job::Step;

/// What a rank waits for, of another one.
#[derive(Clone, Copy, Debug, PartialEq, Eq)]
pub enum Need {
    /// A message with this tag, or with any.
    Message(Option<Tag>, Context),
    /// An entry into the shrink of a communicator.
    Shrink(Context),
    /// An entry into an agreement on a communicator.
    Agreement(Context),
}

impl Need {
    /// By the step that needs it, if it is one that waits for something.
    pub fn of(step: &Step) -> Option<Need>
        ensures { IfSome result (λ need. (s : ℕ) → need_words need s ≡ need_text step.now s) }
    {
        match step {
            Step::Recv { tag, comm, .. } => Some(Need::Message(*tag, *comm)),
            Step::Probe { tag, comm, .. } => Some(Need::Message(*tag, *comm)),
            Step::Shrink { comm, .. } => Some(Need::Shrink(*comm)),
            Step::Agree { comm, .. } => Some(Need::Agreement(*comm)),
            _ => None,
        }
    }

    /// Whether it is a message. Where several ranks may send it, one of them is enough.
    pub fn is_message(self) -> bool {
        matches!(self, Need::Message(_, _))
    }
}
