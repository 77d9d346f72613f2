//! Steps as a report keeps them.
ghost use Rattle.std.specs.Prelude.{◌≡◌, Some, option_map};
ghost use Rattle.ulfm_job.specs.Words.{step_text};

use crate::asked::Asked;
use crate::step::Step;
use crate::text::Text;
use crate::words::{BodilessSend, StepWords};
use std::fmt;
use std::marker::Model;
use ulfm_base::{Context, Noted, OutOfMemory, Tag};

/// A step in a report, without the bytes of the body that it sends. Contracts see the whole step.
#[derive(Drop)]
pub struct NotedStep {
    kept: Kept,
}

/// What is kept of a step.
#[derive(Drop)]
pub(crate) enum Kept {
    /// A send. Contracts alone see its body.
    Send {
        to: u8,
        tag: Tag,
        body: Noted<Text>,
        comm: Context,
    },
    /// Any other step.
    Other(Step),
}

impl Model for NotedStep {
    ghost use Rattle.ulfm_job.specs.declared.step.Step.{Step as SeenStep};
    ghost use Rattle.ulfm_job.specs.inside.Noted.{step_of, HasBodyNoted};

    ghost Value = { SeenStep };

    ghost view = { λ n. step_of n.kept };

    ghost invariant = { λ n. HasBodyNoted n.kept };
}

impl NotedStep {
    ghost use Rattle.ulfm_job.specs.Job.{decides_on, is_agreement_step};

    /// What a report keeps of a step. It never answers out of memory.
    pub fn of(asked: &Asked<'_>) -> NotedStep
        ensures { result ≡ asked.now }
    {
        if let Some(send) = asked.sending() {
            return NotedStep {
                kept: Kept::Send {
                    to: send.to,
                    tag: send.tag,
                    body: Noted::of(send.body),
                    comm: send.comm,
                },
            };
        }
        match asked.bodiless() {
            Some(step) => NotedStep {
                kept: Kept::Other(step),
            },
            None => unreachable!(),
        }
    }

    /// The communicator about which ranks decide together by the step: they shrink it, or agree on it.
    pub fn decides_on(&self) -> Option<Context>
        ensures { result ≡ decides_on self.now }
    {
        match &self.kept {
            Kept::Other(step) => step.decides_on(),
            Kept::Send { .. } => None,
        }
    }

    /// Whether the step is an agreement.
    pub fn is_agreement(&self) -> bool
        ensures { result ≡ is_agreement_step self.now }
    {
        match &self.kept {
            Kept::Other(step) => step.is_agreement(),
            Kept::Send { .. } => false,
        }
    }
}

impl Clone for NotedStep {
    ghost is_clone = { λ x y. y ≡ x };

    fn clone(&self) -> Result<NotedStep, OutOfMemory> {
        let kept = match &self.kept {
            Kept::Send {
                to,
                tag,
                body,
                comm,
            } => Kept::Send {
                to: *to,
                tag: *tag,
                body: body.clone()?,
                comm: *comm,
            },
            Kept::Other(step) => match step.bodiless() {
                Some(step) => Kept::Other(step),
                None => unreachable!(),
            },
        };
        Ok(NotedStep { kept })
    }
}

/// A step in a report, and the name by which it calls its communicator, where it does.
#[derive(Clone, Copy)]
pub struct NotedWords<'a> {
    pub step: &'a NotedStep,
    pub called: Option<&'a str>,
}

/// The words of the step.
impl fmt::Display for NotedWords<'_> {
    ghost output = { λ told. Some (step_text (option_map (λ name. name.now) told.called) told.step.now) };

    fn fmt<W: fmt::Write>(&self, f: &mut fmt::Formatter<W>) -> fmt::Result {
        let called = self.called;
        let step = self.step;
        match &step.kept {
            Kept::Send { to, tag, comm, .. } => {
                let (to, tag, comm) = (*to, *tag, *comm);
                write!(
                    f,
                    "{}",
                    BodilessSend {
                        called,
                        to,
                        tag,
                        comm
                    }
                )
            }
            Kept::Other(step) => write!(f, "{}", StepWords { step, called }),
        }
    }
}
