//! A step as it is played.
ghost use Rattle.std.specs.Prelude.{◌≡◌, ◌↔◌, IsTrue, None, option_map};
ghost use Rattle.ulfm_job.specs.Job.{bodiless, decides_on};
ghost use Rattle.ulfm_job.specs.Naming.{on_comm, sending_in, sending_of};
ghost use Rattle.ulfm_job.specs.Ops.{op_of};

use crate::op::Op;
use crate::step::Step;
use crate::text::Text;
use std::marker::Model;
use ulfm_base::{Context, Tag};

/// A step that stands elsewhere, as in a job, on its own communicator or on another one. Contracts see the step as it is played.
#[derive(Drop)]
pub struct Asked<'a> {
    step: &'a Step,
    on: Option<Context>,
}

/// A send as it is played.
#[derive(Drop)]
pub struct Sending<'a> {
    /// The position of the receiver.
    pub to: u8,
    /// The tag.
    pub tag: Tag,
    /// The body.
    pub body: &'a Text,
    /// The communicator.
    pub comm: Context,
}

impl<'a> Model for Asked<'a> {
    ghost use Rattle.ulfm_job.specs.Naming.{played_on};
    ghost use Rattle.ulfm_job.specs.declared.step.Step.{Step as SeenStep};

    ghost Value = { SeenStep };

    ghost view = { λ a. played_on a.on a.step.now };
}

impl<'a> Asked<'a> {
    /// This step.
    pub fn of(step: &'a Step) -> Asked<'a>
        ensures { result ≡ step.now }
    {
        Asked { step, on: None }
    }

    /// This step on another communicator, where it is on one.
    pub fn on(step: &'a Step, comm: Context) -> Asked<'a>
        ensures { result ≡ on_comm comm step.now }
    {
        Asked {
            step,
            on: Some(comm),
        }
    }

    /// The same step once more.
    pub fn again(&self) -> Asked<'_>
        ensures { result ≡ self.now }
    {
        Asked {
            step: self.step,
            on: self.on,
        }
    }

    /// Its op.
    pub fn op(&self) -> Op
        ensures { result ≡ op_of self.now }
    {
        self.step.op()
    }

    /// The step itself, where it has no body to carry: nothing of a send. It never answers out of memory.
    pub fn bodiless(&self) -> Option<Step>
        ensures { result ≡ bodiless self.now }
    {
        match (self.step.bodiless(), self.on) {
            (Some(step), Some(comm)) => Some(step.on(comm)),
            (step, _) => step,
        }
    }

    /// The send, where it is one.
    pub fn sending(&self) -> Option<Sending<'_>>
        ensures { option_map sending_in result ≡ sending_of self.now }
    {
        match self.step {
            Step::Send {
                to,
                tag,
                body,
                comm,
            } => Some(Sending {
                to: *to,
                tag: *tag,
                body,
                comm: self.on.unwrap_or(*comm),
            }),
            _ => None,
        }
    }

    /// The communicator about which ranks decide together by this step: they shrink it, or agree on it.
    pub fn decides_on(&self) -> Option<Context>
        ensures { result ≡ decides_on self.now }
    {
        let own = self.step.decides_on()?;
        Some(self.on.unwrap_or(own))
    }

    /// Whether it is the same as another step.
    pub fn is_same(&self, other: &Step) -> bool
        ensures { IsTrue result ↔ (self.now ≡ other.now) }
    {
        match self.bodiless() {
            Some(step) => step.is_same(other),
            None => is_same_sending(self, other),
        }
    }
}

/// Whether a send as it is played is the same as another step.
fn is_same_sending(asked: &Asked<'_>, other: &Step) -> bool
    requires { bodiless asked.now ≡ None }
    ensures { IsTrue result ↔ (asked.now ≡ other.now) }
{
    let other = Asked::of(other);
    let (Some(one), Some(two)) = (asked.sending(), other.sending()) else {
        return false;
    };
    one.to == two.to && one.tag == two.tag && one.body == two.body && one.comm == two.comm
}
