//! A step with its rank, as it is read.
ghost use Rattle.std.specs.Prelude.{◌≡◌, IfOk};
ghost use Rattle.ulfm_reader.specs.Plan.{order_of};
ghost use Rattle.ulfm_reader.specs.inside.Reading.{order_read};

use std::alloc::Global;
use ulfm_base::{Context, OutOfMemory, Tag};
use ulfm_job::{Step, Text};

/// A step as it is read: the body of a send still stands in the text of the job.
#[derive(Drop)]
pub enum ReadStep<'a> {
    /// A send.
    Send {
        to: u8,
        tag: Tag,
        body: &'a str,
        comm: Context,
    },
    /// Any other step.
    Other(Step),
}

/// A step and the rank that it is for.
#[derive(Drop)]
pub struct Placed<'a> {
    pub rank: u8,
    pub step: ReadStep<'a>,
}

impl ReadStep<'_> {
    /// The step, with its body.
    pub fn kept(self, alloc: Global) -> Result<Step, OutOfMemory>
        ensures { IfOk result (λ step. order_of step ≡ order_read self.entry) }
    {
        match self {
            ReadStep::Send {
                to,
                tag,
                body,
                comm,
            } => {
                let body = Text::new(alloc, body)?;
                Ok(Step::Send {
                    to,
                    tag,
                    body,
                    comm,
                })
            }
            ReadStep::Other(step) => Ok(step),
        }
    }
}
