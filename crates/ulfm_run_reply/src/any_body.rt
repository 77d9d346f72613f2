//! What is written with the status of any command: a value, which is printed at the end.
ghost use Rattle.std.specs.Prelude.{◌≡◌, IfOk, string_bytes};
ghost use Rattle.ulfm_run_reply.specs.AnyBody.{text_in};

use crate::brief::brief_text;
use crate::lines_at::LinesAt;
use crate::ran::Ran;
use crate::swept::sweep_text;
use crate::tally::{Counted, tally_text};
use crate::traced::trace_in;
use std::alloc::{AllocError, Global};
use ulfm_command_line::Body;
use ulfm_forms::Form;
use ulfm_reader::Reading;
use ulfm_replay::SweepLine;
use ulfm_script::RankReport;

/// What is written with a status.
#[derive(Drop)]
pub enum AnyBody {
    /// What needs no trace and no sweep.
    Plain(Body),
    /// The trace of the reports of a job's ranks.
    Trace(Reading, Vec<RankReport>),
    /// The trace of a run, and whether it came to rest.
    Ran(Reading, Ran),
    /// The distinct traces of so many runs, each with its count.
    Tally(u32, Vec<Counted>),
    /// The lines that all of so many runs of a job have, and the others, each with its count.
    Brief(Reading, u32, Vec<LinesAt>),
    /// The lines of a sweep.
    Sweep(Vec<SweepLine>),
}

impl AnyBody {
    /// Its text in this form. What is counted is counted by texts, which have the form of the run.
    ///
    /// # Errors
    ///
    /// `AllocError` where a growth was refused.
    pub fn text(&self, alloc: Global, form: Form) -> Result<String, AllocError>
        ensures { IfOk result (λ text. string_bytes text ≡ text_in form self.now) }
    {
        match self {
            AnyBody::Plain(body) => body.text(alloc, form),
            AnyBody::Trace(asked, reports) => {
                Ok(trace_in(alloc, form, &asked.names, &asked.job, reports.as_slice())?)
            }
            AnyBody::Ran(asked, ran) => Ok(ran.text(alloc, form, asked)?),
            AnyBody::Tally(times, rows) => tally_text(alloc, form, *times, rows.as_slice()),
            AnyBody::Brief(asked, times, spots) => {
                brief_text(alloc, form, asked, *times, spots.as_slice())
            }
            AnyBody::Sweep(lines) => sweep_text(alloc, form, lines.as_slice()),
        }
    }
}
