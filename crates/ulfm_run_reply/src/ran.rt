//! What came of a run.
ghost use Rattle.std.specs.Prelude.{◌≡◌, ◌++◌, IfOk, OnOk, string_bytes};
ghost use Rattle.ulfm_run_reply.specs.Rest.{ran_in, rest_in};

use crate::traced::trace_in;
use std::alloc::{AllocError, Global};
use ulfm_base::OutOfMemory;
use ulfm_forms::Form;
use ulfm_reader::Reading;
use ulfm_script::RankReport;

/// What the ranks of a job did in a run, and whether that came to rest: then nothing waits for a rank that runs on.
#[derive(Drop)]
pub struct Ran {
    pub reports: Vec<RankReport>,
    pub is_at_rest: bool,
}

impl Ran {
    /// The trace in this form; as JSON an object below it says whether the run came to rest.
    ///
    /// # Errors
    ///
    /// `OutOfMemory` where a growth was refused.
    pub fn text(&self, alloc: Global, form: Form, asked: &Reading) -> Result<String, OutOfMemory>
        ensures { IfOk result (λ text. string_bytes text ≡ ran_in form asked.now.names.items asked.now.job self.now.reports.items self.now.is_at_rest) }
    {
        let mut text = trace_in(
            alloc,
            form,
            &asked.names,
            &asked.job,
            self.reports.as_slice(),
        )?;
        push_rest(&mut text, form, self.is_at_rest)?;
        Ok(text)
    }
}

/// Whether a run came to rest, where that is told in this form.
fn push_rest(text: &mut String, form: Form, is_at_rest: bool) -> Result<(), AllocError>
    ensures { OnOk result (string_bytes text.new ≡ string_bytes text.old ++ rest_in form is_at_rest) }
{
    match (form, is_at_rest) {
        (Form::Words(_), _) => Ok(()),
        (Form::Json, false) => text.push_str("{\"at_rest\":false}\n"),
        (Form::Json, true) => text.push_str("{\"at_rest\":true}\n"),
    }
}
