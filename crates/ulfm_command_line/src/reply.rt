//! The reply to a job's bytes by `check`, and to a job that is refused.
ghost use Rattle.std.specs.Prelude.{◌≡◌, Some, IfOk, string_bytes};
ghost use Rattle.ulfm_forms.specs.declared.form.Form.{Form as Written};
ghost use Rattle.ulfm_command_line.specs.Body.{body_in};
ghost use Rattle.ulfm_command_line.specs.Replies.{fault_text, job_fault_json, job_fault_text, refused_in, good_in, good_json, good_line, IsCheckReply};
ghost use Rattle.ulfm_command_line.specs.declared.body.Body.TheVariants.{Refused};

use crate::body::Body;
use crate::remark::Remark;
use std::alloc::{AllocError, Global};
use std::fmt;
use ulfm_forms::Form;
use ulfm_job::{Fault, Job, JobFault};
use ulfm_reader::ReadJob;

/// The statuses (docs/JSON.md).
pub const DONE: u8 = 0;

/// The job is refused.
pub const JOB_REFUSED: u8 = 1;

/// The words are no command line that can be followed.
pub const USAGE: u8 = 2;

/// The run failed.
pub const RUN_FAILED: u8 = 3;

/// The output took a beginning alone.
pub const OUTPUT_FAILED: u8 = 4;

/// The input could not be read, and nothing was written.
pub const INPUT_FAILED: u8 = 5;

/// What was played to its end left a step unfinished, and the words ask for this status then.
pub const UNFINISHED: u8 = 6;

/// A job comes to more states than the limit that the words set.
pub const PAST_LIMIT: u8 = 7;

/// No schedule of a job shows the answers that the words ask for.
pub const NO_SCHEDULE: u8 = 8;

/// What was played to its end has an answer that its step doesn't expect, or all answers of a row that must not go together.
pub const NOT_EXPECTED: u8 = 9;

/// A status, and what is written with it.
#[derive(Drop)]
pub struct Reply {
    pub status: u8,
    pub body: Body,
    /// What standard error tells beside it, if anything: for people, and none of it is promised.
    pub remarks: Option<Vec<Remark>>,
}

fn fault_name(fault: Fault) -> &'static str
    ensures { result.now ≡ fault_text fault }
{
    match fault {
        Fault::BadKey => "J2",
        Fault::UnknownKey => "J3",
        Fault::OutOfRange => "J4",
        Fault::UnknownOp => "J5",
    }
}

/// How a fault is printed.
#[derive(Clone, Copy)]
struct FaultText(JobFault);

impl fmt::Display for FaultText {
    ghost output = { λ f. Some (job_fault_text f.0) };

    fn fmt<W: fmt::Write>(&self, f: &mut fmt::Formatter<W>) -> fmt::Result {
        match self.0 {
            JobFault::NotToml => write!(f, "J1"),
            JobFault::InJob(fault) => {
                let name = fault_name(fault);
                write!(f, "{name}")
            }
            JobFault::InStep(fault, place) => {
                let name = fault_name(fault);
                write!(f, "{name} step {place}")
            }
            JobFault::TooLarge => write!(f, "J6"),
            JobFault::OutOfMemory => write!(f, "J7"),
        }
    }
}

/// The keys of a fault.
#[derive(Clone, Copy)]
struct FaultKeys(JobFault);

impl fmt::Display for FaultKeys {
    ghost output = { λ f. Some (job_fault_json f.0) };

    fn fmt<W: fmt::Write>(&self, f: &mut fmt::Formatter<W>) -> fmt::Result {
        match self.0 {
            JobFault::NotToml => write!(f, "\"J1\""),
            JobFault::InJob(fault) => {
                let name = fault_name(fault);
                write!(f, "\"{name}\"")
            }
            JobFault::InStep(fault, place) => {
                let name = fault_name(fault);
                write!(f, "\"{name}\",\"step\":{place}")
            }
            JobFault::TooLarge => write!(f, "\"J6\""),
            JobFault::OutOfMemory => write!(f, "\"J7\""),
        }
    }
}

/// The line for a good job.
#[tactic(auto, unfolding(crate::specs::Replies::good_line))]
fn good_line(alloc: Global, ranks: u8, steps: usize) -> Result<String, AllocError>
    ensures { IfOk result (λ text. string_bytes text ≡ good_line ranks steps) }
{
    format!(in alloc; "job ok: {ranks} ranks {steps} steps\n")
}

/// The object for a good job.
#[tactic(auto, unfolding(crate::specs::Replies::good_json))]
fn good_json(alloc: Global, ranks: u8, steps: usize) -> Result<String, AllocError>
    ensures { IfOk result (λ text. string_bytes text ≡ good_json ranks steps) }
{
    format!(in alloc; "{{\"job\":\"ok\",\"ranks\":{ranks},\"steps\":{steps}}}\n")
}

/// The line for a good job, in this form.
pub(crate) fn good_in(
    alloc: Global,
    form: Form,
    ranks: u8,
    steps: usize,
) -> Result<String, AllocError>
    ensures { IfOk result (λ text. string_bytes text ≡ good_in form ranks steps) }
{
    match form {
        Form::Words(_) => good_line(alloc, ranks, steps),
        Form::Json => good_json(alloc, ranks, steps),
    }
}

/// The line for a job that is refused, in this form.
pub(crate) fn refused_in(alloc: Global, form: Form, fault: JobFault) -> Result<String, AllocError>
    ensures { IfOk result (λ text. string_bytes text ≡ refused_in form fault) }
{
    match form {
        Form::Words(_) => {
            let fault = FaultText(fault);
            format!(in alloc; "job refused: {fault}\n")
        }
        Form::Json => {
            let fault = FaultKeys(fault);
            format!(in alloc; "{{\"refused\":{fault}}}\n")
        }
    }
}

/// The reply to a job that is refused.
pub fn refusal(fault: JobFault) -> Reply
    ensures status { result.status ≡ 1 }
    ensures body { result.body ≡ Refused fault }
{
    Reply {
        status: JOB_REFUSED,
        body: Body::Refused(fault),
        remarks: None,
    }
}

/// The reply of `check`.
pub fn check_reply(alloc: Global, bytes: &[u8]) -> Reply
    ensures { (form : Written) → IsCheckReply form bytes.now result.status (body_in form result.body) }
{
    match Job::read(alloc, bytes) {
        Ok(job) => Reply {
            status: DONE,
            body: Body::Good(job.ranks(), job.len()),
            remarks: None,
        },
        Err(fault) => refusal(fault),
    }
}
