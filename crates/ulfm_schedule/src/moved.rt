//! Moves of ranks.
ghost use Rattle.std.specs.Prelude.{◌≡◌, ◌++◌, OnOk, string_bytes};
ghost use Rattle.ulfm_schedule.specs.Words.{answered_text, deed_text, opened_text, passed_text};

use crate::cargo::{Cargo, push_cargo};
use crate::parcel::Parcel;
use crate::push_named;
use std::alloc::AllocError;
use ulfm_answer::{StepReport, push_answer};
use ulfm_job::{Job, NotedStep};

/// What a rank does in a move.
#[derive(Drop)]
pub enum Deed {
    /// An item of it leaves for this rank before it stops.
    Left(u8, Cargo),
    /// It takes an item of this rank.
    Took(u8, Cargo),
    /// The first poll of its step of this number leaves that open.
    Opened(usize, NotedStep),
    /// Its step of this number has its answer.
    Answered(usize, StepReport),
}

/// A move of a rank.
#[derive(Drop)]
pub struct Move {
    /// The rank.
    pub rank: u8,
    /// What it does.
    pub deed: Deed,
    /// The number of the message that it takes, or that its step got: messages are numbered from 1, in the order in which ranks take them.
    pub message: Option<usize>,
    /// What goes out by it.
    pub sent: Vec<Parcel>,
}

/// Puts the line of an item of the rank `s` that goes to the rank `d`: to the rank itself, or on its way there.
///
/// # Errors
///
/// `AllocError` where a growth was refused.
pub fn push_passed(
    text: &mut String,
    s: u8,
    d: u8,
    is_taken: bool,
    cargo: Cargo,
) -> Result<(), AllocError>
    ensures { OnOk result (string_bytes text.new ≡ string_bytes text.old ++ passed_text s is_taken d cargo) }
{
    if is_taken {
        write!(text, "{s} -> {d}: ")?;
    } else {
        write!(text, "{s} => {d}: ")?;
    }
    push_cargo(text, s, cargo)?;
    text.push_str("\n")
}

/// Puts the line of a step that is opened.
fn push_opened(text: &mut String, job: &Job, r: u8, k: usize) -> Result<(), AllocError>
    ensures { OnOk result (string_bytes text.new ≡ string_bytes text.old ++ opened_text job.now r k) }
{
    push_named(text, job, r, k)?;
    text.push_str(": open\n")
}

/// Puts the line of a step that has its answer.
fn push_answered(
    text: &mut String,
    job: &Job,
    r: u8,
    k: usize,
    report: &StepReport,
) -> Result<(), AllocError>
    ensures { OnOk result (string_bytes text.new ≡ string_bytes text.old ++ answered_text job.now r k report.now) }
{
    push_named(text, job, r, k)?;
    text.push_str(": ")?;
    push_answer(text, &report.answer)?;
    text.push_str("\n")
}

/// Puts the line of what the rank `r` of a job does.
pub(crate) fn push_deed(text: &mut String, job: &Job, r: u8, deed: &Deed) -> Result<(), AllocError>
    ensures { OnOk result (string_bytes text.new ≡ string_bytes text.old ++ deed_text job.now r deed.now) }
{
    match deed {
        Deed::Left(d, cargo) => push_passed(text, r, *d, false, *cargo),
        Deed::Took(s, cargo) => push_passed(text, *s, r, true, *cargo),
        Deed::Opened(k, _) => push_opened(text, job, r, *k),
        Deed::Answered(k, report) => push_answered(text, job, r, *k, report),
    }
}
