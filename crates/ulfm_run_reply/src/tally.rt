//! The reply of `run --repeat`: the traces of its runs, counted.
ghost use Rattle.std.specs.Prelude.{◌≡◌, ◌++◌, ◌&&◌, ◌||◌, ◌+◌, ◌<◌, ◌≤◌, [], false, true, All, List, length, map, IfErr, IfOk, OnOk, string_bytes};
ghost use Rattle.std.specs.List.{list_all, list_any};
ghost use Rattle.ulfm_run_reply.specs.Played.{AreOfRun};
ghost use Rattle.ulfm_reader.specs.JobText.{rows_of as rows_asked};
ghost use Rattle.ulfm_answer.specs.Report.{Report};
ghost use Rattle.ulfm_forms.specs.Form.{trace_in};
ghost use Rattle.ulfm_forms.specs.declared.form.Form.{Form as Written};
ghost use Rattle.ulfm_run_reply.specs.AnyBody.{text_in};
ghost use Rattle.ulfm_run_reply.specs.declared.tally.Counted.{Counted as Kept};
ghost use Rattle.ulfm_run_reply.specs.inside.Tallied.{AreFew, AreFewAt, spots_told, told_in, unseen};
ghost use Rattle.ulfm_run_reply.specs.inside.Shown.{IsShown};
ghost use Rattle.ulfm_run_reply.specs.Brief.{lines_seen, lines_there, with_run};
ghost use Rattle.ulfm_run_reply.specs.Tally.{counted, counted_once, row_in, row_json, row_of, row_text, rows_of, tally, tally_in};
ghost use Rattle.ulfm_run_reply.specs.Asking.{as_asked};
ghost use Rattle.ulfm_run_reply.specs.Unfinished.{has_unfinished, played_status};

use crate::any_body::AnyBody;
use crate::any_reply::AnyReply;
use crate::demands::as_asked;
use crate::lines_at::{LinesAt, spots_told, with_lines};
use crate::remarks::remarks_on;
use crate::run::run_by_carrier;
use crate::trace::{has_unfinished, played_status};
use crate::traced::trace_in;
use std::alloc::{AllocError, Global};
use std::sync::Wait;
use std::thread::Threads;
use ulfm_command_line::{Failure, Remark, RunOptions};
use ulfm_forms::Form;
use ulfm_job::Job;
use ulfm_reader::Reading;
use ulfm_script::RankReport;

/// A text, as a trace, and how many runs gave it.
#[derive(Drop)]
pub struct Counted {
    pub text: String,
    pub count: u32,
}

/// What repeated runs gave: their distinct traces in the order in which they first came, their lines at each place where these are asked for,
/// whether some run left a step unfinished, whether in all of them the answers are as the job asks, and what standard error tells of these
/// traces.
#[derive(Drop)]
pub struct Tally {
    pub rows: Vec<Counted>,
    pub spots: Vec<LinesAt>,
    pub is_unfinished: bool,
    pub is_met: bool,
    pub remarks: Vec<Remark>,
}

impl Tally {
    /// That of no runs of a job, whose lines are counted if it is told in brief.
    fn new(alloc: Global, is_brief: bool, job: &Job) -> Result<Tally, AllocError>
        ensures fresh { IfOk result (λ t. (t.rows.items ≡ []) × (t.is_unfinished ≡ false) × (t.is_met ≡ true)) }
        ensures spots { IfOk result (λ t. map lines_seen t.spots.items ≡ map unseen (spots_told is_brief job.now)) }
        ensures few { IfOk result (λ t. AreFewAt 0 t.spots.items) }
    {
        let spots = spots_told(alloc, is_brief, job)?;
        Ok(Tally {
            rows: Vec::new(alloc),
            spots,
            is_unfinished: false,
            is_met: true,
            remarks: Vec::new(alloc),
        })
    }
}

/// Runs a job so many times with these options, and counts the traces in this form.
///
/// # Errors
///
/// The failure of the first run that fails; `OutOfMemory` also where a trace finds no room.
pub fn tally_of<R: Threads + Wait + Sync>(
    rt: &R,
    alloc: Global,
    form: Form,
    options: RunOptions,
    times: u32,
    asked: &Reading,
) -> Result<Tally, Failure>
    ensures runs { IfOk result (λ t. (runs : List (List Report)) × (length runs ≡ times) × All (AreOfRun asked.now.job) runs
        × (t.is_unfinished ≡ list_any (has_unfinished asked.now.job) runs) × (t.is_met ≡ list_all (as_asked (rows_asked asked.now.never.items) asked.now.job) runs) × (rows_of t.rows.items ≡ tally (map (trace_in form asked.now.names.items asked.now.job) runs))
        × (map lines_seen t.spots.items ≡ map (lines_there form asked.now.names.items asked.now.job runs) (spots_told options.is_brief asked.now.job))) }
    ensures shown { IfErr result (λ failure. IsShown asked.now.job failure) }
{
    let mut tally = match Tally::new(alloc, options.is_brief, &asked.job) {
        Ok(tally) => tally,
        Err(_) => return Err(Failure::OutOfMemory),
    };
    let mut done = 0;
    while done < times {
        let ran = run_by_carrier(rt, alloc, options.carrier, &asked.job)?;
        tally = match counted_run(form, asked, tally, ran.reports.as_slice(), done) {
            Ok(tally) => tally,
            Err(_) => return Err(Failure::OutOfMemory),
        };
        done += 1;
    }
    Ok(tally)
}

/// What so many runs gave, and one more with these reports.
fn counted_run(
    form: Form,
    asked: &Reading,
    tally: Tally,
    reports: &[RankReport],
    done: u32,
) -> Result<Tally, AllocError>
    requires few { AreFew done tally.rows.items }
    requires few_at { AreFewAt done tally.spots.items }
    requires room { done < 4294967295 }
    ensures unfinished { IfOk result (λ t. t.is_unfinished ≡ (tally.is_unfinished || has_unfinished asked.now.job reports.now)) }
    ensures met { IfOk result (λ t. t.is_met ≡ (tally.is_met && as_asked (rows_asked asked.now.never.items) asked.now.job reports.now)) }
    ensures traces { IfOk result (λ t. rows_of t.rows.items ≡ counted_once (rows_of tally.rows.items) (trace_in form asked.now.names.items asked.now.job reports.now)) }
    ensures lines { IfOk result (λ t. map lines_seen t.spots.items ≡ map (with_run form asked.now.names.items asked.now.job reports.now) (map lines_seen tally.spots.items)) }
    ensures few { IfOk result (λ t. AreFew (done + 1) t.rows.items) }
    ensures few_at { IfOk result (λ t. AreFewAt (done + 1) t.spots.items) }
{
    let Tally {
        rows,
        spots,
        is_unfinished,
        is_met,
        remarks,
    } = tally;
    let mut rows = rows;
    let mut remarks = remarks;
    let alloc = *rows.allocator();
    let trace = trace_in(alloc, form, &asked.names, &asked.job, reports)?;
    let known = rows.len();
    count_text(&mut rows, trace, 1, done)?;
    push_remarks(&mut remarks, known < rows.len(), asked, reports);
    let spots = with_lines(form, asked, spots, reports, done)?;
    let hangs = has_unfinished(&asked.job, reports);
    let is_good = as_asked(alloc, asked, reports);
    Ok(Tally {
        rows,
        spots,
        is_unfinished: is_unfinished | hangs,
        is_met: is_met & is_good,
        remarks,
    })
}

/// Adds what is told of reports whose trace is new, if there is memory for it.
fn push_remarks(remarks: &mut Vec<Remark>, is_new: bool, asked: &Reading, reports: &[RankReport]) {
    if !is_new {
        return;
    }
    if let Some(mut more) = remarks_on(*remarks.allocator(), asked, reports) {
        let _are_told = remarks.append(&mut more);
    }
}

/// Counts a text of so many more runs, after so many.
pub fn count_text(
    rows: &mut Vec<Counted>,
    text: String,
    count: u32,
    done: u32,
) -> Result<(), AllocError>
    requires few { All (λ (row : Kept). row.count ≤ done) rows.old.items }
    requires room { done + count < 4294967296 }
    ensures counted { OnOk result (rows_of rows.new.items ≡ counted (rows_of rows.old.items) (string_bytes text, count)) }
    ensures few { OnOk result (All (λ (row : Kept). row.count ≤ done + count) rows.new.items) }
{
    for place in 0..rows.len() {
        if rows[place].text == text {
            rows[place].count += count;
            return Ok(());
        }
    }
    rows.push(Counted { text, count })?;
    Ok(())
}

/// What is told of repeated runs with these options, with its status.
pub fn tally_reply(options: RunOptions, asked: Reading, times: u32, tally: Tally) -> AnyReply
    ensures status { result.status ≡ played_status options.is_strict tally.is_met tally.is_unfinished }
    ensures body { (form : Written) → text_in form result.body ≡ told_in form options.is_brief asked.names.items asked.job times (rows_of tally.rows.items) (map lines_seen tally.spots.items) }
{
    let Tally {
        rows,
        spots,
        is_unfinished,
        is_met,
        remarks,
    } = tally;
    let body = if options.is_brief {
        AnyBody::Brief(asked, times, spots)
    } else {
        AnyBody::Tally(times, rows)
    };
    AnyReply {
        status: played_status(options.is_strict, is_met, is_unfinished),
        body,
        remarks: Some(remarks),
    }
}

/// The counted traces, in this form.
pub fn tally_text(
    alloc: Global,
    form: Form,
    times: u32,
    rows: &[Counted],
) -> Result<String, AllocError>
    ensures { IfOk result (λ text. string_bytes text ≡ tally_in form times (rows_of rows.now)) }
{
    let mut text = String::new(alloc);
    for row in rows {
        push_row(&mut text, form, times, row)?;
    }
    Ok(text)
}

/// A count and its text, in this form.
pub fn push_row(text: &mut String, form: Form, times: u32, row: &Counted) -> Result<(), AllocError>
    ensures { OnOk result (string_bytes text.new ≡ string_bytes text.old ++ row_in form times (row_of row.now)) }
{
    match form {
        Form::Words(_) => push_words(text, times, row),
        Form::Json => push_object(text, times, row),
    }
}

/// A count in words, and its text.
fn push_words(text: &mut String, times: u32, row: &Counted) -> Result<(), AllocError>
    ensures { OnOk result (string_bytes text.new ≡ string_bytes text.old ++ row_text times (row_of row.now)) }
{
    write!(text, "{} of {times} runs:\n{}", row.count, row.text)
}

/// A count as an object, and its text.
fn push_object(text: &mut String, times: u32, row: &Counted) -> Result<(), AllocError>
    ensures { OnOk result (string_bytes text.new ≡ string_bytes text.old ++ row_json times (row_of row.now)) }
{
    write!(
        text,
        "{{\"count\":{},\"runs\":{times}}}\n{}",
        row.count, row.text
    )
}
