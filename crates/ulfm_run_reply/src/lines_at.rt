//! The lines of repeated runs, place by place.
ghost use Rattle.std.specs.Prelude.{◌≡◌, ◌++◌, ◌∷◌, ◌+◌, ◌<◌, [], map, option_map, IfOk, OnOk, string_bytes};
ghost use Rattle.ulfm_run_reply.specs.inside.Tallied.{AreFew, AreFewAt, spots_told, unseen};
ghost use Rattle.ulfm_run_reply.specs.Tally.{rows_of};
ghost use Rattle.ulfm_run_reply.specs.Brief.{line_counted, lines_seen, rank_spots, spots, with_run};

use crate::line_at::line_at;
use crate::tally::{Counted, count_text};
use std::alloc::{AllocError, Global};
use ulfm_forms::Form;
use ulfm_job::Job;
use ulfm_reader::Reading;
use ulfm_script::RankReport;

/// The distinct lines of runs at a place of their traces, in the order in which they first came, each with the count of the runs that have it.
#[derive(Drop)]
pub struct LinesAt {
    pub rank: u8,
    /// The step that they are about: none where they are of how the rank ended.
    pub at: Option<usize>,
    pub rows: Vec<Counted>,
}

/// The places whose lines are counted, without lines: all of a job where that is asked for, else none.
///
/// # Errors
///
/// `AllocError` where a growth was refused.
pub fn spots_told(alloc: Global, is_brief: bool, job: &Job) -> Result<Vec<LinesAt>, AllocError>
    ensures seen { IfOk result (λ v. map lines_seen v.items ≡ map unseen (spots_told is_brief job.now)) }
    ensures few { IfOk result (λ v. AreFewAt 0 v.items) }
{
    if is_brief {
        spots_of(alloc, job)
    } else {
        Ok(Vec::new(alloc))
    }
}

/// The places of the lines of a job's traces, in their order.
fn spots_of(alloc: Global, job: &Job) -> Result<Vec<LinesAt>, AllocError>
    ensures seen { IfOk result (λ v. map lines_seen v.items ≡ map unseen (spots job.now)) }
    ensures few { IfOk result (λ v. AreFewAt 0 v.items) }
{
    let mut found = Vec::new(alloc);
    for rank in 0..job.ranks() {
        push_spots(&mut found, job, rank)?;
    }
    Ok(found)
}

/// Puts the places of a rank's lines behind others.
fn push_spots(found: &mut Vec<LinesAt>, job: &Job, rank: u8) -> Result<(), AllocError>
    requires { AreFewAt 0 found.old.items }
    ensures seen { OnOk result (map lines_seen found.new.items ≡ map lines_seen found.old.items ++ map unseen (rank_spots job.now rank)) }
    ensures few { OnOk result (AreFewAt 0 found.new.items) }
{
    for step in 0..job.script_len(rank) {
        push_spot(found, rank, Some(step))?;
    }
    push_spot(found, rank, None)
}

/// Puts a place behind others.
fn push_spot(found: &mut Vec<LinesAt>, rank: u8, at: Option<usize>) -> Result<(), AllocError>
    requires { AreFewAt 0 found.old.items }
    ensures seen { OnOk result (map lines_seen found.new.items ≡ map lines_seen found.old.items ++ unseen (rank, at) ∷ []) }
    ensures few { OnOk result (AreFewAt 0 found.new.items) }
{
    let rows = Vec::new(*found.allocator());
    found.push(LinesAt { rank, at, rows })?;
    Ok(())
}

/// The lines of so many runs, and beside them those of one more.
///
/// # Errors
///
/// `AllocError` where a growth was refused.
pub fn with_lines(
    form: Form,
    asked: &Reading,
    spots: Vec<LinesAt>,
    reports: &[RankReport],
    done: u32,
) -> Result<Vec<LinesAt>, AllocError>
    requires few { AreFewAt done spots.items }
    requires room { done < 4294967295 }
    ensures counted { IfOk result (λ v. map lines_seen v.items ≡ map (with_run form asked.now.names.items asked.now.job reports.now) (map lines_seen spots.items)) }
    ensures few { IfOk result (λ v. AreFewAt (done + 1) v.items) }
{
    let mut found = Vec::new(*spots.allocator());
    for spot in spots {
        found.push(with_line(form, asked, spot, reports, done)?)?;
    }
    Ok(found)
}

/// The lines of so many runs at a place, and beside them that of one more.
fn with_line(
    form: Form,
    asked: &Reading,
    spot: LinesAt,
    reports: &[RankReport],
    done: u32,
) -> Result<LinesAt, AllocError>
    requires few { AreFew done spot.rows.items }
    requires room { done < 4294967295 }
    ensures counted { IfOk result (λ one. lines_seen one ≡ with_run form asked.now.names.items asked.now.job reports.now (lines_seen spot)) }
    ensures few { IfOk result (λ one. AreFew (done + 1) one.rows.items) }
{
    let LinesAt { rank, at, rows } = spot;
    let mut rows = rows;
    let line = line_at(*rows.allocator(), form, asked, rank, at, reports)?;
    count_line(&mut rows, line, done)?;
    Ok(LinesAt { rank, at, rows })
}

/// Counts a line, if there is one, beside those of so many runs.
fn count_line(rows: &mut Vec<Counted>, line: Option<String>, done: u32) -> Result<(), AllocError>
    requires few { AreFew done rows.old.items }
    requires room { done < 4294967295 }
    ensures counted { OnOk result (rows_of rows.new.items ≡ line_counted (rows_of rows.old.items) (option_map string_bytes line)) }
    ensures few { OnOk result (AreFew (done + 1) rows.new.items) }
{
    match line {
        Some(text) => count_text(rows, text, 1, done),
        None => Ok(()),
    }
}
