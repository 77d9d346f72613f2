//! The page.
//!
//! It looks at each place once more, by one thread: the list and the page know nothing of one another. Pictures that nobody asked for have no
//! height, and aren't without display: all drawings take the heads of their arrows from the first one.

use crate::cell::{Cell, Kind};
use crate::column::Column;
use std::alloc::{AllocError, Global};
use ulfm_draw::push_escaped;
use ulfm_job::{Job, MOST_STEPS, places};
use ulfm_outcomes_reply::Search;
use ulfm_outcomes_spec::Finder;
use ulfm_reader::{ReadJob, Reading, name_at};

/// What stands above all else, up to the name of the job.
const HEAD: &str = "<!doctype html>
<html lang=\"en\"><head><meta charset=\"utf-8\">
<style>
body{font:15px system-ui,sans-serif;margin:2em;color:#1b1b1b}
table{border-collapse:collapse;font:13px ui-monospace,monospace}
th,td{border:1px solid #ccc;padding:2px 6px;text-align:center}
th:first-child{text-align:left;white-space:nowrap}
.good{background:#e3f3e3}.skipped,.unreached{color:#888}
.hangs,.unmet{background:#c62828;color:#fff;font-weight:bold}.hangs a,.unmet a,.bad a{color:inherit}
p.bad{color:#a31621;font-weight:bold}p.fine{color:#1f6f3a;font-weight:bold}
section{height:0;overflow:hidden}section:target{height:auto;overflow:auto}
</style>
<title>";

/// What the marks of the table mean.
const LEGEND: &str =
    "<p>A step a row, a place a column: <code>0.2</code> is rank 0 stopped before its step 2, <code>1.5*</code> rank 1 dead inside its step 5, <code>-</code> nobody. \
<span class=\"good\">&nbsp;ok&nbsp;</span> each answer is as wanted, <span class=\"hangs\">&nbsp;hangs&nbsp;</span> it never ends in some schedule, \
<span class=\"unmet\">&nbsp;not so&nbsp;</span> an answer isn't as it expects, <span class=\"skipped\">skip</span> always skipped, <span class=\"unreached\">.</span> never reached. \
A place in red leads to a schedule.</p>\n";

/// The page of the job of these bytes by this search, under this name, with at most so many stops; nothing where the bytes are no job, or one
/// with no room for so many stops.
///
/// # Errors
///
/// `AllocError` where a growth was refused.
pub fn page_of<F: Finder>(
    search: &Search<'_, F>,
    stops: u8,
    name: &str,
    bytes: &[u8],
) -> Result<Option<String>, AllocError> {
    let Ok(read) = Reading::read(search.alloc, bytes) else {
        return Ok(None);
    };
    if read.job.len() + stops as usize > MOST_STEPS {
        return Ok(None);
    }
    let mut columns = Vec::new(search.alloc);
    for place in &places(search.alloc, &read.job, stops)? {
        columns.push(Column::of(search, &read, *place)?)?;
    }
    Ok(Some(written(search.alloc, &read, name, columns.as_slice())?))
}

/// The page of these columns.
fn written(
    alloc: Global,
    read: &Reading,
    name: &str,
    columns: &[Column],
) -> Result<String, AllocError> {
    let mut page = String::from_str(alloc, HEAD)?;
    push_escaped(&mut page, name)?;
    page.push_str("</title></head><body>\n<h1>")?;
    push_escaped(&mut page, name)?;
    page.push_str("</h1>\n")?;
    push_verdict(&mut page, columns)?;
    page.push_str(LEGEND)?;
    push_table(&mut page, read, columns)?;
    for column in columns {
        push_section(&mut page, column)?;
    }
    page.push_str("</body></html>\n")?;
    Ok(page)
}

/// Puts at how many places something isn't as wanted, and at how many that isn't known.
fn push_verdict(page: &mut String, columns: &[Column]) -> Result<(), AllocError> {
    let all = columns.len();
    let bad = columns.iter().filter(|column| is_bad(*column)).count();
    let unknown = columns.iter().filter(|column| is_unknown(*column)).count();
    if bad > 0 {
        write!(
            page,
            "<p class=\"bad\">Not as wanted at {bad} of {all} places.</p>\n"
        )?;
    } else if unknown == 0 {
        write!(
            page,
            "<p class=\"fine\">Every step ends, and is as wanted, at all {all} places.</p>\n"
        )?;
    }
    if unknown > 0 {
        write!(
            page,
            "<p class=\"bad\">Past the limit of states, and not known, at {unknown} of {all} places.</p>\n"
        )?;
    }
    Ok(())
}

/// Whether something isn't as wanted at a place.
fn is_bad(column: &Column) -> bool {
    matches!(&column.unwanted, Some(unwanted) if unwanted.is_known)
}

/// Whether it isn't known that all is as wanted there.
fn is_unknown(column: &Column) -> bool {
    column.states.is_none() || matches!(&column.unwanted, Some(unwanted) if !unwanted.is_known)
}

/// Puts the table.
fn push_table(page: &mut String, read: &Reading, columns: &[Column]) -> Result<(), AllocError> {
    page.push_str("<table>\n<tr><th>step</th>")?;
    for column in columns {
        push_place(page, column)?;
    }
    page.push_str("</tr>\n")?;
    for rank in 0..read.job.ranks() {
        for step in 0..read.job.script_len(rank) {
            push_row(page, read, columns, rank, step)?;
        }
    }
    page.push_str("</table>\n")
}

/// Puts the head of a column: the place, which leads to what isn't as wanted there.
fn push_place(page: &mut String, column: &Column) -> Result<(), AllocError> {
    let place = column.place;
    match (&column.unwanted, column.states) {
        (Some(_), _) => write!(
            page,
            "<th class=\"hangs\"><a href=\"#at-{place}\">{place}</a></th>"
        ),
        (None, Some(states)) => write!(page, "<th title=\"{states} states\">{place}</th>"),
        (None, None) => write!(
            page,
            "<th class=\"unmet\" title=\"past the limit\">{place}?</th>"
        ),
    }
}

/// Puts the row of a step.
fn push_row(
    page: &mut String,
    read: &Reading,
    columns: &[Column],
    rank: u8,
    step: usize,
) -> Result<(), AllocError> {
    page.push_str("<tr><th>")?;
    push_step(page, &read.job, rank, step)?;
    if let Some(name) = name_at(&read.names, rank, step) {
        write!(page, " '{name}'")?;
    }
    page.push_str("</th>")?;
    for column in columns {
        match column.cell(rank, step) {
            Some(cell) => push_cell(page, column, cell)?,
            None => page.push_str("<td></td>")?,
        }
    }
    page.push_str("</tr>\n")
}

/// Puts a step in words.
fn push_step(page: &mut String, job: &Job, rank: u8, step: usize) -> Result<(), AllocError> {
    match job.told(rank, step) {
        Some(call) => write!(page, "{rank}.{step} {call}"),
        None => Ok(()),
    }
}

/// Puts what a step comes to at a place, with its answers for who points at it.
fn push_cell(page: &mut String, column: &Column, cell: &Cell) -> Result<(), AllocError> {
    let class = class_of(cell.kind);
    let mark = mark_of(cell.kind);
    write!(page, "<td class=\"{class}\" title=\"")?;
    push_escaped(page, cell.words.as_str())?;
    if column.unwanted.is_some() && matches!(cell.kind, Kind::Hangs | Kind::Unmet) {
        let place = column.place;
        return write!(page, "\"><a href=\"#at-{place}\">{mark}</a></td>");
    }
    write!(page, "\">{mark}</td>")
}

/// The class of a cell.
fn class_of(kind: Kind) -> &'static str {
    match kind {
        Kind::Unreached => "unreached",
        Kind::Skipped => "skipped",
        Kind::Good => "good",
        Kind::Unmet => "unmet",
        Kind::Hangs => "hangs",
    }
}

/// What stands in it.
fn mark_of(kind: Kind) -> &'static str {
    match kind {
        Kind::Unreached => ".",
        Kind::Skipped => "skip",
        Kind::Good => "ok",
        Kind::Unmet => "not so",
        Kind::Hangs => "hangs",
    }
}

/// Puts what isn't as wanted at a place, if something isn't, with its picture.
fn push_section(page: &mut String, column: &Column) -> Result<(), AllocError> {
    let Some(unwanted) = &column.unwanted else {
        return Ok(());
    };
    let place = column.place;
    write!(page, "<section id=\"at-{place}\"><h2>at {place}: ")?;
    push_escaped(page, unwanted.title.as_str())?;
    page.push_str("</h2>\n")?;
    match &unwanted.picture {
        Some(picture) => page.push_str(picture.as_str())?,
        None => page.push_str("<p>No schedule is found within the limit of states.</p>\n")?,
    }
    page.push_str("</section>\n")
}
