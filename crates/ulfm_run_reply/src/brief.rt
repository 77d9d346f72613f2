//! Repeated runs in brief: the lines that all traces have, once, and then the others, each with its count.
ghost use Rattle.std.specs.Prelude.{◌≡◌, ◌++◌, map, IfOk, OnOk, string_bytes};
ghost use Rattle.std.specs.List.{flat_map};
ghost use Rattle.ulfm_run_reply.specs.Tally.{row_of, rows_of};
ghost use Rattle.ulfm_run_reply.specs.Brief.{common_line, common_lines, counted_line, differing_line, differing_lines, hang_at, lines_seen, mark_text, parted_in};

use crate::line_at::step_line;
use crate::lines_at::LinesAt;
use crate::tally::{Counted, push_row};
use std::alloc::{AllocError, Global};
use ulfm_answer::StepAnswer;
use ulfm_forms::Form;
use ulfm_reader::Reading;

/// What so many runs have in common, and what each of their other lines is counted, by the lines at each place of a trace.
pub fn brief_text(
    alloc: Global,
    form: Form,
    asked: &Reading,
    times: u32,
    spots: &[LinesAt],
) -> Result<String, AllocError>
    ensures { IfOk result (λ text. string_bytes text ≡ parted_in form asked.now.names.items asked.now.job times (map lines_seen spots.now)) }
{
    let common = Counted {
        text: common_text(alloc, times, spots)?,
        count: times,
    };
    let mut text = String::new(alloc);
    push_row(&mut text, form, times, &common)?;
    push_differing(&mut text, form, asked, times, spots)?;
    Ok(text)
}

/// The lines of all of so many runs.
fn common_text(alloc: Global, times: u32, spots: &[LinesAt]) -> Result<String, AllocError>
    ensures { IfOk result (λ text. string_bytes text ≡ flat_map (common_lines times) (map lines_seen spots.now)) }
{
    let mut text = String::new(alloc);
    for spot in spots {
        push_common(&mut text, times, spot.rows.as_slice())?;
    }
    Ok(text)
}

/// Those at a place.
fn push_common(text: &mut String, times: u32, lines: &[Counted]) -> Result<(), AllocError>
    ensures { OnOk result (string_bytes text.new ≡ string_bytes text.old ++ flat_map (common_line times) (rows_of lines.now)) }
{
    for line in lines {
        push_if_common(text, times, line)?;
    }
    Ok(())
}

/// A line, where all of so many runs have it.
fn push_if_common(text: &mut String, times: u32, line: &Counted) -> Result<(), AllocError>
    ensures { OnOk result (string_bytes text.new ≡ string_bytes text.old ++ common_line times (row_of line.now)) }
{
    if line.count == times {
        return text.push_str(line.text.as_str());
    }
    Ok(())
}

/// The lines that some of so many runs lack, each behind its count.
fn push_differing(
    text: &mut String,
    form: Form,
    asked: &Reading,
    times: u32,
    spots: &[LinesAt],
) -> Result<(), AllocError>
    ensures { OnOk result (string_bytes text.new ≡ string_bytes text.old ++ flat_map (differing_lines form asked.now.names.items asked.now.job times) (map lines_seen spots.now)) }
{
    for spot in spots {
        push_differing_at(text, form, asked, times, spot)?;
    }
    Ok(())
}

/// Those at a place.
fn push_differing_at(
    text: &mut String,
    form: Form,
    asked: &Reading,
    times: u32,
    spot: &LinesAt,
) -> Result<(), AllocError>
    ensures { OnOk result (string_bytes text.new ≡ string_bytes text.old ++ differing_lines form asked.now.names.items asked.now.job times (lines_seen spot.now)) }
{
    let hang = hang_line(*text.allocator(), form, asked, spot.rank, spot.at)?;
    push_lines(text, form, times, hang.as_str(), spot.rows.as_slice())
}

/// These, where an unfinished step has this line.
fn push_lines(
    text: &mut String,
    form: Form,
    times: u32,
    hang: &str,
    lines: &[Counted],
) -> Result<(), AllocError>
    ensures { OnOk result (string_bytes text.new ≡ string_bytes text.old ++ flat_map (differing_line form times hang.now) (rows_of lines.now)) }
{
    for line in lines {
        push_line(text, form, times, hang, line)?;
    }
    Ok(())
}

/// A line behind its count, where some of so many runs lack it.
fn push_line(
    text: &mut String,
    form: Form,
    times: u32,
    hang: &str,
    line: &Counted,
) -> Result<(), AllocError>
    ensures { OnOk result (string_bytes text.new ≡ string_bytes text.old ++ differing_line form times hang.now (row_of line.now)) }
{
    if line.count != times {
        return push_counted(text, form, times, hang, line);
    }
    Ok(())
}

/// A line behind its count, in this form.
fn push_counted(
    text: &mut String,
    form: Form,
    times: u32,
    hang: &str,
    line: &Counted,
) -> Result<(), AllocError>
    ensures { OnOk result (string_bytes text.new ≡ string_bytes text.old ++ counted_line form times hang.now (row_of line.now)) }
{
    let Counted { text: words, count } = line;
    match form {
        Form::Words(_) => {
            let mark = mark(words.as_str() == hang);
            write!(text, "{count} of {times}{mark}{words}")
        }
        Form::Json => write!(text, "{{\"count\":{count},\"runs\":{times}}}\n{words}"),
    }
}

/// What stands between a count and its line, where that tells of a step that is unfinished or not.
fn mark(hangs: bool) -> &'static str
    ensures { result.now ≡ mark_text hangs }
{
    if hangs { " runs hang: " } else { " runs: " }
}

/// The line at a place that tells of an unfinished step: none where it is how a rank ended.
fn hang_line(
    alloc: Global,
    form: Form,
    asked: &Reading,
    rank: u8,
    at: Option<usize>,
) -> Result<String, AllocError>
    ensures { IfOk result (λ text. string_bytes text ≡ hang_at form asked.now.names.items asked.now.job rank at) }
{
    match at {
        Some(step) => step_line(alloc, form, asked, rank, step, &StepAnswer::Unfinished),
        None => Ok(String::new(alloc)),
    }
}
