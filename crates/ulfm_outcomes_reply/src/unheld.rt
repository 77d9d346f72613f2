//! What a job asks only before the steps of a name, where it holds at no place that was looked at: for people, and none of it is promised.
ghost use Rattle.std.specs.Prelude.{◌≡◌, string_bytes};

use crate::finding::Finding;
use std::alloc::{AllocError, Global};
use ulfm_command_line::{Remark, holds_at};
use ulfm_outcomes_list::Listed;
use ulfm_reader::{Proviso, Reading};

/// What was found, and beside what standard error tells with it, what holds at none of these places. Nothing is told where a growth was refused.
pub(crate) fn with_unheld(told: Finding, asked: &Reading, listed: &[Listed]) -> Finding
    ensures status { result.status ≡ told.status }
    ensures text { string_bytes result.text ≡ string_bytes told.text }
{
    let Finding {
        judgement,
        status,
        text,
        remarks,
    } = told;
    Finding {
        judgement,
        status,
        text,
        remarks: all_told(remarks, asked, listed),
    }
}

/// These remarks, and what holds at none of these places. Nothing where there are none.
fn all_told(
    remarks: Option<Vec<Remark>>,
    asked: &Reading,
    listed: &[Listed],
) -> Option<Vec<Remark>> {
    let mut remarks = remarks?;
    push_unheld(&mut remarks, asked, listed).ok()?;
    Some(remarks)
}

/// Adds each of what holds at none of these places.
pub(crate) fn push_unheld(
    remarks: &mut Vec<Remark>,
    asked: &Reading,
    listed: &[Listed],
) -> Result<(), AllocError> {
    let alloc = *remarks.allocator();
    for proviso in &asked.provisos {
        if !holds_somewhere(alloc, asked, listed, proviso)? {
            remarks.push(Remark::unheld(alloc, asked, proviso)?)?;
        }
    }
    Ok(())
}

/// Whether what a proviso is about holds at one of these places.
fn holds_somewhere(
    alloc: Global,
    asked: &Reading,
    listed: &[Listed],
    proviso: &Proviso,
) -> Result<bool, AllocError> {
    for one in listed {
        if holds_at(alloc, one.place, asked, proviso)? {
            return Ok(true);
        }
    }
    Ok(false)
}
