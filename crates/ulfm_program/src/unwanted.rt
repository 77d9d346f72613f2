//! What isn't as wanted at a place.

use crate::cell::Kind;
use crate::column::Column;
use crate::silent_watch::Nobody;
use std::alloc::AllocError;
use ulfm_command_line::is_looked_at;
use ulfm_draw::drawn;
use ulfm_forms::Style;
use ulfm_job::Clause;
use ulfm_outcomes_list::{Goals, OpenStep, Told, filed_number, has_each, number_at};
use ulfm_outcomes_reply::{Search, open_goals};
use ulfm_outcomes_spec::{Finder, first_unmet};
use ulfm_reach::Rows;
use ulfm_reader::Reading;

/// What isn't as wanted at a place, or isn't known to be.
#[derive(Drop)]
pub(crate) struct Unwanted {
    /// What it is.
    pub(crate) title: String,
    /// A picture of a schedule that shows it, where one is found within the limit.
    pub(crate) picture: Option<String>,
    /// Whether it is known that some schedule has it.
    pub(crate) is_known: bool,
}

/// The first one of what is asked for with the stops of a place, by its list: a step that isn't answered as it expects, one that never ends, or
/// a row of `never`.
pub(crate) fn unwanted_at<F: Finder>(
    search: &Search<'_, F>,
    read: &Reading,
    asked: &Reading,
    found: &Rows,
    column: &Column,
) -> Result<Option<Unwanted>, AllocError> {
    if let Some(unmet) = first_unmet(&asked.job, found) {
        let goals = unmet.goals(search.alloc, &asked.job)?;
        let step = filed_number(column.place, unmet.rank, unmet.step);
        let title = format!(in search.alloc; "{}.{step} isn't as expected", unmet.rank)?;
        return Ok(Some(drawn_by(search, asked, &goals, title)?));
    }
    if let Some((rank, step)) = column.first(Kind::Hangs) {
        let at = number_at(column.place, &read.job, rank, step);
        let left = OpenStep {
            rank,
            step: u16::try_from(at).unwrap_or(u16::MAX),
        };
        let goals = open_goals(search.alloc, left)?;
        let title = format!(in search.alloc; "{rank}.{step} never ends")?;
        return Ok(Some(drawn_by(search, asked, &goals, title)?));
    }
    first_row(search, asked, found)
}

/// The first row of `never` whose answers come together, or the first for which that isn't known.
fn first_row<F: Finder>(
    search: &Search<'_, F>,
    asked: &Reading,
    found: &Rows,
) -> Result<Option<Unwanted>, AllocError> {
    for (number, row) in asked.never.iter().enumerate() {
        let told = row_at(search, asked, found, number, row.as_slice())?;
        if told.is_some() {
            return Ok(told);
        }
    }
    Ok(None)
}

/// What is told of a row, if its answers may come together.
fn row_at<F: Finder>(
    search: &Search<'_, F>,
    asked: &Reading,
    found: &Rows,
    number: usize,
    row: &[Clause],
) -> Result<Option<Unwanted>, AllocError> {
    let goals = Goals::of(search.alloc, &asked.job, row)?;
    if !is_looked_at(&asked.job, row) || !has_each(found, &goals) {
        return Ok(None);
    }
    let Some(told) = search.show(&asked.job, &goals, &mut Nobody)? else {
        return Ok(None);
    };
    let title = match &told {
        Told::Schedule(_) => format!(in search.alloc; "all answers of never[{number}] come")?,
        Told::Many(states) => format!(in search.alloc;
            "whether all answers of never[{number}] come isn't known: there are more than {states} states"
        )?,
    };
    Ok(Some(Unwanted {
        title,
        picture: picture_of(search, asked, &told)?,
        is_known: matches!(told, Told::Schedule(_)),
    }))
}

/// What some schedule has that shows these, with a picture of one where it is found within the limit.
fn drawn_by<F: Finder>(
    search: &Search<'_, F>,
    asked: &Reading,
    goals: &Goals,
    title: String,
) -> Result<Unwanted, AllocError> {
    let picture = match search.show(&asked.job, goals, &mut Nobody)? {
        Some(told) => picture_of(search, asked, &told)?,
        None => None,
    };
    Ok(Unwanted {
        title,
        picture,
        is_known: true,
    })
}

/// The picture of the schedule that a search came to, if it came to one.
fn picture_of<F>(
    search: &Search<'_, F>,
    asked: &Reading,
    told: &Told,
) -> Result<Option<String>, AllocError> {
    let Told::Schedule(schedule) = told else {
        return Ok(None);
    };
    let (alloc, wording) = (search.alloc, search.form.wording());
    Ok(Some(drawn(alloc, Style::Svg, wording, &asked.job, schedule, "")?))
}
