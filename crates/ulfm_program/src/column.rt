//! What the steps of a job come to at a place.

use crate::cell::{Cell, Kind};
use crate::silent_watch::Nobody;
use crate::unwanted::{Unwanted, unwanted_at};
use std::alloc::{AllocError, Global};
use ulfm_command_line::{Place, stopped_at};
use ulfm_job::Job;
use ulfm_outcomes_list::number_at;
use ulfm_outcomes_reply::Search;
use ulfm_outcomes_spec::Finder;
use ulfm_reach::{Reach, Reached};
use ulfm_reader::Reading;

/// The steps at a place, rank by rank.
#[derive(Drop)]
pub(crate) struct Column {
    pub(crate) place: Place,
    /// How many states there are; none where there are more than the limit.
    pub(crate) states: Option<usize>,
    pub(crate) ranks: Vec<Vec<Cell>>,
    /// What isn't as wanted there, if there is something.
    pub(crate) unwanted: Option<Unwanted>,
}

impl Column {
    /// The steps of what was read of a job, at a place that it has.
    pub(crate) fn of<F: Finder>(
        search: &Search<'_, F>,
        read: &Reading,
        place: Place,
    ) -> Result<Column, AllocError> {
        let mut column = Column {
            place,
            states: None,
            ranks: Vec::new(search.alloc),
            unwanted: None,
        };
        if !place.is_inside(&read.job) {
            return Ok(column);
        }
        let asked = &stopped_at(search.alloc, place, read)?;
        let reach = search.outcomes(&asked.job, &mut Nobody)?;
        if let Reach::All(reached) = &reach {
            column.fill(search.alloc, &read.job, asked, reached)?;
            column.unwanted = unwanted_at(search, read, asked, &reached.found, &column)?;
        }
        Ok(column)
    }

    /// Fills it by a list.
    fn fill(
        &mut self,
        alloc: Global,
        job: &Job,
        asked: &Reading,
        reached: &Reached,
    ) -> Result<(), AllocError> {
        self.states = Some(reached.keys.len());
        for rank in 0..job.ranks() {
            let mut cells = Vec::new(alloc);
            for step in 0..job.script_len(rank) {
                let at = number_at(self.place, job, rank, step);
                cells.push(Cell::of(alloc, &asked.job, &reached.found, rank, at)?)?;
            }
            self.ranks.push(cells)?;
        }
        Ok(())
    }

    /// The first step that comes to this, by the number that it has in the file.
    pub(crate) fn first(&self, kind: Kind) -> Option<(u8, usize)> {
        for (rank, cells) in self.ranks.iter().enumerate() {
            if let Some(step) = cells.iter().position(|cell| cell.kind == kind) {
                return Some((u8::try_from(rank).ok()?, step));
            }
        }
        None
    }

    /// The step of a rank.
    pub(crate) fn cell(&self, rank: u8, step: usize) -> Option<&Cell> {
        self.ranks.get(rank as usize)?.get(step)
    }
}
