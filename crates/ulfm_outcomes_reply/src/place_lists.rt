//! The lists of some places, one after another.
ghost use Rattle.std.specs.Prelude.{◌≡◌, ◌++◌, All, IfOk, OnOk};
ghost use Rattle.ulfm_job.specs.Place.{IsPlaceOf};
ghost use Rattle.ulfm_outcomes_reply.specs.Lists.{AreLists};
ghost use Rattle.ulfm_outcomes_reply.specs.inside.Parts.{IsListOf, listed_of, past_of};
ghost use Rattle.ulfm_command_line.specs.Stopped.{asked_view};

use crate::lists::Lists;
use crate::never_rows::list_with_rows;
use crate::onlooker::{Onlooker, Seen};
use crate::search::Search;
use std::alloc::AllocError;
use ulfm_base::OutOfMemory;
use ulfm_command_line::stopped_at;
use ulfm_job::Place;
use ulfm_outcomes_list::Listed;
use ulfm_outcomes_spec::Finder;
use ulfm_reach::Reach;
use ulfm_reader::Reading;

/// The list of a place, or nothing where the job has more states there than the limit.
fn list_place<F: Finder, L: Onlooker>(
    search: &Search<'_, F>,
    asked: &Reading,
    place: Place,
    onlooker: &L,
) -> Result<Option<Listed>, OutOfMemory>
    requires { IsPlaceOf asked.now.job place }
    ensures { IfOk result (IsListOf (asked_view asked.now) search.now.options.limit place) }
{
    let made = stopped_at(search.alloc, place, asked)?;
    let mut watch = Seen::of(onlooker, place);
    let (reach, rules_out) = list_with_rows(search, &made.job, made.never.as_slice(), &mut watch)?;
    match reach {
        Reach::All(reached) => Ok(Some(Listed {
            place,
            states: reached.keys.len(),
            found: reached.found,
            rules_out,
        })),
        Reach::More => Ok(None),
    }
}

/// The lists of these places.
pub(crate) fn list_part<F: Finder, L: Onlooker>(
    search: &Search<'_, F>,
    asked: &Reading,
    places: &[Place],
    onlooker: &L,
) -> Result<Lists, OutOfMemory>
    requires { All (IsPlaceOf asked.now.job) places.now }
    ensures { IfOk result (λ lists. AreLists (asked_view asked.now) search.now.options.limit places.now lists.listed.items lists.past_limit.items) }
{
    let mut listed = Vec::new(search.alloc);
    let mut past_limit = Vec::new(search.alloc);
    for place in places {
        let one = list_place(search, asked, *place, onlooker)?;
        put(&mut listed, &mut past_limit, *place, one)?;
    }
    Ok(Lists { listed, past_limit })
}

/// Puts the list of a place behind these, or where there is none, the place behind those that are past the limit.
fn put(
    listed: &mut Vec<Listed>,
    past_limit: &mut Vec<Place>,
    place: Place,
    one: Option<Listed>,
) -> Result<(), AllocError>
    ensures listed { OnOk result (listed.new.items ≡ listed.old.items ++ listed_of one) }
    ensures past_limit { OnOk result (past_limit.new.items ≡ past_limit.old.items ++ past_of place one) }
{
    match one {
        Some(one) => listed.push(one)?,
        None => past_limit.push(place)?,
    }
    Ok(())
}
