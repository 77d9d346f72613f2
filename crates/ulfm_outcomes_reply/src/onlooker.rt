//! Who is told how far the lists are.

use ulfm_job::Place;
use ulfm_reach::Watch;

/// Who is told how far the lists of places are, by threads that go on at once. Nothing that is found depends on it.
pub trait Onlooker {
    /// So many more states have been looked at, at this place.
    fn see(&self, place: Place, states: usize);

    /// So many of these places are listed, and no more will be.
    fn see_listed(&self, listed: usize, places: usize);
}

/// Who tells an onlooker of one place, whatever is explored or sought there, one after another.
#[derive(Drop)]
pub struct Seen<'a, L> {
    onlooker: &'a L,
    place: Place,
    /// How many states were told of, of those that are looked at now.
    told: usize,
}

impl<'a, L: Onlooker> Seen<'a, L> {
    /// Who tells an onlooker of this place, of no states so far.
    pub fn of(onlooker: &'a L, place: Place) -> Seen<'a, L> {
        Seen {
            onlooker,
            place,
            told: 0,
        }
    }
}

impl<L: Onlooker> Watch for Seen<'_, L> {
    fn see(&mut self, looked_at: usize, _found: usize) {
        // Where there are fewer than before, another search began.
        let more = looked_at.checked_sub(self.told).unwrap_or(looked_at);
        self.onlooker.see(self.place, more);
        self.told = looked_at;
    }
}
