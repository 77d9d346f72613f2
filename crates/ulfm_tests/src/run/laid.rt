//! A carrier of the tests, laid over another.
ghost use Rattle.std.specs.Prelude.{◌≡◌, ◌≤◌, [], length, map, vec_len, vec_capacity, IfOk, IfSome};
ghost use Rattle.ulfm_carrier.specs.Family.{AllFresh};

use std::alloc::Global;
use std::sync::Wait;
use std::test::Fail;
use std::thread::Threads;
use ulfm_base::{Item, WorldRank};
use ulfm_board::{Seat, seats};
use ulfm_carrier::{Ends, Residue};
use ulfm_job::Job;
use ulfm_run::{Report, run_job};

/// What an end of the tests does beside what the end below it does.
pub trait Habit: Drop {
    /// Comes before each push.
    fn before_push(&mut self);

    /// Whether a pop looks into the inbox.
    fn looks(&mut self) -> bool;
}

/// An end over another, with a habit of its own.
#[derive(Drop)]
pub struct Laid<E, H> {
    pub inner: E,
    pub habit: H,
}

impl<E: Ends, H: Habit> Ends for Laid<E, H> {
    ghost use Rattle.std.specs.Prelude.{◌≡◌, map, ℕ};
    ghost use Rattle.ulfm_carrier.specs.Family.{Keeps, IsGathered};
    ghost use Rattle.ulfm_base.specs.Lists.{at};

    type Name = E::Name;

    ghost name = { λ e. E.name e.inner };

    ghost one_call = { E.one_call };

    ghost place = { λ e. E.place e.inner };

    ghost count = { λ e. E.count e.inner };

    ghost pushed = { λ e p. E.pushed e.inner p };

    ghost taken = { λ e p. E.taken e.inner p };

    ghost ready = { λ e. E.ready e.inner };

    fn me(&self) -> WorldRank {
        self.inner.me()
    }

    fn push<R: Wait>(&mut self, rt: &R, dest: u8, item: Item) -> Result<(), Item> {
        self.habit.before_push();
        self.inner.push(rt, dest, item)
    }

    fn pop<R: Wait>(&mut self, rt: &R) -> Option<(WorldRank, Item)> {
        if !self.habit.looks() {
            return None;
        }
        self.inner.pop(rt)
    }

    fn gather<R: Wait>(rt: &R, ends: Vec<Laid<E, H>>) -> (Residue, Vec<Laid<E, H>>)
        requires family { E.one_call (map (λ e. E.name e.inner) ends.items) }
        requires ready { (k : ℕ) (e : _) → at ends.items k e → E.ready e.inner }
        ensures same { Keeps (λ e. E.name e.inner) (λ e p. E.pushed e.inner p) (λ e p. E.taken e.inner p) ends.items result.1.items }
        ensures residue { IsGathered (λ e p. E.pushed e.inner p) (λ e p. E.taken e.inner p) ends.items result.0.inboxes.items }
    {
        let alloc = *ends.allocator();
        let inners = room(rt, alloc, ends.len());
        let habits = room(rt, alloc, ends.len());
        let back = room(rt, alloc, ends.len());
        let (inners, habits) = parted(ends, inners, habits);
        let (residue, inners) = E::gather(rt, inners);
        match laid_over(inners, habits, back) {
            Some(ends) => (residue, ends),
            None => never(rt),
        }
    }
}

/// Waits for ever.
pub fn never<T, R: Wait>(rt: &R) -> T
    ensures { ⊥ }
{
    for _ in rt.forever() {}
    unreachable!()
}

/// An empty list with room for so many. It waits for ever where there is none, since `gather` has no answer for that: the carriers of
/// `ulfm_carrier` keep room for it from the start.
fn room<T: Drop, R: Wait>(rt: &R, alloc: Global, count: usize) -> Vec<T>
    ensures { (result.items ≡ []) × (count ≤ vec_capacity result) }
{
    match Vec::with_capacity(alloc, count) {
        Ok(list) => list,
        Err(_) => never(rt),
    }
}

/// The ends below these, and their habits.
fn parted<E: Drop, H: Drop>(
    ends: Vec<Laid<E, H>>,
    inners: Vec<E>,
    habits: Vec<H>,
) -> (Vec<E>, Vec<H>)
    requires room { (vec_len ends ≤ vec_capacity inners) × (vec_len ends ≤ vec_capacity habits) }
    requires empty { (inners.items ≡ []) × (habits.items ≡ []) }
    ensures { result.0.items ≡ map (λ e. e.inner) ends.items }
{
    let mut inners = inners;
    let mut habits = habits;
    for end in ends {
        let Laid { inner, habit } = end;
        inners.push_reserved(inner);
        habits.push_reserved(habit);
    }
    (inners, habits)
}

/// Ends over these, with these habits. Nothing: there are fewer habits than ends.
fn laid_over<E: Drop, H: Drop>(
    inners: Vec<E>,
    habits: Vec<H>,
    room: Vec<Laid<E, H>>,
) -> Option<Vec<Laid<E, H>>>
    requires room { (vec_len inners ≤ vec_capacity room) × (room.items ≡ []) }
    ensures { IfSome result (λ ends. map (λ e. e.inner) ends.items ≡ inners.items) }
{
    let mut ends = room;
    let mut habits = habits.into_iter();
    for inner in inners {
        let habit = habits.next()?;
        ends.push_reserved(Laid { inner, habit });
    }
    Some(ends)
}

/// Runs a job by ends over these, with these habits.
pub fn run_over<E, H, R>(
    rt: &R,
    alloc: Global,
    job: &Job,
    inners: Vec<E>,
    habits: Vec<H>,
) -> Result<Report<Laid<E, H>, Seat>, Fail>
where
    E: Ends + Send,
    H: Habit + Send,
    R: Threads + Wait + Sync,
    requires one_call { E.one_call (map E.name inners.items) }
    requires fresh { AllFresh E.count E.pushed E.taken E.ready inners.items }
    ensures few { IfOk result (λ report. length report.ranks.items ≤ 8) }
{
    let room = Vec::with_capacity(alloc, inners.len())?;
    let Some(ends) = laid_over(inners, habits, room) else {
        return Err(Fail::new("too few habits"));
    };
    let deciders = seats(alloc, job.ranks())?;
    Ok(run_job(rt, alloc, job, ends, deciders)?)
}
