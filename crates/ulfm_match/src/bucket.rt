//! The entries of one key.
ghost use Rattle.std.specs.Prelude.{◌≡◌, ◌≢◌, ◌↔◌, ◌∷◌, [], Contains, IfSome, IsTrue, None, OnOk, nat_eq};
ghost use Rattle.indexmap.specs.IndexMap.{get};
ghost use Rattle.ulfm_match.specs.inside.Buckets.{Sweeps, SweepsFor, Grows, numbers_in};

use crate::pool::Numbered;
use std::alloc::Global;
use std::collections::VecDeque;
use ulfm_base::OutOfMemory;

/// The numbers of the entries of one key, in rising order. Some may be of entries that are gone. Most keys have one entry, whose
/// number takes no block of the heap.
#[derive(Drop)]
pub(crate) struct Bucket {
    /// The first number.
    pub(crate) first: Option<u64>,
    /// The numbers after it.
    pub(crate) rest: VecDeque<u64>,
    /// How many of the numbers are of entries that are gone, where not many entries went at once.
    pub(crate) gone: usize,
}

/// Drops numbers of entries that are gone from the front, at most so many. Answers how many it dropped.
#[inline(always)]
fn trim<X>(numbers: &mut VecDeque<u64>, live: &Numbered<X>, most: usize) -> usize
    ensures { SweepsFor live.now numbers.old.items numbers.new.items }
{
    for k in 0..most {
        match numbers.front() {
            Some(number) => {
                if live.contains_key(number) {
                    return k;
                }
            }
            None => return k,
        }
        let _ = numbers.pop_front();
    }
    most
}

/// Drops a number from the front, where it stands there. Answers whether it does.
#[inline(always)]
fn pop_where(numbers: &mut VecDeque<u64>, number: u64) -> bool
    ensures { Sweeps (λ n. n ≢ number) numbers.old.items numbers.new.items }
{
    match numbers.front() {
        Some(front) => {
            if *front != number {
                return false;
            }
        }
        None => return false,
    }
    let _ = numbers.pop_front();
    true
}

/// Drops a number from the back, where it stands there. Answers whether it does.
fn pop_back_where(numbers: &mut VecDeque<u64>, number: u64) -> bool
    ensures { Sweeps (λ n. n ≢ number) numbers.old.items numbers.new.items }
{
    match numbers.back() {
        Some(back) => {
            if *back != number {
                return false;
            }
        }
        None => return false,
    }
    let _ = numbers.pop_back();
    true
}

/// Drops numbers of entries that are gone from the back, at most so many. Answers how many it dropped.
#[inline(always)]
fn trim_back<X>(numbers: &mut VecDeque<u64>, live: &Numbered<X>, most: usize) -> usize
    ensures { SweepsFor live.now numbers.old.items numbers.new.items }
{
    for k in 0..most {
        match numbers.back() {
            Some(number) => {
                if live.contains_key(number) {
                    return k;
                }
            }
            None => return k,
        }
        let _ = numbers.pop_back();
    }
    most
}

/// Drops all numbers of entries that are gone.
fn drop_gone<X>(numbers: &mut VecDeque<u64>, live: &Numbered<X>)
    ensures { SweepsFor live.now numbers.old.items numbers.new.items }
{
    numbers.retain(|number| live.contains_key(number));
}

/// Puts a number last.
#[inline(always)]
fn push(numbers: &mut VecDeque<u64>, number: u64) -> Result<(), OutOfMemory>
    ensures put { OnOk result (Contains numbers.new.items number) }
    ensures grows { Grows number numbers.old.items numbers.new.items }
{
    numbers.push_back(number)?;
    Ok(())
}

impl Clone for Bucket {
    ghost is_clone = { λ x y. numbers_in y ≡ numbers_in x };

    fn clone(&self) -> Result<Bucket, OutOfMemory> {
        Ok(Bucket {
            first: self.first,
            rest: self.rest.clone()?,
            gone: self.gone,
        })
    }
}

impl Bucket {
    /// A bucket of one number.
    pub(crate) fn of(alloc: Global, number: u64) -> Bucket
        ensures { numbers_in result ≡ number ∷ [] }
    {
        Bucket {
            first: Some(number),
            rest: VecDeque::new(alloc),
            gone: 0,
        }
    }

    /// Whether there is no number.
    pub(crate) fn is_empty(&self) -> bool
        ensures { IsTrue result ↔ (numbers_in self.now ≡ []) }
    {
        self.first.is_none() && self.rest.is_empty()
    }

    /// Puts a number last.
    #[inline(always)]
    pub(crate) fn push(&mut self, number: u64) -> Result<(), OutOfMemory>
        ensures put { OnOk result (Contains (numbers_in self.new) number) }
        ensures grows { Grows number (numbers_in self.old) (numbers_in self.new) }
    {
        if self.is_empty() {
            self.first = Some(number);
            return Ok(());
        }
        push(&mut self.rest, number)
    }

    /// Drops a number from the front, where it stands there. Answers whether it does.
    #[inline(always)]
    fn pop_where(&mut self, number: u64) -> bool
        ensures { Sweeps (λ n. n ≢ number) (numbers_in self.old) (numbers_in self.new) }
    {
        let Some(first) = self.first else {
            return pop_where(&mut self.rest, number);
        };
        if first != number {
            return false;
        }
        self.first = None;
        true
    }

    /// Drops numbers of entries that are gone from the front, at most so many. Answers how many it dropped.
    fn trim<X>(&mut self, live: &Numbered<X>, most: usize) -> usize
        ensures { SweepsFor live.now (numbers_in self.old) (numbers_in self.new) }
    {
        let Some(first) = self.first else {
            return trim(&mut self.rest, live, most);
        };
        if live.contains_key(&first) {
            return 0;
        }
        self.first = None;
        trim(&mut self.rest, live, most.saturating_sub(1)).saturating_add(1)
    }

    /// Drops a number whose entry went from the back, where it stands there, and with it those before it that are gone. Answers
    /// whether it does.
    fn drop_last<X>(&mut self, live: &Numbered<X>, number: u64) -> bool
        requires { get nat_eq live.now number ≡ None }
        ensures { SweepsFor live.now (numbers_in self.old) (numbers_in self.new) }
    {
        if !pop_back_where(&mut self.rest, number) {
            return false;
        }
        if self.gone > 0 {
            let dropped = trim_back(&mut self.rest, live, self.gone);
            self.gone = self.gone.saturating_sub(dropped);
        }
        true
    }

    /// Notes that the entry of a number went, or many. The number goes where it stands at an end, and with it those next to it that
    /// are gone.
    #[inline(always)]
    fn trim_where<X>(&mut self, live: &Numbered<X>, went: Option<u64>)
        requires { IfSome went (λ n. get nat_eq live.now n ≡ None) }
        ensures { SweepsFor live.now (numbers_in self.old) (numbers_in self.new) }
    {
        let Some(number) = went else {
            let _ = self.trim(live, 1);
            return;
        };
        if !self.pop_where(number) {
            if !self.drop_last(live, number) {
                self.gone = self.gone.saturating_add(1);
            }
            return;
        }
        if self.gone > 0 {
            let dropped = self.trim(live, self.gone);
            self.gone = self.gone.saturating_sub(dropped);
        }
    }

    /// Notes that the entry of a number went, or many. The number goes at once from an end, and else once half of all are gone;
    /// those of many go at once.
    #[inline(always)]
    pub(crate) fn sweep<X>(&mut self, live: &Numbered<X>, went: Option<u64>)
        requires { IfSome went (λ n. get nat_eq live.now n ≡ None) }
        ensures { SweepsFor live.now (numbers_in self.old) (numbers_in self.new) }
    {
        self.trim_where(live, went);
        if went.is_none() || self.gone > self.rest.len() / 2 {
            drop_gone(&mut self.rest, live);
            self.gone = 0;
        }
    }
}
