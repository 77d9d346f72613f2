//! A job.
ghost use Rattle.std.specs.Prelude.{◌≡◌, ◌≢◌, ◌<◌, ◌≤◌, IfErr, IfOk, Err, option_map, slice_get, length};
ghost use Rattle.ulfm_job.specs.Job.{IsJob, step_count, script_at, is_decided_together, may_leave, turns_at};

use crate::clause::Clause;
use crate::condition::Condition;
use crate::fault::JobFault;
use crate::joint::{is_decided_together, is_left, without};
use crate::left_step::LeftStep;
use crate::limits::MOST_STEPS;
use crate::naming::Naming;
use crate::script_with_stop::{
    copied_scripts, moved_clauses, moved_conditions, moved_left, moved_namings, stopped_at,
};
use crate::step::Step;
use crate::words::StepWords;
use std::marker::Model;
use ulfm_base::OutOfMemory;

/// What 1 to 8 ranks are to do: the room of an inbox (1 to 64 items), the most polls of one step (1 to 10,000,000),
/// the steps of each rank, 256 at most in all, on what conditions some are played, what some expect of their answers, which may be
/// given up early, and which are on communicators that earlier ones make.
#[derive(Drop)]
pub struct Job {
    capacity: u8,
    turns: u32,
    scripts: Vec<Vec<Step>>,
    conditions: Vec<Condition>,
    expected: Vec<Clause>,
    left: Vec<LeftStep>,
    namings: Vec<Naming>,
}

impl Model for Job {
    ghost use Rattle.ulfm_job.specs.Job.{JobView, IsJob, job_view, leaving, naming};

    ghost Value = { JobView };

    ghost view = { λ j. naming j.namings.items (leaving j.left.items (job_view j.capacity j.turns j.scripts.items j.conditions.items j.expected.items)) };

    ghost invariant = { λ j. IsJob (naming j.namings.items (leaving j.left.items (job_view j.capacity j.turns j.scripts.items j.conditions.items j.expected.items))) };
}

impl Job {
    ghost use Rattle.ulfm_job.specs.Job.{job_view, leaving, naming, with_left, with_stop, with_turns};
    ghost use Rattle.ulfm_job.specs.Naming.{called_at, naming_at};
    ghost use Rattle.ulfm_job.specs.Words.{told_at, told_view};

    /// The job of these scripts, one for each rank, of these conditions and of what is expected. All of them keep the limits of a job.
    /// No step of it may be given up early, nor names a communicator.
    pub fn new(
        capacity: u8,
        turns: u32,
        scripts: Vec<Vec<Step>>,
        conditions: Vec<Condition>,
        expected: Vec<Clause>,
    ) -> Job
        requires { IsJob (job_view capacity turns scripts.items conditions.items expected.items) }
        ensures { result ≡ job_view capacity turns scripts.items conditions.items expected.items }
    {
        let left = Vec::new(*scripts.allocator());
        let namings = Vec::new(*scripts.allocator());
        Job {
            capacity,
            turns,
            scripts,
            conditions,
            expected,
            left,
            namings,
        }
    }

    /// The same job, of which these steps may be given up though polls are left, and no others.
    pub fn leaving(self, left: Vec<LeftStep>) -> Job
        ensures { result ≡ leaving left.items self }
    {
        let Job {
            capacity,
            turns,
            scripts,
            conditions,
            expected,
            left: _,
            namings,
        } = self;
        Job {
            capacity,
            turns,
            scripts,
            conditions,
            expected,
            left,
            namings,
        }
    }

    /// The same job, whose steps name these communicators, and no others.
    pub fn naming(self, namings: Vec<Naming>) -> Job
        ensures { result ≡ naming namings.items self }
    {
        let Job {
            capacity,
            turns,
            scripts,
            conditions,
            expected,
            left,
            namings: _,
        } = self;
        Job {
            capacity,
            turns,
            scripts,
            conditions,
            expected,
            left,
            namings,
        }
    }

    /// The same job with another number of turns, 1 to 10,000,000.
    pub fn with_turns(self, turns: u32) -> Job
        requires some { 0 < turns }
        requires most { turns ≤ 10000000 }
        ensures { result ≡ with_turns turns self }
    {
        let Job {
            capacity,
            turns: _,
            scripts,
            conditions,
            expected,
            left,
            namings,
        } = self;
        let job = Job::new(capacity, turns, scripts, conditions, expected);
        job.leaving(left).naming(namings)
    }

    /// The job of which one more step may be given up though polls are left, if ranks decide it together, as by a rank that dies
    /// inside it. Then nothing is expected of its answer.
    ///
    /// # Errors
    ///
    /// `OutOfMemory` where a growth was refused.
    pub fn with_left(self, rank: u8, at: u16) -> Result<Job, OutOfMemory>
        ensures { IfOk result (λ job. job ≡ with_left rank at self) }
    {
        let Job {
            capacity,
            turns,
            scripts,
            conditions,
            expected,
            mut left,
            namings,
        } = self;
        left.push(LeftStep { rank, at })?;
        let others = without(expected, rank, at);
        let job = Job::new(capacity, turns, scripts, conditions, others);
        Ok(job.leaving(left).naming(namings))
    }

    /// The job with one more step, a stop, before the step `at` of a rank, or after its last one. Later steps have a number more,
    /// by which its waits, receives of probed letters, cancels, conditions and namings then name them. The job itself stays as it is.
    ///
    /// # Errors
    ///
    /// `TooLarge` where the job has 256 steps, else `OutOfMemory` where a growth was refused.
    pub fn with_stop(&self, rank: u8, at: u16) -> Result<Job, JobFault>
        requires inside { rank < self.now.ranks }
        requires place { at ≤ length (script_at self.now rank) }
        ensures exact { IfOk result (λ job. job ≡ with_stop rank at self.now) }
        ensures full { step_count self.now.scripts ≡ 256 → result ≡ Err JobFault.TooLarge }
        ensures memory { step_count self.now.scripts ≢ 256 → IfErr result (λ fault. fault ≡ JobFault.OutOfMemory) }
    {
        if self.len() == MOST_STEPS {
            return Err(JobFault::TooLarge);
        }
        let alloc = *self.scripts.allocator();
        let script = self.script(rank);
        let len = script.len();
        let steps = stopped_at(alloc, script, at)?;
        let conditions = moved_conditions(alloc, self.conditions.as_slice(), rank, at, len)?;
        let expected = moved_clauses(alloc, self.expected.as_slice(), rank, at, len)?;
        let mut scripts = copied_scripts(alloc, self.scripts.as_slice())?;
        scripts[rank as usize] = steps;
        let left = moved_left(alloc, self.left.as_slice(), rank, at, len)?;
        let namings = moved_namings(alloc, self.namings.as_slice(), rank, at, len)?;
        let job = Job::new(self.capacity, self.turns, scripts, conditions, expected);
        Ok(job.leaving(left).naming(namings))
    }

    /// How many ranks there are, 1 to 8. Each has a script.
    pub fn ranks(&self) -> u8
        ensures exact { result ≡ self.now.ranks }
        ensures ranges { IsJob self.now }
    {
        self.scripts.len() as u8
    }

    /// How many items an inbox has room for, 1 to 64.
    pub fn capacity(&self) -> u8
        ensures exact { result ≡ self.now.capacity }
        ensures ranges { IsJob self.now }
    {
        self.capacity
    }

    /// How many polls one step gets at most, 1 to 10,000,000.
    pub fn turns(&self) -> u32
        ensures exact { result ≡ self.now.turns }
        ensures ranges { IsJob self.now }
    {
        self.turns
    }

    /// How many steps there are in all, 0 to 256.
    pub fn len(&self) -> usize
        ensures exact { result ≡ step_count self.now.scripts }
        ensures ranges { IsJob self.now }
    {
        self.scripts.iter().map(|script| script.len()).sum()
    }

    /// A rank's steps, in the order of the file: none where there is no such rank.
    pub fn script(&self, rank: u8) -> &[Step]
        ensures { result.now ≡ script_at self.now rank }
    {
        match self.scripts.get(rank as usize) {
            Some(script) => script.as_slice(),
            None => &[],
        }
    }

    /// How many steps a rank has: none where there is no such rank.
    pub fn script_len(&self, rank: u8) -> usize
        ensures exact { result ≡ length (script_at self.now rank) }
        ensures ranges { IsJob self.now }
    {
        // Read, so that the limits that each job keeps are known here.
        let _ = &self.scripts;
        self.script(rank).len()
    }

    /// On what conditions steps are played: all those of one of a step's alternatives have to hold. A step that has none is played.
    pub fn conditions(&self) -> &[Condition]
        ensures { result.now ≡ self.now.conditions }
    {
        &self.conditions
    }

    /// What steps expect of their own answers: one of a step's own has to hold.
    pub fn expected(&self) -> &[Clause]
        ensures { result.now ≡ self.now.expected }
    {
        &self.expected
    }

    /// Which steps may be given up though polls are left, if ranks decide them together.
    pub fn left(&self) -> &[LeftStep]
        ensures { result.now ≡ self.now.left }
    {
        &self.left
    }

    /// Which steps are on communicators that earlier steps make.
    pub fn namings(&self) -> &[Naming]
        ensures { result.now ≡ self.now.namings }
    {
        &self.namings
    }

    /// The naming of a step, if it has one.
    pub fn naming_at(&self, rank: u8, place: usize) -> Option<&Naming>
        ensures { option_map (λ naming. naming.now) result ≡ naming_at self.now rank place }
    {
        self.namings.iter().find(|naming| naming.is_of(rank, place))
    }

    /// The name by which a step calls its communicator, if it does.
    pub fn called(&self, rank: u8, place: usize) -> Option<&str>
        ensures { option_map (λ name. name.now) result ≡ called_at self.now rank place }
    {
        Some(self.naming_at(rank, place)?.name.as_str())
    }

    /// A step as it is told of, where there is one.
    pub fn told(&self, rank: u8, place: usize) -> Option<StepWords<'_>>
        ensures { option_map told_view result ≡ told_at self.now rank place }
    {
        Some(StepWords {
            step: self.step(rank, place)?,
            called: self.called(rank, place),
        })
    }

    /// Whether ranks decide a step together: a shrink or an agreement.
    pub fn is_joint(&self, rank: u8, place: usize) -> bool
        ensures { result ≡ is_decided_together (slice_get (script_at self.now rank) place) }
    {
        is_decided_together(self.step(rank, place))
    }

    /// Whether a step may be given up though polls are left, once it stands open.
    pub fn may_leave(&self, rank: u8, place: usize) -> bool
        ensures { result ≡ may_leave self.now rank place }
    {
        self.is_joint(rank, place) && is_left(self.left.as_slice(), rank, place)
    }

    /// After how many polls a step that stands open is given up: 1 where it may be given up early, else `turns`.
    pub fn turns_at(&self, rank: u8, place: usize) -> u32
        ensures exact { result ≡ turns_at self.now rank place }
        ensures some { 0 < result }
        ensures most { result ≤ self.now.turns }
        ensures ranges { IsJob self.now }
    {
        let turns = self.turns();
        if self.may_leave(rank, place) {
            1
        } else {
            turns
        }
    }

    /// The step at a place, from 0, of a rank's script, where there is one. It never answers out of memory.
    pub fn step(&self, rank: u8, place: usize) -> Option<&Step>
        ensures { option_map (λ step. step.now) result ≡ slice_get (script_at self.now rank) place }
    {
        self.script(rank).get(place)
    }
}
