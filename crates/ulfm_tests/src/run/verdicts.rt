//! Runs by decisions that nobody proposed.
ghost use Rattle.std.specs.Prelude.{◌≡◌, ◌<◌, Some, length, slice_set};

use super::inventor::inventors;
use super::untrue_reports;
use std::alloc::Global;
use std::sync::Wait;
use std::test::Fail;
use std::thread::Threads;
use ulfm_base::{Context, Contribution, Decision, Purpose, RankSet, Topic, WorldRank};
use ulfm_carrier::{LaneEnds, lanes};
use ulfm_job::Job;
use ulfm_reader::ReadJob;
use ulfm_run::run_job;

/// A rank stops, and the others shrink.
const SHRINK_OF_FOUR: &str = r#"ranks = 4
capacity = 4
turns = 1000000
step = [
    {rank = 0, op = "shrink"},
    {rank = 1, op = "stop"},
    {rank = 2, op = "shrink"},
    {rank = 3, op = "shrink"},
]
"#;

/// A rank stops, and the others agree.
const AGREEMENT_OF_FOUR: &str = r#"ranks = 4
capacity = 4
turns = 1000000
step = [
    {rank = 0, op = "agree", flag = 7},
    {rank = 1, op = "stop"},
    {rank = 2, op = "agree", flag = 7},
    {rank = 3, op = "agree", flag = 7},
]
"#;

/// Rank 3 stops, once it knows that the others shrank.
const STOPS_LATER: &str = r#"ranks = 4
capacity = 4
turns = 1000000
step = [
    {rank = 0, op = "shrink"},
    {rank = 0, op = "send", to = 3, tag = 1, body = ""},
    {rank = 1, op = "shrink"},
    {rank = 1, op = "send", to = 3, tag = 1, body = ""},
    {rank = 2, op = "shrink"},
    {rank = 2, op = "send", to = 3, tag = 1, body = ""},
    {rank = 3, op = "shrink"},
    {rank = 3, op = "recv", from = 0},
    {rank = 3, op = "wait", req = 1},
    {rank = 3, op = "recv", from = 1},
    {rank = 3, op = "wait", req = 3},
    {rank = 3, op = "recv", from = 2},
    {rank = 3, op = "wait", req = 5},
    {rank = 3, op = "stop"},
]
"#;

/// What a decision says though it isn't so.
#[derive(Clone, Copy)]
pub(super) enum Invention {
    /// That rank 3 stopped.
    Stop,
    /// That rank 1 entered the shrink, with no failures known to it.
    Entry,
    /// That rank 1 entered the agreement, with the flag 0.
    Flag,
}

/// The decision, where rank 3 is a member with rank 3 excluded.
#[tactic(auto, using(crate::proofs::Invented::also_excluded))]
fn with_stop(decision: &Decision) -> Decision
    ensures { result.topic ≡ decision.now.topic }
{
    let last = WorldRank { number: 3 };
    if !decision.old.contains(last) {
        return decision.copied();
    }
    let mut excluded = decision.excluded;
    excluded.insert(last);
    let fresh = decision.old.excluding(excluded);
    Decision {
        topic: decision.topic,
        old: decision.old.copied(),
        entries: decision.entries,
        excluded,
        fresh,
        value: decision.value,
    }
}

/// The decision of a shrink, where rank 1 is a member with rank 1 listed.
#[tactic(auto, using(crate::proofs::Invented::also_listed))]
fn with_entry(decision: &Decision) -> Decision
    ensures { result.topic ≡ decision.now.topic }
{
    if !decision.old.contains(WorldRank { number: 1 }) {
        return decision.copied();
    }
    let Purpose::Shrink { .. } = decision.topic.purpose else {
        return decision.copied();
    };
    let mut entries = decision.entries;
    entries[1] = Some(Contribution {
        known: RankSet::new(),
        flag: None,
    });
    Decision {
        topic: decision.topic,
        old: decision.old.copied(),
        entries,
        excluded: decision.excluded,
        fresh: decision.fresh.copied(),
        value: decision.value,
    }
}

/// The entries with another one of rank 1.
fn with_second(
    entries: &[Option<Contribution>; 8],
    brought: Contribution,
) -> [Option<Contribution>; 8]
    ensures changed { result ≡ slice_set entries.now 1 (Some brought) }
    ensures inside { 1 < length entries.now }
{
    let mut changed = *entries;
    changed[1] = Some(brought);
    changed
}

/// The decision of an agreement, where rank 1 is a member with rank 1 listed with the flag 0, so that the value is 0.
fn with_flag(decision: &Decision) -> Decision
    ensures { result.topic ≡ decision.now.topic }
{
    if !decision.old.contains(WorldRank { number: 1 }) {
        return decision.copied();
    }
    let Purpose::Agree { .. } = decision.topic.purpose else {
        return decision.copied();
    };
    let zero = Contribution {
        known: RankSet::new(),
        flag: Some(0),
    };
    Decision {
        topic: decision.topic,
        old: decision.old.copied(),
        entries: with_second(&decision.entries, zero),
        excluded: decision.excluded,
        fresh: decision.fresh.copied(),
        value: Some(0),
    }
}

/// The decision with an invention.
pub(super) fn invented(decision: &Decision, invention: Invention) -> Decision
    ensures { result.topic ≡ decision.now.topic }
{
    match invention {
        Invention::Stop => with_stop(decision),
        Invention::Entry => with_entry(decision),
        Invention::Flag => with_flag(decision),
    }
}

/// What the job of an invention decides on.
fn topic_of(invention: Invention) -> Topic {
    let purpose = match invention {
        Invention::Flag => Purpose::Agree { round: 0 },
        _ => Purpose::Shrink { round: 0 },
    };
    Topic {
        context: Context::WORLD,
        purpose,
    }
}

/// How many reports of a run over lanes, of a job of four ranks that was read, show that an invention was adopted, 0 where none do.
fn caught_as_read<R>(rt: &R, alloc: Global, job: &Job, invention: Invention) -> Result<usize, Fail>
where
    R: Threads + Wait + Sync,
{
    let ends = lanes(alloc, 4, job.capacity())?;
    let deciders = inventors(alloc, topic_of(invention), invention)?;
    let run = run_job(rt, alloc, job, ends, deciders);
    Ok(untrue_reports(&run))
}

/// How many reports of a run over lanes, of the job of a text, show that an invention was adopted, 0 where none do.
fn caught<R>(rt: &R, alloc: Global, text: &str, invention: Invention) -> Result<usize, Fail>
where
    R: Threads + Wait + Sync,
{
    let job = Job::read(alloc, text.as_bytes())?;
    caught_as_read(rt, alloc, &job, invention)
}

#[test]
fn an_invented_stop_is_caught(rt: HostRuntime) -> Result<(), Fail> {
    let alloc = rt.alloc();
    let found = caught(&rt, alloc, SHRINK_OF_FOUR, Invention::Stop)?;
    assert_eq!(rt; found, 4);
    Ok(())
}

#[test]
fn an_invented_entry_is_caught(rt: HostRuntime) -> Result<(), Fail> {
    let alloc = rt.alloc();
    let found = caught(&rt, alloc, SHRINK_OF_FOUR, Invention::Entry)?;
    assert_eq!(rt; found, 4);
    Ok(())
}

#[test]
fn an_invented_flag_is_caught(rt: HostRuntime) -> Result<(), Fail> {
    let alloc = rt.alloc();
    let found = caught(&rt, alloc, AGREEMENT_OF_FOUR, Invention::Flag)?;
    assert_eq!(rt; found, 4);
    Ok(())
}

#[test]
fn a_stop_after_the_decision_is_caught(rt: HostRuntime) -> Result<(), Fail> {
    let alloc = rt.alloc();
    let found = caught(&rt, alloc, STOPS_LATER, Invention::Stop)?;
    assert_eq!(rt; found, 4);
    Ok(())
}
