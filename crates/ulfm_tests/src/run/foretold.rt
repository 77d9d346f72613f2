//! Runs in which ranks take items before they were sent: the reports fit, pair by pair, and have no one order.
ghost use Rattle.std.specs.Prelude.{◌≤◌, IfOk};
ghost use Rattle.ulfm_base.specs.Items.{ComesFrom};
ghost use Rattle.ulfm_carrier.specs.Family.{AllFresh, IsFresh};

use super::laid::never;
use super::untrue_reports;
use std::alloc::Global;
use std::snapshot::Snapshot;
use std::sync::Wait;
use std::test::Fail;
use std::thread::Threads;
use ulfm_base::{Body, Context, Envelope, Item, Letter, Tag, WorldRank};
use ulfm_board::{Seat, seats};
use ulfm_carrier::{Ends, Residue};
use ulfm_job::Job;
use ulfm_reader::ReadJob;
use ulfm_run::run_job;

/// Two ranks each send after they received.
const LETTERS: &str = r#"ranks = 2
capacity = 1
turns = 20
step = [
    {rank = 0, op = "recv", from = 1},
    {rank = 0, op = "wait", req = 0},
    {rank = 0, op = "send", to = 1, tag = 1, body = ""},
    {rank = 1, op = "recv", from = 0},
    {rank = 1, op = "wait", req = 0},
    {rank = 1, op = "send", to = 0, tag = 1, body = ""},
]
"#;

/// Two ranks each stop once they know that the other did.
const STOPS: &str = r#"ranks = 2
capacity = 1
turns = 20
step = [
    {rank = 0, op = "recv", from = 1},
    {rank = 0, op = "wait", req = 0},
    {rank = 0, op = "stop"},
    {rank = 1, op = "recv", from = 0},
    {rank = 1, op = "wait", req = 0},
    {rank = 1, op = "stop"},
]
"#;

/// Rank 2 revokes, and tells nobody: all its notices are lost with its stop.
const REVOCATIONS: &str = r#"ranks = 3
capacity = 1
turns = 20
step = [
    {rank = 2, op = "revoke"},
    {rank = 2, op = "stop"},
]
"#;

/// What is handed out.
#[derive(Clone, Copy)]
enum Kind {
    Letter,
    Stop,
    Revocation,
}

/// An end that hands out one item of a rank, whether this sent it or not. It pushes nothing, and its gathering waits for ever.
#[derive(Drop)]
struct Foretelling {
    me: WorldRank,
    ranks: u8,
    from: WorldRank,
    next: Option<Item>,
    handed: Option<Snapshot<Item>>,
}

impl Ends for Foretelling {
    ghost use Rattle.std.specs.Prelude.{[], ℕ};
    ghost use Rattle.ulfm_base.specs.Lists.{at};
    ghost use Rattle.ulfm_carrier.specs.Family.{Keeps, IsGathered};
    ghost use Rattle.ulfm_tests.specs.Foretold.{handed_from, MayForetell};
    ghost use Rattle.ulfm_tests.specs.declared.run.foretold.Foretelling.{Foretelling as Foreteller};

    type Name = u8;

    ghost name = { λ e. e.me.number };

    ghost one_call = { λ names. Unit {0} };

    ghost place = { λ e. e.me.number };

    ghost count = { λ e. e.ranks };

    ghost pushed = { λ e p. [] };

    ghost taken = { λ e p. handed_from e.handed e.from.number p };

    ghost ready = { λ e. MayForetell e.ranks e.from.number e.next e.handed };

    fn me(&self) -> WorldRank {
        self.me
    }

    fn push<R: Wait>(&mut self, rt: &R, dest: u8, item: Item) -> Result<(), Item> {
        Err(item)
    }

    fn pop<R: Wait>(&mut self, rt: &R) -> Option<(WorldRank, Item)> {
        let item = self.next.take()?;
        self.handed = Some(Snapshot::of(&item));
        Some((self.from, item))
    }

    fn gather<R: Wait>(rt: &R, ends: Vec<Foretelling>) -> (Residue, Vec<Foretelling>)
        requires family { Unit {0} }
        requires ready { (k : ℕ) (e : Foreteller) → at ends.items k e → MayForetell e.ranks e.from.number e.next e.handed }
        ensures same { Keeps (λ (e : Foreteller). e.me.number) (λ (e : Foreteller) p. []) (λ (e : Foreteller) p. handed_from e.handed e.from.number p) ends.items result.1.items }
        ensures residue { IsGathered (λ (e : Foreteller) p. []) (λ (e : Foreteller) p. handed_from e.handed e.from.number p) ends.items result.0.inboxes.items }
    {
        let _ = ends;
        never(rt)
    }
}

/// Such an item of a rank.
fn item_of(alloc: Global, kind: Kind, from: WorldRank) -> Result<Item, Fail>
    ensures { IfOk result (λ item. ComesFrom from.number item) }
{
    match kind {
        Kind::Letter => {
            let envelope = Envelope {
                context: Context::WORLD,
                source: from,
                tag: Tag::new(1)?,
            };
            let body = Body::from_bytes(alloc, b"")?;
            Ok(Item::Letter(Letter { envelope, body }))
        }
        Kind::Stop => Ok(Item::Gone),
        Kind::Revocation => Ok(Item::Revoke(Context::WORLD)),
    }
}

/// The end of a rank: those of the ranks 0 and 1 hand out such an item of each other, and the others nothing.
fn end_of(alloc: Global, kind: Kind, ranks: u8, me: WorldRank) -> Result<Foretelling, Fail>
    requires { 2 ≤ ranks }
    ensures { IfOk result (IsFresh ⟦<Foretelling as Ends>⟧.count ⟦<Foretelling as Ends>⟧.pushed ⟦<Foretelling as Ends>⟧.taken ⟦<Foretelling as Ends>⟧.ready ranks) }
{
    let from = WorldRank {
        number: if me.number == 0 { 1 } else { 0 },
    };
    let next = if me.number < 2 {
        Some(item_of(alloc, kind, from)?)
    } else {
        None
    };
    Ok(Foretelling {
        me,
        ranks,
        from,
        next,
        handed: None,
    })
}

/// The ends of so many ranks.
fn ends_of(alloc: Global, kind: Kind, ranks: u8) -> Result<Vec<Foretelling>, Fail>
    requires some { 2 ≤ ranks }
    requires few { ranks ≤ 8 }
    ensures { IfOk result (λ ends. AllFresh ⟦<Foretelling as Ends>⟧.count ⟦<Foretelling as Ends>⟧.pushed ⟦<Foretelling as Ends>⟧.taken ⟦<Foretelling as Ends>⟧.ready ends.items) }
{
    let mut ends = Vec::new(alloc);
    for number in 0..ranks {
        ends.push(end_of(alloc, kind, ranks, WorldRank { number })?)?;
    }
    Ok(ends)
}

/// How many reports of a run of a job that was read show that the ranks took such items before they were sent, 0 where none do.
fn refused_as_read<R>(
    rt: &R,
    alloc: Global,
    job: &Job,
    kind: Kind,
    ranks: u8,
) -> Result<usize, Fail>
where
    R: Threads + Wait + Sync,
    requires some { 2 ≤ ranks }
    requires few { ranks ≤ 8 }
{
    let ends = ends_of(alloc, kind, ranks)?;
    let deciders = seats(alloc, ranks)?;
    let run = run_job(rt, alloc, job, ends, deciders);
    Ok(untrue_reports(&run))
}

/// How many reports of a run of the job of a text show that the ranks took such items before they were sent, 0 where none do.
fn refused<R>(rt: &R, alloc: Global, text: &str, kind: Kind, ranks: u8) -> Result<usize, Fail>
where
    R: Threads + Wait + Sync,
    requires some { 2 ≤ ranks }
    requires few { ranks ≤ 8 }
{
    let job = Job::read(alloc, text.as_bytes())?;
    refused_as_read(rt, alloc, &job, kind, ranks)
}

#[test]
fn letters_before_their_sends(rt: HostRuntime) -> Result<(), Fail> {
    let found = refused(&rt, rt.alloc(), LETTERS, Kind::Letter, 2)?;
    assert_eq!(rt; found, 2);
    Ok(())
}

#[test]
fn failures_before_they_happen(rt: HostRuntime) -> Result<(), Fail> {
    let found = refused(&rt, rt.alloc(), STOPS, Kind::Stop, 2)?;
    assert_eq!(rt; found, 2);
    Ok(())
}

#[test]
fn revocations_in_a_circle(rt: HostRuntime) -> Result<(), Fail> {
    let found = refused(&rt, rt.alloc(), REVOCATIONS, Kind::Revocation, 3)?;
    assert_eq!(rt; found, 3);
    Ok(())
}
