//! Deciders that answer by what nobody proposed. A seat keeps proposals alone, so these share a cell of their own.
ghost use Rattle.std.specs.Prelude.{◌≡◌, ◌∷◌, [], All, IfOk, OnErr, None, Some};
ghost use Rattle.std.specs.Arc.{arc_value};
ghost use Rattle.once_cell.specs.Once.{Agrees, cell_name};
ghost use Rattle.ulfm_board.specs.Known.{nothing_known, OneBoard};

use super::verdicts::{Invention, invented};
use once_cell::race::{Note, OnceBox};
use std::alloc::{AllocError, Global};
use std::sync::Arc;
use ulfm_base::{Decision, OutOfMemory, Topic};
use ulfm_board::{Decider, number_of};

/// One of those that share a cell, for the decision on one topic. It holds the first decision that one of them invented.
#[derive(Drop)]
pub(super) struct Inventor {
    alloc: Global,
    number: u128,
    cell: Arc<OnceBox<Decision>>,
    note: Note<Decision>,
    invention: Invention,
    ghost tied: { note.cell ≡ cell_name (arc_value cell) },
}

/// What the cell holds, where it was empty this decision.
fn kept(
    alloc: Global,
    cell: &OnceBox<Decision>,
    note: &mut Note<Decision>,
    decision: Decision,
) -> Result<Decision, OutOfMemory>
    requires { note.old.cell ≡ cell_name cell.now }
    ensures cell { note.new.cell ≡ note.old.cell }
    ensures held { IfOk result (λ held. (note.new.known ≡ Some held) × Agrees note.old.known held) }
    ensures starves { OnErr result ((note.old.known ≡ None) × (note.new.known ≡ None)) }
{
    let first = cell.get_or_try_init_as(
        move || -> Result<Box<Decision>, OutOfMemory> { Ok(Box::new(alloc, decision)?) },
        note,
    )?;
    Ok(first.copied())
}

impl Decider for Inventor {
    ghost use Rattle.std.specs.Prelude.{◌∷◌, [], Some, ⊤};
    ghost use Rattle.std.specs.Arc.{arc_value};
    ghost use Rattle.once_cell.specs.Once.{cell_name};
    ghost use Rattle.ulfm_tests.specs.Inventing.{known_by};

    ghost board = { λ i. Some (cell_name (arc_value i.cell) ∷ []) };

    ghost known = { λ i. known_by i.number i.note.known };

    ghost says = { λ _. ⊤ };

    fn decide(&mut self, decision: Decision) -> Result<Decision, OutOfMemory> {
        if number_of(decision.topic) == self.number {
            let mine = invented(&decision, self.invention);
            return kept(self.alloc, &self.cell, &mut self.note, mine);
        }
        Err(AllocError)
    }

    fn same(&mut self, other: &mut Inventor) {
        let theirs = other.note.again();
        self.note.compare(theirs);
    }
}

/// One that knows nothing yet.
fn new_inventor(
    alloc: Global,
    cell: Arc<OnceBox<Decision>>,
    number: u128,
    invention: Invention,
) -> Inventor
    ensures board { ⟦<Inventor as Decider>⟧.board result ≡ Some (cell_name (arc_value cell) ∷ []) }
    ensures nothing_known { ⟦<Inventor as Decider>⟧.known result ≡ nothing_known }
{
    let note = cell.note();
    Inventor {
        alloc,
        number,
        cell,
        note,
        invention,
    }
}

/// Four that share a cell, for the decision on this topic.
pub(super) fn inventors(
    alloc: Global,
    topic: Topic,
    invention: Invention,
) -> Result<Vec<Inventor>, OutOfMemory>
    ensures one_board { IfOk result (λ all. OneBoard ⟦<Inventor as Decider>⟧.board all.items) }
    ensures nothing_known { IfOk result (λ all. All (λ i. ⟦<Inventor as Decider>⟧.known i ≡ nothing_known) all.items) }
{
    let number = number_of(topic);
    let cell = Arc::new(alloc, OnceBox::new(alloc))?;
    let mut all = Vec::with_capacity(alloc, 4)?;
    for _ in 0..4usize {
        let shared = Arc::try_clone(&cell)?;
        all.push_reserved(new_inventor(alloc, shared, number, invention));
    }
    Ok(all)
}
