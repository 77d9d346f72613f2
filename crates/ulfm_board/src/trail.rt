//! What a seat has walked through of its board's register.
ghost use Rattle.std.specs.Prelude.{◌≡◌, ◌<◌, ◌≤◌, ◌+◌, ◌*◌, ◌∷◌, ◌++◌, [], ℕ, List, None, Some, length, map, replicate, IfOk, OnErr, slice_get, slice_index_or, vec_len, vec_capacity};
ghost use Rattle.once_cell.specs.declared.race.note.Note.{Note as Noted};
ghost use Rattle.ulfm_base.specs.Lists.{at};
ghost use Rattle.once_cell.specs.Once.{cell_name};
ghost use Rattle.ulfm_board.specs.Known.{Agrees};
ghost use Rattle.ulfm_board.specs.Proposals.{WasProposed};
ghost use Rattle.ulfm_board.specs.declared.proposed.Proposed.{Proposed as Kept};
ghost use Rattle.ulfm_board.specs.inside.Trail.{decision_known, names_of, new_trail, slot_name, slot_of, with_chunks, GoesOn, KnowsCell, TrailsAgree};

use crate::comparing::agree_all;
use crate::proposed::Proposed;
use crate::register::{Chunk, Slot, chunk_of, new_chunk, place_of};
use crate::row::{CELLS, Cell, Row};
use once_cell::race::Note;
use std::alloc::{AllocError, Global};
use std::marker::Model;
use ulfm_base::{Decision, OutOfMemory};

/// How many rows a board may have.
const ROWS: usize = 4_294_967_295;

/// The rows that a seat has walked through, from the register's first slot on. Notes take no bytes.
#[derive(Drop)]
pub(crate) struct Trail {
    chunks: Vec<Note<Vec<Slot>>>,
    rows: Vec<Note<Row>>,
    numbers: Vec<u128>,
    cells: Vec<Note<Proposed>>,
}

impl Model for Trail {
    ghost use Rattle.ulfm_board.specs.inside.Trail.{IsTrail, TrailView, trail_view};

    ghost Value = { TrailView };

    ghost view = { λ t. trail_view t.chunks.items t.rows.items t.numbers.items t.cells.items };

    ghost invariant = { λ t. IsTrail t.chunks.items t.rows.items t.numbers.items t.cells.items };
}

impl Trail {
    /// A trail that goes nowhere yet.
    pub(crate) fn new(alloc: Global, register: &[Chunk]) -> Result<Trail, OutOfMemory>
        ensures { IfOk result (λ trail. trail ≡ new_trail (names_of register.now)) }
    {
        let mut chunks = Vec::new(alloc);
        for chunk in register {
            chunks.push(chunk.note())?;
        }
        Ok(Trail {
            chunks,
            rows: Vec::new(alloc),
            numbers: Vec::new(alloc),
            cells: Vec::new(alloc),
        })
    }

    /// The first slot whose row has this number, as far as the trail goes.
    fn slot_of(&self, number: u128) -> Option<usize>
        ensures { result ≡ slot_of self.now.numbers number }
    {
        for slot in 0..self.numbers.len() {
            if self.numbers[slot] == number {
                return Some(slot);
            }
        }
        None
    }

    /// The slots of a chunk, which is made where there is none.
    fn chunk<'a>(
        &mut self,
        alloc: Global,
        register: &'a [Chunk],
        chunk: usize,
    ) -> Result<&'a Vec<Slot>, OutOfMemory>
        requires one_register { self.old.register ≡ names_of register.now }
        requires there { (chunk < 64) × (chunk < length register.now) }
        ensures known { IfOk result (λ slots. slice_get self.new.chunks chunk ≡ Some (Some (names_of slots.now.items))) }
        ensures only { self.new ≡ with_chunks self.old self.new.chunks }
        ensures keeps { (k : ℕ) (names : List ℕ) → at self.old.chunks k (Some names) → at self.new.chunks k (Some names) }
    {
        let cell = &register[chunk];
        cell.get_or_try_init_as(
            move || -> Result<Box<Vec<Slot>>, OutOfMemory>
                requires { chunk < 64 }
            { new_chunk(alloc, chunk) },
            &mut self.chunks[chunk],
        )
    }

    /// The trail goes on by the row of a slot. It is one of this number, where there is none yet. Answers the row's number.
    fn enter(&mut self, alloc: Global, slot: &Slot, number: u128) -> Result<u128, OutOfMemory>
        requires next { slot_name self.old.chunks (length self.old.numbers) ≡ Some (cell_name slot.now) }
        ensures goes_on { IfOk result (λ found. GoesOn self.old (found ∷ []) self.new) }
        ensures unchanged { OnErr result (self.new ≡ self.old) }
    {
        self.rows.reserve(1)?;
        self.numbers.reserve(1)?;
        self.cells.reserve(CELLS)?;
        let mut note = slot.note();
        let row = slot.get_or_try_init_as(
            move || -> Result<Box<Row>, OutOfMemory> {
                Ok(Box::new(alloc, Row::new(alloc, number)?)?)
            },
            &mut note,
        )?;
        note_cells(&mut self.cells, row);
        self.numbers.push_reserved(row.number);
        self.rows.push_reserved(note);
        Ok(row.number)
    }

    /// The trail goes on by one row: one of this number, where the register has none there. Answers the row's number.
    fn go_on(
        &mut self,
        alloc: Global,
        register: &[Chunk],
        number: u128,
    ) -> Result<u128, OutOfMemory>
        requires one_register { self.old.register ≡ names_of register.now }
        ensures goes_on { IfOk result (λ found. GoesOn self.old (found ∷ []) self.new) }
        ensures stays { OnErr result (GoesOn self.old [] self.new) }
    {
        let next = self.numbers.len();
        let chunk = chunk_of(next);
        if chunk >= register.len() {
            return Err(AllocError);
        }
        let slots = self.chunk(alloc, register, chunk)?;
        let Some(slot) = slots.get(place_of(next)) else {
            return Err(AllocError);
        };
        self.enter(alloc, slot, number)
    }

    /// The first slot whose row has this number: the trail goes on until there is one.
    ///
    /// # Errors
    ///
    /// `OutOfMemory` where the register had none as far as the trail went, and a growth was refused or there are as many rows as may be.
    pub(crate) fn reach(
        &mut self,
        alloc: Global,
        register: &[Chunk],
        number: u128,
    ) -> Result<usize, OutOfMemory>
        requires one_register { self.old.register ≡ names_of register.now }
        ensures slot { IfOk result (λ slot. slot_of self.new.numbers number ≡ Some slot) }
        ensures goes_on { (more : List ℕ) × GoesOn self.old more self.new }
        ensures unknown { OnErr result (slot_of self.old.numbers number ≡ None) }
        ensures whole { length self.old.decided ≡ 64 * length self.old.numbers }
    {
        // Read, so that it is known that each row has its cells.
        let next = self.numbers.len();
        if let Some(slot) = self.slot_of(number) {
            return Ok(slot);
        }
        for slot in next..ROWS {
            if self.go_on(alloc, register, number)? == number {
                return Ok(slot);
            }
        }
        Err(AllocError)
    }

    /// The row of a slot that was walked through.
    fn row_of<'a>(&mut self, register: &'a [Chunk], slot: usize) -> &'a Row
        requires one_register { self.old.register ≡ names_of register.now }
        requires walked { slot < length self.old.numbers }
        ensures unchanged { self.new ≡ self.old }
        ensures cells { (p : ℕ) → p < 64 → slice_get (names_of result.now.cells.items) p ≡ slice_get self.old.cells (64 * slot + p) }
    {
        // Read, so that it is known that the slot's place fits.
        prove!(slot < self.numbers.len());
        let chunk = chunk_of(slot);
        let Some(slots) = register[chunk].get_as(&mut self.chunks[chunk]) else {
            unreachable!();
        };
        let Some(row) = slots[place_of(slot)].get_as(&mut self.rows[slot]) else {
            unreachable!();
        };
        row
    }

    /// What a cell of a row holds, where it was empty the decision handed in.
    ///
    /// # Errors
    ///
    /// `OutOfMemory` where no decision was known there, and a growth was refused.
    pub(crate) fn decide(
        &mut self,
        alloc: Global,
        register: &[Chunk],
        slot: usize,
        cell: usize,
        decision: Decision,
    ) -> Result<Decision, OutOfMemory>
        requires one_register { self.old.register ≡ names_of register.now }
        requires walked { slot < length self.old.numbers }
        requires low { cell < 64 }
        requires proposed { WasProposed decision }
        ensures held { IfOk result (λ held. Agrees (slice_index_or self.old.decided (64 * slot + cell) None) held × KnowsCell self.old (64 * slot + cell) held self.new) }
        ensures proposed { IfOk result (λ held. WasProposed held) }
        ensures starves { OnErr result ((slice_index_or self.old.decided (64 * slot + cell) None ≡ None) × (self.new ≡ self.old)) }
    {
        // Read, so that it is known that the slot's place fits.
        prove!(slot < self.numbers.len());
        let row = self.row_of(register, slot);
        let place = CELLS * slot + cell;
        decided(alloc, &row.cells[cell], &mut self.cells[place], decision)
    }

    /// Two trails along one register know no two decisions of one cell.
    pub(crate) fn same(&mut self, other: &mut Trail)
        requires { other.old.register ≡ self.old.register }
        ensures one { self.new ≡ self.old }
        ensures other { other.new ≡ other.old }
        ensures agree { TrailsAgree self.old other.old }
    {
        agree_all(&mut self.chunks, &mut other.chunks);
        agree_all(&mut self.rows, &mut other.rows);
        agree_all(&mut self.cells, &mut other.cells);
    }
}

/// Notes of the cells of a row, of which nothing is known.
fn note_cells(cells: &mut Vec<Note<Proposed>>, row: &Row)
    requires { vec_len cells.old + 64 ≤ vec_capacity cells.old }
    ensures names { map (λ (c : Noted Kept). c.cell) cells.new.items ≡ map (λ (c : Noted Kept). c.cell) cells.old.items ++ names_of row.now.cells.items }
    ensures known { map decision_known cells.new.items ≡ map decision_known cells.old.items ++ replicate 64 None }
{
    for cell in 0..CELLS {
        cells.push_reserved(row.cells[cell].note());
    }
}

/// What a cell holds, where it was empty the decision handed in.
fn decided(
    alloc: Global,
    cell: &Cell,
    note: &mut Note<Proposed>,
    decision: Decision,
) -> Result<Decision, OutOfMemory>
    requires one_cell { note.old.cell ≡ cell_name cell.now }
    requires proposed { WasProposed decision }
    ensures cell { note.new.cell ≡ note.old.cell }
    ensures held { IfOk result (λ held. (decision_known note.new ≡ Some held) × Agrees (decision_known note.old) held) }
    ensures proposed { IfOk result (λ held. WasProposed held) }
    ensures starves { OnErr result ((decision_known note.old ≡ None) × (decision_known note.new ≡ None)) }
{
    let proposed = Proposed { decision };
    let first = cell.get_or_try_init_as(
        move || -> Result<Box<Proposed>, OutOfMemory> { Ok(Box::new(alloc, proposed)?) },
        note,
    )?;
    Ok(first.decision.copied())
}
