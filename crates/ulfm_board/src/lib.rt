//! One decision for each shrink and each agreement (ULFM, shrink and agree). No call takes an `rt`, so none waits.
//!
//! [`seats`] makes a board that threads share, a [`Seat`] for each rank. A [`MemoryBoard`] has one owner. Both are a [`Decider`]:
//!
//!     let held = decider.decide(decision)?;
//!
//! Nothing is taken from the start. The board that threads share is a register of rows, each of the cells of 64 shrinks, or of 64
//! agreements, of one communicator. The first decision that is handed in on one of them puts the row into the register's first free slot.
//! Each slot is set once: of seats that want one at once the first gets it. Another takes that row if it is the one that it wants, and else goes
//! on to the next slot. If no memory is found for a row, the register is as it was, and nothing is known.
//!
//! It promises:
//!
//! - [`Decider`], `decide` (`answers`, `unchanged`, `starves`): a decider answers always what it answered first (`Answers`, Known.antt). If it knew
//!   none and is out of memory, it answers that, and nothing changes.
//! - [`Decider`], `decide` of a [`Seat`] (`says`): what it answers is a decision that some rank proposes, by what the log of that rank has. Each cell
//!   keeps that of what is in it (`WasProposed`, Proposals.antt; `IsProposal`, Proposal.antt of `ulfm_log`).
//! - [`Decider`], `same` (`agree`): two seats of one board know no two decisions on one shrink or agreement (`BothAgree`, Known.antt).
//! - [`seats`] (`one_board`, `nothing_known`): seats that are made together are of one board, and know no decision yet.
//!
//! Files:
//!
//! - `decider.rt`: the contract of both; `seat.rt`: the board that threads share; `memory.rt`: that of one owner; `number.rt`: which row and which
//!   cell a topic has
//! - of the board that threads share: `register.rt`: its slots; `row.rt`: a row; `proposed.rt`: what a cell keeps; `trail.rt`: what a seat knows of
//!   them; `comparing.rt`: what two know
//!
//! Not here: that the log by which a decision was proposed is that of a rank of this world. It is tested, not proved, that the seats of one board
//! answer the first decision that was handed in.
#![tactic(auto)]

mod comparing;
mod decider;
mod memory;
mod number;
mod proposed;
mod register;
mod row;
mod seat;
mod trail;

pub use decider::Decider;
pub use memory::MemoryBoard;
pub use number::number_of;
pub use seat::{Seat, seats};
