//! Pairs the receives that a rank posts with the letters that come to it, by MPI's rules of matching (MPI 4.0, 3.5): an earlier letter and an
//! earlier receive go first.
//!
//! A [`Matcher`] keeps the receives that wait and the letters that were kept: MPI libraries call them the posted and the unexpected queue.
//!
//!     matcher.prepare()?;
//!     let (request, letter) = matcher.post(pattern);
//!
//! `post` and `probe` answer the earliest kept letter that is admitted, `arrive` the earliest receive that waits for the letter.
//!
//! Its promises hold after any calls. `post`, `arrive` and `clear` ask that room was made (`prepared`). The first two ask that fewer than 2^64 - 1 came
//! before (`countable`) too, and that the context wasn't cleared (`open`).
//!
//! - `post`, `probe`, `arrive`, `withdraw`, `clear`, `end_named` (`tracks`): pairs are made by the rules of MPI 4.0, 3.5. A receive and a message
//!   are in one pair at most, the receive admits it, both are live, neither receives nor messages overtake, and no receive waits while a message
//!   that it admits is kept (`LawfulPairing`, Pairing.antt, a rule a field; `MatchEvent`, `IsWellFormed`, History.antt).
//! - `one_lawful_pairing`, `one_answer_to_a_post`, `one_answer_to_a_probe`, `one_answer_to_an_arrival`, `beginnings_are_lawful`: these laws say that
//!   a history has one lawful pairing, so each answer is determined. Cut to a beginning it is lawful there.
//! - `probe` (`tracks`, `waiting`, `idle`), `earliest`: a probe takes what a receive that is posted then would get, and there is none where it would
//!   get none (MPI 4.0, 3.8.2). It can be looked at before (`ProbeGets`, `KeepsNone`, Calls.antt).
//!
//! Files:
//!
//! - `matcher.rt`: the calls; `arrived.rt`: what becomes of an arriving letter; `law.rt`: the laws
//! - where entries stand: `recent.rt` (the last ones), `pool.rt`, `bucket.rt`, `buckets.rt`, `key.rt`, `near.rt` (those before them)
//! - `search.rt`, `glance.rt`: which is the least that fits; `settling.rt`, `taking.rt`, `removal.rt`: how entries come and go
//! - `copying.rt`: all of it once more
//! - `plain.rt`: matching by two plain lists, which promises nothing: tests and measures compare with it
//!
//! Not here: that a search is fast, which is measured. Nor what a receive of a failed rank is answered: `ulfm_rank` ends it.
#![tactic(auto)]

mod arrived;
mod bucket;
mod buckets;
mod copying;
mod glance;
mod key;
mod law;
mod matcher;
mod near;
pub mod plain;
mod pool;
mod recent;
mod removal;
mod search;
mod settling;
mod taking;

pub use arrived::Arrived;
pub use law::{
    beginnings_are_lawful, nothing_remains_at_first, one_answer_to_a_post, one_answer_to_a_probe,
    one_answer_to_an_arrival, one_lawful_pairing,
};
pub use matcher::Matcher;
