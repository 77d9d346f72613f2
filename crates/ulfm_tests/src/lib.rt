//! Tests of the libraries, by what they offer. They stand here and not beside the code, so that the gate proves each library once.
//! Nothing stands on this crate, and nothing in it is a promise.
//!
//! They show what no clause says: worked examples with their values, calls that succeed where there is memory, and what threads do. A table has
//! a row for each case, and names it. `rt try --test` runs them all without proofs. Begin with world.
//!
//! - `world.rt`: events of a world one by one, in `world/`: rows of events, which decisions are adopted, and a whole recovery round by round
//! - `matching.rt`: the matcher of `ulfm_match`; `matchers.rt`: the same calls to it and to its two plain lists
//! - `base.rt`, `board.rt`: groups and bodies; seats of one board
//! - `further.rt`: ranks and their seats on a communicator past 62
//! - `carrier.rt`: the ends of both carriers, by what `carrier/` lets ranks do with them
//! - `run.rt`: jobs that threads run, a subject a file in `run/`; `run/laid.rt` is the carrier that these tests lay over another one
//! - `reach.rt`: the search, over the two counters of `reach/counters.rt`
//! - `stops.rt`: places as they are written, and the job at one
//! - `streams.rt`: reading and writing whole texts, of `ulfm_reader`
//!
//! Not here: what the program prints (tools/gate/replies, jobs and outcomes-check), C (tools/gate/c-tests), and wrong bodies, which stand beside the
//! code of each crate.
#![tactic(auto)]

#[cfg(test)]
mod base;
#[cfg(test)]
mod board;
#[cfg(test)]
mod carrier;
#[cfg(test)]
mod further;
#[cfg(test)]
mod matchers;
#[cfg(test)]
mod matching;
#[cfg(test)]
mod reach;
#[cfg(test)]
mod run;
#[cfg(test)]
mod stops;
#[cfg(test)]
mod streams;
#[cfg(test)]
mod world;
