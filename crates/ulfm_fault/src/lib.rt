//! All that one rank knows of failures and revocations (ULFM): which ranks have failed, how many of them were acknowledged for each communicator,
//! and which communicators are revoked.
//!
//! All of it is in one [`Faults`], of which `ulfm_rank` has one for each rank:
//!
//!     faults.learn(rank);
//!     faults.make_place()?;
//!     let failed = faults.known_in(&group);
//!     let total = faults.ack(context, &group, failed.size());
//!
//! Each contract names the whole of what a call changes. An acknowledgement and a revocation ask for room that was made before (`room`), so no call
//! but `make_place` and `copy` answers out of memory.
//!
//! - `learn`, `known_in`: failures are known in the order of their first notices (`known_in`, Facts.antt), as `MPI_Comm_get_failed` tells them.
//! - `ack`: acknowledged totals are each communicator's own, and never fall (`ack_answer`, Facts.antt), as `MPI_Comm_ack_failed` counts them.
//! - `has_unacked`: whether some failure in the group isn't acknowledged, by which a waiting wildcard is pending (`has_unacked`, Facts.antt).
//! - `revoke`: it marks this context alone, and answers whether that is the first time.
//!
//! All of it is in `faults.rt`. Not here: how a notice comes, and to whom it is passed on (`ulfm_log`, `ulfm_rank`).
#![tactic(auto)]

mod faults;

pub use faults::Faults;
