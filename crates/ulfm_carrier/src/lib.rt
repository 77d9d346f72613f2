//! How items go from rank to rank: each rank has an end, by which it pushes to the inbox of each rank and pops from its own.
//!
//! [`lanes`] makes ends with a ring for each ordered pair of ranks, [`shared`] ends with one inbox for each rank. Both are [`Ends`]:
//!
//!     let ends = lanes(alloc, ranks, capacity)?;
//!
//! It promises:
//!
//! - [`Ends`], `push` (`pushed`, `taken`, `others`): an accepted push adds its item, a refused one hands the same item back (`lane_pushed`,
//!   Lanes.antt; `shared_pushed`, Shared.antt).
//! - [`Ends`], `pop` (`taken`, `sender`, `pushed`): a pop adds what it gives to what was taken of that sender.
//! - [`Ends`], `gather` (`residue`, `same`): once all ends are gathered, what was pushed is what was taken and then what is left, in order, for each
//!   ordered pair of ranks (`IsGathered`, Family.antt, which also says that ends were made together).
//! - Both carriers (`own`): if a pop finds nothing, all that the rank had pushed to itself was taken.
//! - [`LaneEnds`], `push` and `pop`, and `push_now` and `pop_now` of callers that have no `rt`: what else a push or a pop of rings does, of room and of
//!   the turn of ranks (`IsPush`, `IsPop`, Lanes.antt).
//!
//! Files:
//!
//! - `ends.rt`: the contract of every carrier; `residue.rt`, `carried.rt`, `head.rt`: items on their way and left over
//! - rings: `lane_ends.rt`, `inlet.rt`, `wiring.rt`, `gathering.rt`
//! - inboxes: `shared_ends.rt`, `inbox.rt`, `own_inbox.rt`, `shared_wiring.rt`, `emptying.rt`
//!
//! Not here: that a push finds room or a pop an item, but for an item that a rank pushed to itself.
#![tactic(auto)]

mod carried;
mod emptying;
mod ends;
mod gathering;
mod head;
mod inbox;
mod inlet;
mod lane_ends;
mod own_inbox;
mod residue;
mod shared_ends;
mod shared_wiring;
mod wiring;

pub use carried::Carried;
pub use ends::Ends;
pub use head::Head;
pub use inbox::{InOrder, InboxPass, PassView, Role, SharedInbox};
pub use lane_ends::{LaneEnds, LaneName, RingName};
pub use residue::Residue;
pub use shared_ends::{SharedEnds, SharedName};
pub use shared_wiring::shared;
pub use wiring::lanes;
