//! Ranks, groups, contexts, tags, bodies, envelopes and the patterns that admit them: the words of MPI's chapters 3 and 7 that all crates above
//! speak in.
//!
//! - An [`Item`] goes from rank to rank: a letter, a notice of a stop or of a revocation, or an entrance into a shrink or an agreement.
//! - A [`Pattern`] says which envelopes a receive or a probe admits (`Admits`, Pattern.antt).
//! - A [`Decision`] is what the members of a communicator agree on (`IsLawfulDecision`, Decision.antt): each value is lawful by its type.
//! - A [`Table`] has values by context, with room that is made before it is needed (`put_at`, Table.antt).
//! - A [`CallError`] is a refusal: its number and its name are those of traces.
//!
//! A context names a communicator, by its path from the world's, which is 0 (`child_of`, Context.antt). The first duplicate of c is 2c + 1, and its
//! first shrink 2c + 2, for c up to 30; all others are past 62. No two have one number (`children_are_apart`), and each is greater than that of
//! which it was made (`children_are_greater`).
//!
//! Files:
//!
//! - names: `rank.rt`, `group.rt`, `rank_set.rt`, `context.rt`, `tag.rt`; values by context: `table.rt`
//! - messages and receives: `envelope.rt`, `body.rt`, `pattern.rt`, `request_id.rt`
//! - items, and as a log keeps them: `item.rt`, `item_kind.rt`, `noted.rt`, `noted_item.rt`, `noted_letter.rt`
//! - laws of contexts: `law.rt`; values by context: `table.rt`
//! - shrinks and agreements: `topic.rt`, `entrance.rt`, `contribution.rt`, `decision.rt`; refusals: `error.rt`
//!
//! Not here: what a rank does with any of these (`ulfm_log`, `ulfm_rank`). Nor whether a decision is true of what ranks did: `ulfm_report_laws` says that
//! of adopted ones.
#![tactic(auto)]

mod body;
mod context;
mod contribution;
mod decision;
mod entrance;
mod envelope;
mod error;
mod group;
mod item;
mod item_kind;
mod law;
mod noted;
mod noted_item;
mod noted_letter;
mod pattern;
mod rank;
mod rank_set;
mod request_id;
mod table;
mod tag;
mod topic;

pub use body::Body;
pub use context::{CONTEXTS, Context, PAST_CONTEXTS};
pub use contribution::Contribution;
pub use decision::{Decision, Listing};
pub use entrance::Entrance;
pub use envelope::{Envelope, Letter};
pub use error::{CallError, OutOfMemory};
pub use group::{Group, RankNumbers};
pub use item::Item;
pub use item_kind::ItemKind;
pub use law::{children_are_apart, children_are_greater, first_children_have_numbers};
pub use noted::Noted;
pub use noted_item::NotedItem;
pub use noted_letter::NotedLetter;
pub use pattern::{Pattern, Source};
pub use rank::{MOST_RANKS, RANK_PLACES, WorldRank};
pub use rank_set::RankSet;
pub use request_id::RequestId;
pub use table::Table;
pub use tag::Tag;
pub use topic::{Purpose, Topic};
