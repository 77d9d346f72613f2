//! What an inbox has room for.
//!
//! With places for all senders a world is `replay`'s, as the carrier `shared` has inboxes. With places for each sender, as `lanes` has rings, it allows
//! more: a message of one sender may come before an earlier one of another, which one inbox of one place never allows. An inbox stays one list in the
//! order of arrival, of which `TakeFrom` takes a sender's first item and `Take` the first of all. A law says that the second kind gives all that the
//! first one gives.
ghost use Rattle.std.specs.Prelude.{◌≡◌};
ghost use Rattle.ulfm_world.specs.Room.{places};

/// How many items an inbox has places for, and whose items they are.
#[derive(Clone, Copy, Debug, PartialEq, Eq)]
pub enum Room {
    /// So many places for the items of all senders: one inbox for each rank.
    PerInbox(u8),
    /// So many places for the items of each sender: a ring for each ordered pair of ranks.
    PerPair(u8),
}

impl Room {
    /// How many places there are.
    pub fn places(self) -> u8
        ensures { result ≡ places self }
    {
        match self {
            Room::PerInbox(places) | Room::PerPair(places) => places,
        }
    }
}
