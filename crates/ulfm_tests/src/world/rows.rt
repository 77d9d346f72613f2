//! Worlds by what happens to them, with room for one item.

use super::Deed;
use ulfm_world::{Outcome, Refused};

/// What a world tells of an event.
pub type Told = Result<Outcome, Refused>;

pub const ANSWERED: Told = Ok(Outcome::Answered);

pub const NOT_YET: Told = Ok(Outcome::NotYet);

pub const MOVED: Told = Ok(Outcome::Moved);

/// A job whose steps are polled, what happens one after another, and what then is so.
pub struct Row {
    pub name: &'static str,
    /// Whether inboxes have a place for each sender, and not one for all.
    pub has_rings: bool,
    pub job: &'static str,
    pub deeds: &'static [(Deed, Told)],
    pub is_at_rest: bool,
    pub trace: &'static str,
}

/// What events do, and which are refused.
pub const ROWS: &[Row] = &[
    Row {
        name: "a full inbox holds a push back",
        has_rings: false,
        job: r#"ranks = 2
capacity = 1
turns = 20
step = [
    {rank = 0, op = "send", to = 1, tag = 5, body = "a"},
]
"#,
        deeds: &[
            (Deed::Push(0, 1), Err(Refused::NothingToPush)),
            (Deed::Take(1), Err(Refused::InboxEmpty)),
            (Deed::Leave(0), Err(Refused::NotReady)),
            (Deed::Push(0, 2), Err(Refused::NoSuchRank)),
            (Deed::Poll(0, 0), ANSWERED),
            (Deed::Push(0, 1), MOVED),
            (Deed::Poll(0, 0), ANSWERED),
            (Deed::Push(0, 1), Err(Refused::InboxFull)),
            (Deed::Take(1), MOVED),
            (Deed::Push(0, 1), MOVED),
        ],
        is_at_rest: false,
        trace: "0 0 send 1 tag 5 comm 0: sent
0 1 send 1 tag 5 comm 0: sent
0 end: done
1 end: done
",
    },
    Row {
        name: "a world comes to rest once all is taken",
        has_rings: false,
        job: r#"ranks = 2
capacity = 1
turns = 20
step = [
    {rank = 0, op = "send", to = 1, tag = 5, body = "a"},
]
"#,
        deeds: &[
            (Deed::Push(0, 1), Err(Refused::NothingToPush)),
            (Deed::Take(1), Err(Refused::InboxEmpty)),
            (Deed::Leave(0), Err(Refused::NotReady)),
            (Deed::Push(0, 2), Err(Refused::NoSuchRank)),
            (Deed::Poll(0, 0), ANSWERED),
            (Deed::Push(0, 1), MOVED),
            (Deed::Poll(0, 0), ANSWERED),
            (Deed::Push(0, 1), Err(Refused::InboxFull)),
            (Deed::Take(1), MOVED),
            (Deed::Push(0, 1), MOVED),
            (Deed::Take(1), MOVED),
        ],
        is_at_rest: true,
        trace: "0 0 send 1 tag 5 comm 0: sent
0 1 send 1 tag 5 comm 0: sent
0 end: done
1 end: done
",
    },
    Row {
        name: "an open step is given up, and a stop is told",
        has_rings: false,
        job: r#"ranks = 2
capacity = 1
turns = 20
step = [
    {rank = 0, op = "recv"},
    {rank = 0, op = "wait", req = 0},
    {rank = 0, op = "stop"},
]
"#,
        deeds: &[
            (Deed::Poll(0, 0), ANSWERED),
            (Deed::Poll(0, 1), NOT_YET),
            (Deed::Poll(0, 2), Err(Refused::NotReady)),
            (Deed::Poll(0, 1), NOT_YET),
            (Deed::Leave(0), MOVED),
            (Deed::Leave(0), Err(Refused::NotReady)),
            (Deed::Poll(0, 2), ANSWERED),
            (Deed::Poll(0, 2), Err(Refused::Stopped)),
            (Deed::Take(0), Err(Refused::Stopped)),
            (Deed::Leave(0), Err(Refused::Stopped)),
            (Deed::Push(0, 0), Err(Refused::NothingToPush)),
            (Deed::Push(0, 1), MOVED),
            (Deed::Take(1), MOVED),
        ],
        is_at_rest: true,
        trace: "0 0 recv any tag any comm 0: posted
0 1 wait 0: unfinished
0 2 stop: stopped
0 end: stopped
1 end: done
",
    },
    Row {
        name: "a shrink is decided once each entered it, not by a poll, and adopted",
        has_rings: false,
        job: r#"ranks = 2
capacity = 1
turns = 20
step = [
    {rank = 0, op = "shrink"},
    {rank = 1, op = "shrink"},
    {rank = 1, op = "stop"},
]
"#,
        deeds: &[
            (Deed::Decide(0), Err(Refused::NotReady)),
            (Deed::Poll(0, 0), NOT_YET),
            (Deed::Decide(0), Err(Refused::NotReady)),
            (Deed::Poll(1, 0), NOT_YET),
            (Deed::Push(1, 0), MOVED),
            (Deed::Take(0), MOVED),
            (Deed::Poll(0, 0), NOT_YET),
            (Deed::Decide(0), ANSWERED),
            (Deed::Decide(0), Err(Refused::NotReady)),
            (Deed::Push(0, 1), MOVED),
            (Deed::Take(1), MOVED),
            (Deed::Decide(1), ANSWERED),
            (Deed::Poll(1, 1), ANSWERED),
            (Deed::Decide(1), Err(Refused::Stopped)),
            (Deed::Decide(2), Err(Refused::NoSuchRank)),
        ],
        is_at_rest: false,
        trace: "0 0 shrink comm 0: comm 2 ranks [0 1] me 0
0 end: done
1 0 shrink comm 0: comm 2 ranks [0 1] me 1
1 1 stop: stopped
1 end: stopped
",
    },
    Row {
        name: "on rings a later letter may come first",
        has_rings: true,
        job: r#"ranks = 3
capacity = 1
turns = 20
step = [
    {rank = 0, op = "send", to = 1, tag = 5, body = "a"},
    {rank = 0, op = "stop"},
    {rank = 1, op = "recv"},
    {rank = 1, op = "recv"},
    {rank = 1, op = "wait", req = 0},
    {rank = 1, op = "wait", req = 1},
    {rank = 2, op = "recv", from = 0},
    {rank = 2, op = "wait", req = 0},
    {rank = 2, op = "send", to = 1, tag = 5, body = "b"},
]
"#,
        deeds: &[
            (Deed::Poll(0, 0), ANSWERED),
            (Deed::Push(0, 1), MOVED),
            (Deed::Poll(0, 1), ANSWERED),
            (Deed::Poll(1, 0), ANSWERED),
            (Deed::Poll(1, 1), ANSWERED),
            (Deed::Poll(2, 0), ANSWERED),
            (Deed::Poll(2, 1), NOT_YET),
            (Deed::Push(0, 2), MOVED),
            (Deed::Take(2), MOVED),
            (Deed::Poll(2, 1), ANSWERED),
            (Deed::Poll(2, 2), ANSWERED),
            (Deed::TakeFrom(1, 2), Err(Refused::InboxEmpty)),
            (Deed::TakeFrom(3, 0), Err(Refused::NoSuchRank)),
            (Deed::TakeFrom(1, 3), Err(Refused::NoSuchRank)),
            (Deed::TakeFrom(0, 1), Err(Refused::Stopped)),
            (Deed::Push(0, 1), Err(Refused::InboxFull)),
            (Deed::Push(2, 1), MOVED),
            (Deed::TakeFrom(1, 2), MOVED),
            (Deed::TakeFrom(1, 0), MOVED),
            (Deed::Poll(1, 2), ANSWERED),
            (Deed::Poll(1, 3), ANSWERED),
        ],
        is_at_rest: false,
        trace: "0 0 send 1 tag 5 comm 0: sent
0 1 stop: stopped
0 end: stopped
1 0 recv any tag any comm 0: posted
1 1 recv any tag any comm 0: posted
1 2 wait 0: done from 2 tag 5 62
1 3 wait 1: done from 0 tag 5 61
1 end: done
2 0 recv 0 tag any comm 0: posted
2 1 wait 0: over 5 ProcFailed
2 2 send 1 tag 5 comm 0: sent
2 end: done
",
    },
    Row {
        name: "one place for all keeps their order",
        has_rings: false,
        job: r#"ranks = 3
capacity = 1
turns = 20
step = [
    {rank = 0, op = "send", to = 1, tag = 5, body = "a"},
    {rank = 0, op = "stop"},
    {rank = 1, op = "recv"},
    {rank = 1, op = "recv"},
    {rank = 1, op = "wait", req = 0},
    {rank = 1, op = "wait", req = 1},
    {rank = 2, op = "recv", from = 0},
    {rank = 2, op = "wait", req = 0},
    {rank = 2, op = "send", to = 1, tag = 5, body = "b"},
]
"#,
        deeds: &[
            (Deed::Poll(0, 0), ANSWERED),
            (Deed::Push(0, 1), MOVED),
            (Deed::Poll(0, 1), ANSWERED),
            (Deed::Poll(1, 0), ANSWERED),
            (Deed::Poll(1, 1), ANSWERED),
            (Deed::Poll(2, 0), ANSWERED),
            (Deed::Poll(2, 1), NOT_YET),
            (Deed::Push(0, 2), MOVED),
            (Deed::Take(2), MOVED),
            (Deed::Poll(2, 1), ANSWERED),
            (Deed::Poll(2, 2), ANSWERED),
            (Deed::TakeFrom(1, 2), Err(Refused::InboxEmpty)),
            (Deed::TakeFrom(3, 0), Err(Refused::NoSuchRank)),
            (Deed::TakeFrom(1, 3), Err(Refused::NoSuchRank)),
            (Deed::TakeFrom(0, 1), Err(Refused::Stopped)),
            (Deed::Push(2, 1), Err(Refused::InboxFull)),
            (Deed::TakeFrom(1, 0), MOVED),
            (Deed::Push(2, 1), MOVED),
        ],
        is_at_rest: false,
        trace: "0 0 send 1 tag 5 comm 0: sent
0 1 stop: stopped
0 end: stopped
1 0 recv any tag any comm 0: posted
1 1 recv any tag any comm 0: posted
1 end: done
2 0 recv 0 tag any comm 0: posted
2 1 wait 0: over 5 ProcFailed
2 2 send 1 tag 5 comm 0: sent
2 end: done
",
    },
];
