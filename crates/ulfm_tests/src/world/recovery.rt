//! A recovery round by round: a rank revokes the world and stops half way, and the others shrink it.

use super::Deed;
use super::rows::{ANSWERED, MOVED, NOT_YET, Row};
use ulfm_world::Refused;

/// The full inbox of rank 2 holds the revocation back; rank 0 passes it on; of the stopped rank 1 only its notices are left; rank 2, which
/// has its letter first, decides, and rank 0 adopts.
pub const RECOVERY: &[Row] = &[Row {
    name: "survivors of a revoked world shrink it",
    has_rings: false,
    job: r#"ranks = 3
capacity = 1
turns = 20
step = [
    {rank = 0, op = "send", to = 2, tag = 5, body = "a"},
    {rank = 0, op = "recv"},
    {rank = 0, op = "wait", req = 1},
    {rank = 0, op = "shrink"},
    {rank = 1, op = "revoke"},
    {rank = 1, op = "stop"},
    {rank = 2, op = "recv", from = 0, tag = 5},
    {rank = 2, op = "recv", from = 0, tag = 9},
    {rank = 2, op = "wait", req = 1},
    {rank = 2, op = "wait", req = 0},
    {rank = 2, op = "recv"},
    {rank = 2, op = "shrink"},
]
"#,
    deeds: &[
        (Deed::Poll(0, 0), ANSWERED),
        (Deed::Poll(1, 0), ANSWERED),
        (Deed::Poll(2, 0), ANSWERED),
        (Deed::Push(0, 2), MOVED),
        (Deed::Take(0), Err(Refused::InboxEmpty)),
        (Deed::Poll(0, 1), ANSWERED),
        (Deed::Push(1, 0), MOVED),
        (Deed::Push(1, 2), Err(Refused::InboxFull)),
        (Deed::Poll(1, 1), ANSWERED),
        (Deed::Take(2), MOVED),
        (Deed::Poll(2, 1), ANSWERED),
        (Deed::Take(0), MOVED),
        (Deed::Poll(0, 2), ANSWERED),
        (Deed::Push(1, 0), MOVED),
        (Deed::Push(1, 2), MOVED),
        (Deed::Push(1, 0), Err(Refused::NothingToPush)),
        (Deed::Push(1, 2), Err(Refused::NothingToPush)),
        (Deed::Take(1), Err(Refused::Stopped)),
        (Deed::Take(2), MOVED),
        (Deed::Poll(2, 2), NOT_YET),
        (Deed::Push(0, 1), MOVED),
        (Deed::Push(0, 2), MOVED),
        (Deed::Take(0), MOVED),
        (Deed::Poll(0, 3), NOT_YET),
        (Deed::Take(2), MOVED),
        (Deed::Push(2, 1), Err(Refused::NothingToPush)),
        (Deed::Poll(2, 2), ANSWERED),
        (Deed::Push(0, 2), MOVED),
        (Deed::Take(0), Err(Refused::InboxEmpty)),
        (Deed::Decide(0), Err(Refused::NotReady)),
        (Deed::Poll(0, 3), NOT_YET),
        (Deed::Push(2, 0), MOVED),
        (Deed::Take(2), MOVED),
        (Deed::Poll(2, 3), ANSWERED),
        (Deed::Take(0), MOVED),
        (Deed::Push(0, 1), Err(Refused::NothingToPush)),
        (Deed::Push(0, 2), Err(Refused::NothingToPush)),
        (Deed::Decide(0), Err(Refused::NotReady)),
        (Deed::Poll(0, 3), NOT_YET),
        (Deed::Take(2), Err(Refused::InboxEmpty)),
        (Deed::Poll(2, 4), ANSWERED),
        (Deed::Decide(0), Err(Refused::NotReady)),
        (Deed::Poll(0, 3), NOT_YET),
        (Deed::Decide(2), Err(Refused::NotReady)),
        (Deed::Poll(2, 5), NOT_YET),
        (Deed::Decide(0), Err(Refused::NotReady)),
        (Deed::Poll(0, 3), NOT_YET),
        (Deed::Push(2, 0), MOVED),
        (Deed::Decide(2), ANSWERED),
        (Deed::Take(0), MOVED),
        (Deed::Decide(0), ANSWERED),
    ],
    is_at_rest: true,
    trace: "0 0 send 2 tag 5 comm 0: sent
0 1 recv any tag any comm 0: posted
0 2 wait 1: over 6 Revoked
0 3 shrink comm 0: comm 2 ranks [0 2] me 0
0 end: done
1 0 revoke comm 0: revoked
1 1 stop: stopped
1 end: stopped
2 0 recv 0 tag 5 comm 0: posted
2 1 recv 0 tag 9 comm 0: posted
2 2 wait 1: over 6 Revoked
2 3 wait 0: done from 0 tag 5 61
2 4 recv any tag any comm 0: refused 6 Revoked
2 5 shrink comm 0: comm 2 ranks [0 2] me 1
2 end: done
",
}];
