//! MPI's own words, for those who know them better than a job's.

use crate::rules::Key;
use crate::walk::after;
use ulfm_job::Op;

/// What MPI puts in front of the names of its calls.
const PREFIXES: &[&str] = &["MPI_", "MPIX_", "Comm_", "comm_"];

/// A word of MPI, of ULFM or of programs that use them, and the op that a job has for it. Those that two edits lead to needn't stand here.
const OF_OPS: &[(&str, Op)] = &[
    ("receive", Op::Recv),
    ("waitall", Op::Wait),
    ("waitany", Op::Wait),
    ("waitsome", Op::Wait),
    ("test", Op::Wait),
    ("barrier", Op::Agree),
    ("duplicate", Op::Dup),
    ("get_failed", Op::Failed),
    ("failure_get_acked", Op::Failed),
    ("ack_failed", Op::Ack),
    ("failure_ack", Op::Ack),
    ("abort", Op::Stop),
    ("kill", Op::Stop),
    ("exit", Op::Stop),
    ("_exit", Op::Stop),
    ("raise", Op::Stop),
    ("pcontrol", Op::Note),
    ("print", Op::Note),
];

/// A word of MPI, of ULFM or of programs that use them, and the key that a job has for it.
const OF_KEYS: &[(&str, Key)] = &[
    ("dest", Key::To),
    ("destination", Key::To),
    ("source", Key::From),
    ("peer", Key::To),
    ("peer", Key::From),
    ("buf", Key::Body),
    ("buffer", Key::Body),
    ("data", Key::Body),
    ("count", Key::Room),
    ("request", Key::Req),
    ("communicator", Key::Comm),
    ("size", Key::Ranks),
];

/// The collectives that a job has no op for.
const COLLECTIVES: &[&str] = &[
    "allgather",
    "allgatherv",
    "allreduce",
    "alltoall",
    "alltoallv",
    "bcast",
    "exscan",
    "gather",
    "gatherv",
    "reduce",
    "reduce_scatter",
    "scan",
    "scatter",
    "scatterv",
];

/// Calls that a job writes as several steps.
const SENDING: &[&str] = &["sendrecv", "sendrecv_replace"];

/// What a job has in place of a collective.
const NO_COLLECTIVES: &str =
    "; a job has no collectives but 'agree' and 'shrink': write it by 'send', 'recv' and 'wait' (docs/LIMITS.md);";

/// What a job has in place of a call that sends and receives.
const IN_STEPS: &str =
    "; write a 'recv', a 'send', and a 'wait' for the 'recv' (docs/GLOSSARY.md);";

/// What a job has in place of a call of MPI that no op does.
pub fn instead_of(word: &str) -> Option<&'static str> {
    let call = bare(word);
    if is_among(COLLECTIVES, call) {
        return Some(NO_COLLECTIVES);
    }
    if is_among(SENDING, call) {
        return Some(IN_STEPS);
    }
    None
}

/// Whether a word is one of these, in letters of either case, perhaps as the call that doesn't wait.
fn is_among(words: &[&str], word: &str) -> bool {
    let at_once = word.strip_prefix(['i', 'I']).unwrap_or(word);
    words.iter().any(|own| own.eq_ignore_ascii_case(word) || own.eq_ignore_ascii_case(at_once))
}

/// A name without what MPI puts in front of it.
pub fn bare(name: &str) -> &str {
    let mut rest = name;
    for prefix in PREFIXES {
        rest = after(rest, *prefix);
    }
    rest
}

/// Whether a word of MPI is that of an op, in letters of either case.
pub fn says_op(op: Op, word: &str) -> bool {
    for (theirs, ours) in OF_OPS {
        if *ours == op && theirs.eq_ignore_ascii_case(word) {
            return true;
        }
    }
    op.name().eq_ignore_ascii_case(word)
}

/// Whether a word of MPI is that of a key.
pub fn says_key(key: Key, word: &str) -> bool {
    for (theirs, ours) in OF_KEYS {
        if *ours == key && theirs.eq_ignore_ascii_case(word) {
            return true;
        }
    }
    key.name().eq_ignore_ascii_case(word)
}
