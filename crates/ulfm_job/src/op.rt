//! The ops of steps: their names, their keys, and how their answers begin, each once.

/// What a step asks for, without its keys: the variant of [`Step`](crate::Step) with this name.
#[derive(Clone, Copy, Debug, PartialEq, Eq)]
pub enum Op {
    Send,
    Recv,
    Wait,
    Probe,
    Mrecv,
    Cancel,
    Failed,
    Ack,
    Revoke,
    Dup,
    Shrink,
    Agree,
    Note,
    Stop,
}

/// All ops, in the order of docs/JOBS.md.
pub const OPS: [Op; 14] = [
    Op::Send,
    Op::Recv,
    Op::Wait,
    Op::Probe,
    Op::Mrecv,
    Op::Cancel,
    Op::Failed,
    Op::Ack,
    Op::Revoke,
    Op::Dup,
    Op::Shrink,
    Op::Agree,
    Op::Note,
    Op::Stop,
];

impl Op {
    ghost use Rattle.std.specs.Prelude.{◌≡◌, map};
    ghost use Rattle.ulfm_job.specs.Ops.{op_name, op_named, op_keys, op_answers, good_answers, may_stay_open, is_never_refused};

    /// Its name in a job.
    pub fn name(self) -> &'static str
        ensures { result.now ≡ op_name self }
    {
        match self {
            Op::Send => "send",
            Op::Recv => "recv",
            Op::Wait => "wait",
            Op::Probe => "probe",
            Op::Mrecv => "mrecv",
            Op::Cancel => "cancel",
            Op::Failed => "failed",
            Op::Ack => "ack",
            Op::Revoke => "revoke",
            Op::Dup => "dup",
            Op::Shrink => "shrink",
            Op::Agree => "agree",
            Op::Note => "note",
            Op::Stop => "stop",
        }
    }

    /// The op of this name.
    pub fn named(name: &str) -> Option<Op>
        ensures { result ≡ op_named name.now }
    {
        match name {
            "send" => Some(Op::Send),
            "recv" => Some(Op::Recv),
            "wait" => Some(Op::Wait),
            "probe" => Some(Op::Probe),
            "mrecv" => Some(Op::Mrecv),
            "cancel" => Some(Op::Cancel),
            "failed" => Some(Op::Failed),
            "ack" => Some(Op::Ack),
            "revoke" => Some(Op::Revoke),
            "dup" => Some(Op::Dup),
            "shrink" => Some(Op::Shrink),
            "agree" => Some(Op::Agree),
            "note" => Some(Op::Note),
            "stop" => Some(Op::Stop),
            _ => None,
        }
    }

    /// The keys that a step of it may have in a job.
    pub fn keys(self) -> &'static [&'static str]
        ensures { map (λ s. s.now) result.now ≡ op_keys self }
    {
        match self {
            Op::Send => &[
                "op", "rank", "name", "if", "expect", "to", "tag", "body", "comm",
            ],
            Op::Recv => &[
                "op", "rank", "name", "if", "expect", "from", "tag", "room", "comm",
            ],
            Op::Wait | Op::Cancel => &["op", "rank", "name", "if", "expect", "req"],
            Op::Probe => &["op", "rank", "name", "if", "expect", "from", "tag", "comm"],
            Op::Mrecv => &["op", "rank", "name", "if", "expect", "req", "room"],
            Op::Failed | Op::Revoke => &["op", "rank", "name", "if", "expect", "comm"],
            Op::Dup | Op::Shrink => &["op", "rank", "name", "if", "expect", "comm", "again"],
            Op::Ack => &["op", "rank", "name", "if", "expect", "count", "comm"],
            Op::Agree => &["op", "rank", "name", "if", "expect", "flag", "comm"],
            Op::Note => &["op", "rank", "name", "if", "expect", "text"],
            Op::Stop => &["op", "rank", "name", "if", "expect"],
        }
    }

    /// How an answer of it begins that isn't refused, where no receive is told over, and no step left open.
    pub fn answers(self) -> &'static [&'static str]
        ensures { map (λ s. s.now) result.now ≡ op_answers self }
    {
        match self {
            Op::Send => &["sent"],
            Op::Recv => &["posted"],
            Op::Wait => &["done from", "pending"],
            Op::Probe => &["found from"],
            Op::Mrecv => &["done from"],
            Op::Cancel => &["done from", "cancelled"],
            Op::Failed => &["ranks"],
            Op::Ack => &["acked"],
            Op::Revoke => &["revoked"],
            Op::Dup => &["comm"],
            Op::Shrink => &["comm"],
            Op::Agree => &["agreed"],
            Op::Note => &["noted"],
            Op::Stop => &["stopped"],
        }
    }

    /// How the answers begin with which a step of it goes well.
    pub fn good_answers(self) -> &'static [&'static str]
        ensures { map (λ s. s.now) result.now ≡ good_answers self }
    {
        match self {
            Op::Send => &["sent"],
            Op::Recv => &["posted"],
            Op::Wait => &["done"],
            Op::Probe => &["found"],
            Op::Mrecv => &["done"],
            Op::Cancel => &["cancelled", "done"],
            Op::Failed => &["ranks"],
            Op::Ack => &["acked"],
            Op::Revoke => &["revoked"],
            Op::Dup => &["comm"],
            Op::Shrink => &["comm"],
            Op::Agree => &["agreed"],
            Op::Note => &["noted"],
            Op::Stop => &["stopped"],
        }
    }

    /// Whether a step of it may be left open, and told `unfinished`.
    pub fn may_stay_open(self) -> bool
        ensures { result ≡ may_stay_open self }
    {
        matches!(self, Op::Wait | Op::Probe | Op::Shrink | Op::Agree)
    }

    /// Whether no step of it is refused.
    pub fn is_never_refused(self) -> bool
        ensures { result ≡ is_never_refused self }
    {
        matches!(self, Op::Note | Op::Stop)
    }
}
