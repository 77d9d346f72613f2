//! The reply to any command.
ghost use Rattle.std.specs.Prelude.{◌≡◌};
ghost use Rattle.ulfm_run_reply.specs.declared.any_body.AnyBody.TheVariants.{Plain};

use crate::any_body::AnyBody;
use ulfm_command_line::{Remark, Reply};

/// A status, and what is written with it.
#[derive(Drop)]
pub struct AnyReply {
    pub status: u8,
    pub body: AnyBody,
    /// What standard error tells beside it, if anything: for people, and none of it is promised.
    pub remarks: Option<Vec<Remark>>,
}

impl AnyReply {
    /// The reply that needs no trace and no sweep.
    pub fn plain(reply: Reply) -> AnyReply
        ensures status { result.status ≡ reply.status }
        ensures body { result.body ≡ Plain reply.body }
    {
        AnyReply {
            status: reply.status,
            body: AnyBody::Plain(reply.body),
            remarks: reply.remarks,
        }
    }
}
