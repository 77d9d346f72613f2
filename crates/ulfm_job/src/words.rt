//! The words in which steps are printed.
ghost use Rattle.std.specs.Prelude.{Some, option_map};
ghost use Rattle.ulfm_job.specs.Words.{again_text, comm_text, send_text, source_text, tag_text, told_text, told_view};

use crate::step::Step;
use std::fmt;
use ulfm_base::{Context, Tag};

/// A source, or `any` where it is left open.
#[derive(Clone, Copy)]
struct AnySource(Option<u8>);

impl fmt::Display for AnySource {
    ghost output = { λ source. Some (source_text source.0) };

    fn fmt<W: fmt::Write>(&self, f: &mut fmt::Formatter<W>) -> fmt::Result {
        match self.0 {
            Some(rank) => write!(f, "{rank}"),
            None => f.write_str("any"),
        }
    }
}

/// A tag, or `any` where it is left open.
#[derive(Clone, Copy)]
struct AnyTag(Option<Tag>);

impl fmt::Display for AnyTag {
    ghost output = { λ tag. Some (tag_text tag.0) };

    fn fmt<W: fmt::Write>(&self, f: &mut fmt::Formatter<W>) -> fmt::Result {
        match self.0 {
            Some(tag) => write!(f, "{}", tag.number),
            None => f.write_str("any"),
        }
    }
}

/// The word of a step that asks for a further communicator, or nothing.
#[derive(Clone, Copy)]
struct Again(bool);

impl fmt::Display for Again {
    ghost output = { λ again. Some (again_text again.0) };

    fn fmt<W: fmt::Write>(&self, f: &mut fmt::Formatter<W>) -> fmt::Result {
        if self.0 {
            f.write_str(" again")
        } else {
            Ok(())
        }
    }
}

/// A communicator, by the name that a step calls it by, or by its number.
#[derive(Clone, Copy)]
pub struct CalledComm<'a>(pub Option<&'a str>, pub Context);

impl fmt::Display for CalledComm<'_> {
    ghost output = { λ comm. Some (comm_text (option_map (λ name. name.now) comm.0) comm.1) };

    fn fmt<W: fmt::Write>(&self, f: &mut fmt::Formatter<W>) -> fmt::Result {
        match self.0 {
            Some(name) => f.write_str(name),
            None => write!(f, "{}", self.1.number),
        }
    }
}

/// A send without its body.
#[derive(Clone, Copy)]
pub(crate) struct BodilessSend<'a> {
    pub called: Option<&'a str>,
    pub to: u8,
    pub tag: Tag,
    pub comm: Context,
}

/// The words of a send, as `send 1 tag 5 comm 0`.
impl fmt::Display for BodilessSend<'_> {
    ghost output = { λ send. Some (send_text (option_map (λ name. name.now) send.called) send.to send.tag send.comm) };

    fn fmt<W: fmt::Write>(&self, f: &mut fmt::Formatter<W>) -> fmt::Result {
        let tag = self.tag.number;
        let comm = CalledComm(self.called, self.comm);
        write!(f, "send {} tag {tag} comm {comm}", self.to)
    }
}

/// A step, and the name by which it calls its communicator, where it does.
#[derive(Clone, Copy)]
pub struct StepWords<'a> {
    pub step: &'a Step,
    pub called: Option<&'a str>,
}

/// The words of a step, as `recv any tag 5 comm 0`.
impl fmt::Display for StepWords<'_> {
    ghost output = { λ told. Some (told_text (told_view told)) };

    fn fmt<W: fmt::Write>(&self, f: &mut fmt::Formatter<W>) -> fmt::Result {
        let called = self.called;
        match self.step {
            Step::Send { to, tag, comm, .. } => {
                let (to, tag, comm) = (*to, *tag, *comm);
                write!(
                    f,
                    "{}",
                    BodilessSend {
                        called,
                        to,
                        tag,
                        comm
                    }
                )
            }
            Step::Recv {
                from,
                tag,
                comm,
                ..
            } => {
                let from = AnySource(*from);
                let tag = AnyTag(*tag);
                write!(
                    f,
                    "recv {from} tag {tag} comm {}",
                    CalledComm(called, *comm)
                )
            }
            Step::Wait { req } => write!(f, "wait {req}"),
            Step::Probe { from, tag, comm } => {
                let from = AnySource(*from);
                let tag = AnyTag(*tag);
                write!(
                    f,
                    "probe {from} tag {tag} comm {}",
                    CalledComm(called, *comm)
                )
            }
            Step::Mrecv { req, .. } => write!(f, "mrecv {req}"),
            Step::Cancel { req } => write!(f, "cancel {req}"),
            Step::Failed { comm } => write!(f, "failed comm {}", CalledComm(called, *comm)),
            Step::Ack { count, comm } => {
                write!(f, "ack {count} comm {}", CalledComm(called, *comm))
            }
            Step::Revoke { comm } => write!(f, "revoke comm {}", CalledComm(called, *comm)),
            Step::Dup { comm, again } => {
                let comm = CalledComm(called, *comm);
                write!(f, "dup comm {comm}{}", Again(*again))
            }
            Step::Shrink { comm, again } => {
                let comm = CalledComm(called, *comm);
                write!(f, "shrink comm {comm}{}", Again(*again))
            }
            Step::Agree { flag, comm } => {
                write!(f, "agree {flag} comm {}", CalledComm(called, *comm))
            }
            Step::Note { text } => {
                let text = text.as_str();
                write!(f, "note {text}")
            }
            Step::Stop => f.write_str("stop"),
        }
    }
}
