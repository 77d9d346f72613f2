//! What C is told.
ghost use Rattle.std.specs.Prelude.{◌≡◌};
ghost use Rattle.ulfm_c.specs.Told.{Tells, ended, listed, member_at, status_of, written};

use crate::words::number_of;
use ulfm_base::{Body, Group};
use ulfm_log::{Status, TestAnswer};

/// What is told of a letter.
#[repr(C)]
#[derive(Clone, Copy)]
pub struct CStatus {
    /// The sender's position.
    pub source: u32,
    /// The tag.
    pub tag: u32,
    /// How many bytes.
    pub length: u64,
    /// Why it ended.
    pub error: u32,
    /// Whether it was cancelled.
    pub cancelled: u32,
}

const _: () = prove!(size_of::<CStatus>() == 24);

/// Members of a communicator, by world rank.
#[repr(C)]
#[derive(Clone, Copy)]
pub struct CGroup {
    /// How many.
    pub size: u32,
    /// Their world ranks.
    pub members: [u8; 8],
}

const _: () = prove!(size_of::<CGroup>() == 12);

/// What is told of a letter that came.
pub(crate) fn status_of(status: Status) -> CStatus
    ensures { result ≡ status_of status }
{
    CStatus {
        source: status.source as u32,
        tag: status.tag.number as u32,
        length: status.length as u64,
        error: 0,
        cancelled: 0,
    }
}

/// What is told where none came.
pub(crate) fn ended(error: u32, cancelled: u32) -> CStatus
    ensures { result ≡ ended error cancelled }
{
    CStatus {
        source: 0,
        tag: 0,
        length: 0,
        error,
        cancelled,
    }
}

/// Writes bytes, as far as there is room.
fn copy_into(bytes: &[u8], out: &mut [u8])
    ensures { out.new ≡ written bytes.now out.old }
{
    let count = bytes.len().min(out.len());
    out[..count].copy_from_slice(&bytes[..count]);
}

/// Writes what is told of a letter, and its bytes, as far as there is room.
fn deliver(told: Status, bytes: &Body, status: &mut CStatus, body: &mut [u8])
    ensures status { status.new ≡ status_of told }
    ensures body { body.new ≡ written bytes.now body.old }
{
    *status = status_of(told);
    copy_into(bytes.as_bytes(), body);
}

/// Writes an answer, and its code.
pub(crate) fn tell(answer: TestAnswer, status: &mut CStatus, body: &mut [u8]) -> u32
    ensures { Tells answer result status.old status.new body.old body.new }
{
    match answer {
        TestAnswer::Done(told, bytes) => {
            deliver(told, &bytes, status, body);
            0
        }
        TestAnswer::Over(error) => {
            *status = ended(number_of(error), 0);
            0
        }
        TestAnswer::NotYet => 17,
        TestAnswer::Pending => 18,
    }
}

/// The world rank at a position of a group, or 255.
fn member(group: &Group, position: u8) -> u8
    ensures { result ≡ member_at group.now position }
{
    match group.world_of(position) {
        Some(rank) => rank.number,
        None => 255,
    }
}

/// The members of a group.
pub(crate) fn list(group: &Group) -> CGroup
    ensures { result ≡ listed group.now }
{
    CGroup {
        size: group.size() as u32,
        members: [
            member(group, 0),
            member(group, 1),
            member(group, 2),
            member(group, 3),
            member(group, 4),
            member(group, 5),
            member(group, 6),
            member(group, 7),
        ],
    }
}
