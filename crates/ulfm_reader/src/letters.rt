//! The steps of a table that send, receive, probe, or name such a step.
ghost use Rattle.std.specs.Prelude.{◌≡◌, ◌<◌, ℕ, IfOk};
ghost use Rattle.toml.specs.View.{table_view};
ghost use Rattle.ulfm_job.specs.declared.step.Step.{Step as SeenStep};
ghost use Rattle.ulfm_reader.specs.inside.Reading.{map_ok, planned};
ghost use Rattle.ulfm_reader.specs.Plan.{Order, order_of};
ghost use Rattle.ulfm_reader.specs.StepText.{send_step, recv_step, step_on_req, probe_step, mrecv_step};

use crate::fields::{
    only_keys, optional_comm, optional_number, required_number, required_reference, required_text,
};
use crate::name::Name;
use crate::placed::{Placed, ReadStep};
use crate::ranges::{comm_in, from_if_some, rank_in, req_in, room_in, tag_if_some, tag_in, to_in};
use toml::Table;
use ulfm_job::{Fault, Op, Step};

/// A `send`.
#[tactic(auto, unfolding(crate::specs::StepText::send_step))]
pub fn send_of(ranks: u8, table: &Table) -> Result<Placed<'_>, Fault>
    requires { 0 < ranks }
    ensures exact { map_ok planned result ≡ send_step ranks (table_view table.now) }
    ensures below { IfOk result (λ placed. placed.rank < ranks) }
{
    let rank = required_number(table, "rank")?;
    let to = required_number(table, "to")?;
    let tag = required_number(table, "tag")?;
    let body = required_text(table, "body")?;
    let comm = optional_comm(table)?;
    only_keys(table, Op::Send.keys())?;
    let rank = rank_in(ranks, rank)?;
    let to = to_in(to)?;
    let tag = tag_in(tag)?;
    let comm = comm_in(comm)?;
    Ok(Placed {
        rank,
        step: ReadStep::Send {
            to,
            tag,
            body,
            comm,
        },
    })
}

/// A `recv`.
#[tactic(auto, unfolding(crate::specs::StepText::recv_step))]
pub fn recv_of(ranks: u8, table: &Table) -> Result<Placed<'_>, Fault>
    requires { 0 < ranks }
    ensures exact { map_ok planned result ≡ recv_step ranks (table_view table.now) }
    ensures below { IfOk result (λ placed. placed.rank < ranks) }
{
    let rank = required_number(table, "rank")?;
    let from = optional_number(table, "from")?;
    let tag = optional_number(table, "tag")?;
    let room = optional_number(table, "room")?;
    let comm = optional_comm(table)?;
    only_keys(table, Op::Recv.keys())?;
    let rank = rank_in(ranks, rank)?;
    let from = from_if_some(from)?;
    let tag = tag_if_some(tag)?;
    let room = room_in(room)?;
    let comm = comm_in(comm)?;
    Ok(Placed {
        rank,
        step: ReadStep::Other(Step::Recv {
            from,
            tag,
            room,
            comm,
        }),
    })
}

/// The step of an op that names an earlier step of its rank and nothing else.
#[tactic(auto, unfolding(crate::specs::StepText::step_on_req))]
pub fn on_req<'a, F: FnOnce(u16) -> Step>(
    ranks: u8,
    names: &[Name],
    op: Op,
    table: &'a Table,
    step_on: F,
) -> Result<Placed<'a>, Fault>
    requires some { 0 < ranks }
    requires callable { F.IsAlwaysCallable step_on }
    ensures exact { (order_on : ℕ → Order) → ((req : ℕ) (s : SeenStep) → F.post step_on req s → order_of s ≡ order_on req) → map_ok planned result ≡ step_on_req op order_on ranks names.now (table_view table.now) }
    ensures below { IfOk result (λ placed. placed.rank < ranks) }
{
    let rank = required_number(table, "rank")?;
    let req = required_reference(table, "req")?;
    only_keys(table, op.keys())?;
    let rank = rank_in(ranks, rank)?;
    let req = req_in(names, rank, &req)?;
    Ok(Placed {
        rank,
        step: ReadStep::Other(step_on(req)),
    })
}

/// A `probe`.
#[tactic(auto, unfolding(crate::specs::StepText::probe_step))]
pub fn probe_of(ranks: u8, table: &Table) -> Result<Placed<'_>, Fault>
    requires { 0 < ranks }
    ensures exact { map_ok planned result ≡ probe_step ranks (table_view table.now) }
    ensures below { IfOk result (λ placed. placed.rank < ranks) }
{
    let rank = required_number(table, "rank")?;
    let from = optional_number(table, "from")?;
    let tag = optional_number(table, "tag")?;
    let comm = optional_comm(table)?;
    only_keys(table, Op::Probe.keys())?;
    let rank = rank_in(ranks, rank)?;
    let from = from_if_some(from)?;
    let tag = tag_if_some(tag)?;
    let comm = comm_in(comm)?;
    Ok(Placed {
        rank,
        step: ReadStep::Other(Step::Probe { from, tag, comm }),
    })
}

/// An `mrecv`.
#[tactic(auto, unfolding(crate::specs::StepText::mrecv_step))]
pub fn mrecv_of<'a>(ranks: u8, names: &[Name], table: &'a Table) -> Result<Placed<'a>, Fault>
    requires { 0 < ranks }
    ensures exact { map_ok planned result ≡ mrecv_step ranks names.now (table_view table.now) }
    ensures below { IfOk result (λ placed. placed.rank < ranks) }
{
    let rank = required_number(table, "rank")?;
    let req = required_reference(table, "req")?;
    let room = optional_number(table, "room")?;
    only_keys(table, Op::Mrecv.keys())?;
    let rank = rank_in(ranks, rank)?;
    let req = req_in(names, rank, &req)?;
    let room = room_in(room)?;
    Ok(Placed {
        rank,
        step: ReadStep::Other(Step::Mrecv { req, room }),
    })
}
