//! The step of a table, for each op.
ghost use Rattle.std.specs.Prelude.{◌≡◌, ◌<◌, ℕ, Bool, IfOk};
ghost use Rattle.toml.specs.View.{table_view};
ghost use Rattle.ulfm_base.specs.declared.context.Context.{Context as SeenContext};
ghost use Rattle.ulfm_job.specs.declared.step.Step.{Step as SeenStep};
ghost use Rattle.ulfm_reader.specs.inside.Reading.{map_ok, planned};
ghost use Rattle.ulfm_reader.specs.Plan.{Order, order_of};
ghost use Rattle.ulfm_reader.specs.StepText.{step_on_comm, making_step, ack_step, agree_step, note_step, stop_step, known, step_of_op, step_of};

use crate::fields::{
    in_range, only_keys, optional_bool, optional_comm, required_number, required_text,
};
use crate::letters::{mrecv_of, on_req, probe_of, recv_of, send_of};
use crate::name::Name;
use crate::placed::{Placed, ReadStep};
use crate::ranges::{comm_in, flag_in, label_in, rank_in};
use toml::Table;
use ulfm_base::Context;
use ulfm_job::limits::MOST_RANKS;
use ulfm_job::{Fault, Op, Step};

/// The step of an op that names a communicator and nothing else.
#[tactic(auto, unfolding(crate::specs::StepText::step_on_comm))]
fn on_comm<F: FnOnce(Context) -> Step>(
    ranks: u8,
    op: Op,
    table: &Table,
    step_on: F,
) -> Result<Placed<'_>, Fault>
    requires some { 0 < ranks }
    requires callable { F.IsAlwaysCallable step_on }
    ensures exact { (order_on : ℕ → Order) → ((c : SeenContext) (s : SeenStep) → F.post step_on c s → order_of s ≡ order_on c.number) → map_ok planned result ≡ step_on_comm op order_on ranks (table_view table.now) }
    ensures below { IfOk result (λ placed. placed.rank < ranks) }
{
    let rank = required_number(table, "rank")?;
    let comm = optional_comm(table)?;
    only_keys(table, op.keys())?;
    let rank = rank_in(ranks, rank)?;
    let comm = comm_in(comm)?;
    Ok(Placed {
        rank,
        step: ReadStep::Other(step_on(comm)),
    })
}

/// The step of an op that makes a communicator of the one that it names: a further one where it says `again`.
#[tactic(auto, unfolding(crate::specs::StepText::making_step))]
fn making<F: FnOnce(Context, bool) -> Step>(
    ranks: u8,
    op: Op,
    table: &Table,
    step_on: F,
) -> Result<Placed<'_>, Fault>
    requires some { 0 < ranks }
    requires callable { F.IsAlwaysCallable step_on }
    ensures exact { (order_on : ℕ → Bool → Order) → ((c : SeenContext) (again : Bool) (s : SeenStep) → F.post step_on c again s → order_of s ≡ order_on c.number again) → map_ok planned result ≡ making_step op order_on ranks (table_view table.now) }
    ensures below { IfOk result (λ placed. placed.rank < ranks) }
{
    let rank = required_number(table, "rank")?;
    let comm = optional_comm(table)?;
    let again = optional_bool(table, "again")?;
    only_keys(table, op.keys())?;
    let rank = rank_in(ranks, rank)?;
    let comm = comm_in(comm)?;
    Ok(Placed {
        rank,
        step: ReadStep::Other(step_on(comm, again.unwrap_or(false))),
    })
}

#[tactic(auto, unfolding(crate::specs::StepText::ack_step))]
fn ack_of(ranks: u8, table: &Table) -> Result<Placed<'_>, Fault>
    requires { 0 < ranks }
    ensures exact { map_ok planned result ≡ ack_step ranks (table_view table.now) }
    ensures below { IfOk result (λ placed. placed.rank < ranks) }
{
    let rank = required_number(table, "rank")?;
    let count = required_number(table, "count")?;
    let comm = optional_comm(table)?;
    only_keys(table, Op::Ack.keys())?;
    let rank = rank_in(ranks, rank)?;
    let count = in_range(count, 0, u32::from(MOST_RANKS))? as u8;
    let comm = comm_in(comm)?;
    Ok(Placed {
        rank,
        step: ReadStep::Other(Step::Ack { count, comm }),
    })
}

#[tactic(auto, unfolding(crate::specs::StepText::agree_step))]
fn agree_of(ranks: u8, table: &Table) -> Result<Placed<'_>, Fault>
    requires { 0 < ranks }
    ensures exact { map_ok planned result ≡ agree_step ranks (table_view table.now) }
    ensures below { IfOk result (λ placed. placed.rank < ranks) }
{
    let rank = required_number(table, "rank")?;
    let flag = required_number(table, "flag")?;
    let comm = optional_comm(table)?;
    only_keys(table, Op::Agree.keys())?;
    let rank = rank_in(ranks, rank)?;
    let flag = flag_in(flag)?;
    let comm = comm_in(comm)?;
    Ok(Placed {
        rank,
        step: ReadStep::Other(Step::Agree { flag, comm }),
    })
}

#[tactic(auto, unfolding(crate::specs::StepText::note_step))]
fn note_of(ranks: u8, table: &Table) -> Result<Placed<'_>, Fault>
    requires { 0 < ranks }
    ensures exact { map_ok planned result ≡ note_step ranks (table_view table.now) }
    ensures below { IfOk result (λ placed. placed.rank < ranks) }
{
    let rank = required_number(table, "rank")?;
    let text = required_text(table, "text")?;
    only_keys(table, Op::Note.keys())?;
    let rank = rank_in(ranks, rank)?;
    let text = label_in(text)?;
    Ok(Placed {
        rank,
        step: ReadStep::Other(Step::Note { text }),
    })
}

#[tactic(auto, unfolding(crate::specs::StepText::stop_step))]
fn stop_of(ranks: u8, table: &Table) -> Result<Placed<'_>, Fault>
    requires { 0 < ranks }
    ensures exact { map_ok planned result ≡ stop_step ranks (table_view table.now) }
    ensures below { IfOk result (λ placed. placed.rank < ranks) }
{
    let rank = required_number(table, "rank")?;
    only_keys(table, Op::Stop.keys())?;
    let rank = rank_in(ranks, rank)?;
    Ok(Placed {
        rank,
        step: ReadStep::Other(Step::Stop),
    })
}

/// An op, if it is one.
fn known(op: Option<Op>) -> Result<Op, Fault>
    ensures { result ≡ known op }
{
    match op {
        Some(op) => Ok(op),
        None => Err(Fault::UnknownOp),
    }
}

/// The step of a table with this op.
#[tactic(auto, unfolding(crate::specs::StepText::step_of_op))]
fn step_of_op<'a>(ranks: u8, names: &[Name], op: Op, table: &'a Table) -> Result<Placed<'a>, Fault>
    requires { 0 < ranks }
    ensures exact { map_ok planned result ≡ step_of_op ranks names.now op (table_view table.now) }
    ensures below { IfOk result (λ placed. placed.rank < ranks) }
{
    match op {
        Op::Send => send_of(ranks, table),
        Op::Recv => recv_of(ranks, table),
        Op::Wait => on_req(ranks, names, op, table, |req| Step::Wait { req }),
        Op::Probe => probe_of(ranks, table),
        Op::Mrecv => mrecv_of(ranks, names, table),
        Op::Cancel => on_req(ranks, names, op, table, |req| Step::Cancel { req }),
        Op::Failed => on_comm(ranks, op, table, |comm| Step::Failed { comm }),
        Op::Ack => ack_of(ranks, table),
        Op::Revoke => on_comm(ranks, op, table, |comm| Step::Revoke { comm }),
        Op::Dup => making(ranks, op, table, |comm, again| Step::Dup { comm, again }),
        Op::Shrink => making(ranks, op, table, |comm, again| Step::Shrink { comm, again }),
        Op::Agree => agree_of(ranks, table),
        Op::Note => note_of(ranks, table),
        Op::Stop => stop_of(ranks, table),
    }
}

/// The step of a table.
///
/// # Errors
///
/// `BadKey` where `op` is missing or no text, then `UnknownOp`, then the faults of the op's own keys: `BadKey` where one
/// is missing or of another kind, `UnknownKey`, and `OutOfRange`, in this order.
#[tactic(auto, unfolding(crate::specs::StepText::step_of))]
pub fn step_of<'a>(ranks: u8, names: &[Name], table: &'a Table) -> Result<Placed<'a>, Fault>
    requires { 0 < ranks }
    ensures exact { map_ok planned result ≡ step_of ranks names.now (table_view table.now) }
    ensures below { IfOk result (λ placed. placed.rank < ranks) }
{
    let name = required_text(table, "op")?;
    let op = known(Op::named(name))?;
    step_of_op(ranks, names, op, table)
}
