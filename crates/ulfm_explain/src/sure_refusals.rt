//! Which steps of a job that can be read will surely be refused, and why.

use crate::keys::{integer_at, is_true_at, text_at};
use crate::refusal_cause::{Doom, LAST_PARENT};
use crate::rules::Key;
use crate::script::{Script, has_condition, op_of};
use crate::steps::rank_of;
use toml::Value;
use ulfm_base::Context;
use ulfm_job::Op;
use ulfm_job::limits::MOST_BODY;

/// A step among those of its rank, in a job of so many ranks.
#[derive(Clone, Copy)]
pub struct Placed<'a> {
    /// The steps of the file.
    pub steps: &'a [Value],
    pub ranks: u8,
    pub rank: i64,
    /// Its number among the steps of its rank.
    pub number: usize,
    pub step: &'a Value,
}

/// Whether a step is on the communicator that an earlier one makes.
fn is_by_name(step: &Value) -> bool {
    match step.as_table() {
        Some(table) => text_at(table, Key::Comm).is_some(),
        None => false,
    }
}

/// The number of the communicator of a step: that of the world where it has none. It isn't known where an earlier step makes it.
fn comm_of(step: &Value) -> Option<i64> {
    if is_by_name(step) {
        return None;
    }
    Some(integer_at(step.as_table()?, Key::Comm).unwrap_or(0))
}

/// Whether a step makes a further communicator.
fn is_further(step: &Value) -> bool {
    match step.as_table() {
        Some(table) => is_true_at(table, Key::Again),
        None => false,
    }
}

/// The number of the communicator that a step makes, if it isn't refused.
fn made_by(step: &Value) -> Option<u64> {
    let of = match u64::try_from(comm_of(step)?) {
        Ok(number) => Context::new(number)?,
        Err(_) => return None,
    };
    match op_of(step) {
        Some(Op::Dup) => Some(of.dup_number()),
        Some(Op::Shrink) => Some(of.shrink_number()),
        _ => None,
    }
}

/// Whether a step makes this communicator, or may make it since it is on one that an earlier step makes, if it isn't refused.
fn makes(step: &Value, comm: i64) -> bool {
    if is_by_name(step) {
        return matches!(op_of(step), Some(Op::Dup | Op::Shrink));
    }
    match (made_by(step), u64::try_from(comm)) {
        (Some(made), Ok(comm)) => made == comm,
        _ => false,
    }
}

impl<'a> Placed<'a> {
    /// The steps of its rank.
    fn script(&self) -> Script<'a> {
        Script {
            steps: self.steps,
            rank: self.rank,
        }
    }

    /// The step of its rank with this number.
    pub fn sibling(&self, number: usize) -> Option<&'a Value> {
        self.script().step(number)
    }

    /// The number of the step that a step of its rank names.
    fn req_of(&self, step: &Value) -> Option<i64> {
        let value = step.as_table()?.get("req")?;
        self.script().number_of(value, self.number)
    }

    /// Whether its rank stops before it, whatever happens.
    pub fn is_after_stop(&self) -> bool {
        let mut left = self.number;
        for step in self.steps {
            if rank_of(step) != Some(self.rank) {
                continue;
            }
            if left == 0 {
                return false;
            }
            left -= 1;
            if is_sure_stop(step) {
                return true;
            }
        }
        false
    }

    /// Why it will be refused, if it surely will.
    pub fn doom(&self) -> Option<Doom> {
        match op_of(self.step)? {
            Op::Wait | Op::Cancel => self.doom_of_req(Op::Recv, Op::Cancel),
            Op::Mrecv => self.doom_of_req(Op::Probe, Op::Mrecv),
            op => self.doom_of_call(op),
        }
    }

    /// Why a call that names no earlier step will be refused.
    fn doom_of_call(&self, op: Op) -> Option<Doom> {
        if matches!(op, Op::Note | Op::Stop) {
            return None;
        }
        self.doom_of_rank()
            .or(self.doom_of_body())
            .or(self.doom_of_comm(op))
    }

    /// A `to` or a `from` past the ranks of the world.
    fn doom_of_rank(&self) -> Option<Doom> {
        let table = self.step.as_table()?;
        for key in [Key::To, Key::From] {
            if let Some(rank) = integer_at(table, key) {
                if rank >= i64::from(self.ranks) {
                    return Some(Doom::PastRanks(key, rank, self.ranks));
                }
            }
        }
        None
    }

    /// A body that is too long.
    fn doom_of_body(&self) -> Option<Doom> {
        let body = text_at(self.step.as_table()?, Key::Body)?;
        if body.len() > MOST_BODY {
            Some(Doom::LongBody(body.len()))
        } else {
            None
        }
    }

    /// Whether an earlier call leaves it no communicator to make: the op is the same, and it doesn't ask for a further one. Past the last
    /// communicator of which there is one, only a call that asked for a further one made any.
    fn is_second_to(&self, earlier: &Value) -> bool {
        !is_further(self.step)
            && op_of(earlier) == op_of(self.step)
            && (matches!(comm_of(earlier), Some(comm) if comm <= LAST_PARENT)
                || is_further(earlier))
    }

    /// A communicator that isn't made, is revoked, or has its one duplicate or shrink. Where a step that makes it stands between,
    /// earlier calls on it say nothing, and neither does one that may be skipped.
    fn doom_of_comm(&self, op: Op) -> Option<Doom> {
        let comm = comm_of(self.step)?;
        let is_making = matches!(op, Op::Dup | Op::Shrink);
        let mut is_made = comm == 0;
        let mut revoked = None;
        let mut again = None;
        for number in 0..self.number {
            let earlier = self.sibling(number)?;
            if makes(earlier, comm) {
                is_made = true;
                revoked = None;
                again = None;
            }
            if comm_of(earlier) == Some(comm) && !has_condition(earlier) {
                let other = op_of(earlier);
                if other == Some(Op::Revoke) {
                    revoked = Some(Doom::Revoked(comm, number));
                }
                if is_making && self.is_second_to(earlier) {
                    again = Some(Doom::Again(comm, op, number));
                }
            }
        }
        if !is_made {
            return Some(Doom::NotMade(comm));
        }
        if is_making && comm > LAST_PARENT && !is_further(self.step) {
            return again.or(Some(Doom::NoContext(comm, op)));
        }
        if matches!(op, Op::Send | Op::Recv | Op::Probe | Op::Dup) {
            return revoked.or(again);
        }
        again
    }

    /// A `req` that names no step with the wanted op, none that comes earlier, one that will be refused, or one of which
    /// an earlier step with the last op leaves nothing.
    fn doom_of_req(&self, wanted: Op, last: Op) -> Option<Doom> {
        let req = self.req_of(self.step)?;
        let Ok(number) = usize::try_from(req) else {
            return None;
        };
        let Some(step) = self.sibling(number) else {
            return Some(Doom::NoSuchStep(req));
        };
        if number == self.number {
            return Some(Doom::Itself(req));
        }
        if number > self.number {
            return Some(Doom::Later(number));
        }
        let op = op_of(step)?;
        if op != wanted {
            return Some(Doom::AnotherOp(number, wanted, op));
        }
        let asked = Placed {
            number,
            step,
            ..*self
        };
        if asked.doom_of_call(op).is_some() {
            return Some(Doom::RefusedStep(number, op));
        }
        let used = self.used_up_by(req, number, last)?;
        Some(Doom::UsedUp(req, last, used))
    }

    /// The number of the earlier step of its rank that has this op and this `req`, and comes after the step that is named.
    fn used_up_by(&self, req: i64, named: usize, op: Op) -> Option<usize> {
        for number in named..self.number {
            let earlier = self.sibling(number)?;
            if op_of(earlier) == Some(op)
                && !has_condition(earlier)
                && self.req_of(earlier) == Some(req)
            {
                return Some(number);
            }
        }
        None
    }
}

/// Whether a step is a stop that is never skipped.
fn is_sure_stop(step: &Value) -> bool {
    op_of(step) == Some(Op::Stop) && !has_condition(step)
}
