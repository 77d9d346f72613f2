//! What ranks do with their ends, one act after another, and what comes of it.
ghost use Rattle.std.specs.Prelude.{◌≡◌, ℕ, map, vec_len};
ghost use Rattle.ulfm_base.specs.Lists.{at};
ghost use Rattle.ulfm_carrier.specs.Family.{AllFresh};

use super::letters::{byte_of, letter};
use std::sync::Wait;
use ulfm_base::CallError;
use ulfm_carrier::{Ends, Residue};

/// What a rank does, and what has to come of it.
#[derive(Clone, Copy)]
pub enum Act {
    /// The first rank pushes a letter of this byte to the second, and whether it is accepted.
    Push(u8, u8, u8, bool),
    /// A rank pops: the sender's number and the letter's byte, or nothing.
    Pop(u8, Option<(u8, u8)>),
}

/// A rank pushes a letter to another: whether it was accepted.
fn push<E: Ends, R: Wait>(
    rt: &R,
    ends: &mut Vec<E>,
    from: u8,
    to: u8,
    byte: u8,
) -> Result<bool, CallError>
    requires family { E.one_call (map E.name ends.old.items) }
    requires ready { (k : ℕ) (e : E) → at ends.old.items k e → E.ready e × (E.count e ≡ vec_len ends.old) }
    ensures family { E.one_call (map E.name ends.new.items) }
    ensures ready { (k : ℕ) (e : E) → at ends.new.items k e → E.ready e × (E.count e ≡ vec_len ends.new) }
{
    if from as usize >= ends.len() || to as usize >= ends.len() {
        return Err(CallError::BadRank);
    }
    let alloc = *ends.allocator();
    let end = &mut ends[from as usize];
    let item = letter(alloc, end.me().number, byte)?;
    Ok(end.push(rt, to, item).is_ok())
}

/// A rank pops: the sender's number, and the letter's byte.
fn pop<E: Ends, R: Wait>(rt: &R, ends: &mut Vec<E>, by: u8) -> Result<Option<(u8, u8)>, CallError>
    requires family { E.one_call (map E.name ends.old.items) }
    requires ready { (k : ℕ) (e : E) → at ends.old.items k e → E.ready e × (E.count e ≡ vec_len ends.old) }
    ensures family { E.one_call (map E.name ends.new.items) }
    ensures ready { (k : ℕ) (e : E) → at ends.new.items k e → E.ready e × (E.count e ≡ vec_len ends.new) }
{
    if by as usize >= ends.len() {
        return Err(CallError::BadRank);
    }
    let end = &mut ends[by as usize];
    let found = end.pop(rt);
    Ok(found.map(|(source, item)| (source.number, byte_of(&item))))
}

/// The place of the first act of which something else comes.
fn first_other<E: Ends, R: Wait>(
    rt: &R,
    ends: &mut Vec<E>,
    acts: &[Act],
) -> Result<Option<usize>, CallError>
    requires family { E.one_call (map E.name ends.old.items) }
    requires ready { (k : ℕ) (e : E) → at ends.old.items k e → E.ready e × (E.count e ≡ vec_len ends.old) }
    ensures family { E.one_call (map E.name ends.new.items) }
    ensures ready { (k : ℕ) (e : E) → at ends.new.items k e → E.ready e × (E.count e ≡ vec_len ends.new) }
{
    for (place, act) in acts.iter().enumerate() {
        let comes = match act {
            Act::Push(from, to, byte, accepted) => push(rt, ends, *from, *to, *byte)? == *accepted,
            Act::Pop(by, found) => pop(rt, ends, *by)? == *found,
        };
        if !comes {
            return Ok(Some(place));
        }
    }
    Ok(None)
}

/// The place of the first act of fresh ends of which something else comes, and what is left in their inboxes at the end.
pub fn played<E: Ends, R: Wait>(
    rt: &R,
    ends: Vec<E>,
    acts: &[Act],
) -> Result<(Option<usize>, Residue), CallError>
    requires one_call { E.one_call (map E.name ends.items) }
    requires fresh { AllFresh E.count E.pushed E.taken E.ready ends.items }
{
    let mut ends = ends;
    let other = first_other(rt, &mut ends, acts)?;
    let (residue, _ends) = E::gather(rt, ends);
    Ok((other, residue))
}
