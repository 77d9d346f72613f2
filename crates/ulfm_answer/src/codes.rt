//! The codes of answers: bytes that are read back.
ghost use Rattle.std.specs.Prelude.{◌≡◌, ◌∷◌, ◌++◌, [], OnOk};
ghost use Rattle.ulfm_base.specs.Error.{error_text};
ghost use Rattle.ulfm_answer.specs.Told.{code_of, eight, four, made_code, shrunk_code, told_of, two};

use crate::answer::StepAnswer;
use crate::told_answer::{ToldAnswer, members_of, told_of};
use std::alloc::Global;
use ulfm_base::{CallError, OutOfMemory};

/// Puts a byte.
fn put_byte(code: &mut Vec<u8>, byte: u8) -> Result<(), OutOfMemory>
    ensures { OnOk result (code.new.items ≡ code.old.items ++ byte ∷ []) }
{
    code.push(byte)?;
    Ok(())
}

/// Puts bytes.
fn put_bytes(code: &mut Vec<u8>, bytes: &[u8]) -> Result<(), OutOfMemory>
    ensures { OnOk result (code.new.items ≡ code.old.items ++ bytes.now) }
{
    code.extend_from_slice(bytes)?;
    Ok(())
}

/// Puts a number by two bytes.
fn put_two(code: &mut Vec<u8>, number: u16) -> Result<(), OutOfMemory>
    ensures { OnOk result (code.new.items ≡ code.old.items ++ two number) }
{
    put_byte(code, (number % 256) as u8)?;
    put_byte(code, (number / 256) as u8)
}

/// Puts a number by four bytes.
fn put_four(code: &mut Vec<u8>, number: u32) -> Result<(), OutOfMemory>
    ensures { OnOk result (code.new.items ≡ code.old.items ++ four number) }
{
    put_two(code, (number % 65536) as u16)?;
    put_two(code, (number / 65536) as u16)
}

/// Puts a number by eight bytes.
fn put_eight(code: &mut Vec<u8>, number: u64) -> Result<(), OutOfMemory>
    ensures { OnOk result (code.new.items ≡ code.old.items ++ eight number) }
{
    put_four(code, (number % 4294967296) as u32)?;
    put_four(code, (number / 4294967296) as u32)
}

/// Puts a kind, and bytes behind it.
fn put_kind(code: &mut Vec<u8>, kind: u8, rest: &[u8]) -> Result<(), OutOfMemory>
    ensures { OnOk result (code.new.items ≡ code.old.items ++ kind ∷ rest.now) }
{
    put_byte(code, kind)?;
    put_bytes(code, rest)
}

/// Puts that a duplicate of this context was made.
fn put_made(code: &mut Vec<u8>, comm: u64) -> Result<(), OutOfMemory>
    ensures { OnOk result (code.new.items ≡ code.old.items ++ made_code comm) }
{
    if comm < 256 {
        return put_kind(code, 15, &[comm as u8]);
    }
    put_byte(code, 18)?;
    put_eight(code, comm)
}

/// Puts that a shrink made a communicator of this context and group, with the rank's position there.
fn put_shrunk(code: &mut Vec<u8>, comm: u64, members: &[u8], me: u8) -> Result<(), OutOfMemory>
    ensures { OnOk result (code.new.items ≡ code.old.items ++ shrunk_code comm members.now me) }
{
    if comm < 256 {
        put_kind(code, 16, &[comm as u8, me])?;
        return put_bytes(code, members);
    }
    put_kind(code, 19, &[me])?;
    put_eight(code, comm)?;
    put_bytes(code, members)
}

/// Puts a kind, and where a letter came from with its tag.
fn put_letter(code: &mut Vec<u8>, kind: u8, source: u8, tag: u16) -> Result<(), OutOfMemory>
    ensures { OnOk result (code.new.items ≡ code.old.items ++ kind ∷ source ∷ two tag) }
{
    put_byte(code, kind)?;
    put_byte(code, source)?;
    put_two(code, tag)
}

/// Puts a kind, and a refusal.
fn put_refusal(code: &mut Vec<u8>, kind: u8, error: CallError) -> Result<(), OutOfMemory>
    ensures { OnOk result (code.new.items ≡ code.old.items ++ kind ∷ error_text error) }
{
    put_kind(code, kind, error.text().as_bytes())
}

/// Puts the code of what is told.
fn put_told(code: &mut Vec<u8>, told: &ToldAnswer<'_>) -> Result<(), OutOfMemory>
    ensures { OnOk result (code.new.items ≡ code.old.items ++ code_of told.now) }
{
    match told {
        ToldAnswer::Sent => put_byte(code, 0),
        ToldAnswer::Posted => put_byte(code, 1),
        ToldAnswer::Pending => put_byte(code, 2),
        ToldAnswer::Cancelled => put_byte(code, 3),
        ToldAnswer::Revoked => put_byte(code, 4),
        ToldAnswer::Noted => put_byte(code, 5),
        ToldAnswer::Stopped => put_byte(code, 6),
        ToldAnswer::Unfinished => put_byte(code, 7),
        ToldAnswer::Skipped => put_byte(code, 8),
        ToldAnswer::Done(source, tag, body) => {
            put_letter(code, 9, *source, *tag)?;
            put_bytes(code, body.as_slice())
        }
        ToldAnswer::Found(source, tag, length) => {
            put_letter(code, 10, *source, *tag)?;
            put_eight(code, *length as u64)
        }
        ToldAnswer::Over(error) => put_refusal(code, 11, *error),
        ToldAnswer::Refused(error) => put_refusal(code, 12, *error),
        ToldAnswer::Ranks(members) => put_kind(code, 13, members.as_slice()),
        ToldAnswer::Acked(total) => put_kind(code, 14, &[*total]),
        ToldAnswer::Made(comm) => put_made(code, *comm),
        ToldAnswer::Shrunk(comm, members, me) => put_shrunk(code, *comm, members.as_slice(), *me),
        ToldAnswer::Agreed(value, missing) => {
            put_byte(code, 17)?;
            put_four(code, *value)?;
            put_bytes(code, missing.as_slice())
        }
    }
}

/// Puts the code of what is told of an answer behind other bytes.
///
/// # Errors
///
/// `OutOfMemory` where a growth was refused: a part of the code may stand there then.
pub fn push_code(bytes: &mut Vec<u8>, answer: &StepAnswer) -> Result<(), OutOfMemory>
    ensures { OnOk result (bytes.new.items ≡ bytes.old.items ++ code_of (told_of answer.now)) }
{
    let members = members_of(*bytes.allocator(), answer);
    put_told(bytes, &told_of(answer, members.as_slice()))
}

impl ToldAnswer<'_> {
    ghost use Rattle.std.specs.Prelude.{◌≡◌, IfOk};
    ghost use Rattle.ulfm_answer.specs.Told.{code_of};

    /// Its code.
    ///
    /// # Errors
    ///
    /// `OutOfMemory` where a growth was refused.
    pub fn code(&self, alloc: Global) -> Result<Vec<u8>, OutOfMemory>
        ensures { IfOk result (λ code. code.items ≡ code_of self.now) }
    {
        let mut code = Vec::new(alloc);
        put_told(&mut code, self)?;
        Ok(code)
    }
}
