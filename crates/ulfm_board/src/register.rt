//! The register of a board's rows: chunks of slots, each made once, in which rows are put one after another.
ghost use Rattle.std.specs.Prelude.{◌≡◌, ◌<◌, ◌+◌, ◌^◌};
ghost use Rattle.ulfm_board.specs.inside.Trail.{chunk_of, place_of};

use crate::row::Row;
use once_cell::race::OnceBox;
use std::alloc::Global;
use ulfm_base::OutOfMemory;

/// The place of one row, set at most once.
pub(crate) type Slot = OnceBox<Row>;

/// The place of one chunk, set at most once.
pub(crate) type Chunk = OnceBox<Vec<Slot>>;

/// How many chunks a register may have. Chunk k has 2 ^ k slots.
const CHUNKS: usize = 32;

/// A register in which no chunk is made.
pub(crate) fn new_register(alloc: Global) -> Result<Vec<Chunk>, OutOfMemory> {
    let mut chunks = Vec::with_capacity(alloc, CHUNKS)?;
    for _ in 0..CHUNKS {
        chunks.push_reserved(OnceBox::new(alloc));
    }
    Ok(chunks)
}

/// The slots of the chunk of this number, with no row in them.
pub(crate) fn new_chunk(alloc: Global, chunk: usize) -> Result<Box<Vec<Slot>>, OutOfMemory>
    requires { chunk < 64 }
{
    let many = 1usize << chunk;
    let mut slots = Vec::with_capacity(alloc, many)?;
    for _ in 0..many {
        slots.push_reserved(OnceBox::new(alloc));
    }
    Ok(Box::new(alloc, slots)?)
}

/// The chunk of a slot.
pub(crate) fn chunk_of(slot: usize) -> usize
    requires { slot + 1 < 2 ^ 64 }
    ensures chunk { result ≡ chunk_of slot }
    ensures low { result < 64 }
{
    63usize.saturating_sub((slot + 1).leading_zeros() as usize)
}

/// Where in its chunk a slot is.
pub(crate) fn place_of(slot: usize) -> usize
    requires { slot + 1 < 2 ^ 64 }
    ensures { result ≡ place_of slot }
{
    (slot + 1).saturating_sub(1usize << chunk_of(slot))
}
