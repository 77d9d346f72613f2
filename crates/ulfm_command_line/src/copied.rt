//! Parts of a reading once more.
ghost use Rattle.std.specs.Prelude.{◌≡◌, [], IfOk, slice_index_or};
ghost use Rattle.ulfm_reader.specs.JobText.{rows_of};

use std::alloc::{AllocError, Global};
use ulfm_job::{Clause, Text};
use ulfm_reader::{Filed, Name, Proviso};

/// The texts of rows once more.
pub(crate) fn copied_texts(
    alloc: Global,
    rows: &[Vec<Text>],
) -> Result<Vec<Vec<Text>>, AllocError> {
    let mut copies = Vec::new(alloc);
    for row in rows {
        let mut copy = Vec::new(alloc);
        for text in row {
            copy.push(text.copy(alloc)?)?;
        }
        copies.push(copy)?;
    }
    Ok(copies)
}

/// The row of this number once more: without answers where there is no such row.
pub(crate) fn copied_row(
    alloc: Global,
    rows: &[Vec<Clause>],
    number: usize,
) -> Result<Vec<Clause>, AllocError>
    ensures { IfOk result (λ copy. copy.items ≡ slice_index_or (rows_of rows.now) number []) }
{
    match rows.get(number) {
        Some(row) => copied_clauses(alloc, row.as_slice()),
        None => Ok(Vec::new(alloc)),
    }
}

/// Clauses once more.
pub(crate) fn copied_clauses(alloc: Global, clauses: &[Clause]) -> Result<Vec<Clause>, AllocError>
    ensures { IfOk result (λ copies. copies.items ≡ clauses.now) }
{
    let mut copies = Vec::new(alloc);
    for clause in clauses {
        copies.push(clause.copy(alloc)?)?;
    }
    Ok(copies)
}

/// Names once more.
pub(crate) fn copied_names(alloc: Global, names: &[Name]) -> Result<Vec<Name>, AllocError>
    ensures { IfOk result (λ copies. copies.items ≡ names.now) }
{
    let mut copies = Vec::new(alloc);
    for name in names {
        copies.push(Name {
            rank: name.rank,
            at: name.at,
            text: name.text.copy(),
        })?;
    }
    Ok(copies)
}

/// Places in the file once more.
pub(crate) fn copied_filed(alloc: Global, filed: &[Filed]) -> Result<Vec<Filed>, AllocError>
    ensures { IfOk result (λ copies. copies.items ≡ filed.now) }
{
    let mut copies = Vec::new(alloc);
    for one in filed {
        copies.push(*one)?;
    }
    Ok(copies)
}

/// Provisos once more.
pub(crate) fn copied_provisos(
    alloc: Global,
    provisos: &[Proviso],
) -> Result<Vec<Proviso>, AllocError>
    ensures { IfOk result (λ copies. copies.items ≡ provisos.now) }
{
    let mut copies = Vec::new(alloc);
    for proviso in provisos {
        copies.push(Proviso {
            subject: proviso.subject,
            before: proviso.before.copy(),
        })?;
    }
    Ok(copies)
}
