//! The reply of `expand`: a job with its steps written out.
ghost use Rattle.std.specs.Prelude.{◌≡◌, ◌≤◌, false, Some, option_map, IfOk, string_bytes};
ghost use Rattle.std.specs.Option.{option_and_then};
ghost use Rattle.toml.specs.Data.{Members, as_table, members_depth, table as as_data};
ghost use Rattle.toml.specs.Parse.{parse_document};
ghost use Rattle.toml.specs.Text.{IsDocumentText};
ghost use Rattle.toml.specs.View.{table_view, view};
ghost use Rattle.ulfm_reader.specs.Documents.{written_job};
ghost use Rattle.ulfm_forms.specs.declared.form.Form.{Form};
ghost use Rattle.ulfm_command_line.specs.Body.{body_in};
ghost use Rattle.ulfm_command_line.specs.Expanded.{IsExpandReply, IsWritten, document_in};

use crate::body::Body;
use crate::nesting::are_members_within;
use crate::reply::{DONE, Reply, refusal};
use std::alloc::{AllocError, Global};
use toml::{Table, Value};
use ulfm_job::limits::MOST_BYTES;
use ulfm_job::{Job, JobFault};
use ulfm_reader::{ReadJob, written_job};

/// How deep TOML is read.
const DEEPEST: u8 = 80;

/// The reply of `expand`: the text of the job with its steps written out.
pub fn expand_reply(alloc: Global, bytes: &[u8]) -> Result<Reply, AllocError>
    ensures { IfOk result (λ r. (form : Form) → IsExpandReply form bytes.now r.status (body_in form r.body)) }
{
    match Job::read(alloc, bytes) {
        Ok(_job) => good_reply(alloc, bytes),
        Err(fault) => Ok(refusal(fault)),
    }
}

/// The reply for a good job.
fn good_reply(alloc: Global, bytes: &[u8]) -> Result<Reply, AllocError>
    ensures { IfOk result (λ r. (ms : Members) × (document_in bytes.now ≡ Some (as_data ms)) × ((form : Form) → IsWritten form ms r.status (body_in form r.body))) }
{
    let document = document_of(alloc, bytes)?;
    match table_in(&document) {
        Some(table) => table_reply(alloc, table),
        None => Err(AllocError),
    }
}

/// The reply with the text of a job's table, or the refusal of that text.
fn table_reply(alloc: Global, table: &Table) -> Result<Reply, AllocError>
    ensures { IfOk result (λ r. (form : Form) → IsWritten form (table_view table.now) r.status (body_in form r.body)) }
{
    if !are_members_within(table, DEEPEST) {
        return Ok(refusal(JobFault::NotToml));
    }
    let text = text_of(alloc, table)?;
    if text.len() > MOST_BYTES {
        return Ok(refusal(JobFault::TooLarge));
    }
    Ok(Reply {
        status: DONE,
        body: Body::Text(text),
        remarks: None,
    })
}

/// The job that the bytes are, as a TOML document with its steps written out, where they are a document.
fn document_of(alloc: Global, bytes: &[u8]) -> Result<Option<Value>, AllocError>
    ensures { IfOk result (λ document. option_map view document ≡ document_in bytes.now) }
{
    let Ok(text) = str::from_utf8(bytes) else {
        return Ok(None);
    };
    match toml::table_from_str(alloc, text) {
        Ok(table) => written_document(alloc, table),
        Err(error) => {
            if error.is_memory() {
                Err(AllocError)
            } else {
                Ok(None)
            }
        }
    }
}

/// A job's table as a document with its steps written out.
fn written_document(alloc: Global, table: Table) -> Result<Option<Value>, AllocError>
    ensures { IfOk result (λ document. option_map view document ≡ Some (as_data (written_job (table_view table)))) }
{
    let written = written_job(alloc, table)?;
    Ok(Some(Value::Table(written)))
}

/// The table that a document is.
fn table_in(document: &Option<Value>) -> Option<&Table>
    ensures { option_map (λ t. table_view t.now) result ≡ option_and_then as_table (option_map view document.now) }
{
    match document {
        Some(document) => document.as_table(),
        None => None,
    }
}

/// The text of a table.
fn text_of(alloc: Global, table: &Table) -> Result<String, AllocError>
    ensures text { IfOk result (λ text. IsDocumentText false (table_view table.now) (string_bytes text)) }
    ensures reads_back { IfOk result (λ text. members_depth (table_view table.now) ≤ 80 → parse_document (string_bytes text) ≡ Some (table_view table.now)) }
{
    match toml::table_to_string(alloc, table) {
        Ok(text) => Ok(text),
        Err(_) => Err(AllocError),
    }
}
