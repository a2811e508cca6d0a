// The document that bytes are.
ghost use Rattle.std.specs.Prelude.{◌≡◌, true, Err, IfOk, None, Some};
ghost use Rattle.toml.specs.View.{table_view};
ghost use Rattle.eg_toml.specs.Documents.{document_of};
ghost use Rattle.eg_toml.specs.Weight as spec;
ghost use Rattle.eg_toml.specs.declared.reading.DocumentFault.TheVariants as fault;

use crate::comments::below_comments;
use crate::weight::is_too_heavy;
use std::alloc::Global;
use toml::Table;

/// Why bytes give no document.
#[derive(Clone, Copy)]
pub enum DocumentFault {
    /// There was no memory for the document, or it weighs more than the reader takes.
    Memory,
    /// The bytes are no TOML document: they aren't UTF-8, or break a rule of TOML.
    Text,
}

/// The document that a file's bytes are (docs/FORMATS.md, "Calibration files"). Text is answered exactly
/// if the bytes are no document, unless memory runs out, which may happen for any bytes. A document that
/// weighs too much counts as one for which there is no memory (docs/FORMATS.md, "What a document weighs").
pub fn read_document(alloc: Global, bytes: &[u8]) -> Result<Table, DocumentFault>
    ensures read { IfOk result (λ t. document_of bytes.now ≡ Some (table_view t)) }
    ensures refused { result ≡ Err fault.Text → document_of bytes.now ≡ None }
    ensures heavy { spec.is_too_heavy bytes.now ≡ true → result ≡ Err fault.Memory }
{
    if let Some(rest) = below_comments(bytes) {
        match table_of(alloc, rest) {
            // No law says that what is no document without its comments is none with them.
            Err(DocumentFault::Text) => {}
            read => return read,
        }
    }
    table_of(alloc, bytes)
}

/// The table that bytes are, unless they weigh too much.
fn table_of(alloc: Global, bytes: &[u8]) -> Result<Table, DocumentFault>
    ensures read { IfOk result (λ t. document_of bytes.now ≡ Some (table_view t)) }
    ensures refused { result ≡ Err fault.Text → document_of bytes.now ≡ None }
    ensures heavy { spec.is_too_heavy bytes.now ≡ true → result ≡ Err fault.Memory }
{
    if is_too_heavy(bytes) {
        return Err(DocumentFault::Memory);
    }
    match toml::table_from_slice(alloc, bytes) {
        Ok(table) => Ok(table),
        Err(error) if error.is_memory() => Err(DocumentFault::Memory),
        Err(_) => Err(DocumentFault::Text),
    }
}
