// Reading a file of rows, whatever a record writes.
ghost use Rattle.std.specs.Prelude.{◌≡◌, ◌∷◌, [], List, length, IfOk, IfErr, Ok, Err, if◌then◌else◌, nat_lt};
ghost use Rattle.std.specs.Bool.{MatchBool};
ghost use Rattle.csv.specs.Records.{fields_of};
ghost use Rattle.eg_input.specs.Records.{Record, records_of};
ghost use Rattle.eg_input.specs.Rows.{IsRead, rows_below, file_rows};
ghost use Rattle.eg_input.specs.Inner.Unread.{HasUnread};
ghost use Rattle.eg_input.specs.declared.fault.TraceFault.TheVariants as fault;

use crate::TraceFault;
use crate::plain::read_plain;
use crate::row::FileRow;
use csv::{ByteRecord, Reader, ReaderBuilder};
use std::alloc::Global;

/// How many records may stand below the header.
pub(crate) const MOST_ROWS: u32 = 20_000;

/// The rows of a file. Plain files, the usual ones, are read without csv.
pub(crate) fn read_rows<R: FileRow>(alloc: Global, bytes: &[u8]) -> Result<Vec<R>, TraceFault>
    ensures { IsRead (file_rows R.headers R.row_of (records_of bytes.now)) result }
{
    match read_plain(alloc, bytes) {
        Some(read) => read,
        None => read_records(alloc, bytes),
    }
}

/// The rows of any file.
fn read_records<R: FileRow>(alloc: Global, bytes: &[u8]) -> Result<Vec<R>, TraceFault>
    ensures { IsRead (file_rows R.headers R.row_of (records_of bytes.now)) result }
{
    let mut reader = reader_of(alloc, bytes)?;
    let mut entry = ByteRecord::new(alloc);
    read_file(alloc, &mut reader, &mut entry)
}

/// A reader that has read nothing of a text yet. It is given an empty header row, since a reader without one
/// keeps two copies of the first record in its place.
#[tactic(auto, unfolding(crate::specs::Records::records_of))]
fn reader_of(alloc: Global, bytes: &[u8]) -> Result<Reader<&[u8]>, TraceFault>
    ensures reader { IfOk result (λ reader. HasUnread reader (records_of bytes.now)) }
    ensures memory { IfErr result (λ e. e ≡ fault.Memory) }
{
    let mut reader = ReaderBuilder::new()
        .flexible(true)
        .from_reader(alloc, bytes);
    match reader.set_byte_headers(ByteRecord::new(alloc)) {
        Ok(()) => Ok(reader),
        Err(_) => Err(TraceFault::Memory),
    }
}

/// Reads the next record into `entry`, or answers false where there is none.
fn next_record(reader: &mut Reader<&[u8]>, entry: &mut ByteRecord) -> Result<bool, TraceFault>
    ensures reads { IfOk result (λ found. (left : List Record) → HasUnread reader.old left → MatchBool found
        ((rest : List Record) × (left ≡ fields_of entry.new ∷ rest) × HasUnread reader.new rest)
        (left ≡ [])) }
    ensures memory { IfErr result (λ e. e ≡ fault.Memory) }
{
    reader
        .read_byte_record(entry)
        .map_err(|_| TraceFault::Memory)
}

/// The rows of a file of which nothing was read yet.
fn read_file<R: FileRow>(
    alloc: Global,
    reader: &mut Reader<&[u8]>,
    entry: &mut ByteRecord,
) -> Result<Vec<R>, TraceFault>
    ensures { (left : List Record) → HasUnread reader.old left →
        IsRead (file_rows R.headers R.row_of left) result }
{
    if !next_record(reader, entry)? {
        return Err(TraceFault::Header);
    }
    if !R::is_header(entry) {
        return Err(TraceFault::Header);
    }
    read_below(alloc, entry.len(), reader, entry)
}

/// The rows below the header of `width` fields, which was read already.
fn read_below<R: FileRow>(
    alloc: Global,
    width: usize,
    reader: &mut Reader<&[u8]>,
    entry: &mut ByteRecord,
) -> Result<Vec<R>, TraceFault>
    ensures { (left : List Record) → HasUnread reader.old left →
        IsRead (rows_below 20000 (R.row_of width) left) result }
{
    let mut rows = Vec::new(alloc);
    for count in 0..MOST_ROWS {
        if !next_record(reader, entry)? {
            return unless_empty(rows);
        }
        let Some(row) = R::from_record(entry, width) else {
            return Err(TraceFault::Row { line: count + 2 });
        };
        rows.push(row).map_err(|_| TraceFault::Memory)?;
    }
    if next_record(reader, entry)? {
        return Err(TraceFault::Long);
    }
    unless_empty(rows)
}

/// These rows, or the fault Empty where there is none.
pub(crate) fn unless_empty<R: Drop>(rows: Vec<R>) -> Result<Vec<R>, TraceFault>
    ensures { result ≡ (if nat_lt 0 (length rows.items) then Ok rows else Err fault.Empty) }
{
    if rows.is_empty() {
        Err(TraceFault::Empty)
    } else {
        Ok(rows)
    }
}
