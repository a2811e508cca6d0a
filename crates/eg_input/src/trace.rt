// The files that the simulator reads: check files and drive traces.
ghost use Rattle.std.specs.Prelude.{◌≡◌, ◌≢◌, ◌↔◌, ℕ, ◌≤◌, ◌∷◌, [], List, All, Any, IfOk, Ok, Err, Some, slice_get, length};
ghost use Rattle.eg_num.specs.Drive.{DriveRow, IsDrive};
ghost use Rattle.eg_input.specs.Records.{Record, records_of};
ghost use Rattle.eg_input.specs.Rows.{IsRead, IsFileOf, HasNoRowAt, IsTooLong};
ghost use Rattle.eg_input.specs.CheckFile.{CheckRow, IsCheckRow, check_header, check_row_of, check_rows};
ghost use Rattle.eg_input.specs.DriveTrace.{trace_headers, drive_of, drive_rows};
ghost use Rattle.eg_input.specs.declared.fault.TraceFault.TheVariants as fault;

use crate::TraceFault;
use crate::reader::read_rows;
use eg_num::Drive;
use std::alloc::Global;

/// The rows of a check file (docs/FORMATS.md, "Check files and traces"): the header
/// `pedal,speed,raise,torque`, and below it 1 to 20,000 records, each of which gives a drive row and a torque
/// in tenths of Nm.
pub fn read_check(alloc: Global, bytes: &[u8]) -> Result<Vec<(Drive, u16)>, TraceFault>
    ensures rows { IsRead (check_rows (records_of bytes.now)) result }
    ensures limits { IfOk result (λ rows. All IsCheckRow rows.items) }
{
    read_rows(alloc, bytes)
}

/// The rows of a drive trace (docs/FORMATS.md, "Check files and traces"): one of the headers
/// `pedal,speed,raise`, `pedal,speed,raise,reset` and `pedal,speed,raise,reset,brake`, and below it 1 to
/// 20,000 records, each of which gives the drive row of one tick.
pub fn read_trace(alloc: Global, bytes: &[u8]) -> Result<Vec<Drive>, TraceFault>
    ensures rows { IsRead (drive_rows (records_of bytes.now)) result }
    ensures limits { IfOk result (λ rows. All IsDrive rows.items) }
    ensures some { IfOk result (λ rows. (1 ≤ length rows.items) × (length rows.items ≤ 20000)) }
{
    read_rows(alloc, bytes)
}

/// Does nothing when it runs. Its clauses are laws of what `check_rows` says of a check file
/// (docs/FORMATS.md, "Check files and traces"): it gives the rows exactly if the file is the header and
/// the records that write them, and each fault exactly if the file has it.
pub fn check_files_are_their_rows()
    ensures rows { (file : List Record) (rows : List CheckRow) →
        (check_rows file ≡ Ok rows) ↔ IsFileOf check_header check_row_of file rows }
    ensures header { (file : List Record) →
        (check_rows file ≡ Err fault.Header) ↔ (slice_get file 0 ≢ Some check_header) }
    ensures row { (file : List Record) (number : ℕ) →
        (check_rows file ≡ Err (fault.Row number)) ↔ HasNoRowAt check_header check_row_of file number }
    ensures empty { (file : List Record) → (check_rows file ≡ Err fault.Empty) ↔ (file ≡ check_header ∷ []) }
    ensures long { (file : List Record) →
        (check_rows file ≡ Err fault.Long) ↔ IsTooLong check_header check_row_of file }
    ensures memory { (file : List Record) → check_rows file ≢ Err fault.Memory }
{}

/// Does nothing when it runs. Its clauses are laws of what `drive_rows` says of a drive trace
/// (docs/FORMATS.md, "Check files and traces"). By those beside `rows` it gives each fault exactly if the
/// file has it.
///
/// Claim 40 (F9, F10; `rows`): A drive trace gives rows exactly if it is one of the three headers and below
/// it 1 to 20,000 records, each of which writes its row.
pub fn traces_are_their_rows()
    ensures rows { (file : List Record) (rows : List DriveRow) → (drive_rows file ≡ Ok rows) ↔
        Any (λ header. IsFileOf header (drive_of (length header)) file rows) trace_headers }
    ensures header { (file : List Record) → (drive_rows file ≡ Err fault.Header) ↔
        All (λ header. slice_get file 0 ≢ Some header) trace_headers }
    ensures row { (file : List Record) (number : ℕ) → (drive_rows file ≡ Err (fault.Row number)) ↔
        Any (λ header. HasNoRowAt header (drive_of (length header)) file number) trace_headers }
    ensures empty { (file : List Record) → (drive_rows file ≡ Err fault.Empty) ↔
        Any (λ header. file ≡ header ∷ []) trace_headers }
    ensures long { (file : List Record) → (drive_rows file ≡ Err fault.Long) ↔
        Any (λ header. IsTooLong header (drive_of (length header)) file) trace_headers }
    ensures memory { (file : List Record) → drive_rows file ≢ Err fault.Memory }
{}
