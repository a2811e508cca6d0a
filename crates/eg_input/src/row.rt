// The rows that the records of a file write.
ghost use Rattle.std.specs.Prelude.{◌≡◌, ◌∷◌, [], ℕ, List, Some, IfSome};
ghost use Rattle.csv.specs.Records.{fields_of};
ghost use Rattle.eg_input.specs.Records.{Record, RowRule};
ghost use Rattle.eg_input.specs.Rows.{is_header};
ghost use Rattle.eg_input.specs.DriveTrace.{drive_at, drive_of, trace_headers};
ghost use Rattle.eg_input.specs.CheckFile.{check_header, check_row_of};
ghost use Rattle.eg_input.specs.Inner.Plain.{BeginsWithHeader, BeginsWithRow};

use crate::cursor::{first_number, first_truth};
use crate::field::{has_fields, number_at, truth_at};
use crate::plain::drive_numbers;
use csv::ByteRecord;
use eg_num::Drive;

/// A row of a file, written by one record.
pub(crate) trait FileRow: Drop {
    /// The headers that such a file may have.
    ghost headers: { List Record };

    /// The row that a record writes below a header of this many fields.
    ghost row_of: { ℕ → RowRule Self };

    /// Whether a record is one of the headers.
    fn is_header(entry: &ByteRecord) -> bool
        ensures { result ≡ is_header headers (fields_of entry.now) };

    /// The row that a record writes below a header of `width` fields, or None where it writes none.
    fn from_record(entry: &ByteRecord, width: usize) -> Option<Self>
        ensures { result ≡ row_of width (fields_of entry.now) };

    /// Where the bytes begin with the line of a header: how many fields that header has, and what comes
    /// behind the line. None says nothing of the bytes.
    fn below_header(bytes: &[u8]) -> Option<(usize, &[u8])>
        ensures { IfSome result (λ found. BeginsWithHeader headers bytes.now found.0 found.1.now) };

    /// The row of the line at the front, and what comes behind the line. None says nothing of the bytes. It
    /// comes at least where the line isn't one of plain numbers below a header of `width` fields.
    fn from_line(bytes: &[u8], width: usize) -> Option<(Self, &[u8])>
        ensures { IfSome result (λ found. BeginsWithRow (row_of width) bytes.now found.0 found.1.now) };
}

/// How many fields the headers of a drive trace have.
const WITHOUT_RESET: usize = 3;

const WITH_RESET: usize = 4;

const WITH_BRAKE: usize = 5;

/// The row of a drive trace.
impl FileRow for Drive {
    ghost headers = { trace_headers };

    ghost row_of = { drive_of };

    #[tactic(auto, unfolding(crate::specs::Rows::is_header, crate::specs::DriveTrace::trace_headers))]
    fn is_header(entry: &ByteRecord) -> bool {
        has_fields(entry, &[b"pedal", b"speed", b"raise"])
            || has_fields(entry, &[b"pedal", b"speed", b"raise", b"reset"])
            || has_fields(entry, &[b"pedal", b"speed", b"raise", b"reset", b"brake"])
    }

    #[tactic(auto, unfolding(crate::specs::DriveTrace::drive_of))]
    fn from_record(entry: &ByteRecord, width: usize) -> Option<Drive> {
        if entry.len() == width {
            drive_at(entry, truth_at(entry, 3), truth_at(entry, 4))
        } else {
            None
        }
    }

    fn below_header(bytes: &[u8]) -> Option<(usize, &[u8])> {
        if let Some(below) = bytes.strip_prefix(b"pedal,speed,raise\n") {
            return Some((WITHOUT_RESET, below));
        }
        if let Some(below) = bytes.strip_prefix(b"pedal,speed,raise,reset\n") {
            return Some((WITH_RESET, below));
        }
        let below = bytes.strip_prefix(b"pedal,speed,raise,reset,brake\n")?;
        Some((WITH_BRAKE, below))
    }

    fn from_line(bytes: &[u8], width: usize) -> Option<(Drive, &[u8])> {
        match width {
            WITHOUT_RESET => line(bytes),
            WITH_RESET => line_with_reset(bytes),
            WITH_BRAKE => line_with_brake(bytes),
            _ => None,
        }
    }
}

/// The drive row of the line at the front, below the header without `reset`, and what comes behind it.
fn line(bytes: &[u8]) -> Option<(Drive, &[u8])>
    ensures { IfSome result (λ found. BeginsWithRow (drive_of 3) bytes.now found.0 found.1.now) }
{
    let ((pedal, speed, raise), rest) = drive_numbers(bytes, b'\n')?;
    Some((Drive::new(pedal, speed, raise, false, false)?, rest))
}

/// The drive row of the line at the front, below the header that ends with `reset`, and what comes behind it.
fn line_with_reset(bytes: &[u8]) -> Option<(Drive, &[u8])>
    ensures { IfSome result (λ found. BeginsWithRow (drive_of 4) bytes.now found.0 found.1.now) }
{
    let ((pedal, speed, raise), rest) = drive_numbers(bytes, b',')?;
    let (reset, rest) = first_truth(rest, b'\n')?;
    Some((Drive::new(pedal, speed, raise, reset, false)?, rest))
}

/// The drive row of the line at the front, below the header with `brake`, and what comes behind it.
fn line_with_brake(bytes: &[u8]) -> Option<(Drive, &[u8])>
    ensures { IfSome result (λ found. BeginsWithRow (drive_of 5) bytes.now found.0 found.1.now) }
{
    let ((pedal, speed, raise), rest) = drive_numbers(bytes, b',')?;
    let (reset, rest) = first_truth(rest, b',')?;
    let (brake, rest) = first_truth(rest, b'\n')?;
    Some((Drive::new(pedal, speed, raise, reset, brake)?, rest))
}

/// The row of a check file: a drive row, and the torque that was measured.
impl FileRow for (Drive, u16) {
    ghost headers = { check_header ∷ [] };

    ghost row_of = { λ _. check_row_of };

    #[tactic(auto, unfolding(crate::specs::Rows::is_header, crate::specs::CheckFile::check_header))]
    fn is_header(entry: &ByteRecord) -> bool {
        has_fields(entry, &[b"pedal", b"speed", b"raise", b"torque"])
    }

    #[tactic(auto, unfolding(crate::specs::CheckFile::check_row_of))]
    fn from_record(entry: &ByteRecord, _width: usize) -> Option<(Drive, u16)> {
        if entry.len() == 4 {
            Some((
                drive_at(entry, Some(false), Some(false))?,
                number_at(entry, 3, 65_535)?,
            ))
        } else {
            None
        }
    }

    fn below_header(bytes: &[u8]) -> Option<(usize, &[u8])> {
        let below = bytes.strip_prefix(b"pedal,speed,raise,torque\n")?;
        Some((4, below))
    }

    fn from_line(bytes: &[u8], _width: usize) -> Option<((Drive, u16), &[u8])> {
        let ((pedal, speed, raise), rest) = drive_numbers(bytes, b',')?;
        let (torque, rest) = first_number(rest, b'\n', 65_535)?;
        Some((
            (Drive::new(pedal, speed, raise, false, false)?, torque),
            rest,
        ))
    }
}

/// The drive row of the numbers that the first three fields write, with this reset and this brake.
#[tactic(auto, unfolding(crate::specs::DriveTrace::drive_at, crate::specs::DriveTrace::drive_from))]
fn drive_at(entry: &ByteRecord, reset: Option<bool>, brake: Option<bool>) -> Option<Drive>
    ensures { result ≡ drive_at (fields_of entry.now) reset brake }
{
    let pedal = number_at(entry, 0, 1000)?;
    let speed = number_at(entry, 1, 8000)?;
    let raise = number_at(entry, 2, 10_000)?;
    Drive::new(pedal, speed, raise, reset?, brake?)
}
