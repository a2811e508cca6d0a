// Plain files of rows, as nearly all are: the header's line, and lines of numbers below it.
ghost use Rattle.std.specs.Prelude.{◌≡◌, IfSome, false};
ghost use Rattle.std.specs.Char.{is_ascii_digit};
ghost use Rattle.eg_input.specs.Records.{records_of};
ghost use Rattle.eg_input.specs.Rows.{IsRead, rows_below, file_rows};
ghost use Rattle.eg_input.specs.Inner.Plain.{BeginsWithDrive, records_below};

use crate::TraceFault;
use crate::cursor::first_number;
use crate::reader::{MOST_ROWS, unless_empty};
use crate::row::FileRow;
use std::alloc::Global;

/// How many bytes the shortest line has that writes a row: `0,0,0` and its line feed.
const SHORTEST_LINE: usize = 6;

/// The rows of a plain file. None says nothing of the file, which is to be read by csv then. It comes at
/// least where the file isn't plain all through.
pub(crate) fn read_plain<R: FileRow>(
    alloc: Global,
    bytes: &[u8],
) -> Option<Result<Vec<R>, TraceFault>>
    ensures { IfSome result (λ read. IsRead (file_rows R.headers R.row_of (records_of bytes.now)) read) }
{
    let (width, below) = R::below_header(bytes)?;
    read_lines(alloc, width, below)
}

/// The rows of the lines below a header of `width` fields. None says nothing of the lines. It comes at least
/// where one of them isn't plain, and where they are more than 20,000.
fn read_lines<R: FileRow>(
    alloc: Global,
    width: usize,
    bytes: &[u8],
) -> Option<Result<Vec<R>, TraceFault>>
    ensures { IfSome result (λ read.
        IsRead (rows_below 20000 (R.row_of width) (records_below bytes.now)) read) }
{
    let most = (bytes.len() / SHORTEST_LINE).min(MOST_ROWS as usize);
    let Ok(mut rows) = Vec::with_capacity(alloc, most) else {
        return Some(Err(TraceFault::Memory));
    };
    let mut rest = bytes;
    for count in 0..MOST_ROWS {
        if rest.is_empty() {
            return Some(unless_empty(rows));
        }
        let Some((row, after)) = R::from_line(rest, width) else {
            return None;
        };
        if rows.push(row).is_err() {
            return Some(Err(TraceFault::Memory));
        }
        rest = after;
    }
    if !rest.is_empty() {
        return None;
    }
    Some(unless_empty(rows))
}

/// The numbers pedal, speed and raise at the front, and what comes behind the byte that ends them. None says
/// nothing of the bytes. It is inlined, so that the compiler knows in each caller that the numbers keep the
/// limits which `Drive::new` checks.
#[inline(always)]
pub(crate) fn drive_numbers(bytes: &[u8], ending: u8) -> Option<((u16, u16, u16), &[u8])>
    requires { is_ascii_digit ending ≡ false }
    ensures { IfSome result (λ found. BeginsWithDrive ending bytes.now found.0 found.1.now) }
{
    let (pedal, rest) = first_number(bytes, b',', 1000)?;
    let (speed, rest) = first_number(rest, b',', 8000)?;
    let (raise, rest) = first_number(rest, ending, 10_000)?;
    Some(((pedal, speed, raise), rest))
}
