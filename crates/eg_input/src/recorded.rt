// What was recorded of one tick.
ghost use Rattle.std.specs.Prelude.{◌≡◌, ◌≤◌, ◌<◌, ◌+◌, ℕ, List, length, take, None, Some};
ghost use Rattle.eg_input.specs.Recording.{columns_of, readings_from, recorded_of};
ghost use Rattle.eg_input.specs.declared.columns.Columns.{Columns as SomeColumns};
ghost use Rattle.eg_input.specs.declared.columns.Columns.TheVariants.{WithBrake};
ghost use Rattle.eg_input.specs.declared.recorded.TheConstants.{MOST_BYTES};

use crate::Columns;
use crate::line::before_return;
use crate::number::numbers;
use eg_sensor::{Readings, contacts};

/// What was recorded of one tick.
#[derive(Clone, Copy)]
pub struct Recorded {
    /// What the paired sensors read, and the raise with its check word.
    pub readings: Readings,
    /// What the two contacts of the brake read; those of a brake that isn't pressed where it has no columns.
    pub contacts: [u16; 2],
}

/// How many bytes the longest line has that is a header or writes what was recorded: the header with the
/// brake's columns, and a carriage return. The line feed doesn't count.
pub const MOST_BYTES: usize = 80;

/// What a line below the header writes, without its line feed, or None where it is any other line: for each
/// column a number of one to five digits that is at most 65535, with commas between them, and perhaps a
/// carriage return.
///
/// Claim 50.
#[tactic(auto, unfolding(crate::specs::Recording::recorded_of))]
pub fn recorded_of(line: &[u8], columns: Columns) -> Option<Recorded>
    ensures { result ≡ recorded_of columns line.now }
{
    let line = before_return(line);
    match columns {
        Columns::WithoutBrake => {
            let numbers = numbers::<10>(line)?;
            Some(Recorded {
                readings: readings(&numbers),
                contacts: contacts(false),
            })
        }
        Columns::WithBrake => {
            let numbers = numbers::<12>(line)?;
            Some(Recorded {
                readings: readings(&numbers),
                contacts: [numbers[10], numbers[11]],
            })
        }
    }
}

/// The readings of the first ten numbers.
#[inline(always)]
#[tactic(auto, unfolding(crate::specs::Recording::readings_from))]
fn readings<const N: usize>(numbers: &[u16; N]) -> Readings
    requires { 10 ≤ N }
    ensures { result ≡ readings_from numbers.now }
{
    Readings {
        pedal: [numbers[0], numbers[1]],
        plate: [numbers[2], numbers[3]],
        load: [numbers[4], numbers[5]],
        speed: [numbers[6], numbers[7]],
        raise: numbers[8],
        raise_check: numbers[9],
    }
}

/// Does nothing when it runs. Its clauses are laws of what `columns_of` and `recorded_of` say of a line: one
/// of more than `MOST_BYTES` bytes is no header and writes nothing, one of so many is a header, and a front
/// of more gives what the line gives. So who reads a line need take no more than one byte beyond them, and no
/// fewer.
pub fn long_lines_write_nothing()
    ensures header { (line : List ℕ) → MOST_BYTES < length line → columns_of line ≡ None }
    ensures tick { (columns : SomeColumns) (line : List ℕ) → MOST_BYTES < length line →
        recorded_of columns line ≡ None }
    ensures longest { (line : List ℕ) × (length line ≡ MOST_BYTES) × (columns_of line ≡ Some WithBrake) }
    ensures seen_header { (line : List ℕ) (n : ℕ) → MOST_BYTES < n →
        columns_of (take n line) ≡ columns_of line }
    ensures seen_tick { (columns : SomeColumns) (line : List ℕ) (n : ℕ) → MOST_BYTES < n →
        recorded_of columns (take n line) ≡ recorded_of columns line }
{}
