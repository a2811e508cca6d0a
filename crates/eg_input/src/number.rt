// The numbers of a line.
ghost use Rattle.std.specs.Prelude.{◌≡◌};
ghost use Rattle.eg_input.specs.Recording.{numbers_of};

use crate::cursor::first_number;
use crate::field::number_of;

/// The numbers of a line of exactly `N` fields, or None where it has another count of fields or a field that
/// writes no number.
pub(crate) fn numbers<const N: usize>(line: &[u8]) -> Option<[u16; N]>
    ensures { result ≡ numbers_of N line.now }
{
    let last = N.checked_sub(1)?;
    let mut numbers = [0; N];
    let mut rest = line;
    for i in 0..last {
        let (number, behind) = first_number(rest, b',', u16::MAX)?;
        numbers[i] = number;
        rest = behind;
    }
    numbers[last] = number_of(rest, u16::MAX)?;
    Some(numbers)
}
