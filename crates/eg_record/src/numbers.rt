// Numbers in a line.
ghost use Rattle.std.specs.Prelude.{◌≡◌, ◌+◌, ◌*◌, ◌≤◌, ◌++◌, length, drop, codes, decimal};
ghost use Rattle.std.specs.Str.{IsAscii};
ghost use Rattle.eg_record.specs.Texts.{numbers_text};
ghost use Rattle.eg_record.specs.declared.numbers.TheConstants.{NUMBER_ROOM};

use itoa::write_digits;

/// How many bytes are room enough for a number, which has at most ten digits, and the comma behind it.
pub const NUMBER_ROOM: usize = 11;

/// Puts numbers before a place of a line, with a comma behind each, and tells where they start. They are put
/// from the last to the first, since the digits of a number are found so.
pub fn put_numbers(numbers: &[u32], line: &mut [u8], end: usize) -> usize
    requires room { length numbers.now * NUMBER_ROOM ≤ end }
    requires within { end ≤ length line.old }
    ensures put { drop result line.new ≡ numbers_text numbers.now ++ drop end line.old }
    ensures few { end ≤ result + length numbers.now * NUMBER_ROOM }
    ensures start { result ≤ end }
    ensures ascii { IsAscii (numbers_text numbers.now) }
{
    let mut start = end;
    for i in (0..numbers.len()).rev() {
        start = put_number(numbers[i], line, start);
    }
    start
}

/// Puts a number and a comma before a place of a line, and tells where it starts.
fn put_number(number: u32, line: &mut [u8], end: usize) -> usize
    requires room { NUMBER_ROOM ≤ end }
    requires within { end ≤ length line.old }
    ensures put { drop result line.new ≡ decimal number ++ codes "," ++ drop end line.old }
    ensures few { end ≤ result + NUMBER_ROOM }
    ensures start { result ≤ end }
    ensures ascii { IsAscii (decimal number) }
{
    let comma = end - 1;
    line[comma] = b',';
    put_digits(number, line, comma)
}

/// Puts the digits of a number before a place of a line, and tells where they start. Most columns of a record
/// have one digit, which costs no call.
fn put_digits(number: u32, line: &mut [u8], end: usize) -> usize
    requires room { 10 ≤ end }
    requires within { end ≤ length line.old }
    ensures put { drop result line.new ≡ decimal number ++ drop end line.old }
    ensures few { end ≤ result + 10 }
    ensures start { result ≤ end }
    ensures ascii { IsAscii (decimal number) }
{
    if number >= 10 {
        return write_digits(u64::from(number), line, end);
    }
    let start = end - 1;
    line[start] = b'0' + number as u8;
    start
}
