// The fields of a record or a line, and what each of them says.
ghost use Rattle.std.specs.Prelude.{◌≡◌, ◌≤◌, ◌-◌, map, nat_le};
ghost use Rattle.std.specs.Char.{is_ascii_digit};
ghost use Rattle.csv.specs.Records.{fields_of};
ghost use Rattle.eg_input.specs.Records.{is_same_record};
ghost use Rattle.eg_input.specs.Fields.{number_at, number_of, truth_at, truth_of};

use csv::ByteRecord;

/// The number that a field of one to five decimal digits writes, where it is at most `most`.
#[inline(always)]
#[tactic(auto, unfolding(crate::specs::Fields::number_of, crate::specs::Fields::decimal_value))]
pub(crate) fn number_of(field: &[u8], most: u16) -> Option<u16>
    ensures { result ≡ number_of most field.now }
{
    if field.is_empty() || field.len() > 5 {
        return None;
    }
    let mut value = 0u32;
    for byte in field {
        let digit = digit(*byte);
        if digit > 9 {
            return None;
        }
        value = 10 * value + digit;
    }
    if value > u32::from(most) {
        return None;
    }
    Some(value as u16)
}

/// The digit that a byte writes, or a number above 9 where it writes none.
#[inline(always)]
fn digit(byte: u8) -> u32
    ensures test { nat_le result 9 ≡ is_ascii_digit byte }
    ensures value { result ≤ 9 → result ≡ byte - 48 }
{
    // One difference of 32 bits serves the test and the value; `is_ascii_digit` has one of 8 bits besides.
    u32::from(byte).wrapping_sub(u32::from(b'0'))
}

/// The number in the field at a place, where it is at most `most`.
#[tactic(auto, unfolding(crate::specs::Fields::number_at))]
pub(crate) fn number_at(entry: &ByteRecord, i: usize, most: u16) -> Option<u16>
    ensures { result ≡ number_at (fields_of entry.now) i most }
{
    number_of(entry.get(i)?, most)
}

/// The truth value that a field writes.
#[tactic(auto, unfolding(crate::specs::Fields::truth_of))]
pub(crate) fn truth_of(field: &[u8]) -> Option<bool>
    ensures { result ≡ truth_of field.now }
{
    match field {
        b"0" => Some(false),
        b"1" => Some(true),
        _ => None,
    }
}

/// The truth value in the field at a place, or false where the record has no such field.
#[tactic(auto, unfolding(crate::specs::Fields::truth_at))]
pub(crate) fn truth_at(entry: &ByteRecord, i: usize) -> Option<bool>
    ensures { result ≡ truth_at (fields_of entry.now) i }
{
    match entry.get(i) {
        Some(field) => truth_of(field),
        None => Some(false),
    }
}

/// Whether a record has exactly these fields.
pub(crate) fn has_fields(entry: &ByteRecord, fields: &[&[u8]]) -> bool
    ensures { result ≡ is_same_record (fields_of entry.now) (map (λ field. field.now) fields.now) }
{
    if entry.len() != fields.len() {
        return false;
    }
    for (i, field) in fields.iter().enumerate() {
        if entry.get(i) != Some(*field) {
            return false;
        }
    }
    true
}
