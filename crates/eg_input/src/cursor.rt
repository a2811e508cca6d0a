// The fields at the front of a text, read one after another.
ghost use Rattle.std.specs.Prelude.{◌≡◌, ◌==◌, ◌<◌, ◌≤◌, ◌+◌, length, take, drop, position, option_map, Some, IfSome, false};
ghost use Rattle.std.specs.Char.{is_ascii_digit};
ghost use Rattle.eg_input.specs.Fields.{found_now, first_said, number_of, truth_of};
ghost use Rattle.eg_input.specs.Inner.Plain.{BeginsWithNumber, BeginsWithTruth};

use crate::field::{number_of, truth_of};

/// The number before the first of the bytes `ending`, which is no digit, and what stands behind that byte.
/// None where there is no such byte, or no number of at most `most` before it.
#[inline(always)]
pub(crate) fn first_number(text: &[u8], ending: u8, most: u16) -> Option<(u16, &[u8])>
    requires { is_ascii_digit ending ≡ false }
    ensures said { found_now result ≡ first_said ending (number_of most) text.now }
    ensures begins { IfSome result (λ found. BeginsWithNumber most ending text.now found.0 found.1.now) }
    ensures limit { IfSome result (λ found. found.0 ≤ most) }
{
    if let Some(found) = likely_first_number(text, ending, most) {
        return Some(found);
    }
    number_before(text, first_place(text, ending)?, most)
}

/// What `first_number` answers, in few instructions, where a text has six bytes or more: none of them needs a
/// test of where the text ends, and the most frequent counts of digits are tried first. None says nothing of
/// the text.
#[inline(always)]
fn likely_first_number(text: &[u8], ending: u8, most: u16) -> Option<(u16, &[u8])>
    requires { is_ascii_digit ending ≡ false }
    ensures { IfSome result (λ found. found_now (Some found) ≡ first_said ending (number_of most) text.now) }
{
    if text.len() < 6 {
        return None;
    }
    if let Some(found) = number_ending_at(text, 3, ending, most) {
        return Some(found);
    }
    if let Some(found) = number_ending_at(text, 1, ending, most) {
        return Some(found);
    }
    if let Some(found) = number_ending_at(text, 4, ending, most) {
        return Some(found);
    }
    if let Some(found) = number_ending_at(text, 2, ending, most) {
        return Some(found);
    }
    number_ending_at(text, 5, ending, most)
}

/// What `first_number` answers where the first of the bytes `ending` stands at this place. None says nothing
/// of the text.
#[inline(always)]
fn number_ending_at(text: &[u8], place: usize, ending: u8, most: u16) -> Option<(u16, &[u8])>
    requires other { is_ascii_digit ending ≡ false }
    requires room { place < length text.now }
    ensures { IfSome result (λ found. found_now (Some found) ≡ first_said ending (number_of most) text.now) }
{
    if text[place] != ending {
        return None;
    }
    number_before(text, place, most)
}

/// The number that the bytes before a place write, and what stands behind the byte at that place.
#[inline(always)]
fn number_before(text: &[u8], place: usize, most: u16) -> Option<(u16, &[u8])>
    requires { place < length text.now }
    ensures { found_now result ≡ option_map (λ number. (number, drop (place + 1) text.now))
        (number_of most (take place text.now)) }
{
    Some((number_of(&text[..place], most)?, &text[place + 1..]))
}

/// The place of the first of the bytes `ending`.
fn first_place(text: &[u8], ending: u8) -> Option<usize>
    ensures { result ≡ position (λ byte. byte == ending) text.now }
{
    text.iter().position(|byte| *byte == ending)
}

/// What the digit before the first of the bytes `ending` says to be true or false, and what stands behind
/// that byte. None where there is no such byte, or anything but 0 or 1 before it.
#[inline(always)]
pub(crate) fn first_truth(text: &[u8], ending: u8) -> Option<(bool, &[u8])>
    requires { is_ascii_digit ending ≡ false }
    ensures said { found_now result ≡ first_said ending truth_of text.now }
    ensures begins { IfSome result (λ found. BeginsWithTruth ending text.now found.0 found.1.now) }
{
    if text.len() < 2 || text[1] != ending {
        return None;
    }
    let truth = truth_of(&text[..1])?;
    Some((truth, &text[2..]))
}
