// Arrays: how many items one has, and the numbers in it.
ghost use Rattle.std.specs.Prelude.{◌≡◌, ◌≤◌, ◌+◌, ◌*◌, ◌&&◌, true, nat_le, length, option_map, IfSome, All};
ghost use Rattle.arrayvec.specs.ArrayVec.{array_vec_len};
ghost use Rattle.toml.specs.View.{view, items_view};
ghost use Rattle.eg_toml.specs.Arrays.{items_in, all_read, all_numbers, numbers_in, rows_in, HasRead};

use crate::number_in;
use arrayvec::ArrayVec;
use std::marker::Model;
use toml::Value;

/// The numbers of an array, or of an array's rows one after another: at most 256. Contracts see the list of
/// them.
#[derive(Drop)]
pub struct Numbers {
    numbers: ArrayVec<u16, 256>,
}

impl Model for Numbers {
    ghost use Rattle.std.specs.Prelude.{ℕ, List};

    ghost Value = { List ℕ };

    ghost view = { λ n. n.numbers.items };
}

impl Numbers {
    /// The numbers in their order.
    pub fn as_slice(&self) -> &[u16]
        ensures { result.now ≡ self.now }
    {
        self.numbers.as_slice()
    }
}

/// The items of an array of `least` to `most` items, or None where the value isn't such an array.
pub fn items_in(value: &Value, least: usize, most: usize) -> Option<&[Value]>
    ensures items { option_map (λ s. items_view s.now) result ≡ items_in least most (view value.now) }
    ensures count { IfSome result (λ s. (least ≤ length s.now) × (length s.now ≤ most)) }
{
    let items = value.as_array()?.as_slice();
    if !is_within(items.len(), least, most) {
        return None;
    }
    Some(items)
}

/// The numbers of an array of `least` to `most` numbers, each 0 to `high`, or None where the value isn't such
/// an array.
pub fn numbers_in(value: &Value, least: usize, most: usize, high: u16) -> Option<Numbers>
    requires { most ≤ 256 }
    ensures numbers { result ≡ numbers_in least most high (view value.now) }
    ensures count { IfSome result (λ numbers. (least ≤ length numbers) × (length numbers ≤ most)) }
    ensures within { IfSome result (λ numbers. All (λ n. n ≤ high) numbers) }
{
    let items = items_in(value, least, most)?;
    let mut numbers = ArrayVec::new();
    if !push_numbers(items, high, &mut numbers) {
        return None;
    }
    Some(Numbers { numbers })
}

/// The numbers, row by row, of an array of `tall` rows, each of `wide` numbers from 0 to `high`, or None
/// where the value isn't such an array.
pub fn rows_in(value: &Value, tall: usize, wide: usize, high: u16) -> Option<Numbers>
    requires tall { tall ≤ 16 }
    requires wide { wide ≤ 16 }
    ensures numbers { result ≡ rows_in tall wide high (view value.now) }
    ensures count { IfSome result (λ numbers. length numbers ≡ tall * wide) }
    ensures within { IfSome result (λ numbers. All (λ n. n ≤ high) numbers) }
{
    let rows = items_in(value, tall, tall)?;
    let mut numbers = ArrayVec::new();
    if !push_rows(rows, wide, high, &mut numbers) {
        return None;
    }
    Some(Numbers { numbers })
}

fn is_within(count: usize, least: usize, most: usize) -> bool
    ensures { result ≡ (nat_le least count && nat_le count most) }
{
    least <= count && count <= most
}

/// Appends the numbers that the items are. Answers false where an item isn't a number from 0 to `high`.
fn push_numbers(items: &[Value], high: u16, found: &mut ArrayVec<u16, 256>) -> bool
    requires { array_vec_len found.old + length items.now ≤ 256 }
    ensures read { HasRead (all_numbers high (items_view items.now)) found.old.items found.new.items result }
    ensures count { result ≡ true → array_vec_len found.new ≡ array_vec_len found.old + length items.now }
{
    for item in items {
        match number_in(item, 0, high) {
            Some(number) => found.push(number),
            None => return false,
        }
    }
    true
}

/// Appends the numbers of the rows. Answers false where a row isn't `wide` numbers from 0 to `high`.
fn push_rows(rows: &[Value], wide: usize, high: u16, found: &mut ArrayVec<u16, 256>) -> bool
    requires wide { wide ≤ 16 }
    requires room { array_vec_len found.old + length rows.now * wide ≤ 256 }
    ensures read { HasRead (all_read (numbers_in wide wide high) (items_view rows.now))
        found.old.items found.new.items result }
    ensures count { result ≡ true →
        array_vec_len found.new ≡ array_vec_len found.old + length rows.now * wide }
{
    for row in rows {
        match items_in(row, wide, wide) {
            Some(items) => {
                if !push_numbers(items, high, found) {
                    return false;
                }
            }
            None => return false,
        }
    }
    true
}
