// What stands under the keys of a campaign file, or the refusal of the key.
ghost use Rattle.std.specs.Prelude.{◌≡◌, ◌≤◌, ◌+◌, [], pos, true, IfOk, IsTrue, ◌↔◌, length, unwrap_or};
ghost use Rattle.std.specs.List.Sorted.{IsStrictlyIncreasing};
ghost use Rattle.arrayvec.specs.ArrayVec.{array_vec_len};
ghost use Rattle.toml.specs.Data.{as_bool};
ghost use Rattle.toml.specs.View.{view, table_view, items_view};
ghost use Rattle.eg_toml.specs.Values.{number_at};
ghost use Rattle.eg_toml.specs.Arrays.{all_read, is_rising, one, HasRead};
ghost use Rattle.eg_plan.specs.declared.key.CampaignFault.TheVariants.{Key};
ghost use Rattle.eg_plan.specs.Keys.{text_of};
ghost use Rattle.eg_toml.specs.Refusals.{Checks, unless_some};
ghost use Rattle.eg_plan.specs.Contents.{optional_at, shift_in, shift_at, words_at, ticks_in, ticks_at, truths_in, truths_at};

use crate::{CampaignFault, RunKey};
use arrayvec::ArrayVec;
use eg_fault::{Opens, Script};
use eg_toml::{items_in, member, number_at, number_in, numbers_in};
use toml::{Table, Value};

/// The number under a key of a table of this run, from `low` to `high`.
pub(crate) fn number(
    table: &Table,
    run: u32,
    key: RunKey,
    low: u16,
    high: u16,
) -> Result<u16, CampaignFault>
    ensures value { let read = number_at low high (text_of key) (table_view table.now) in
        Checks (unless_some (Key run key) read) (unwrap_or read 0) result }
    ensures within { IfOk result (λ n. (low ≤ n) × (n ≤ high)) }
{
    number_at(table, key.text(), low, high).ok_or(CampaignFault::Key { run, key })
}

/// The number of a track, a module, a word or a path under a key, from `low` to `high`.
pub(crate) fn index(
    table: &Table,
    run: u32,
    key: RunKey,
    low: u8,
    high: u8,
) -> Result<u8, CampaignFault>
    ensures { let read = number_at low high (text_of key) (table_view table.now) in
        Checks (unless_some (Key run key) read) (unwrap_or read 0) result }
{
    let index = number(table, run, key, u16::from(low), u16::from(high))?;
    Ok(index as u8)
}

/// The number under a key, from 0 to `high`, or 0 where the key is absent.
pub(crate) fn optional(
    table: &Table,
    run: u32,
    key: RunKey,
    high: u16,
) -> Result<u16, CampaignFault>
    ensures { let read = optional_at high (text_of key) (table_view table.now) in
        Checks (unless_some (Key run key) read) (unwrap_or read 0) result }
{
    let Some(value) = member(table, key.text()) else {
        return Ok(0);
    };
    number_in(value, 0, high).ok_or(CampaignFault::Key { run, key })
}

/// The number under a key, from -65,535 to 65,535, and not 0.
pub(crate) fn shift(table: &Table, run: u32, key: RunKey) -> Result<i32, CampaignFault>
    ensures { let read = shift_at (text_of key) (table_view table.now) in
        Checks (unless_some (Key run key) read) (unwrap_or read (pos 0)) result }
{
    shift_at(table, key.text()).ok_or(CampaignFault::Key { run, key })
}

fn shift_at(table: &Table, key: &str) -> Option<i32>
    ensures { result ≡ shift_at key.now (table_view table.now) }
{
    shift_in(member(table, key)?)
}

fn shift_in(value: &Value) -> Option<i32>
    ensures { result ≡ shift_in (view value.now) }
{
    let number = value.as_integer()?;
    if number != 0 && -65_535 <= number && number <= 65_535 {
        Some(number as i32)
    } else {
        None
    }
}

/// The 1 to 64 numbers of one word under a key.
pub(crate) fn words(table: &Table, run: u32, key: RunKey) -> Result<Script, CampaignFault>
    ensures { let read = words_at (text_of key) (table_view table.now) in
        Checks (unless_some (Key run key) read) (unwrap_or read []) result }
{
    words_at(table, key.text()).ok_or(CampaignFault::Key { run, key })
}

fn words_at(table: &Table, key: &str) -> Option<Script>
    ensures { result ≡ words_at key.now (table_view table.now) }
{
    let numbers = numbers_in(member(table, key)?, 1, 64, u16::MAX)?;
    Script::new(numbers.as_slice())
}

/// The 1 to 64 strictly rising numbers, up to 19,999, under a key.
pub(crate) fn ticks(table: &Table, run: u32, key: RunKey) -> Result<Script, CampaignFault>
    ensures { let read = ticks_at (text_of key) (table_view table.now) in
        Checks (unless_some (Key run key) read) (unwrap_or read []) result }
{
    ticks_at(table, key.text()).ok_or(CampaignFault::Key { run, key })
}

fn ticks_at(table: &Table, key: &str) -> Option<Script>
    ensures { result ≡ ticks_at key.now (table_view table.now) }
{
    ticks_in(member(table, key)?)
}

fn ticks_in(value: &Value) -> Option<Script>
    ensures { result ≡ ticks_in (view value.now) }
{
    let numbers = numbers_in(value, 1, 64, 19_999)?;
    if !is_rising(numbers.as_slice()) {
        return None;
    }
    Script::new(numbers.as_slice())
}

/// Whether each number is more than the one before it.
fn is_rising(numbers: &[u16]) -> bool
    ensures { result ≡ is_rising numbers.now }
{
    numbers.windows(2).all(|pair| pair[0] < pair[1])
}

/// The 1 to 64 truth values under a key.
pub(crate) fn truths(table: &Table, run: u32, key: RunKey) -> Result<Opens, CampaignFault>
    ensures { let read = truths_at (text_of key) (table_view table.now) in
        Checks (unless_some (Key run key) read) (unwrap_or read []) result }
{
    truths_at(table, key.text()).ok_or(CampaignFault::Key { run, key })
}

fn truths_at(table: &Table, key: &str) -> Option<Opens>
    ensures { result ≡ truths_at key.now (table_view table.now) }
{
    truths_in(member(table, key)?)
}

fn truths_in(value: &Value) -> Option<Opens>
    ensures { result ≡ truths_in (view value.now) }
{
    let items = items_in(value, 1, 64)?;
    let mut truths = ArrayVec::new();
    if !push_truths(items, &mut truths) {
        return None;
    }
    Opens::new(truths.as_slice())
}

/// Appends the items, where each is a truth value, and answers false where one isn't.
fn push_truths(items: &[Value], found: &mut ArrayVec<bool, 64>) -> bool
    requires { array_vec_len found.old + length items.now ≤ 64 }
    ensures read { let read = all_read (one as_bool) (items_view items.now) in
        HasRead read found.old.items found.new.items result }
    ensures count { result ≡ true → array_vec_len found.new ≡ array_vec_len found.old + length items.now }
{
    for item in items {
        match item.as_bool() {
            Some(truth) => found.push(truth),
            None => return false,
        }
    }
    true
}
