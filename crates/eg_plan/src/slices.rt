// The slices of a run.
ghost use Rattle.std.specs.Prelude.{◌≡◌, ◌≤◌, ◌+◌, [], true, length, unwrap_or};
ghost use Rattle.arrayvec.specs.ArrayVec.{array_vec_len};
ghost use Rattle.toml.specs.View.{view, table_view, items_view};
ghost use Rattle.eg_toml.specs.Arrays.{all_read, one, HasRead};
ghost use Rattle.eg_plan.specs.declared.key.CampaignFault.TheVariants.{Key};
ghost use Rattle.eg_plan.specs.Keys.{text_of};
ghost use Rattle.eg_toml.specs.Refusals.{Checks, unless_some};
ghost use Rattle.eg_plan.specs.Contents.{usual_slices, slice_row, slices_in, slices_at};

use crate::{CampaignFault, RunKey};
use arrayvec::ArrayVec;
use eg_host::{SlicePlan, Slices};
use eg_toml::{items_in, member, numbers_in};
use toml::{Table, Value};

/// The slices under a key of a table of this run: 1 to 64 rows of nine numbers, each row at most 1,000 in
/// all. Where the key is absent, one row with 100 in each of its nine places.
pub(crate) fn slices(table: &Table, run: u32, key: RunKey) -> Result<SlicePlan, CampaignFault>
    ensures { let read = slices_at (text_of key) (table_view table.now) in
        Checks (unless_some (Key run key) read) (unwrap_or read []) result }
{
    let Some(value) = member(table, key.text()) else {
        return Ok(usual_slices());
    };
    slices_in(value).ok_or(CampaignFault::Key { run, key })
}

/// The slices of a run that names none: at each tick nine of 100 instructions (docs/FORMATS.md, "Campaign
/// files"). It takes no memory.
pub fn usual_slices() -> SlicePlan
    ensures { result ≡ usual_slices }
{
    let Some(row) = Slices::new([100; 9]) else {
        unreachable!();
    };
    let Some(plan) = SlicePlan::new(&[row]) else {
        unreachable!();
    };
    plan
}

fn slices_in(value: &Value) -> Option<SlicePlan>
    ensures { result ≡ slices_in (view value.now) }
{
    let items = items_in(value, 1, 64)?;
    let mut rows = ArrayVec::new();
    if !push_rows(items, &mut rows) {
        return None;
    }
    SlicePlan::new(rows.as_slice())
}

/// Appends the items, where each is a row of slices, and answers false where one isn't.
fn push_rows(items: &[Value], found: &mut ArrayVec<Slices, 64>) -> bool
    requires { array_vec_len found.old + length items.now ≤ 64 }
    ensures read { let read = all_read (one slice_row) (items_view items.now) in
        HasRead read found.old.items found.new.items result }
    ensures count { result ≡ true → array_vec_len found.new ≡ array_vec_len found.old + length items.now }
{
    for item in items {
        match slice_row(item) {
            Some(row) => found.push(row),
            None => return false,
        }
    }
    true
}

/// The row of slices that a value is.
fn slice_row(value: &Value) -> Option<Slices>
    ensures { result ≡ slice_row (view value.now) }
{
    let numbers = numbers_in(value, 9, 9, 1000)?;
    Slices::new(nine(numbers.as_slice()))
}

/// Nine numbers as an array.
fn nine(numbers: &[u16]) -> [u16; 9]
    requires { length numbers.now ≡ 9 }
    ensures { result ≡ numbers.now }
{
    let mut budget = [0; 9];
    budget.copy_from_slice(numbers);
    budget
}
