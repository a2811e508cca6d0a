// The values in a document's tables.
ghost use Rattle.std.specs.Prelude.{◌≡◌, ◌≤◌, IfSome, option_map};
ghost use Rattle.toml.specs.Data.{get_member};
ghost use Rattle.toml.specs.View.{view, table_view};
ghost use Rattle.eg_toml.specs.Values.{number_in, number_at, table_at};

use toml::{Table, Value};

/// The value under a name of a table, if there is one.
pub fn member<'a>(table: &'a Table, name: &str) -> Option<&'a Value>
    ensures { option_map (λ v. view v.now) result ≡ get_member name.now (table_view table.now) }
{
    table.get(name)
}

/// The table under a name of a table, or None where no table stands there.
pub fn table_at<'a>(table: &'a Table, name: &str) -> Option<&'a Table>
    ensures { option_map (λ t. table_view t.now) result ≡ table_at name.now (table_view table.now) }
{
    member(table, name)?.as_table()
}

/// The number that a value is, or None where it isn't a TOML integer from `low` to `high`.
pub fn number_in(value: &Value, low: u16, high: u16) -> Option<u16>
    ensures number { result ≡ number_in low high (view value.now) }
    ensures within { IfSome result (λ n. (low ≤ n) × (n ≤ high)) }
{
    let number = value.as_integer()?;
    if i64::from(low) <= number && number <= i64::from(high) {
        Some(number as u16)
    } else {
        None
    }
}

/// The number under a name of a table, or None where no TOML integer from `low` to `high` stands there.
pub fn number_at(table: &Table, name: &str, low: u16, high: u16) -> Option<u16>
    ensures number { result ≡ number_at low high name.now (table_view table.now) }
    ensures within { IfSome result (λ n. (low ≤ n) × (n ≤ high)) }
{
    number_in(member(table, name)?, low, high)
}
