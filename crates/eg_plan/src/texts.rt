// The names of runs and of files.
ghost use Rattle.std.specs.Prelude.{◌≡◌, [], option_copied, unwrap_or};
ghost use Rattle.std.specs.List.{list_all};
ghost use Rattle.toml.specs.View.{table_view};
ghost use Rattle.eg_plan.specs.declared.key.CampaignFault.TheVariants.{Key, Memory};
ghost use Rattle.eg_plan.specs.Keys.{text_of};
ghost use Rattle.eg_toml.specs.Refusals.{Checks, Reads, seen, unless_some};
ghost use Rattle.eg_plan.specs.Contents.{is_plain, is_in_name, is_run_name, is_file_name, text_at};

use crate::{CampaignFault, RunKey};
use eg_base::Text;
use eg_toml::member;
use std::alloc::Global;
use toml::Table;

/// The name of a run under a key of a table of this run: 1 to 32 of the characters a to z, 0 to 9 and `-`,
/// not beginning with `-`.
pub(crate) fn run_name<'a>(
    table: &'a Table,
    run: u32,
    key: RunKey,
) -> Result<&'a str, CampaignFault>
    ensures { let read = text_at is_run_name (text_of key) (table_view table.now) in
        Checks (unless_some (Key run key) read) (unwrap_or read []) (seen (λ name. name.now) result) }
{
    run_name_at(table, key.text()).ok_or(CampaignFault::Key { run, key })
}

fn run_name_at<'a>(table: &'a Table, key: &str) -> Option<&'a str>
    ensures { option_copied result ≡ text_at is_run_name key.now (table_view table.now) }
{
    let name = member(table, key)?.as_str()?;
    if is_run_name(name) { Some(name) } else { None }
}

fn is_run_name(name: &str) -> bool
    ensures { result ≡ is_run_name name.now }
{
    match name.as_bytes() {
        [] => false,
        [first, rest @ ..] => is_plain(*first) && are_in_name(rest) && rest.len() <= 31,
    }
}

fn are_in_name(rest: &[u8]) -> bool
    ensures { result ≡ list_all is_in_name rest.now }
{
    rest.iter().all(|c| is_in_name(*c))
}

fn is_in_name(c: u8) -> bool
    ensures { result ≡ is_in_name c }
{
    is_plain(c) || c == b'-'
}

fn is_plain(c: u8) -> bool
    ensures { result ≡ is_plain c }
{
    matches!(c, b'a'..=b'z' | b'0'..=b'9')
}

/// The name of a file under a key of a table of this run: 1 to 200 bytes, not beginning with `-`.
pub(crate) fn file_name(
    alloc: Global,
    table: &Table,
    run: u32,
    key: RunKey,
) -> Result<Text, CampaignFault>
    ensures { let read = text_at is_file_name (text_of key) (table_view table.now) in
        Reads Memory (unless_some (Key run key) read) (unwrap_or read []) result }
{
    let Some(name) = file_name_at(table, key.text()) else {
        return Err(CampaignFault::Key { run, key });
    };
    Ok(Text::new(String::from_str(alloc, name)?))
}

fn file_name_at<'a>(table: &'a Table, key: &str) -> Option<&'a str>
    ensures { option_copied result ≡ text_at is_file_name key.now (table_view table.now) }
{
    let name = member(table, key)?.as_str()?;
    if is_file_name(name) { Some(name) } else { None }
}

fn is_file_name(name: &str) -> bool
    ensures { result ≡ is_file_name name.now }
{
    match name.as_bytes() {
        [] => false,
        [first, rest @ ..] => *first != b'-' && rest.len() <= 199,
    }
}
