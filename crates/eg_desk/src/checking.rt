// `check [--cal NAME] FILE`: the first tick by which the torque excess of a file's rows is confirmed.
ghost use Rattle.std.specs.Prelude.{◌≡◌, IfOk, string_bytes};
ghost use Rattle.eg_desk.specs.Check.{check_file, check_or_refusal, check_line};
ghost use Rattle.eg_desk.specs.Ends.{RowsEnd};
ghost use Rattle.eg_outcome.specs.Changes.{change_of};
ghost use Rattle.eg_outcome.specs.Reads.{KeepsFiles, ReadsFile, Says};
ghost use Rattle.eg_outcome.specs.Outcomes.{LineEnds};
ghost use Rattle.eg_outcome.specs.declared.outcome.Role.TheVariants as role;

use crate::monitoring::first_confirmed;
use eg_answer::Rules;
use eg_base::{Items, Sink, Store};
use eg_input::{TraceFault, read_check};
use eg_num::Drive;
use eg_outcome::{Outcome, Refusal, Role, file_bytes, put_line};
use std::alloc::{AllocError, Global};

/// The rows of the check file of that name, or how the call ends without them (docs/FORMATS.md, "Commands").
pub fn check_rows<S: Store>(
    alloc: Global,
    file: &str,
    store: &mut S,
) -> Result<Items<(Drive, u16)>, Outcome>
    ensures reads { ReadsFile role.Check check_file file.now (change_of S.shows store.old store.new) result }
    ensures keeps { KeepsFiles (change_of S.shows store.old store.new) result }
{
    match file_bytes(alloc, Role::Check, file, store) {
        Ok(bytes) => rows_in(alloc, bytes.as_slice()),
        Err(end) => Err(end),
    }
}

/// The rows that these bytes of a file say, or how the call ends without them.
fn rows_in(alloc: Global, bytes: &[u8]) -> Result<Items<(Drive, u16)>, Outcome>
    ensures { Says check_or_refusal bytes.now result }
{
    match read_check(alloc, bytes) {
        Ok(rows) => Ok(Items::new(rows)),
        Err(TraceFault::Memory) => Err(Outcome::Memory),
        Err(fault) => Err(Outcome::Refused(Refusal::Check(fault))),
    }
}

/// Writes the line that tells the first tick by which the excess of these rows is confirmed by these rules
/// (docs/FORMATS.md, "Commands").
pub fn put_check<K: Sink>(
    alloc: Global,
    rules: &Rules,
    rows: &[(Drive, u16)],
    out: &mut K,
) -> Outcome
    ensures { RowsEnd rules.now rows.now (change_of K.shows out.old out.new) result }
{
    put_first(alloc, first_confirmed(rules, rows), out)
}

/// Writes the line that tells the first tick by which the excess is confirmed.
fn put_first<K: Sink>(alloc: Global, first: Option<usize>, out: &mut K) -> Outcome
    ensures { LineEnds (check_line first) (change_of K.shows out.old out.new) result }
{
    let Ok(line) = line_of(alloc, first) else {
        return Outcome::Memory;
    };
    put_line(line.as_bytes(), out)
}

/// The line that tells the first tick by which the excess is confirmed.
fn line_of(alloc: Global, first: Option<usize>) -> Result<String, AllocError>
    ensures { IfOk result (λ line. string_bytes line ≡ check_line first) }
{
    match first {
        Some(tick) => format!(in alloc; "torque {tick}\n"),
        None => String::from_str(alloc, "none\n"),
    }
}
