// One run of a campaign.
ghost use Rattle.std.specs.Prelude.{◌≡◌, ◌+◌, ◌<◌, [], ◌∷◌, ◌++◌, nat_le, length, option_map, OnOk};
ghost use Rattle.toml.specs.Data.{get_item};
ghost use Rattle.toml.specs.View.{view, table_view, items_view};
ghost use Rattle.eg_toml.specs.Arrays.{count};
ghost use Rattle.eg_toml.specs.Names.{all_names, is_among};
ghost use Rattle.eg_toml.specs.Refusals.{Checks, Reads};
ghost use Rattle.eg_plan.specs.declared.key.CampaignFault.TheVariants.{Memory};
ghost use Rattle.eg_plan.specs.Faults.{fault_of};
ghost use Rattle.eg_plan.specs.Runs.{all_items, is_table, array_refusal, faults_refusal, fault_table, table_refusal, run_names, table_is_known, is_all_known, run_of, run_refusal};
ghost use Rattle.eg_plan.specs.Inner.Names.{AreNamesOf};

use crate::engine::engine;
use crate::fault::{fault_in, has_own_names};
use crate::slices::slices;
use crate::texts::{file_name, run_name};
use crate::{CampaignFault, EngineKind, RunKey};
use eg_base::Text;
use eg_fault::Fault;
use eg_host::SlicePlan;
use eg_toml::{has_only_names, member};
use std::alloc::Global;
use std::collections::HashSet;
use toml::{Table, Value};

/// The names that the table of a run may have.
const NAMES: [&str; 6] = ["name", "trace", "image", "slices", "engine", "faults"];

/// One run of a campaign (docs/FORMATS.md, "Campaign files").
#[derive(Drop)]
pub struct RunPlan {
    /// Its name, which no other run has.
    pub name: Text,
    /// The name of the file with its drive trace.
    pub trace: Text,
    /// The name of the file with level 1's program.
    pub image: Text,
    /// How many instructions level 1 may do.
    pub slices: SlicePlan,
    /// Which engine stands on the bench.
    pub engine: EngineKind,
    /// The fault, if there is one.
    pub fault: Option<Fault>,
}

/// The run that a table says, which comes after the earlier runs and whose name none of them has, or its
/// first refusal. Its name is put to theirs.
#[tactic(auto, unfolding(crate::specs::Runs::run_refusal, crate::specs::Checks::keys_refusal))]
pub(crate) fn run_in<'a>(
    alloc: Global,
    table: &'a Table,
    earlier: &[RunPlan],
    names: &mut HashSet<&'a str>,
) -> Result<RunPlan, CampaignFault>
    requires few { length earlier.now < 1000 }
    requires names { AreNamesOf earlier.now names.old }
    ensures read { let ms = table_view table.now in
        Reads Memory (run_refusal (length earlier.now + 1) earlier.now ms) (run_of ms) result }
    ensures names { OnOk result
        (AreNamesOf (earlier.now ++ run_of (table_view table.now) ∷ []) names.new) }
{
    let run = earlier.len() as u32 + 1;
    let name = run_name(table, run, RunKey::Name)?;
    let trace = file_name(alloc, table, run, RunKey::Trace)?;
    let image = file_name(alloc, table, run, RunKey::Image)?;
    let slices = slices(table, run, RunKey::Slices)?;
    let engine = engine(table, run, RunKey::Engine)?;
    if let Some(refusal) = faults_refusal(table, run) {
        return Err(refusal);
    }
    let fault = fault_of_run(table, run)?;
    if !is_all_known(table) {
        return Err(CampaignFault::Key {
            run,
            key: RunKey::Unknown,
        });
    }
    if !names.insert(name)? {
        return Err(CampaignFault::Name { run });
    }
    Ok(RunPlan {
        name: Text::new(String::from_str(alloc, name)?),
        trace,
        image,
        slices,
        engine,
        fault,
    })
}

/// Why the value under `faults` is refused: it is no array of tables, or has more than one.
fn faults_refusal(table: &Table, run: u32) -> Option<CampaignFault>
    ensures { result ≡ faults_refusal run (table_view table.now) }
{
    array_refusal(member(table, "faults")?, run)
}

fn array_refusal(value: &Value, run: u32) -> Option<CampaignFault>
    ensures { result ≡ array_refusal run (Some (view value.now)) }
{
    let refusal = CampaignFault::Key {
        run,
        key: RunKey::Faults,
    };
    let Some(items) = value.as_array() else {
        return Some(refusal);
    };
    if !are_tables(items.as_slice()) {
        return Some(refusal);
    }
    if !is_one_at_most(items.as_slice()) {
        return Some(CampaignFault::TwoFaults { run });
    }
    None
}

/// Whether each item is a table.
pub(crate) fn are_tables(items: &[Value]) -> bool
    ensures { result ≡ all_items is_table (items_view items.now) }
{
    items.iter().all(|item| item.is_table())
}

fn is_one_at_most(items: &[Value]) -> bool
    ensures { result ≡ nat_le (count (items_view items.now)) 1 }
{
    items.len() <= 1
}

/// The fault of a run, if it has one, or the refusal of the first key of its table that has one.
fn fault_of_run(table: &Table, run: u32) -> Result<Option<Fault>, CampaignFault>
    ensures { let found = fault_table (table_view table.now) in
        Checks (table_refusal run found) (option_map fault_of found) result }
{
    match fault_table(table) {
        Some(found) => Ok(Some(fault_in(found, run)?)),
        None => Ok(None),
    }
}

/// The table of a run's fault, if there is one.
fn fault_table(table: &Table) -> Option<&Table>
    ensures { option_map (λ t. table_view t.now) result ≡ fault_table (table_view table.now) }
{
    first_of(member(table, "faults")?.as_array()?.as_slice())?.as_table()
}

fn first_of(items: &[Value]) -> Option<&Value>
    ensures { option_map (λ v. view v.now) result ≡ get_item 0 (items_view items.now) }
{
    items.first()
}

/// Whether no other name stands in the tables of a run and of its fault.
fn is_all_known(table: &Table) -> bool
    ensures { result ≡ is_all_known (table_view table.now) }
{
    has_run_names(table) && table_is_known(fault_table(table))
}

fn has_run_names(table: &Table) -> bool
    ensures { result ≡ all_names (is_among run_names) (table_view table.now) }
{
    has_only_names(table, &NAMES)
}

fn table_is_known(table: Option<&Table>) -> bool
    ensures { result ≡ table_is_known (option_map (λ t. table_view t.now) table.entry) }
{
    match table {
        Some(table) => has_own_names(table),
        None => true,
    }
}
