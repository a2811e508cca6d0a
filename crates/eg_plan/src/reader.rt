// The reader of campaign files.
ghost use Rattle.std.specs.Prelude.{◌≡◌, ◌+◌, ◌<◌, ◌≤◌, [], ◌∷◌, ◌++◌, true, nat_le, length, option_map, Err, IfOk, OnOk};
ghost use Rattle.toml.specs.View.{view, table_view, items_view};
ghost use Rattle.eg_toml.specs.Documents.{document_of};
ghost use Rattle.eg_toml.specs.Weight.{is_too_heavy};
ghost use Rattle.eg_toml.specs.Arrays.{count};
ghost use Rattle.eg_toml.specs.Refusals.{IsRead, Reads, seen};
ghost use Rattle.eg_plan.specs.declared.key.CampaignFault.TheVariants.{Memory};
ghost use Rattle.eg_plan.specs.Runs.{all_items, is_table, run_of, run_refusal};
ghost use Rattle.eg_plan.specs.Inner.Names.{AreNamesOf};
ghost use Rattle.eg_plan.specs.Campaign.{members_in, runs_of, runs_refusal, run_array, run_items, are_runs, is_top_known, refusal_of, campaign_of};
ghost use Rattle.eg_plan.specs.Rules.{AreRuns};

use crate::run::{RunPlan, are_tables, run_in};
use crate::{CampaignFault, RunKey};
use eg_toml::{has_only_names, member, read_document};
use std::alloc::Global;
use std::collections::HashSet;
use toml::{Table, Value};

/// The runs that a campaign file says (docs/FORMATS.md, "Campaign files"), or the first rule that the file
/// breaks; or Memory, which may come with any bytes. The runs keep the rules of campaign files (`rules`).
///
/// Claim 39 (`read`).
pub fn read_campaign(alloc: Global, bytes: &[u8]) -> Result<Vec<RunPlan>, CampaignFault>
    ensures read { IsRead Memory (campaign_of (document_of bytes.now)) (seen (λ runs. runs.items) result) }
    ensures rules { IfOk result (λ runs. AreRuns runs.items) }
    // A document that weighs too much isn't read, and counts as one for which there is no memory.
    ensures heavy { is_too_heavy bytes.now ≡ true → result ≡ Err Memory }
{
    let root = read_document(alloc, bytes)?;
    campaign_in(alloc, &root)
}

/// The runs that a document says, or the first rule that it breaks.
#[tactic(auto, unfolding(crate::specs::Campaign::refusal_of))]
fn campaign_in(alloc: Global, root: &Table) -> Result<Vec<RunPlan>, CampaignFault>
    ensures { let ms = table_view root.now in
        Reads Memory (refusal_of ms) (runs_of (run_items ms)) (seen (λ runs. runs.items) result) }
{
    let items = run_items(root);
    if !are_runs(items) {
        return Err(CampaignFault::Key {
            run: 0,
            key: RunKey::Run,
        });
    }
    if !is_top_known(root) {
        return Err(CampaignFault::Key {
            run: 0,
            key: RunKey::Unknown,
        });
    }
    if !are_few(items) {
        return Err(CampaignFault::Many);
    }
    runs_in(alloc, items)
}

/// The items of the array under `run`, and none where there is no array.
fn run_items(root: &Table) -> &[Value]
    ensures { items_view result.now ≡ run_items (table_view root.now) }
{
    match run_array(root) {
        Some(items) => items,
        None => &[],
    }
}

fn run_array(root: &Table) -> Option<&[Value]>
    ensures { option_map (λ s. items_view s.now) result ≡ run_array (table_view root.now) }
{
    let items = member(root, "run")?.as_array()?;
    Some(items.as_slice())
}

/// Whether these are tables, and there is at least one.
fn are_runs(items: &[Value]) -> bool
    ensures value { result ≡ are_runs (items_view items.now) }
    ensures tables { result ≡ true → all_items is_table (items_view items.now) ≡ true }
{
    are_tables(items) && is_one_at_least(items)
}

fn is_one_at_least(items: &[Value]) -> bool
    ensures { result ≡ nat_le 1 (count (items_view items.now)) }
{
    items.len() >= 1
}

/// Whether no other name than `run` stands at the top.
fn is_top_known(root: &Table) -> bool
    ensures { result ≡ is_top_known (table_view root.now) }
{
    has_only_names(root, &["run"])
}

fn are_few(items: &[Value]) -> bool
    ensures value { result ≡ nat_le (count (items_view items.now)) 1000 }
    ensures few { result ≡ true → length items.now ≤ 1000 }
{
    items.len() <= 1000
}

/// The runs that these tables say, or the first refusal.
fn runs_in(alloc: Global, items: &[Value]) -> Result<Vec<RunPlan>, CampaignFault>
    requires tables { all_items is_table (items_view items.now) ≡ true }
    requires few { length items.now ≤ 1000 }
    ensures { let ds = items_view items.now in
        Reads Memory (runs_refusal 1 [] ds) (runs_of ds) (seen (λ runs. runs.items) result) }
{
    let mut runs = Vec::new(alloc);
    let mut names = HashSet::new(alloc);
    for item in items {
        let plan = next_run(alloc, item, runs.as_slice(), &mut names)?;
        runs.push(plan)?;
    }
    Ok(runs)
}

/// The run that a table says, as `run_in` reads it.
fn next_run<'a>(
    alloc: Global,
    item: &'a Value,
    earlier: &[RunPlan],
    names: &mut HashSet<&'a str>,
) -> Result<RunPlan, CampaignFault>
    requires table { is_table (view item.now) ≡ true }
    requires few { length earlier.now < 1000 }
    requires names { AreNamesOf earlier.now names.old }
    ensures read { let ms = members_in (view item.now) in
        Reads Memory (run_refusal (length earlier.now + 1) earlier.now ms) (run_of ms) result }
    ensures names { OnOk result
        (AreNamesOf (earlier.now ++ run_of (members_in (view item.now)) ∷ []) names.new) }
{
    match item.as_table() {
        Some(table) => run_in(alloc, table, earlier, names),
        None => unreachable!(),
    }
}
