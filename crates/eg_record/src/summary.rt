// The summary of a run.
ghost use Rattle.std.specs.Prelude.{◌≡◌, reverse, IfOk};
ghost use Rattle.eg_record.specs.Rows.{AreRows};
ghost use Rattle.eg_record.specs.Summaries.{summary_of};

use crate::detection::{first_confirmed, first_detection, first_off};
use crate::{Row, Watch};
use eg_base::{NoMemory, Text};
use eg_num::Weights;
use eg_word::Trap;
use std::alloc::Global;

/// What a report says of a run (docs/CONCEPT.md, "The report of a run").
#[derive(Drop)]
pub struct Summary {
    /// The name of the run.
    pub name: Text,
    /// The first watch that is found, and the tick at which it is, or None.
    pub first: Option<(Watch, u32)>,
    /// The first tick at which the power stages are off and no start-up test is running, or None.
    pub off: Option<u32>,
    /// Why level 1 trapped, and the tick at which it did, or None.
    pub trap: Option<(Trap, u32)>,
    /// The first tick at which the true excess is confirmed within its span, or None.
    pub confirmed: Option<u32>,
    /// The worst-case reaction, in ticks.
    pub bound: u32,
}

/// The summary of a run of these rows, which stand in the order of time, from tick 0 on (docs/CONCEPT.md,
/// "The report of a run"). The true excess uses the threshold (tenths of Nm) and these weights; name,
/// trap and worst-case reaction (ticks) are told as they are handed in. NoMemory is its one refusal.
#[tactic(auto, unfolding(crate::specs::Summaries::summary_of))]
pub fn summarize(
    alloc: Global,
    name: &str,
    rows: &[Row],
    trap: Option<(Trap, u32)>,
    threshold: u16,
    weights: &Weights,
    bound: u32,
) -> Result<Summary, NoMemory>
    requires { AreRows (reverse rows.now) }
    ensures { IfOk result (λ summary.
        summary ≡ summary_of name.now (reverse rows.now) trap threshold weights.now bound) }
{
    let name = String::from_str(alloc, name)?;
    Ok(Summary {
        name: Text::new(name),
        first: first_detection(rows),
        off: first_off(rows),
        trap,
        confirmed: first_confirmed(rows, threshold, weights),
        bound,
    })
}
