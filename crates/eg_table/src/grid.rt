// The faults of a sweep.
ghost use Rattle.std.specs.Prelude.{◌≡◌, ◌≤◌, ◌↔◌, ◌*◌, ◌++◌, All, IfOk, OnOk, IsTrue, length};
ghost use Rattle.eg_fault.specs.Faults.{IsValid};
ghost use Rattle.eg_table.specs.Grid.{faults_of, is_too_large, onset_count, onsets, swept_faults};
ghost use Rattle.eg_table.specs.declared.grid.SweepFault.TheVariants as fault;

use eg_base::NoMemory;
use eg_fault::{CLASSES, Class, ClassName, Fault};
use std::alloc::Global;

/// Why the faults of a grid are refused (docs/CONCEPT.md, "`sweep`").
#[derive(Clone, Copy)]
pub enum SweepFault {
    /// There was no memory for the faults.
    Memory,
    /// The grid has more than 1,000 runs, or more than 1,000,000 ticks in all.
    Grid,
}

impl From<NoMemory> for SweepFault {
    ghost from_gives = { λ _ e. e ≡ fault.Memory };

    fn from(_error: NoMemory) -> SweepFault {
        SweepFault::Memory
    }
}

/// The faults of a sweep over a run of `ticks` ticks, at most 20,000: one of each class, in the order of
/// `Class`, at each onset. The onsets are 0, `step`, twice `step` and so on below `ticks` (docs/CONCEPT.md,
/// "`sweep`"). It is refused as Grid exactly if these are more than 1,000 runs, or more than 1,000,000
/// ticks in all; else Memory is its one refusal.
pub fn sweep_faults(alloc: Global, ticks: u32, step: u32) -> Result<Vec<Fault>, SweepFault>
    requires ticks { ticks ≤ 20000 }
    requires step { 1 ≤ step }
    ensures faults { IfOk result (λ faults. faults.items ≡ swept_faults ticks step) }
    ensures grid { (result ≡ Err fault.Grid) ↔ IsTrue (is_too_large ticks step) }
    ensures count { IfOk result (λ faults. length faults.items ≡ CLASSES * onset_count ticks step) }
    ensures few { IfOk result (λ faults. length faults.items ≤ 1000) }
    ensures valid { IfOk result (λ faults. All IsValid faults.items) }
{
    if is_too_large(ticks, step) {
        return Err(SweepFault::Grid);
    }
    let faults = faults_of_grid(alloc, ticks, step)?;
    Ok(faults)
}

/// Whether the grid over a run of so many ticks, with a fault of each class at each `step`th of them, has
/// more than 1,000 runs, or more than 1,000,000 ticks in all.
#[tactic(auto, unfolding(crate::specs::Grid::is_too_large, crate::specs::Grid::onset_count))]
pub fn is_too_large(ticks: u32, step: u32) -> bool
    requires { 1 ≤ step }
    ensures { result ≡ is_too_large ticks step }
{
    let runs = CLASSES as u64 * u64::from(ticks.div_ceil(step));
    runs > 1_000 || runs * u64::from(ticks) > 1_000_000
}

/// The faults of a grid, of whatever size.
fn faults_of_grid(alloc: Global, ticks: u32, step: u32) -> Result<Vec<Fault>, NoMemory>
    requires { 1 ≤ step }
    ensures { IfOk result (λ faults. faults.items ≡ swept_faults ticks step) }
{
    let mut faults = Vec::new(alloc);
    for class in &ClassName::ORDER {
        push_class(&mut faults, &class.swept(), ticks, step)?;
    }
    Ok(faults)
}

/// Appends a fault of this class at each onset.
fn push_class(faults: &mut Vec<Fault>, class: &Class, ticks: u32, step: u32) -> Result<(), NoMemory>
    requires { 1 ≤ step }
    ensures { OnOk result (faults.new.items
        ≡ faults.old.items ++ faults_of (onsets ticks step) class.now) }
{
    for i in 0..ticks.div_ceil(step) {
        let onset = i * step;
        let class = class.copy();
        faults.push(Fault { onset, class })?;
    }
    Ok(())
}
