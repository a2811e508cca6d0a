// At which hundredth ticks of a run a checkpoint is wanted.
ghost use Rattle.std.specs.Prelude.{◌≡◌, All, Option, false, Some, length, slice_index_or};
ghost use Rattle.std.specs.Option.{option_copied};
ghost use Rattle.eg_fault.specs.declared.class.Fault.{Fault as OfFault};
ghost use Rattle.eg_fault.specs.Faults.{IsNoneOrValid, IsValid};
ghost use Rattle.eg_plan.specs.Playable.{IsPlayable};
ghost use Rattle.eg_campaign.specs.Inner.Checkpoints.{AreWantedIn, IsWantedFor};

use crate::checkpoints::CHECKPOINT_TICKS;
use eg_fault::Fault;
use eg_plan::RunInput;

/// For each hundredth tick that a run may have, whether a run under a fault goes on from there.
pub(crate) type Wanted = [bool; 200];

/// Whether a checkpoint is wanted at the hundredth tick of this number.
pub(crate) fn is_wanted(wanted: &Wanted, number: usize) -> bool
    ensures { result ≡ slice_index_or wanted.now number false }
{
    match wanted.get(number) {
        Some(wanted) => *wanted,
        None => false,
    }
}

/// Those that the runs of a group want: of these inputs, the ones that the run at this index leads.
pub(crate) fn wanted_in(inputs: &[RunInput], leaders: &[usize], index: usize) -> Wanted
    requires playable { All IsPlayable inputs.now }
    requires places { length leaders.now ≡ length inputs.now }
    ensures { AreWantedIn inputs.now leaders.now index (length inputs.now) result }
{
    let mut wanted = [false; 200];
    for i in index..inputs.len() {
        if leaders[i] == index {
            want(&mut wanted, inputs[i].plan.fault.as_ref());
        }
    }
    wanted
}

/// Those that runs under these faults want.
pub(crate) fn wanted_under(faults: &[Fault]) -> Wanted
    requires { All IsValid faults.now }
    ensures { All (λ fault. IsWantedFor result (Some fault)) faults.now }
{
    let mut wanted = [false; 200];
    for fault in faults {
        want(&mut wanted, Some(fault));
    }
    wanted
}

/// Wants the one that a run under this fault goes on from.
fn want(wanted: &mut Wanted, fault: Option<&Fault>)
    requires { IsNoneOrValid (option_copied fault) }
    ensures wanted { IsWantedFor wanted.new (option_copied fault.entry) }
    ensures kept { (other : Option OfFault) → IsWantedFor wanted.old other → IsWantedFor wanted.new other }
{
    if let Some(fault) = fault {
        wanted[fault.onset as usize / CHECKPOINT_TICKS] = true;
    }
}
