// Whether the fault of a run has acted.
ghost use Rattle.std.specs.Prelude.{◌≡◌, ◌≤◌, ◌∷◌, []};
ghost use Rattle.std.specs.List.{list_any, range_with_len};
ghost use Rattle.std.specs.Option.{option_copied};
ghost use Rattle.eg_fault.specs.Faults.{has_effect, is_left_out};
ghost use Rattle.eg_table.specs.Acting.{acts_within, has_acted};

use eg_fault::{Class, Fault, Script};

/// Whether the fault of a run of `ticks` ticks has an effect at one of them, or None where there is no fault
/// (docs/CONCEPT.md, "`table`"). It takes no memory.
#[tactic(auto, unfolding(crate::specs::Acting::has_acted))]
pub fn has_acted(fault: Option<&Fault>, ticks: u32) -> Option<bool>
    ensures { result ≡ has_acted (option_copied fault.entry) ticks }
{
    match fault {
        Some(fault) => Some(acts_within(fault, ticks)),
        None => None,
    }
}

/// Whether a fault has an effect at a tick below `ticks`.
fn acts_within(fault: &Fault, ticks: u32) -> bool
    ensures { result ≡ acts_within fault.now ticks }
{
    fault.onset < ticks && has_effect_within(&fault.class, ticks - fault.onset)
}

/// Whether a class has an effect at one of the first `ticks` ticks from the onset on; `ticks` is at least 1.
fn has_effect_within(class: &Class, ticks: u32) -> bool
    requires { 1 ≤ ticks }
    ensures { result ≡ list_any (has_effect class.now) (range_with_len 0 ticks) }
{
    match class {
        Class::Lapse { after, every } => is_left_out_within(after, *every, ticks),
        _ => true,
    }
}

/// Whether level 2 is left out at one of the first `ticks` ticks from the onset on. A number of the list that
/// ever leaves it out does so first at the tick of that number.
fn is_left_out_within(after: &Script, every: u16, ticks: u32) -> bool
    ensures { result ≡ list_any (is_left_out after.now every) (range_with_len 0 ticks) }
{
    some_comes_within(after.values(), every, ticks)
}

/// Whether one of these numbers by itself leaves level 2 out at one of the first `ticks` ticks.
fn some_comes_within(numbers: &[u16], every: u16, ticks: u32) -> bool
    ensures { result
        ≡ list_any (λ tick. list_any (is_left_out (tick ∷ []) every) (range_with_len 0 ticks)) numbers.now }
{
    numbers.iter().any(|tick| comes_within(*tick, every, ticks))
}

/// Whether this number by itself leaves level 2 out at one of the first `ticks` ticks.
fn comes_within(tick: u16, every: u16, ticks: u32) -> bool
    ensures { result ≡ list_any (is_left_out (tick ∷ []) every) (range_with_len 0 ticks) }
{
    u32::from(tick) < ticks && (every == 0 || tick < every)
}
