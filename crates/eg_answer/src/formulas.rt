// What level 2 computes, of the sensors' readings and of a test row alike.
ghost use Rattle.std.specs.Prelude.{◌≡◌};
ghost use Rattle.eg_answer.specs.Formulas.{permitted_torque, estimated_torque, excess_number, disagreeing_pairs};
ghost use Rattle.eg_answer.specs.Braking.{GatingPermitsNoMore};

use crate::Rules;
use eg_sensor::{Readings, checked_raise, pair_bits};
use eg_torque::{actual, excess};

/// The bit of the excess in its word, which the debouncer of the torque is fed with (docs/CONCEPT.md, "Level
/// 2").
pub const EXCESS_BIT: u16 = 1;

/// The torque that a pedal (per mille) permits at the speeds and the raise that are read, in tenths of Nm
/// (docs/CONCEPT.md, "Level 2").
#[inline]
#[tactic(auto, unfolding(crate::specs::Formulas::permitted_torque))]
pub fn permitted_torque(rules: &Rules, read: &Readings, pedal: u16) -> u16
    ensures { result ≡ permitted_torque rules.now read.now pedal }
{
    let raise = checked_raise(read.raise, read.raise_check);
    rules.permit.at(pedal, read.speed[0], read.speed[1], raise)
}

/// The torque estimate of the higher of the two loads, in tenths of Nm (docs/CONCEPT.md, "Level 2").
#[inline]
#[tactic(auto, unfolding(crate::specs::Formulas::estimated_torque))]
pub fn estimated_torque(rules: &Rules, read: &Readings) -> u16
    ensures { result ≡ estimated_torque rules.now read.now }
{
    actual(read.load[0].max(read.load[1]), rules.kt)
}

/// The bit of the excess where an estimate exceeds the torque that is allowed by more than the threshold,
/// else 0; both in tenths of Nm (docs/CONCEPT.md, "Level 2").
#[inline]
#[tactic(auto, unfolding(crate::specs::Formulas::excess_number))]
pub fn excess_number(rules: &Rules, allowed: u16, estimate: u16) -> u16
    ensures { result ≡ excess_number rules.now allowed estimate }
{
    EXCESS_BIT * u16::from(excess(estimate, allowed, rules.threshold))
}

/// The bits of the pairs that disagree (docs/CONCEPT.md, "Level 2").
#[inline(always)]
#[tactic(auto, unfolding(crate::specs::Formulas::disagreeing_pairs))]
pub fn disagreeing_pairs(rules: &Rules, read: &Readings) -> u16
    ensures { result ≡ disagreeing_pairs rules.now read.now }
{
    pair_bits(read, &rules.tolerances)
}

/// Does nothing when it runs. Its contract is a law: where the rows of the permit table don't fall, gated
/// readings permit no more torque than the readings that they were made of (docs/CONCEPT.md, "The brake").
#[tactic(auto, using(crate::proofs::BrakingLemmas::gating_permits_no_more))]
pub fn gating_permits_no_more()
    ensures { GatingPermitsNoMore }
{}
