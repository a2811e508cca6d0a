// Modules 1 to 5: each computes a signal, and mixes a result of the question's row into the fold. The results
// (`test`) were worked out by the same functions when level 2 was made.
ghost use Rattle.std.specs.Prelude.{◌≡◌, ◌≤◌, bit_xor, if◌then◌else◌};
ghost use Rattle.eg_answer.specs.declared.modules.TheConstants.{PEDAL as PEDAL_MODULE, PAIRS as PAIRS_MODULE};
ghost use Rattle.eg_answer.specs.Formulas.{permitted_torque as torque_of};
ghost use Rattle.eg_answer.specs.Folds.{mixed};
ghost use Rattle.eg_torque.specs.Ramp.{ramped as torque_ramped};
ghost use Rattle.eg_level2.specs.Words.{word_at, words_of};
ghost use Rattle.eg_level2.specs.Inputs.{IsLookup, readings_of};
ghost use Rattle.eg_level2.specs.Inner.Stores.{Makes, signal_of, signalling};

use crate::Lookup;
use crate::ports::readings;
use crate::words::{ACTUAL, LIMP, PEDAL, PERMITTED, SIGN, TOKEN, TRIP, is_set, keep, word};
use eg_answer::{
    Rules, disagreeing_pairs, estimated_torque, excess_number, mix, next_token, permitted_torque,
};
use eg_base::NoMemory;
use eg_guard::Guarded;
use eg_sensor::{Readings, checked_raise, used};
use eg_torque::ramped;

/// The signal of a module of number 1 to 5 (docs/CONCEPT.md, "Level 2"): the pedal that level 2 uses, in per
/// mille; the permitted torque and the actual torque, in tenths of Nm; 1 where the actual torque is an excess
/// over the permitted torque, else 0; the bits of the pairs that disagree.
#[inline(always)]
#[tactic(auto, unfolding(crate::specs::Inner::Stores::signal_of))]
pub(crate) fn signal<M: Guarded>(number: u8, memory: &M, rules: &Rules, lookup: &Lookup) -> u16
    requires { IsLookup rules.now lookup.now }
    ensures { result ≡ signal_of rules.now (readings_of (M.shows memory.now).words) number
        (words_of (M.shows memory.now).words) }
{
    match number {
        eg_answer::PEDAL => used(readings(memory).pedal, is_set(word(memory, LIMP))),
        eg_answer::PERMITTED => {
            let tripped = is_set(word(memory, TRIP));
            let (before, pedal) = (word(memory, PERMITTED), word(memory, PEDAL));
            permit(rules, lookup, tripped, before, pedal, &readings(memory))
        }
        eg_answer::ACTUAL => estimated_torque(rules, &readings(memory)),
        eg_answer::EXCESS => excess_number(rules, word(memory, PERMITTED), word(memory, ACTUAL)),
        _ => disagreeing_pairs(rules, &readings(memory)),
    }
}

/// The permitted torque, where it was `before`, by the pedal (per mille) and by the speeds and the raise
/// that are read. Where a trip stands it isn't worked out, since 0 is written in any case.
fn permit(
    rules: &Rules,
    lookup: &Lookup,
    tripped: bool,
    before: u16,
    pedal: u16,
    read: &Readings,
) -> u16
    requires { IsLookup rules.now lookup.now }
    ensures { result ≡ (if tripped then 0
        else torque_ramped rules.now.fall before (torque_of rules.now read.now pedal)) }
{
    if tripped {
        return 0;
    }
    ramped(rules.fall, before, demanded(rules, lookup, pedal, read))
}

/// The torque that a pedal (per mille) demands at the speeds and the raise that are read, in tenths of Nm.
#[tactic(auto, using(crate::proofs::ModuleLemmas::looked_up))]
fn demanded(rules: &Rules, lookup: &Lookup, pedal: u16, read: &Readings) -> u16
    requires { IsLookup rules.now lookup.now }
    ensures { result ≡ torque_of rules.now read.now pedal }
{
    let [first, second] = read.speed;
    if first == second && lookup.is_at(pedal, first) {
        return lookup
            .torque
            .max(checked_raise(read.raise, read.raise_check));
    }
    permitted_torque(rules, read, pedal)
}

/// Stores the signal of a module, moves the token, and mixes the result of the question's row into the fold.
#[inline(always)]
pub(crate) fn write<M: Guarded>(
    memory: &mut M,
    number: u8,
    signal: u16,
    test: u16,
    disturbance: u16,
) -> Result<(), NoMemory>
    requires first { PEDAL_MODULE ≤ number }
    requires last { number ≤ PAIRS_MODULE }
    ensures { Makes (signalling number signal test disturbance (word_at (M.shows memory.old).words))
        (M.shows memory.old) (M.shows memory.new) result }
{
    let value = written(is_set(word(memory, TRIP)), signal, disturbance);
    let token = next_token(word(memory, TOKEN), number);
    let sign = signed(word(memory, SIGN), test, disturbance);
    keep(memory, u16::from(number) - 1, value)?;
    keep(memory, TOKEN, token)?;
    keep(memory, SIGN, sign)
}

/// A signal as it is written: disturbed, and 0 where a trip stands.
fn written(trip: bool, signal: u16, disturbance: u16) -> u16
    ensures { result ≡ (if trip then 0 else bit_xor signal disturbance) }
{
    if trip { 0 } else { signal ^ disturbance }
}

/// The fold with one result more, which is disturbed too.
fn signed(sign: u16, test: u16, disturbance: u16) -> u16
    ensures { result ≡ bit_xor (mixed sign test) disturbance }
{
    mix(sign, test) ^ disturbance
}
