// The results of a test row, and the fold that an answer carries.
ghost use Rattle.std.specs.Prelude.{◌≡◌, ◌<◌, ◌^◌};
ghost use Rattle.eg_answer.specs.Folds.{mixed, fold_of, FoldLaw};
ghost use Rattle.eg_answer.specs.Answers.{results_of, expected_of};

use crate::{Rules, TestRow, disagreeing_pairs, estimated_torque, excess_number, permitted_torque};
use eg_sensor::used;

/// The five results of a test row (docs/CONCEPT.md, "Questions and answers"): the lower of the two pedal
/// values, in per mille; the permitted torque and the torque estimate, in tenths of Nm; 1 where the row's own
/// estimate is an excess over what the row allows, else 0; and the bits of the pairs that disagree.
pub fn results(rules: &Rules, row: &TestRow) -> [u16; 5]
    ensures { result ≡ results_of rules.now row.now }
{
    let read = &row.readings;
    [
        used(read.pedal, false),
        permitted_torque(rules, read, row.used),
        estimated_torque(rules, read),
        excess_number(rules, row.allowed, row.estimate),
        disagreeing_pairs(rules, read),
    ]
}

/// The fold of a seed and five results (docs/CONCEPT.md, "Questions and answers"): for each result in turn,
/// the bits so far are rotated to the left by three places, and the result is mixed in by exclusive or.
pub fn fold(seed: u16, results: &[u16; 5]) -> u16
    ensures { result ≡ fold_of seed results.now }
{
    results.iter().fold(seed, |bits, number| mix(bits, *number))
}

/// The answer to a test row: the fold of its seed and its five results (docs/CONCEPT.md, "Questions and
/// answers").
pub fn expected(rules: &Rules, row: &TestRow) -> u16
    ensures answer { result ≡ expected_of rules.now row.now }
    ensures seed { row.now.seed < 2 ^ 16 }
{
    fold(row.seed, &results(rules, row))
}

/// Does nothing when it runs. Its contract is a law: results that differ in exactly one place have different
/// folds (docs/CONCEPT.md, "Questions and answers").
pub fn folds_tell_results_apart()
    ensures { FoldLaw }
{}

/// The fold with one result more: the bits so far are rotated to the left by three places, and the result is
/// mixed in by exclusive or (docs/CONCEPT.md, "Questions and answers").
#[inline]
#[tactic(auto, unfolding(crate::specs::Folds::mixed))]
pub fn mix(bits: u16, number: u16) -> u16
    ensures { result ≡ mixed bits number }
{
    bits.rotate_left(3) ^ number
}
