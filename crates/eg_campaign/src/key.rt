// The key of a group: a run, with a number that is made of what the runs of its group share.
ghost use Rattle.std.specs.Prelude.{◌≡◌, fold};
ghost use Rattle.std.specs.Hash as fed;
ghost use Rattle.std.specs.Cmp as equal;
ghost use Rattle.eg_plan.specs.DriveNumbers.{mixed};
ghost use Rattle.eg_campaign.specs.Inner.Keys.{group_number, is_same_key, is_same_key-equality, is_same_key-hashed};

use crate::alike::is_alike;
use eg_plan::{RunInput, mixed, number_of_drive};
use eg_tick::Slices;
use std::hash::{Hash, Hasher};

/// A run as the key of its group: two keys are equal where their runs are of one group. Their numbers are
/// compared first, so that items are compared only where the numbers are equal.
#[derive(Clone, Copy)]
pub(crate) struct GroupKey<'a> {
    number: u64,
    input: &'a RunInput,
}

impl<'a> GroupKey<'a> {
    /// The key of the group of a run.
    pub(crate) fn of(input: &'a RunInput) -> GroupKey<'a>
        ensures number { result.number ≡ group_number input.now }
        ensures input { result.input.now ≡ input.now }
    {
        GroupKey {
            number: group_number(input),
            input,
        }
    }
}

impl<'a> PartialEq for GroupKey<'a> {
    ghost eq = { is_same_key };

    ghost laws = { equal.partial_equiv_from_equiv is_same_key-equality };

    fn eq(&self, other: &GroupKey<'a>) -> bool {
        self.number == other.number && is_alike(self.input, other.input)
    }
}

impl<'a> Eq for GroupKey<'a> {
    ghost laws = { is_same_key-equality };
}

impl<'a> Hash for GroupKey<'a> {
    ghost hash_input = { λ a. fed.u64 a.number };

    ghost respects_eq = { is_same_key-hashed };

    fn hash<H: Hasher>(&self, state: &mut H) {
        self.number.hash(state);
    }
}

/// A number made of the engine, the image, the slice plan and the drive of a run.
#[tactic(auto, unfolding(crate::specs::Inner::Keys::group_number))]
fn group_number(input: &RunInput) -> u64
    ensures { result ≡ group_number input.now }
{
    let engine = input.plan.engine.number();
    let image = number_of_words(engine, input.image.as_slice());
    let plan = number_of_plan(image, input.plan.slices.rows());
    number_of_drive(plan, input.drive.as_slice())
}

/// A number and these words, made one.
fn number_of_words(number: u64, words: &[u16]) -> u64
    ensures { result ≡ fold mixed number words.now }
{
    let mut all = number;
    for word in words {
        all = mixed(all, u64::from(*word));
    }
    all
}

/// A number and the rows of a slice plan, made one.
fn number_of_plan(number: u64, rows: &[Slices]) -> u64
    ensures { result ≡ fold (fold mixed) number rows.now }
{
    let mut all = number;
    for row in rows {
        all = number_of_words(all, &row.budget());
    }
    all
}
