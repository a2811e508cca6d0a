// How many instructions level 1 may do at each tick.
ghost use Rattle.std.specs.Prelude.{◌≡◌, ℕ, ◌%◌, ◌≤◌, ◌<◌, [], length, slice_index, slice_index_or, SomeIff};
ghost use Rattle.std.specs.List.{sum};

use arrayvec::ArrayVec;
use eg_num::total;
use std::marker::Model;

/// The most instructions that level 1 may do at one tick.
const MOST: u64 = 1000;

/// How many instructions level 1 may do in each of the nine slices of a tick, at most 1,000 in all
/// (docs/CONCEPT.md, "Level 1"). Contracts see the list of the nine numbers.
#[derive(Clone, Copy, PartialEq, Eq)]
pub struct Slices {
    budget: [u16; 9],
}

impl Model for Slices {
    ghost use Rattle.std.specs.Prelude.{ℕ, List, ◌≤◌};
    ghost use Rattle.std.specs.List.{sum};

    ghost Value = { List ℕ };

    ghost view = { λ s. s.budget };

    ghost invariant = { λ s. sum s.budget ≤ 1000 };

    ghost inverse = { λ budget. record { budget = budget } };
}

impl Default for Slices {
    ghost use Rattle.std.specs.Prelude.{◌≡◌, replicate};

    ghost is_default = { λ slices. slices ≡ replicate 9 0 };

    /// Nine slices in which nothing may be done.
    fn default() -> Slices {
        Slices { budget: [0; 9] }
    }
}

impl Slices {
    /// These nine slices, or None where their instructions are more than 1,000 in all.
    pub fn new(budget: [u16; 9]) -> Option<Slices>
        ensures { SomeIff result (sum budget ≤ 1000) budget }
    {
        if total(&budget) > MOST {
            return None;
        }
        Some(Slices { budget })
    }

    /// How many instructions level 1 may do in each slice.
    pub fn budget(&self) -> [u16; 9]
        ensures budget { result ≡ self.now }
        ensures nine { length self.now ≡ 9 }
        ensures most { sum self.now ≤ 1000 }
    {
        self.budget
    }

    /// How many instructions level 1 may do in one slice, 0 to 8.
    pub fn budget_of(&self, slice: u8) -> u16
        requires { slice < 9 }
        ensures budget { result ≡ slice_index self.now slice }
        ensures nine { length self.now ≡ 9 }
    {
        self.budget[usize::from(slice)]
    }

    /// Equal slices.
    pub fn copy(&self) -> Slices
        ensures { result ≡ self.now }
    {
        *self
    }
}

/// The slices of 1 to 64 ticks, which are used in turn, again and again (docs/CONCEPT.md, "The record of a
/// run"). Contracts see the list of its rows, each the list of nine numbers.
#[derive(Drop)]
pub struct SlicePlan {
    rows: ArrayVec<Slices, 64>,
}

impl Model for SlicePlan {
    ghost use Rattle.std.specs.Prelude.{ℕ, List, ◌≤◌, length};

    ghost Value = { List (List ℕ) };

    ghost view = { λ p. p.rows.items };

    ghost invariant = { λ p. (1 ≤ length p.rows.items) × (length p.rows.items ≤ 64) };
}

impl SlicePlan {
    /// The plan of these rows, or None where they aren't 1 to 64.
    pub fn new(rows: &[Slices]) -> Option<SlicePlan>
        ensures { SomeIff result ((1 ≤ length rows.now) × (length rows.now ≤ 64)) rows.now }
    {
        if rows.is_empty() {
            return None;
        }
        let rows = ArrayVec::try_from(rows).ok()?;
        Some(SlicePlan { rows })
    }

    /// The slices of a tick of the run: the rows come in turn, and after the last one the first comes again.
    pub fn row(&self, tick: u32) -> &Slices
        ensures row { result.now ≡ slice_index_or self.now (tick % length self.now) [] }
        ensures least { 1 ≤ length self.now }
        ensures most { length self.now ≤ 64 }
    {
        &self.rows[in_turn(tick as usize, self.rows.len())]
    }

    /// The rows of the plan, in their order. It takes no memory.
    pub fn rows(&self) -> &[Slices]
        ensures { result.now ≡ self.now }
    {
        self.rows.as_slice()
    }

    /// An equal plan. It takes no memory.
    pub fn copy(&self) -> SlicePlan
        ensures { result ≡ self.now }
    {
        let mut rows = ArrayVec::new();
        match rows.try_extend_from_slice(self.rows.as_slice()) {
            Ok(()) => SlicePlan { rows },
            Err(_) => unreachable!(),
        }
    }
}

/// Which of so many rows, which come in turn, a tick has. Most plans have one, which costs no division.
fn in_turn(tick: usize, count: usize) -> usize
    requires { 1 ≤ count }
    ensures { result ≡ tick % count }
{
    if count == 1 { 0 } else { tick % count }
}
