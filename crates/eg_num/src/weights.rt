// The weights of a debouncer.
ghost use Rattle.std.specs.Prelude.{◌≡◌, SomeIff};
ghost use Rattle.eg_num.specs.Windows.{WeightParts, AreWeights};

use std::marker::Model;

/// The weights of a debouncer (docs/CONCEPT.md, "Debouncing"): what a bad feed adds (`up`, 1 to 100), what a
/// good one takes (`down`, 0 to 100), and the weight that confirms (`limit`, 1 to 10,000). Contracts see its
/// `WeightParts`.
#[derive(Clone, Copy)]
pub struct Weights {
    up: u16,
    down: u16,
    limit: u16,
}

impl Model for Weights {
    ghost use Rattle.eg_num.specs.Windows.{WeightParts, AreWeights};

    ghost Value = { WeightParts };

    ghost view = { λ w. record { up = w.up; down = w.down; limit = w.limit } };

    ghost invariant = { λ w. AreWeights (record { up = w.up; down = w.down; limit = w.limit }) };

    ghost inverse = { λ w. record { up = w.up; down = w.down; limit = w.limit } };
}

impl Weights {
    /// These weights, or None where one of them is outside its limits.
    pub fn new(up: u16, down: u16, limit: u16) -> Option<Weights>
        ensures { let weights : WeightParts = record { up = up; down = down; limit = limit } in
            SomeIff result (AreWeights weights) weights }
    {
        if 1 <= up && up <= 100 && down <= 100 && 1 <= limit && limit <= 10_000 {
            Some(Weights { up, down, limit })
        } else {
            None
        }
    }

    /// What a bad feed adds.
    pub fn up(&self) -> u16
        ensures up { result ≡ self.now.up }
        ensures weights { AreWeights self.now }
    {
        self.up
    }

    /// What a good feed takes.
    pub fn down(&self) -> u16
        ensures down { result ≡ self.now.down }
        ensures weights { AreWeights self.now }
    {
        self.down
    }

    /// The weight that confirms.
    pub fn limit(&self) -> u16
        ensures limit { result ≡ self.now.limit }
        ensures weights { AreWeights self.now }
    {
        self.limit
    }

    /// Equal weights.
    pub fn copy(&self) -> Weights
        ensures { result ≡ self.now }
    {
        Weights {
            up: self.up,
            down: self.down,
            limit: self.limit,
        }
    }
}
