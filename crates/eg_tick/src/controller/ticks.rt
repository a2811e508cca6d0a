// What counts the ticks that were made.
ghost use Rattle.std.specs.Prelude.{◌≡◌, ◌+◌, ◌%◌, ◌^◌};
ghost use Rattle.eg_tick.specs.Weights.{weight_of};

use eg_num::total;
use eg_record::Row;
use std::marker::Model;

/// How many ticks were made, and the weights of their rows in all, both modulo 2^64. Only a tick of a
/// controller raises them. There is no copy of it and no default, so what it shows was made. Contracts see
/// its `TickCount`.
#[derive(Drop)]
pub struct Ticks {
    count: u64,
    sum: u64,
}

impl Model for Ticks {
    ghost use Rattle.eg_tick.specs.Weights.{TickCount};

    ghost Value = { TickCount };

    ghost view = { λ t. record { count = t.count; weights = t.sum } };
}

impl Ticks {
    /// The count before any tick was made.
    pub fn new() -> Ticks
        ensures { result ≡ record { count = 0; weights = 0 } }
    {
        Ticks { count: 0, sum: 0 }
    }

    /// How many ticks were made, modulo 2^64.
    pub fn count(&self) -> u64
        ensures { result ≡ self.now.count }
    {
        self.count
    }

    /// The weights of the rows of all ticks that were made, in all, modulo 2^64.
    pub fn sum(&self) -> u64
        ensures { result ≡ self.now.weights }
    {
        self.sum
    }

    /// One tick more.
    pub(super) fn raise(&mut self)
        ensures { self.new ≡ record self.old { count = (self.old.count + 1) % 2 ^ 64 } }
    {
        self.count = self.count.wrapping_add(1);
    }

    /// Adds the weight of the row of that tick.
    pub(super) fn add(&mut self, row: &Row)
        ensures { self.new
            ≡ record self.old { weights = (self.old.weights + weight_of row.now) % 2 ^ 64 } }
    {
        self.sum = self.sum.wrapping_add(weight(row));
    }
}

/// The weight of a row.
#[tactic(auto, unfolding(crate::specs::Weights::weight_of))]
fn weight(row: &Row) -> u64
    ensures { result ≡ weight_of row.now }
{
    let commands = total(&[row.throttle, row.ignition]);
    u64::from(row.tick) + u64::from(row.charge) + total(&row.signals) + commands
}
