// The drives of drawn runs.
ghost use Rattle.std.specs.Prelude.{◌≡◌, ◌++◌, replicate, IfOk, OnOk};
ghost use Rattle.eg_draw.specs.Draws.{after};
ghost use Rattle.eg_draw.specs.Runs.{stretch_row, trace_of};

use crate::Generator;
use eg_base::{Items, NoMemory};
use eg_num::Drive;
use std::alloc::Global;

impl Generator {
    /// Draws a drive of 2,000 ticks: 20 stretches of 100.
    #[tactic(auto, using(crate::proofs::StretchLemmas::steps), unfolding(crate::specs::Runs::trace_of))]
    pub(crate) fn trace(&mut self, alloc: Global) -> Result<Items<Drive>, NoMemory>
        ensures rows { IfOk result (λ rows. rows ≡ trace_of self.old) }
        ensures state { OnOk result (self.new ≡ after 60 self.old) }
    {
        let mut rows = Vec::new(alloc);
        for _ in 0..20_u8 {
            self.stretch(&mut rows)?;
        }
        Ok(Items::new(rows))
    }

    /// Draws a row, and appends it a hundred times.
    fn stretch(&mut self, rows: &mut Vec<Drive>) -> Result<(), NoMemory>
        ensures rows { OnOk result
            (rows.new.items ≡ rows.old.items ++ replicate 100 (stretch_row self.old)) }
        ensures state { self.new ≡ after 3 self.old }
    {
        let row = self.row();
        append_hundred(row, rows)
    }

    /// Draws a row.
    #[tactic(auto, using(crate::proofs::DrawLemmas::single), unfolding(crate::specs::Runs::stretch_row))]
    fn row(&mut self) -> Drive
        ensures row { result ≡ stretch_row self.old }
        ensures state { self.new ≡ after 3 self.old }
    {
        let pedal = self.below(1001);
        let speed = 800 + self.below(5201);
        let raise = self.below(500);
        match Drive::new(pedal, speed, raise, false, false) {
            Some(row) => row,
            None => unreachable!(),
        }
    }
}

/// Appends a row a hundred times.
fn append_hundred(row: Drive, rows: &mut Vec<Drive>) -> Result<(), NoMemory>
    ensures { OnOk result (rows.new.items ≡ rows.old.items ++ replicate 100 row) }
{
    for _ in 0..100_u8 {
        rows.push(row)?;
    }
    Ok(())
}
