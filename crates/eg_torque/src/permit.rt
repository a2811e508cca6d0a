// The permit table.
ghost use Rattle.std.specs.Prelude.{◌≡◌, ◌↔◌, ℕ, ◌≤◌, ◌<◌, length, IsTrue, IsOk, IfOk, IfErr};
ghost use Rattle.eg_num.specs.Interpolation.{IsGrid, grid_at};
ghost use Rattle.eg_torque.specs.Permit.{DoesNotFall, FallsAt, IsFirstFall, PermitRises, permitted};

use eg_num::Table2;
use std::marker::Model;

/// The permit table (docs/CONCEPT.md, "Torque"): the torque that is permitted, in tenths of Nm, at a pedal
/// (its rows, per mille) and a speed (its columns, rpm). At no speed point does the torque fall as the pedal
/// rises. Contracts see its `Grid`.
#[derive(Drop)]
pub struct Permit {
    table: Table2,
}

impl Model for Permit {
    ghost use Rattle.eg_num.specs.Interpolation.{Grid, IsGrid};
    ghost use Rattle.eg_torque.specs.Permit.{DoesNotFall};

    ghost Value = { Grid };

    ghost view = { λ p. p.table };

    ghost invariant = { λ p. IsGrid p.table × DoesNotFall p.table };
}

impl Permit {
    /// The permit table of these values. It is refused where a row has a value below that of the row before
    /// it: Err holds the first such row, counted from 0 (docs/CONCEPT.md, "Torque").
    pub fn new(table: Table2) -> Result<Permit, u16>
        ensures accepted { IsOk result ↔ DoesNotFall table }
        ensures kept { IfOk result (λ permit. permit ≡ table) }
        ensures refused { IfErr result (IsFirstFall table) }
    {
        for i in 1..table.height() {
            if row_falls(&table, i) {
                return Err(i as u16);
            }
        }
        Ok(Permit { table })
    }

    /// The table of the permitted torques.
    pub fn table(&self) -> &Table2
        ensures table { result.now ≡ self.now }
        ensures permit { DoesNotFall self.now }
        ensures grid { IsGrid self.now }
    {
        &self.table
    }

    /// The permitted torque, in tenths of Nm (docs/CONCEPT.md, "Torque"): the lower of the table's values at
    /// the pedal (per mille) and each of the two speeds (rpm), or the raise (tenths of Nm) where
    /// that is more. It doesn't fall with the pedal or with the raise.
    pub fn at(&self, pedal: u16, speed_a: u16, speed_b: u16, raise: u16) -> u16
        ensures value { result ≡ permitted self.now pedal speed_a speed_b raise }
        ensures rises { (p q r s : ℕ) → p ≤ q → r ≤ s →
            permitted self.now p speed_a speed_b r ≤ permitted self.now q speed_a speed_b s }
        ensures permit { DoesNotFall self.now }
        ensures grid { IsGrid self.now }
    {
        let first = self.table.at(pedal, speed_a);
        let second = self.second(pedal, speed_a, first, speed_b);
        first.min(second).max(raise)
    }

    /// The table's value at a pedal and a second speed, where the value at the first speed is known. Mostly
    /// the two speeds are equal, and so are the values.
    fn second(&self, pedal: u16, speed_a: u16, first: u16, speed_b: u16) -> u16
        requires { first ≡ grid_at self.now pedal speed_a }
        ensures { result ≡ grid_at self.now pedal speed_b }
    {
        if speed_b == speed_a {
            return first;
        }
        self.table.at(pedal, speed_b)
    }

    /// An equal permit table. It takes no memory.
    pub fn copy(&self) -> Permit
        ensures { result ≡ self.now }
    {
        Permit {
            table: self.table.copy(),
        }
    }
}

/// Does nothing when it runs. Its contract is a law: a greater pedal or a greater raise never permits less
/// torque, whatever the two speeds (docs/CONCEPT.md, "Torque").
pub fn permits_rise()
    ensures { PermitRises }
{}

/// Whether row `i` has a value below the row before it.
fn row_falls(table: &Table2, i: usize) -> bool
    requires later { 1 ≤ i }
    requires row { i < length table.now.rows }
    ensures { IsTrue result ↔ FallsAt table.now i }
{
    for j in 0..table.width() {
        if table.value(i, j) < table.value(i - 1, j) {
            return true;
        }
    }
    false
}
