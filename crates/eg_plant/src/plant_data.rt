// The data of the gasoline plant.
ghost use Rattle.std.specs.Prelude.{◌≡◌, ◌≤◌, ◌↔◌, All, IsTrue, SomeIff};
ghost use Rattle.eg_plant.specs.PlantParts.{PlantParts, ArePlantParts};

use eg_num::Table1;
use std::marker::Model;

/// The data of the gasoline plant (docs/CONCEPT.md, "Plant"): how far the plate moves in a tick (`slew`, 1 to
/// 1000 per mille) and the charge (`fill`, 1 to 1000 per mille), the charge of each plate angle (at most 1000
/// per mille), and the torque of a load of 1000 (`kt`, 1 to 10,000 tenths of Nm). Contracts see its
/// `PlantParts`.
#[derive(Drop)]
pub struct PlantData {
    slew: u16,
    fill: u16,
    charge: Table1,
    kt: u16,
}

impl Model for PlantData {
    ghost use Rattle.eg_plant.specs.PlantParts.{PlantParts, ArePlantParts};

    ghost Value = { PlantParts };

    ghost view = { λ p. record { slew = p.slew; fill = p.fill; charge = p.charge; kt = p.kt } };

    ghost invariant = { λ p. ArePlantParts (record {
      slew = p.slew;
      fill = p.fill;
      charge = p.charge;
      kt = p.kt;
    }) };
}

impl PlantData {
    /// These data, or None where one of them is outside its limits.
    pub fn new(slew: u16, fill: u16, charge: Table1, kt: u16) -> Option<PlantData>
        ensures { let parts : PlantParts = record { slew = slew; fill = fill; charge = charge; kt = kt } in
            SomeIff result (ArePlantParts parts) parts }
    {
        if !is_in_range(slew, 1000) || !is_in_range(fill, 1000) || !is_in_range(kt, 10_000) {
            return None;
        }
        if !are_charges(charge.values()) {
            return None;
        }
        Some(PlantData {
            slew,
            fill,
            charge,
            kt,
        })
    }

    /// The most that the plate moves in a tick, in per mille.
    pub fn slew(&self) -> u16
        ensures slew { result ≡ self.now.slew }
        ensures parts { ArePlantParts self.now }
    {
        self.slew
    }

    /// The most that the charge moves in a tick, in per mille.
    pub fn fill(&self) -> u16
        ensures fill { result ≡ self.now.fill }
        ensures parts { ArePlantParts self.now }
    {
        self.fill
    }

    /// The charge of each plate angle, both in per mille.
    pub fn charge(&self) -> &Table1
        ensures charge { result.now ≡ self.now.charge }
        ensures parts { ArePlantParts self.now }
    {
        &self.charge
    }

    /// The torque of a load of 1000, in tenths of Nm.
    pub fn kt(&self) -> u16
        ensures kt { result ≡ self.now.kt }
        ensures parts { ArePlantParts self.now }
    {
        self.kt
    }

    /// Equal data. It takes no memory.
    pub fn copy(&self) -> PlantData
        ensures { result ≡ self.now }
    {
        PlantData {
            slew: self.slew,
            fill: self.fill,
            charge: self.charge.copy(),
            kt: self.kt,
        }
    }
}

/// Whether a number is 1 to `most`.
fn is_in_range(n: u16, most: u16) -> bool
    ensures { IsTrue result ↔ ((1 ≤ n) × (n ≤ most)) }
{
    1 <= n && n <= most
}

/// Whether each charge is at most 1000.
fn are_charges(charges: &[u16]) -> bool
    ensures { IsTrue result ↔ All (λ charge. charge ≤ 1000) charges.now }
{
    charges.iter().all(|charge| *charge <= 1000)
}
