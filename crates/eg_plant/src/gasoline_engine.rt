// The gasoline engine.
ghost use Rattle.std.specs.Prelude.{◌≡◌, ℕ, ◌≤◌};
ghost use Rattle.std.specs.Option.{ForSome};
ghost use Rattle.eg_num.specs.Interpolation.{curve_at};
ghost use Rattle.eg_plant.specs.Engine.{KeepsLaws};
ghost use Rattle.eg_plant.specs.Gasoline as gasoline;
ghost use Rattle.eg_plant.specs.Gasoline.{StepsAsGasoline, at_rest, shown_of};

use crate::{CopyEngine, Engine, PlantData};
use eg_num::toward;
use std::marker::Model;

/// A gasoline engine (docs/CONCEPT.md, "Plant"). `filling` is the charge of its plate: it is looked up only
/// where the plate has moved. Contracts see its `GasolinePlant`.
#[derive(Drop)]
pub struct GasolineEngine {
    plant: PlantData,
    plate: u16,
    charge: u16,
    torque: u16,
    filling: u16,
}

impl Model for GasolineEngine {
    ghost use Rattle.eg_plant.specs.Gasoline.{GasolinePlant};

    ghost Value = { GasolinePlant };

    ghost use Rattle.eg_plant.specs.Keeping.{KeepsFilling};

    ghost view = { λ e. record {
      parts = e.plant;
      state = record { plate = e.plate; charge = e.charge; torque = e.torque };
    } };

    ghost invariant = { λ e. KeepsFilling e.plant (record {
      plate = e.plate;
      charge = e.charge;
      torque = e.torque;
    }) e.filling };
}

impl GasolineEngine {
    /// An engine at rest.
    #[tactic(auto, unfolding(crate::specs::Gasoline::at_rest))]
    pub fn new(plant: PlantData) -> GasolineEngine
        ensures state { result ≡ record { parts = plant; state = at_rest plant } }
        ensures shown { ⟦<GasolineEngine as Engine>⟧.shows result ≡ shown_of (at_rest plant) }
        ensures kt { ⟦<GasolineEngine as Engine>⟧.kt result ≡ plant.kt }
        ensures laws { KeepsLaws plant.kt (shown_of (at_rest plant)) }
    {
        let charge = plant.charge().at(0);
        GasolineEngine {
            plant,
            plate: 0,
            charge,
            torque: 0,
            filling: charge,
        }
    }
}

impl Engine for GasolineEngine {
    ghost shows = { λ e. shown_of e.state };

    ghost kt = { λ e. e.parts.kt };

    ghost steps = { StepsAsGasoline };

    #[inline(always)]
    #[tactic(auto, using(crate::proofs::PlantLemmas::laws), unfolding(crate::specs::Gasoline::gasoline_step))]
    fn step(&mut self, plate: u16, ignition: u16, on: bool, held: Option<u16>) {
        let charge = next_charge(&self.plant, self.filling, self.charge);
        let next = next_plate(&self.plant, self.plate, plate, on, held);
        self.filling = charge_at(&self.plant, next, self.plate, self.filling);
        self.plate = next;
        self.charge = charge;
        self.torque = torque_of(self.plant.kt(), charge, ignition, on);
    }

    fn torque(&self) -> u16 {
        self.torque
    }

    fn loads(&self) -> [u16; 2] {
        [self.charge, self.charge]
    }

    fn position(&self) -> u16 {
        self.plate
    }

    fn kt(&self) -> u16 {
        self.plant.kt()
    }
}

impl CopyEngine for GasolineEngine {
    fn copy(&self) -> GasolineEngine {
        GasolineEngine {
            plant: self.plant.copy(),
            plate: self.plate,
            charge: self.charge,
            torque: self.torque,
            filling: self.filling,
        }
    }
}

/// The plate after a step, in per mille: where it is held, if it is; else it moves toward what is commanded,
/// at most 1000, and toward 0 while the power stages are off (docs/CONCEPT.md, "Plant").
#[tactic(auto, unfolding(crate::specs::Gasoline::next_plate))]
pub fn next_plate(plant: &PlantData, plate: u16, command: u16, on: bool, held: Option<u16>) -> u16
    requires plate { plate ≤ 1000 }
    requires held { ForSome held (λ at. at ≤ 1000) }
    ensures value { result ≡ gasoline.next_plate plant.now plate command on held }
    ensures range { result ≤ 1000 }
{
    if let Some(at) = held {
        return at;
    }
    let target = if on { command.min(1000) } else { 0 };
    toward(plate, target, plant.slew())
}

/// The charge of a plate angle, both in per mille, where the charge of another angle is known: that one, if
/// both angles are the same.
#[inline(always)]
pub fn charge_at(plant: &PlantData, angle: u16, known_angle: u16, known: u16) -> u16
    requires { known ≡ curve_at plant.now.charge known_angle }
    ensures { result ≡ curve_at plant.now.charge angle }
{
    if angle == known_angle {
        known
    } else {
        plant.charge().at(angle)
    }
}

/// The charge after a step, in per mille: it moves toward the charge of the plate as it was before the step.
#[tactic(auto, unfolding(crate::specs::Gasoline::next_charge))]
fn next_charge(plant: &PlantData, filling: u16, charge: u16) -> u16
    ensures { (plate : ℕ) → filling ≡ curve_at plant.now.charge plate
        → result ≡ gasoline.next_charge plant.now plate charge }
{
    toward(charge, filling, plant.fill())
}

/// The torque of a charge (per mille) at what the ignition is commanded (per mille; 1000 is the most that
/// counts), in tenths of Nm: 0 while the power stages are off (docs/CONCEPT.md, "Plant").
#[tactic(auto, unfolding(crate::specs::Gasoline::torque_of))]
pub fn torque_of(kt: u16, charge: u16, ignition: u16, on: bool) -> u16
    requires charge { charge ≤ 1000 }
    requires kt { kt ≤ 10000 }
    ensures { result ≡ gasoline.torque_of kt charge ignition on }
{
    if !on {
        return 0;
    }
    let full = u64::from(charge) * u64::from(kt);
    (full * u64::from(ignition.min(1000)) / 1_000_000) as u16
}
