// The diesel engine.
ghost use Rattle.std.specs.Prelude.{◌≡◌, ℕ};
ghost use Rattle.eg_plant.specs.Engine.{KeepsLaws};
ghost use Rattle.eg_plant.specs.PlantParts.{PlantParts};
ghost use Rattle.eg_diesel.specs.Diesel as diesel;
ghost use Rattle.eg_diesel.specs.Diesel.{StepsAsDiesel, at_rest, shown_of, smoke_limit};

use eg_num::toward;
use eg_plant::{CopyEngine, Engine, PlantData, charge_at, next_plate, torque_of};
use std::marker::Model;

/// A diesel engine (docs/CONCEPT.md, "Plant"). It uses the data of the gasoline plant: `slew` is the most
/// that its rack moves in a tick, `fill` the most that its boost does, `charge` the smoke limit of each boost
/// (all in per mille), and `kt` the torque of a quantity of 1000 (in tenths of Nm). `smoke` is the smoke
/// limit of its boost: it is looked up only where the boost has moved. Contracts see its `DieselPlant`.
#[derive(Drop)]
pub struct DieselEngine {
    plant: PlantData,
    rack: u16,
    boost: u16,
    quantity: u16,
    torque: u16,
    smoke: u16,
}

impl Model for DieselEngine {
    ghost use Rattle.eg_diesel.specs.Diesel.{DieselPlant};

    ghost Value = { DieselPlant };

    ghost use Rattle.eg_diesel.specs.Keeping.{KeepsSmokeLimit};

    ghost view = { λ e. record {
      parts = e.plant;
      state = record {
        rack = e.rack;
        boost = e.boost;
        quantity = e.quantity;
        torque = e.torque;
      };
    } };

    ghost invariant = { λ e. KeepsSmokeLimit e.plant (record {
      rack = e.rack;
      boost = e.boost;
      quantity = e.quantity;
      torque = e.torque;
    }) e.smoke };
}

impl DieselEngine {
    /// An engine at rest.
    #[tactic(auto, unfolding(crate::specs::Diesel::at_rest))]
    pub fn new(plant: PlantData) -> DieselEngine
        ensures state { result ≡ record { parts = plant; state = at_rest } }
        ensures shown { ⟦<DieselEngine as Engine>⟧.shows result ≡ shown_of at_rest }
        ensures kt { ⟦<DieselEngine as Engine>⟧.kt result ≡ plant.kt }
        ensures laws { KeepsLaws plant.kt (shown_of at_rest) }
    {
        let smoke = plant.charge().at(0);
        DieselEngine {
            plant,
            rack: 0,
            boost: 0,
            quantity: 0,
            torque: 0,
            smoke,
        }
    }
}

impl Engine for DieselEngine {
    ghost shows = { λ e. shown_of e.state };

    ghost kt = { λ e. e.parts.kt };

    ghost steps = { StepsAsDiesel };

    #[inline(always)]
    #[tactic(auto, using(crate::proofs::DieselLemmas::laws), unfolding(crate::specs::Diesel::diesel_step))]
    fn step(&mut self, plate: u16, ignition: u16, on: bool, held: Option<u16>) {
        let rack = next_plate(&self.plant, self.rack, plate, on, held);
        let boost = next_boost(&self.plant, self.rack, self.boost);
        let smoke = charge_at(&self.plant, boost, self.boost, self.smoke);
        let quantity = quantity_of(rack, smoke, on);
        self.torque = torque_of(self.plant.kt(), quantity, ignition, on);
        self.rack = rack;
        self.boost = boost;
        self.quantity = quantity;
        self.smoke = smoke;
    }

    fn torque(&self) -> u16 {
        self.torque
    }

    fn loads(&self) -> [u16; 2] {
        [self.quantity, self.quantity]
    }

    fn position(&self) -> u16 {
        self.rack
    }

    fn kt(&self) -> u16 {
        self.plant.kt()
    }
}

impl CopyEngine for DieselEngine {
    fn copy(&self) -> DieselEngine {
        DieselEngine {
            plant: self.plant.copy(),
            rack: self.rack,
            boost: self.boost,
            quantity: self.quantity,
            torque: self.torque,
            smoke: self.smoke,
        }
    }
}

/// The boost after a step, in per mille: it moves toward the rack as it was before the step.
#[tactic(auto, unfolding(crate::specs::Diesel::next_boost))]
fn next_boost(plant: &PlantData, rack: u16, boost: u16) -> u16
    ensures { result ≡ diesel.next_boost plant.now rack boost }
{
    toward(boost, rack, plant.fill())
}

/// The quantity at a rack and at the smoke limit of a boost, in per mille: the rack, at most that limit; 0
/// while the power stages are off.
#[tactic(auto, unfolding(crate::specs::Diesel::quantity_of))]
fn quantity_of(rack: u16, smoke: u16, on: bool) -> u16
    ensures { (p : PlantParts) (boost : ℕ) → smoke ≡ smoke_limit p boost
        → result ≡ diesel.quantity_of p rack boost on }
{
    if on { rack.min(smoke) } else { 0 }
}
