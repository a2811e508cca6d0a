// An engine elsewhere.
ghost use Rattle.std.specs.Prelude.{◌≡◌, ◌∷◌, []};
ghost use Rattle.eg_plant.specs.Engine.{KeepsLaws};
ghost use Rattle.eg_plant.specs.Foreign.{StepsAsTold, at_rest};

use crate::Engine;
use std::marker::Model;

/// What an engine tells of itself after a step (docs/CONCEPT.md, "Plant"). Contracts see its `Shown`.
#[derive(Clone, Copy)]
pub struct PartnerStep {
    position: u16,
    load_1: u16,
    load_2: u16,
    torque: u16,
}

impl Model for PartnerStep {
    ghost use Rattle.eg_plant.specs.Engine.{Shown};

    ghost Value = { Shown };

    ghost view = { λ t. record {
      position = t.position;
      load_1 = t.load_1;
      load_2 = t.load_2;
      torque = t.torque;
    } };

    ghost inverse = { λ s. record {
      position = s.position;
      load_1 = s.load_1;
      load_2 = s.load_2;
      torque = s.torque;
    } };
}

impl PartnerStep {
    /// The position (per mille), the load for each of the two tracks (per mille), and the torque (tenths of
    /// Nm).
    pub fn new(position: u16, loads: [u16; 2], torque: u16) -> PartnerStep
        ensures position { result.position ≡ position }
        ensures torque { result.torque ≡ torque }
        ensures loads { result.load_1 ∷ result.load_2 ∷ [] ≡ loads }
    {
        PartnerStep {
            position,
            load_1: loads[0],
            load_2: loads[1],
            torque,
        }
    }

    /// The torque, in tenths of Nm.
    pub fn torque(&self) -> u16
        ensures { result ≡ self.now.torque }
    {
        self.torque
    }

    /// The load for each of the two tracks, in per mille.
    pub fn loads(&self) -> [u16; 2]
        ensures { result ≡ self.now.load_1 ∷ self.now.load_2 ∷ [] }
    {
        [self.load_1, self.load_2]
    }
}

/// An engine elsewhere (docs/CONCEPT.md, "`couple`"): its steps are made outside the program, and what it
/// shows after each is told before. Contracts see its `Foreign`.
#[derive(Drop)]
pub struct ForeignEngine {
    kt: u16,
    shown: PartnerStep,
    next: PartnerStep,
}

impl Model for ForeignEngine {
    ghost use Rattle.eg_plant.specs.Foreign.{Foreign, KeepsTold};

    ghost Value = { Foreign };

    ghost view = { λ e. record { kt = e.kt; shown = e.shown; next = e.next } };

    ghost invariant = { λ e. KeepsTold (record { kt = e.kt; shown = e.shown; next = e.next }) };
}

impl ForeignEngine {
    /// An engine at rest, of which nothing was told yet: all that it shows, and is to show, is 0. `kt` is the
    /// torque of a load of 1000, in tenths of Nm.
    #[tactic(auto, unfolding(crate::specs::Foreign::at_rest, crate::specs::Foreign::nothing))]
    pub fn new(kt: u16) -> ForeignEngine
        ensures state { result ≡ at_rest kt }
        ensures kt { ⟦<ForeignEngine as Engine>⟧.kt result ≡ kt }
    {
        let nothing = PartnerStep::new(0, [0, 0], 0);
        ForeignEngine {
            kt,
            shown: nothing,
            next: nothing,
        }
    }

    /// Tells what it shows after its next step, which must keep the laws of engines. What it shows now stays.
    pub fn tell(&mut self, next: PartnerStep)
        requires laws { KeepsLaws self.old.kt next }
        ensures { self.new ≡ record self.old { next = next } }
    {
        self.next = next;
    }
}

impl Engine for ForeignEngine {
    ghost shows = { λ e. e.shown };

    ghost kt = { λ e. e.kt };

    ghost steps = { StepsAsTold };

    #[inline(always)]
    #[tactic(auto, unfolding(crate::specs::Foreign::powered))]
    fn step(&mut self, _plate: u16, _ignition: u16, on: bool, _held: Option<u16>) {
        self.shown = self.next;
        if !on {
            self.shown.torque = 0;
        }
    }

    fn torque(&self) -> u16 {
        self.shown.torque
    }

    fn loads(&self) -> [u16; 2] {
        self.shown.loads()
    }

    fn position(&self) -> u16 {
        self.shown.position
    }

    fn kt(&self) -> u16 {
        self.kt
    }
}
