// What every engine of the unit is.
ghost use Rattle.std.specs.Prelude.{◌≡◌, ℕ, ◌≤◌, Bool, IsFalse, Option, [], ◌∷◌};
ghost use Rattle.std.specs.Option.{ForSome};
ghost use Rattle.eg_plant.specs.Engine.{Shown, KeepsLaws};

/// An engine that the unit drives (docs/CONCEPT.md, "Plant"). It is stepped once a tick.
///
/// Contracts see what an engine shows (`Shown`), and its `kt`, the torque of a load of 1000. Each call
/// repeats, as its clause `laws`, the laws that every engine keeps (`KeepsLaws`).
pub trait Engine {
    /// The angle of the plate, both loads, and the torque.
    ghost shows: { Self → Shown };

    /// The torque of a load of 1000, in tenths of Nm.
    ghost kt: { Self → ℕ };

    /// What a step does: the engine before it, the commands to plate and ignition, whether the power stages
    /// are on, where the plate is held, and the engine after it.
    ghost steps: { Self → ℕ → ℕ → Bool → Option ℕ → Self → Type 0 };

    /// One tick, by what is commanded to the plate and to the ignition (per mille; 1000 is the most that
    /// counts), whether the power stages are on, and where the plate is held (per mille), if it is.
    ///
    /// Claim 33 (C6, C19; `laws`): Each engine keeps the laws: after each step its plate stands at 0 to 1000
    /// per mille, and the torque estimate of neither load lies below the torque that the engine gives.
    fn step(&mut self, plate: u16, ignition: u16, on: bool, held: Option<u16>)
        requires { ForSome held (λ at. at ≤ 1000) }
        ensures steps { steps self.old plate ignition on held self.new }
        ensures off { IsFalse on → (shows self.new).torque ≡ 0 }
        ensures kt { kt self.new ≡ kt self.old }
        ensures laws { KeepsLaws (kt self.new) (shows self.new) };

    /// The torque, in tenths of Nm.
    fn torque(&self) -> u16
        ensures torque { result ≡ (shows self.now).torque }
        ensures laws { KeepsLaws (kt self.now) (shows self.now) };

    /// The load for each of the two tracks, in per mille.
    fn loads(&self) -> [u16; 2]
        ensures loads { result ≡ (shows self.now).load_1 ∷ (shows self.now).load_2 ∷ [] }
        ensures laws { KeepsLaws (kt self.now) (shows self.now) };

    /// The angle of the plate, or the position of a diesel engine's rack, in per mille.
    fn position(&self) -> u16
        ensures position { result ≡ (shows self.now).position }
        ensures laws { KeepsLaws (kt self.now) (shows self.now) };

    /// The torque of a load of 1000, in tenths of Nm.
    fn kt(&self) -> u16
        ensures kt { result ≡ kt self.now }
        ensures laws { KeepsLaws (kt self.now) (shows self.now) };
}
