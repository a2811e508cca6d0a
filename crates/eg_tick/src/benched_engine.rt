// The engines that the bench of the model knows.
ghost use Rattle.std.specs.Prelude.{◌≡◌, refl};
ghost use Rattle.eg_plant.specs.Gasoline.{Gasoline};
ghost use Rattle.eg_diesel.specs.Diesel.{Diesel};
ghost use Rattle.eg_model.specs.Engines.{BenchEngine, gasoline, diesel};
ghost use Rattle.eg_tick.specs.Benched.{ComeTo, ShowsAs, HasKtOfPlant, StepsAs, gasoline_of, diesel_of};

use eg_diesel::DieselEngine;
use eg_plant::{Engine, GasolineEngine, PlantData};

/// An engine that runs on the bench (docs/CONCEPT.md, "A run, tick by tick"): it begins at rest, and each of
/// its steps is that of an engine of the model.
///
/// Contracts see the engine of the model, and for each state of it the engine of this type that is in that
/// state.
pub trait BenchedEngine: Engine + Drop {
    /// The states of the engine of the model.
    ghost State: { Type 0 };

    /// The engine of the model.
    ghost bench: { BenchEngine State };

    /// The engine of a plant that has come to a state.
    ghost come_to: { ComeTo State Self };

    /// An engine of this plant at rest. It takes no memory.
    fn at_rest(plant: PlantData) -> Self
        ensures { result ≡ come_to plant (bench.rest plant) };

    ghost shows_as: { ShowsAs bench come_to Self.shows };

    ghost has_kt: { HasKtOfPlant come_to Self.kt };

    ghost steps_as: { StepsAs bench come_to Self.steps };
}

impl BenchedEngine for GasolineEngine {
    ghost State = { Gasoline };

    ghost bench = { gasoline };

    ghost come_to = { gasoline_of };

    #[tactic(auto, unfolding(eg_model::specs::Engines::gasoline))]
    fn at_rest(plant: PlantData) -> GasolineEngine {
        GasolineEngine::new(plant)
    }

    ghost shows_as = { λ plant state. unfold gasoline in refl };

    ghost has_kt = { λ plant state. refl };

    ghost steps_as = { λ plant state throttle ignition on held new is. unfold gasoline in is };
}

impl BenchedEngine for DieselEngine {
    ghost State = { Diesel };

    ghost bench = { diesel };

    ghost come_to = { diesel_of };

    #[tactic(auto, unfolding(eg_model::specs::Engines::diesel))]
    fn at_rest(plant: PlantData) -> DieselEngine {
        DieselEngine::new(plant)
    }

    ghost shows_as = { λ plant state. unfold diesel in refl };

    ghost has_kt = { λ plant state. refl };

    ghost steps_as = { λ plant state throttle ignition on held new is. unfold diesel in is };
}
