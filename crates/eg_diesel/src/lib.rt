//! The diesel engine: its plant meters what is injected, and uses the same data as the gasoline plant.
#![tactic(auto)]

mod diesel_engine;

pub use diesel_engine::DieselEngine;
