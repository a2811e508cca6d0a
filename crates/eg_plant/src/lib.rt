//! The engine: what every engine shows and keeps, which kinds there are, the gasoline engine, the data of its
//! plant, and an engine that makes its steps elsewhere.
#![tactic(auto)]

mod copy_engine;
mod engine;
mod engine_kind;
mod foreign_engine;
mod gasoline_engine;
mod plant_data;

pub use copy_engine::CopyEngine;
pub use engine::Engine;
pub use engine_kind::EngineKind;
pub use foreign_engine::{ForeignEngine, PartnerStep};
pub use gasoline_engine::{GasolineEngine, charge_at, next_plate, torque_of};
pub use plant_data::PlantData;
