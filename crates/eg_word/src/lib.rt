//! The machine that runs level 1: its instructions, and one step over a guarded memory.
//!
//! Level 1 is code that nobody trusts: any words, up to 1,024 of them, may be its image. A step does what the
//! table of instructions says, and reaches memory through `Guarded` alone, so that it changes no word but
//! level 1's own. A step over a guarded memory is a step of level 1's private world (`specs/World.antt`), on
//! which the model of a run is built.
#![tactic(auto)]

mod images;
mod instruction;
mod machine;
mod program;
mod register;
mod registers;

pub use images::{FULL, IDLE};
pub use instruction::{Instruction, decode};
pub use machine::{step, step_alone, step_on};
pub use program::Program;
pub use register::Register;
pub use registers::{Registers, State, Trap};
