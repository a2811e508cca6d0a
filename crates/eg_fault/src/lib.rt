//! Faults outside level 1, and what each class of them does at a tick: to sensors, the bus, the plate, level
//! 2 and its memory, the monitoring module, and the shut-off paths.
#![tactic(auto)]

mod class;
mod class_name;
mod effects;
mod key;
mod laws;
mod paths;
mod runs;
mod script;

pub use class::{Class, Fault};
pub use class_name::{CLASSES, ClassName, LISTED};
pub use effects::{
    conducts, fault_beyond_levels, fault_of_levels, faulty_contacts, faulty_readings, flip, held,
    level1_runs, module_runs, sends, wild,
};
pub use key::FaultKey;
pub use laws::{
    classes_are_read_as_written, faults_leave_the_rest, modules_run_together,
    plates_are_held_within,
};
pub use paths::{PATH_1, PATH_2};
pub use runs::ModuleRuns;
pub use script::{Opens, Script};
