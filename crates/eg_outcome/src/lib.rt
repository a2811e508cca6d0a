//! How a call of the program ends, what comes of reading its files, and the text that it puts.
//!
//! What a command does stands in crates of its own above this one; here is what they share: outcomes and
//! refusals, the one way to read a file, the calibration that a command uses, the campaign with the drive
//! trace and the image of each run, which files may be read, the one way to put a line, lines that are read
//! one by one, and the note of an outcome.
#![tactic(auto)]

mod calibration;
mod campaign;
mod end;
mod files;
mod image;
mod input;
mod inputs;
mod kinds;
mod line;
mod lines;
mod named;
mod note;
mod outcome;
mod says;
mod shown;
mod swept;
mod telling;
mod traces;
mod trusted_store;

pub use calibration::{calibration_for, hand_on};
pub use end::End;
pub use files::file_bytes;
pub use image::image_in;
pub use inputs::inputs_of;
pub use kinds::Kinds;
pub use line::{put_line, put_lines, put_text};
pub use lines::{end_of, next_line, put_or_end};
pub use named::{NamedRun, input_named, input_swept, undriven_named};
pub use note::put_note;
pub use outcome::{AnswerFault, Outcome, Refusal, Role};
pub use swept::without_resets;
pub use telling::{Columns, Telling};
pub use trusted_store::TrustedStore;
