//! Sources of images of level 1, with names for instructions and labels: an assembler and a disassembler.
#![tactic(auto)]

mod assembler;
mod encoding;
mod fault;
mod form;
mod forms;
mod instruction;
mod line;
mod link;
mod listing;
mod numeral;
mod operand;
mod source;
mod text;

pub use assembler::{assemble, sources_have_one_answer, words_mean_their_instructions};
pub use fault::AsmFault;
pub use listing::{disassemble, image_text};
pub use operand::Operand;
