// What is kept of a source while its lines are read.
ghost use Rattle.std.specs.Prelude.{◌≡◌, ◌⊎◌, ◌≤◌, [], option_map, vec_len, OnOk, IfErr};
ghost use Rattle.eg_asm.specs.declared.fault.AsmFault.TheVariants as fault;
ghost use Rattle.eg_asm.specs.Inner.Encodings.{told, told_with_room, line_shown, instruction_shown};
ghost use Rattle.eg_asm.specs.Inner.Encodings as tells;
ghost use Rattle.eg_asm.specs.Inner.Kept.{HoldsItems, Adds, ReadsMore, StopsAt};
ghost use Rattle.eg_asm.specs.Reading.{item_behind, refusal};
ghost use Rattle.eg_input.specs.declared.image.TheConstants.{MOST_WORDS};

use crate::AsmFault;
use crate::instruction::Instruction;
use crate::line::{Line, read_line};
use eg_input::MOST_WORDS;
use std::alloc::Global;
use std::collections::HashMap;

/// An instruction, and the number of its line.
#[derive(Clone, Copy)]
pub(crate) struct Placed<'a> {
    pub(crate) line: u32,
    pub(crate) instruction: Instruction<'a>,
}

/// The instructions of a source, where its labels are, and the number of the first line that repeats a label.
#[derive(Drop)]
pub(crate) struct Source<'a> {
    pub(crate) instructions: Vec<Placed<'a>>,
    pub(crate) labels: HashMap<&'a [u8], u16>,
    pub(crate) repeated: Option<u32>,
}

/// What a line tells, where it may come behind this many instructions.
fn line_behind(words: usize, line: &[u8]) -> Option<Line<'_>>
    requires { words ≤ MOST_WORDS }
    ensures { option_map line_shown result ≡ option_map told (item_behind words line.now) }
{
    with_room(words, read_line(line)?)
}

/// What a line tells, where there is room for it behind this many instructions.
#[tactic(auto, unfolding(crate::specs::Inner::Encodings::told_with_room))]
fn with_room(words: usize, line: Line<'_>) -> Option<Line<'_>>
    ensures { option_map line_shown result ≡ told_with_room words (line_shown line.entry) }
{
    match line {
        Line::Instruction(_) if words == MOST_WORDS => None,
        _ => Some(line),
    }
}

/// Why the line of this number may not come behind this many instructions.
#[tactic(auto, unfolding(crate::specs::Reading::refusal))]
fn refusal(words: usize, number: u32) -> AsmFault
    ensures { result ≡ refusal words number }
{
    if words == MOST_WORDS {
        AsmFault::Long
    } else {
        AsmFault::Line { line: number }
    }
}

impl<'a> Source<'a> {
    /// What is kept before the first line.
    pub(crate) fn new(alloc: Global) -> Source<'a>
        ensures { HoldsItems result [] }
    {
        Source {
            instructions: Vec::new(alloc),
            labels: HashMap::new(alloc),
            repeated: None,
        }
    }

    /// Reads a line, and keeps what it tells.
    pub(crate) fn read(&mut self, number: u32, line: &'a [u8]) -> Result<(), AsmFault>
        requires { vec_len self.old.instructions ≤ MOST_WORDS }
        ensures kept { OnOk result (ReadsMore number line.now self.old self.new) }
        ensures fault { IfErr result (λ e. (e ≡ fault.Memory) ⊎ StopsAt number line.now self.old e) }
    {
        let words = self.instructions.len();
        match line_behind(words, line) {
            Some(tells) => self.add(number, tells),
            None => Err(refusal(words, number)),
        }
    }

    /// Keeps what the line of this number tells.
    fn add(&mut self, number: u32, tells: Line<'a>) -> Result<(), AsmFault>
        requires { vec_len self.old.instructions ≤ MOST_WORDS }
        ensures kept { OnOk result (Adds number (line_shown tells.entry) self.old self.new) }
        ensures memory { IfErr result (λ e. e ≡ fault.Memory) }
    {
        match tells {
            Line::Nothing => Ok(()),
            Line::Label(name) => self.add_label(number, name),
            Line::Instruction(instruction) => self.add_instruction(number, instruction),
        }
    }

    /// Keeps a label that stands in the line of this number.
    fn add_label(&mut self, number: u32, name: &'a [u8]) -> Result<(), AsmFault>
        requires { vec_len self.old.instructions ≤ MOST_WORDS }
        ensures kept { OnOk result (Adds number (tells.Label name.now) self.old self.new) }
        ensures memory { IfErr result (λ e. e ≡ fault.Memory) }
    {
        if self.labels.contains_key(name) {
            self.repeated = self.repeated.or(Some(number));
            return Ok(());
        }
        let words = self.instructions.len() as u16;
        match self.labels.insert(name, words) {
            Ok(_) => Ok(()),
            Err(_) => Err(AsmFault::Memory),
        }
    }

    /// Keeps an instruction that stands in the line of this number.
    fn add_instruction(&mut self, number: u32, instruction: Instruction<'a>) -> Result<(), AsmFault>
        ensures kept { OnOk result
            (Adds number (tells.Instruction (instruction_shown instruction.entry)) self.old self.new) }
        ensures memory { IfErr result (λ e. e ≡ fault.Memory) }
    {
        let placed = Placed {
            line: number,
            instruction,
        };
        match self.instructions.push(placed) {
            Ok(()) => Ok(()),
            Err(_) => Err(AsmFault::Memory),
        }
    }
}
