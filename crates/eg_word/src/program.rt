// The code of level 1 as instructions.
ghost use Rattle.std.specs.Prelude.{◌≡◌, ◌<◌, ◌≤◌, ◌↔◌, [], length, replicate, slice_index, slice_index_or};
ghost use Rattle.std.specs.Prelude.{IsOk, IfOk};
ghost use Rattle.std.specs.Option.{option_copied};
ghost use Rattle.eg_guard.specs.declared.regions.TheConstants.{DATA as CODE_END};
ghost use Rattle.eg_word.specs.declared.instruction.Instruction.{Instruction};
ghost use Rattle.eg_word.specs.Alone;
ghost use Rattle.eg_word.specs.Instructions.{instruction_of};
ghost use Rattle.eg_word.specs.Program.{IsProgramOf};

use crate::{Instruction, decode};
use eg_guard::{DATA, Guarded, Refused, Who};
use std::marker::Model;

/// The code of level 1 as instructions (docs/CONCEPT.md, "Level 1"): each of its 1,024 words is decoded once,
/// and not at each step. Neither level 1 nor level 2 can change a word of the code.
///
/// Contracts see the list of the instructions.
#[derive(Drop)]
pub struct Program {
    code: [Instruction; DATA as usize],
    /// How many words its image has: what stands behind them is 0.
    used: usize,
}

impl Model for Program {
    ghost use Rattle.std.specs.Prelude.{List};
    ghost use Rattle.eg_word.specs.declared.instruction.Instruction.{Instruction};
    ghost use Rattle.eg_word.specs.Program.{IsOfFew};

    ghost Value = { List Instruction };

    ghost view = { λ p. p.code };

    ghost invariant = { λ p. IsOfFew p.used p.code };
}

impl Program {
    /// The program of an image of at most 1,024 words, with 0 past its end.
    #[tactic(auto, using(crate::proofs::ProgramLemmas::programs))]
    pub fn new(image: &[u16]) -> Program
        requires { length image.now ≤ CODE_END }
        ensures { IsProgramOf image.now result }
    {
        let mut program = Program {
            code: clear_code(),
            used: 0,
        };
        program.load(image);
        program
    }

    /// Puts the program of another image of at most 1,024 words in the place of this one.
    #[tactic(auto, using(crate::proofs::ProgramLemmas::programs))]
    pub fn load(&mut self, image: &[u16])
        requires { length image.now ≤ CODE_END }
        ensures { IsProgramOf image.now self.new }
    {
        self.clear();
        for (address, word) in image.iter().enumerate() {
            self.code[address] = decode(*word);
        }
        self.used = image.len();
    }

    /// Puts the program of no words in the place of this one.
    #[tactic(auto, using(crate::proofs::ProgramLemmas::programs))]
    fn clear(&mut self)
        ensures { IsProgramOf [] self.new }
    {
        self.code[..self.used].fill(decode(0));
        self.used = 0;
    }

    /// An equal program. It takes no memory.
    pub fn copy(&self) -> Program
        ensures { result ≡ self.now }
    {
        let mut code = clear_code();
        code.copy_from_slice(&self.code);
        Program {
            code,
            used: self.used,
        }
    }

    /// The instruction at that address of this memory's code, of which this is the program. Refused exactly
    /// outside the code. It is lent and not copied, since a step reads only some of its fields.
    #[inline]
    pub(crate) fn decoded_at<M: Guarded>(
        &self,
        memory: &M,
        address: u16,
    ) -> Result<&Instruction, Refused>
        requires { IsProgramOf (M.shows memory.now).words self.now }
        ensures allowed { IsOk result ↔ address < CODE_END }
        ensures instruction { IfOk result
            (λ it. it.now ≡ instruction_of (slice_index (M.shows memory.now).words address)) }
    {
        if address >= DATA {
            return Err(Refused);
        }
        Ok(self.at(address))
    }

    /// The instruction at that address, or None outside the code.
    #[inline]
    #[tactic(auto, unfolding(crate::specs::Alone::instruction_at))]
    pub(crate) fn instruction_at(&self, address: u16) -> Option<&Instruction>
        ensures { option_copied result ≡ Alone.instruction_at self.now address }
    {
        if address >= DATA {
            return None;
        }
        Some(self.at(address))
    }

    /// The instruction at an address of the code.
    #[inline]
    fn at(&self, address: u16) -> &Instruction
        requires { address < CODE_END }
        ensures { (past : Instruction) → result.now ≡ slice_index_or self.now address past }
    {
        &self.code[usize::from(address)]
    }
}

/// The code of which every word is 0.
fn clear_code() -> [Instruction; DATA as usize]
    ensures { result ≡ replicate CODE_END (instruction_of 0) }
{
    [decode(0); DATA as usize]
}

/// The instruction at that address, decoded from the word that stands in the memory. Refused exactly outside
/// the code.
#[inline]
pub(crate) fn loaded_at<M: Guarded>(memory: &M, address: u16) -> Result<Instruction, Refused>
    ensures allowed { IsOk result ↔ address < CODE_END }
    ensures instruction { IfOk result
        (λ it. it ≡ instruction_of (slice_index (M.shows memory.now).words address)) }
{
    if address >= DATA {
        return Err(Refused);
    }
    loaded(memory, address)
}

/// Loads a word of the code, and decodes it.
#[tactic(auto, using(crate::proofs::ProgramLemmas::code_loads))]
fn loaded<M: Guarded>(memory: &M, address: u16) -> Result<Instruction, Refused>
    requires { address < CODE_END }
    ensures loads { IsOk result }
    ensures instruction { IfOk result
        (λ it. it ≡ instruction_of (slice_index (M.shows memory.now).words address)) }
{
    let word = memory.load(Who::Level1, address)?;
    Ok(decode(word))
}
