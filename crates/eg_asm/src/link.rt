// The words of a source, once all of its labels are known.
ghost use Rattle.std.specs.Prelude.{◌≡◌, ◌+◌, pos, ◌-ℤ◌, ◌<◌, ◌≤◌, ◌*◌, Some, map, vec_len, IfSome};
ghost use Rattle.eg_asm.specs.Words.{Labels, address_of, complement_of, distance_to};
ghost use Rattle.eg_asm.specs.Inner.Encodings.{target_shown, instruction_shown};
ghost use Rattle.eg_asm.specs.Inner.Kept.{placed_shown};
ghost use Rattle.eg_asm.specs.Inner.Linking.{completed, earlier, linked_kept, HasLabels};
ghost use Rattle.eg_asm.specs.Reading.{IsAssembled};
ghost use Rattle.eg_input.specs.declared.image.TheConstants.{MOST_WORDS};

use crate::AsmFault;
use crate::encoding::Target;
use crate::instruction::Instruction;
use crate::source::Source;
use eg_input::MOST_WORDS;
use std::alloc::Global;

impl<'a> Source<'a> {
    /// The words of the source, or the first line that repeats a label, or whose target is missing or out of
    /// range.
    pub(crate) fn link(&self, alloc: Global) -> Result<Vec<u16>, AsmFault>
        requires { vec_len self.now.instructions ≤ MOST_WORDS }
        ensures { (labels : Labels) → HasLabels self.now.labels labels →
            IsAssembled
            (linked_kept labels (map placed_shown self.now.instructions.items) self.now.repeated) result }
    {
        let mut words = Vec::new(alloc);
        for (address, placed) in self.instructions.iter().enumerate() {
            let Some(word) = self.word_of(address, &placed.instruction) else {
                return Err(AsmFault::Label {
                    line: earlier(placed.line, self.repeated),
                });
            };
            words.push(word).map_err(|_| AsmFault::Memory)?;
        }
        match self.repeated {
            Some(line) => Err(AsmFault::Label { line }),
            None => Ok(words),
        }
    }

    /// The word of an instruction at this address, where its target is there and in range.
    #[tactic(auto, unfolding(crate::specs::Inner::Linking::completed, crate::specs::Inner::Linking::jump_field))]
    fn word_of(&self, address: usize, instruction: &Instruction<'a>) -> Option<u16>
        requires { address < MOST_WORDS }
        ensures { (labels : Labels) → HasLabels self.now.labels labels →
            result ≡ completed labels address (instruction_shown instruction.now) }
    {
        match instruction.jump {
            None => Some(instruction.word),
            Some(jump) => {
                let distance = self.distance_to(address, jump.target)?;
                let field = complement_of(distance, jump.reach)?;
                Some((u32::from(instruction.word) + field) as u16)
            }
        }
    }

    /// The distance to a target from the word after this address, where the target is there.
    #[tactic(auto, unfolding(crate::specs::Words::distance_to))]
    fn distance_to(&self, address: usize, target: Target<'a>) -> Option<i32>
        requires { address < MOST_WORDS }
        ensures { (labels : Labels) → HasLabels self.now.labels labels →
            result ≡ distance_to labels address (target_shown target.entry) }
    {
        match target {
            Target::Distance(distance) => Some(distance),
            Target::Label(name) => Some(behind(self.address_of(name)?, address)),
        }
    }

    /// The address of a label, if the source has the label.
    fn address_of(&self, name: &'a [u8]) -> Option<u16>
        ensures { (labels : Labels) → HasLabels self.now.labels labels →
            result ≡ address_of labels name.now }
    {
        self.labels.get(name).copied()
    }
}

/// The distance to an address from the word after another.
#[tactic(auto, using(std::proofs::lemmas::Int::ints))]
fn behind(at: u16, address: usize) -> i32
    requires { address < MOST_WORDS }
    ensures { result ≡ pos at -ℤ pos (address + 1) }
{
    i32::from(at) - (address as i32 + 1)
}

/// A distance as two's complement, where it is at least `-reach` and below `reach`.
#[tactic(auto, using(std::proofs::lemmas::Int::ints), unfolding(crate::specs::Words::complement_of))]
fn complement_of(distance: i32, reach: u16) -> Option<u32>
    ensures value { result ≡ complement_of reach distance }
    ensures few { IfSome result (λ field. field < 2 * reach) }
{
    let reach = i32::from(reach);
    if distance < -reach || reach <= distance {
        return None;
    }
    if distance < 0 {
        Some((distance + 2 * reach) as u32)
    } else {
        Some(distance as u32)
    }
}

/// The lower of two numbers of lines, the second of which may be missing.
#[tactic(auto, unfolding(crate::specs::Inner::Linking::earlier))]
fn earlier(number: u32, other: Option<u32>) -> u32
    ensures { Some result ≡ earlier (Some number) other }
{
    match other {
        Some(other) => number.min(other),
        None => number,
    }
}
