// The operands of instructions.
ghost use Rattle.std.specs.Prelude.{◌≡◌, ◌^◌, ◌<◌, [], true, Some};
ghost use Rattle.eg_asm.specs.Inner.Usable.{is_usable};
ghost use Rattle.eg_asm.specs.Words.{field_of};
ghost use Rattle.eg_asm.specs.Listings.{value_in};

/// What an operand of an instruction is, and what it adds to the word (docs/FORMATS.md, "Sources").
#[derive(Clone, Copy)]
pub enum Operand {
    /// A register, whose number is added with this weight.
    Register { weight: u16 },
    /// A number from 0 to `most`.
    Number { most: u16 },
    /// Where a jump goes: a distance from `-reach` to `reach - 1`, as two's complement.
    Target { reach: u16 },
}

impl Operand {
    /// What a word has in the operand's place.
    pub(crate) fn field_in(self, word: u16) -> u32
        requires { is_usable self ≡ true }
        ensures value { Some result ≡ field_of [] 0 self (value_in word self) }
        ensures few { result < 2 ^ 20 }
    {
        let word = u32::from(word);
        match self {
            Operand::Register { weight } => word / u32::from(weight) % 8 * u32::from(weight),
            Operand::Number { most } => word % (u32::from(most) + 1),
            Operand::Target { reach } => word % (2 * u32::from(reach)),
        }
    }
}
