// A form of instructions.
ghost use Rattle.std.specs.Prelude.{◌≡◌, true};
ghost use Rattle.eg_asm.specs.Listings.{is_of};
ghost use Rattle.eg_asm.specs.Inner.Rows.{form_in};
ghost use Rattle.eg_asm.specs.Inner.Usable.{are_usable};

use crate::Operand;

/// A form of instructions: its name, its word with 0 in each operand, and its operands as they are written.
#[derive(Clone, Copy)]
pub(crate) struct FormRow {
    pub(crate) mnemonic: &'static [u8],
    pub(crate) base: u16,
    pub(crate) operands: &'static [Operand],
}

impl FormRow {
    /// Whether a word is of the form: it has no bits but those of the form and those in the operands' places.
    pub(crate) fn is_of(&self, word: u16) -> bool
        requires { are_usable self.now.operands.now ≡ true }
        ensures { result ≡ is_of word (form_in self.now) }
    {
        let mut made = u32::from(self.base);
        for operand in self.operands {
            made += operand.field_in(word);
        }
        made == u32::from(word)
    }
}
