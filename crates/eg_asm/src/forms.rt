// The table of forms.
ghost use Rattle.std.specs.Prelude.{◌≡◌, true, map, option_map};
ghost use Rattle.eg_asm.specs.Forms.{forms, form_named};
ghost use Rattle.eg_asm.specs.Listings.{form_of};
ghost use Rattle.eg_asm.specs.Inner.Rows.{form_in};
ghost use Rattle.eg_asm.specs.Inner.Usable.{are_usable};
ghost use Rattle.std.specs.List.{list_all};

use crate::Operand;
use crate::form::FormRow;

const A: Operand = Operand::Register { weight: 512 };

const B: Operand = Operand::Register { weight: 64 };

const C: Operand = Operand::Register { weight: 8 };

/// The form that any word is of.
const WORD: FormRow = FormRow {
    mnemonic: b"word",
    base: 0x0000,
    operands: &[Operand::Number { most: 65_535 }],
};

#[rattlefmt::skip]
static FORMS: [FormRow; 18] = [
    FormRow { mnemonic: b"nop", base: 0x0000, operands: &[] },
    FormRow { mnemonic: b"ldi", base: 0x1000, operands: &[A, Operand::Number { most: 511 }] },
    FormRow { mnemonic: b"ldx", base: 0x2000, operands: &[A, Operand::Number { most: 127 }] },
    FormRow { mnemonic: b"mov", base: 0x3000, operands: &[A, B] },
    FormRow { mnemonic: b"add", base: 0x4000, operands: &[A, B, C] },
    FormRow { mnemonic: b"sub", base: 0x5000, operands: &[A, B, C] },
    FormRow { mnemonic: b"and", base: 0x6000, operands: &[A, B, C] },
    FormRow { mnemonic: b"or", base: 0x7000, operands: &[A, B, C] },
    FormRow { mnemonic: b"xor", base: 0x8000, operands: &[A, B, C] },
    FormRow { mnemonic: b"shr", base: 0x9000, operands: &[A, B, Operand::Number { most: 15 }] },
    FormRow { mnemonic: b"mul", base: 0xa000, operands: &[A, B, C] },
    FormRow { mnemonic: b"ld", base: 0xb000, operands: &[A, B, Operand::Number { most: 63 }] },
    FormRow { mnemonic: b"st", base: 0xc000, operands: &[A, B, Operand::Number { most: 63 }] },
    FormRow { mnemonic: b"jz", base: 0xd000, operands: &[A, Operand::Target { reach: 256 }] },
    FormRow { mnemonic: b"jlt", base: 0xe000, operands: &[A, B, Operand::Target { reach: 32 }] },
    FormRow { mnemonic: b"wait", base: 0xf000, operands: &[] },
    FormRow { mnemonic: b"jr", base: 0xf001, operands: &[A] },
    WORD,
];

/// All forms.
#[tactic(auto, unfolding(crate::specs::Forms::forms, crate::specs::Inner::Usable::is_usable))]
fn all_forms() -> &'static [FormRow]
    ensures all { map form_in result.now ≡ forms }
    ensures usable { list_all (λ row. are_usable row.operands.now) result.now ≡ true }
{
    &FORMS
}

/// The form of this name.
pub(crate) fn form_named(mnemonic: &[u8]) -> Option<&'static FormRow>
    ensures { option_map (λ row. form_in row.now) result ≡ form_named mnemonic.now }
{
    all_forms().iter().find(|form| form.mnemonic == mnemonic)
}

/// The first form that a word is of.
pub(crate) fn form_of(word: u16) -> &'static FormRow
    ensures form { form_in result.now ≡ form_of word }
    ensures usable { are_usable result.now.operands.now ≡ true }
{
    for form in all_forms() {
        if form.is_of(word) {
            return form;
        }
    }
    &WORD
}
