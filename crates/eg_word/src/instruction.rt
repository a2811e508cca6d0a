// The instructions of level 1's machine, and how a word is read as one.
ghost use Rattle.std.specs.Prelude.{◌≡◌, ◌<◌, ◌%◌, ◌*◌};
ghost use Rattle.eg_word.specs.Instructions.{instruction_of};
ghost use Rattle.eg_word.specs.Instructions;

use crate::Register;

/// An instruction of level 1's machine (docs/FORMATS.md, "Instructions").
///
/// `r[a]` is the word in register `a`, and sums, differences and products wrap. Where nothing else is said
/// the next instruction follows. Distances `d` count from the next instruction. Numbers are as narrow as they
/// can be, so that an instruction takes four bytes.
#[derive(Clone, Copy)]
pub enum Instruction {
    /// Does nothing.
    Nop,
    /// `r[a] = n`
    Ldi {
        a: Register,
        n: u16,
    },
    /// `r[a] = r[a] * 128 + n mod 128`
    Ldx {
        a: Register,
        n: u16,
    },
    /// `r[a] = r[b]`
    Mov {
        a: Register,
        b: Register,
    },
    /// `r[a] = r[b] + r[c]`
    Add {
        a: Register,
        b: Register,
        c: Register,
    },
    /// `r[a] = r[b] - r[c]`
    Sub {
        a: Register,
        b: Register,
        c: Register,
    },
    /// `r[a] = r[b] and r[c]`, bit by bit
    And {
        a: Register,
        b: Register,
        c: Register,
    },
    /// `r[a] = r[b] or r[c]`, bit by bit
    Or {
        a: Register,
        b: Register,
        c: Register,
    },
    /// `r[a] = r[b] xor r[c]`, bit by bit
    Xor {
        a: Register,
        b: Register,
        c: Register,
    },
    /// `r[a] = r[b]` shifted right by `n mod 16` bits
    Shr {
        a: Register,
        b: Register,
        n: u8,
    },
    /// `r[a] = r[b] * r[c]`
    Mul {
        a: Register,
        b: Register,
        c: Register,
    },
    /// `r[a]` is the word at the address `r[b] + n`
    Ld {
        a: Register,
        b: Register,
        n: u8,
    },
    /// the word at the address `r[b] + n` becomes `r[a]`
    St {
        a: Register,
        b: Register,
        n: u8,
    },
    /// goes on at the distance `d` where `r[a]` is 0
    Jz {
        a: Register,
        d: i16,
    },
    /// goes on at the distance `d` where `r[a]` is less than `r[b]`, both without a sign
    Jlt {
        a: Register,
        b: Register,
        d: i8,
    },
    /// waits for the next slice
    Wait,
    /// goes on at the address `r[a]`
    Jr {
        a: Register,
    },
    /// is no instruction: the machine traps
    Illegal,
}

// An instruction of three registers, read from a word.
macro_rules! three_registers {
    ($name:ident, $word:ident) => {
        Instruction::$name {
            a: register($word / 512),
            b: register($word / 64),
            c: register($word / 8),
        }
    };
}

// An instruction of two registers and a number, read from a word.
macro_rules! two_registers {
    ($name:ident, $word:ident) => {
        Instruction::$name {
            a: register($word / 512),
            b: register($word / 64),
            n: ($word % 64) as u8,
        }
    };
}

/// The instruction that a word is read as (docs/FORMATS.md, "Instructions"). Bits that the instruction
/// doesn't use are ignored.
#[inline]
#[tactic(auto, unfolding(crate::specs::Instructions::instruction_with))]
pub fn decode(word: u16) -> Instruction
    ensures { result ≡ instruction_of word }
{
    match word / 4096 {
        0 => Instruction::Nop,
        1 => Instruction::Ldi {
            a: register(word / 512),
            n: word % 512,
        },
        2 => Instruction::Ldx {
            a: register(word / 512),
            n: word % 512,
        },
        3 => Instruction::Mov {
            a: register(word / 512),
            b: register(word / 64),
        },
        4 => three_registers!(Add, word),
        5 => three_registers!(Sub, word),
        6 => three_registers!(And, word),
        7 => three_registers!(Or, word),
        8 => three_registers!(Xor, word),
        9 => two_registers!(Shr, word),
        10 => three_registers!(Mul, word),
        11 => two_registers!(Ld, word),
        12 => two_registers!(St, word),
        13 => Instruction::Jz {
            a: register(word / 512),
            d: signed_nine(word % 512),
        },
        14 => Instruction::Jlt {
            a: register(word / 512),
            b: register(word / 64),
            d: signed_six(word % 64),
        },
        _ => match word % 512 {
            0 => Instruction::Wait,
            1 => Instruction::Jr {
                a: register(word / 512),
            },
            _ => Instruction::Illegal,
        },
    }
}

/// The register that the lowest three bits name.
fn register(bits: u16) -> Register
    ensures { result ≡ bits % 8 }
{
    Register::new((bits % 8) as u8)
}

/// A number of nine bits read as two's complement.
#[tactic(auto, using(std::proofs::lemmas::Int::ints), unfolding(crate::specs::Instructions::signed))]
fn signed_nine(n: u16) -> i16
    requires within { n < 512 }
    ensures { result ≡ Instructions.signed 256 n }
{
    if n < 256 { n as i16 } else { n as i16 - 512 }
}

/// A number of six bits read as two's complement.
#[tactic(auto, using(std::proofs::lemmas::Int::ints), unfolding(crate::specs::Instructions::signed))]
fn signed_six(n: u16) -> i8
    requires within { n < 64 }
    ensures { result ≡ Instructions.signed 32 n }
{
    if n < 32 { n as i8 } else { n as i8 - 64 }
}
