// The number of a register.
ghost use Rattle.std.specs.Prelude.{◌≡◌, ◌<◌};

use std::marker::Model;

/// The number of one of the eight registers (docs/FORMATS.md, "Instructions"). Contracts see the number.
#[derive(Clone, Copy)]
pub struct Register {
    index: u8,
}

impl Model for Register {
    ghost use Rattle.std.specs.Prelude.{ℕ, ◌<◌};

    ghost Value = { ℕ };

    ghost view = { λ r. r.index };

    ghost invariant = { λ r. r.index < 8 };

    ghost inverse = { λ n. record { index = n } };
}

impl Register {
    /// The register of this number.
    pub fn new(index: u8) -> Register
        requires { index < 8 }
        ensures { result ≡ index }
    {
        Register { index }
    }

    /// The number, below 8.
    #[inline]
    pub fn index(self) -> usize
        ensures is { result ≡ self }
        ensures below { result < 8 }
    {
        usize::from(self.index)
    }
}
