// The pedal of a drive row and the two truth values beside it, in one word.
ghost use Rattle.std.specs.Prelude.{◌≡◌, ◌≤◌};
ghost use Rattle.eg_num.specs.Inner.PedalWord.{PedalParts};

use std::marker::Model;

/// A pedal (0 to 16,383), whether the unit is reset, and whether the driver brakes, in one word: four times
/// the pedal, 2 for the reset and 1 for the brake. Contracts see the three.
#[derive(Clone, Copy, PartialEq, Eq)]
pub(crate) struct PedalWord {
    word: u16,
}

impl Model for PedalWord {
    ghost use Rattle.eg_num.specs.Inner.PedalWord.{PedalParts, parts_of, word_of, word_of-parts_of};

    ghost Value = { PedalParts };

    ghost view = { λ p. parts_of p.word };

    ghost inverse = { λ parts. record { word = word_of parts } };

    ghost inverse_ok = { λ p _ i. record { word = word_of-parts_of p.word i } };
}

impl PedalWord {
    /// The word of these three.
    pub(crate) fn new(pedal: u16, reset: bool, brake: bool) -> PedalWord
        requires { pedal ≤ 16383 }
        ensures { result ≡ record { pedal = pedal; reset = reset; brake = brake } }
    {
        PedalWord {
            word: 4 * pedal + 2 * u16::from(reset) + u16::from(brake),
        }
    }

    /// The pedal.
    pub(crate) fn pedal(self) -> u16
        ensures { result ≡ self.pedal }
    {
        self.word / 4
    }

    /// Whether the unit is reset.
    pub(crate) fn reset(self) -> bool
        ensures { result ≡ self.reset }
    {
        self.word / 2 % 2 == 1
    }

    /// Whether the driver brakes.
    pub(crate) fn brake(self) -> bool
        ensures { result ≡ self.brake }
    {
        self.word % 2 == 1
    }
}
