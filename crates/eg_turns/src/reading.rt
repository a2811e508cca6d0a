// What the board reads from the memory.
ghost use Rattle.std.specs.Prelude.{◌≡◌, ◌<◌, slice_index};
ghost use Rattle.eg_guard.specs.declared.regions.TheConstants.{THROTTLE, IGNITION};
ghost use Rattle.eg_answer.specs.declared.words.TheConstants.{STORED_WORDS};
ghost use Rattle.eg_level2.specs.Words.{word_at, words_of};
ghost use Rattle.eg_turns.specs.Midway.{signals_in};

use crate::board::load;
use eg_guard::{Guarded, IGNITION, THROTTLE};
use eg_level2::word_address;

/// Level 1's outputs, its commands to the throttle plate and to the ignition, as they stand in the memory
/// (docs/CONCEPT.md, "Level 1").
#[derive(Clone, Copy)]
pub struct Outputs {
    /// What it commands to the plate, in per mille.
    pub throttle: u16,
    /// What it commands to the ignition, in per mille.
    pub ignition: u16,
}

impl Outputs {
    /// Those that stand now.
    #[tactic(auto, using(crate::proofs::BoardLemmas::board))]
    pub fn of<M: Guarded>(memory: &M) -> Outputs
        ensures throttle { result.throttle ≡ slice_index (M.shows memory.now).words THROTTLE }
        ensures ignition { result.ignition ≡ slice_index (M.shows memory.now).words IGNITION }
    {
        Outputs {
            throttle: load(memory, THROTTLE),
            ignition: load(memory, IGNITION),
        }
    }
}

/// A word of level 2, as it stands in the memory, by its number (docs/FORMATS.md, "Words of level 2").
#[tactic(auto, using(crate::proofs::BoardLemmas::board), unfolding(eg_level2::specs::Words::word_at))]
pub fn word<M: Guarded>(memory: &M, number: u8) -> u16
    requires { number < STORED_WORDS }
    ensures { result ≡ word_at (M.shows memory.now).words number }
{
    load(memory, word_address(u16::from(number)))
}

/// The five signals of level 2, which are its first five words (docs/CONCEPT.md, "Level 2").
pub fn signals<M: Guarded>(memory: &M) -> [u16; 5]
    ensures { result ≡ signals_in (words_of (M.shows memory.now).words) }
{
    [
        word(memory, 0),
        word(memory, 1),
        word(memory, 2),
        word(memory, 3),
        word(memory, 4),
    ]
}
