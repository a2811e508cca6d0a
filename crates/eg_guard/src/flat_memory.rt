// A guarded memory that is one array.
ghost use Rattle.std.specs.Prelude.{◌≡◌, replicate, true};
ghost use Rattle.eg_guard.specs.Memory.{AreWords};

use crate::{Guarded, Refused, StoreRefusal, WORDS, Who, access};
use std::marker::Model;

/// A guarded memory that is one array of words (docs/CONCEPT.md, "Guarded memory"). It is sure: no store
/// takes memory.
///
/// Contracts see the list of its words.
#[derive(Drop)]
pub struct FlatMemory {
    words: [u16; WORDS as usize],
}

impl Model for FlatMemory {
    ghost use Rattle.std.specs.Prelude.{ℕ, List};
    ghost use Rattle.eg_guard.specs.Memory.{AreWords};

    ghost Value = { List ℕ };

    ghost view = { λ m. m.words };

    ghost invariant = { λ m. AreWords m.words };
}

impl FlatMemory {
    /// A memory of which every word is 0.
    #[tactic(auto, using(crate::proofs::WordsLemmas::zeros_are_words))]
    pub fn new() -> FlatMemory
        ensures words { result ≡ replicate WORDS 0 }
        ensures shown { ⟦<FlatMemory as Guarded>⟧.shows result
            ≡ record { words = replicate WORDS 0; sure = true } }
        ensures are_words { AreWords result }
    {
        FlatMemory {
            words: [0; WORDS as usize],
        }
    }

    /// Makes every word 0.
    #[tactic(auto, using(crate::proofs::WordsLemmas::zeros_are_words))]
    pub fn clear(&mut self)
        ensures words { self.new ≡ replicate WORDS 0 }
        ensures shown { ⟦<FlatMemory as Guarded>⟧.shows self.new
            ≡ record { words = replicate WORDS 0; sure = true } }
    {
        self.words = [0; WORDS as usize];
    }

    /// The words, by their addresses.
    pub fn words(&self) -> &[u16; WORDS as usize]
        ensures words { result.now ≡ self.now }
        ensures are_words { AreWords result.now }
    {
        &self.words
    }

    /// A memory of these words. Made of the words of a memory of another kind, it is a copy of that memory.
    pub fn of_words(words: [u16; WORDS as usize]) -> FlatMemory
        ensures words { result ≡ words }
        ensures shown { ⟦<FlatMemory as Guarded>⟧.shows result ≡ record { words = words; sure = true } }
        ensures are_words { AreWords result }
    {
        FlatMemory { words }
    }
}

impl Guarded for FlatMemory {
    ghost shows = { λ m. record { words = m; sure = true } };

    #[inline]
    #[tactic(auto, using(crate::proofs::AccessLemmas::within))]
    fn load(&self, who: Who, address: u16) -> Result<u16, Refused> {
        if access(who, address).load {
            Ok(self.words[usize::from(address)])
        } else {
            Err(Refused)
        }
    }

    #[inline]
    #[tactic(auto, using(crate::proofs::AccessLemmas::within))]
    fn store(&mut self, who: Who, address: u16, word: u16) -> Result<(), StoreRefusal> {
        if access(who, address).store {
            self.words[usize::from(address)] = word;
            Ok(())
        } else {
            Err(StoreRefusal::Refused)
        }
    }
}
