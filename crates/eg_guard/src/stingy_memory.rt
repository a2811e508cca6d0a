// A guarded memory that refuses one store, as if memory had run out.
ghost use Rattle.std.specs.Prelude.{◌≡◌, ◌↔◌, replicate, slice_set, Some, false, IsTrue, IsFalse, OnOk, OnErr, IsErrOf, if◌then◌else◌};
ghost use Rattle.eg_guard.specs.declared.guarded.StoreRefusal.TheVariants.{Refused as StoreRefused, Memory};
ghost use Rattle.eg_guard.specs.Memory.{AreWords};
ghost use Rattle.eg_guard.specs.Regions;
ghost use Rattle.eg_guard.specs.Stingy.{StingyState, refuses_next, left_after};

use crate::{FlatMemory, Guarded, Refused, StoreRefusal, WORDS, Who, access};
use std::marker::Model;

/// A memory like `FlatMemory`, one store of which answers Memory: it is for tests of what happens when memory
/// runs out, and it isn't sure (docs/CONCEPT.md, "Guarded memory").
///
/// Contracts see a `StingyState`: the words, and how many stores are still done before the one that is
/// refused, or None once it was refused.
#[derive(Drop)]
pub struct StingyMemory {
    memory: FlatMemory,
    left: Option<u32>,
}

impl Model for StingyMemory {
    ghost use Rattle.eg_guard.specs.Memory.{AreWords};
    ghost use Rattle.eg_guard.specs.Stingy.{StingyState};

    ghost Value = { StingyState };

    ghost view = { λ m. record { words = m.memory; left = m.left } };

    ghost invariant = { λ m. AreWords m.memory };
}

impl StingyMemory {
    /// A memory of which every word is 0, and which refuses the store of this number, counted from 0 over the
    /// stores that the memory map allows.
    pub fn new(refuse: u32) -> StingyMemory
        ensures state { result ≡ record { words = replicate WORDS 0; left = Some refuse } }
        ensures shown { ⟦<StingyMemory as Guarded>⟧.shows result
            ≡ record { words = replicate WORDS 0; sure = false } }
    {
        StingyMemory {
            memory: FlatMemory::new(),
            left: Some(refuse),
        }
    }

    /// Counts a store, where the memory map allows it, and answers whether it is the one to refuse.
    #[tactic(auto, unfolding(crate::specs::Stingy::refuses_next, crate::specs::Stingy::left_after))]
    fn refuses(&mut self, who: Who, address: u16) -> bool
        ensures refused { IsTrue result
            ↔ (IsTrue (Regions.access who address).store × IsTrue (refuses_next self.old.left)) }
        ensures counted { self.new.left
            ≡ (if (Regions.access who address).store then left_after self.old.left else self.old.left) }
        ensures same { self.new.words ≡ self.old.words }
        ensures words { AreWords self.new.words }
    {
        let Some(left) = self.left else {
            return false;
        };
        if !access(who, address).store {
            return false;
        }
        self.left = left.checked_sub(1);
        left == 0
    }
}

impl Guarded for StingyMemory {
    ghost shows = { λ m. record { words = m.words; sure = false } };

    fn load(&self, who: Who, address: u16) -> Result<u16, Refused> {
        self.memory.load(who, address)
    }

    fn store(&mut self, who: Who, address: u16, word: u16) -> Result<(), StoreRefusal>
        // Each store that the memory map allows is counted, and the one to refuse answers Memory.
        ensures guarded { IsErrOf result StoreRefused ↔ IsFalse (Regions.access who address).store }
        ensures memory { IsErrOf result Memory
            ↔ (IsTrue (Regions.access who address).store × IsTrue (refuses_next self.old.left)) }
        ensures counted { self.new.left
            ≡ (if (Regions.access who address).store then left_after self.old.left else self.old.left) }

        // A refusal changes no word.
        ensures stored { OnOk result (self.new.words ≡ slice_set self.old.words address word) }
        ensures unchanged { OnErr result (self.new.words ≡ self.old.words) }
        ensures words { AreWords self.new.words }
    {
        if self.refuses(who, address) {
            return Err(StoreRefusal::Memory);
        }
        self.memory.store(who, address, word)
    }
}
