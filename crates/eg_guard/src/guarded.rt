// A memory in which each load and each store is decided by who asks and by the address.
ghost use Rattle.std.specs.Prelude.{◌≡◌, ◌↔◌, IsTrue, IsFalse, IsOk, IfOk, OnOk, OnErr, IsErrOf, slice_index, slice_set};
ghost use Rattle.eg_guard.specs.declared.guarded.StoreRefusal.TheVariants.{Refused as StoreRefused, Memory};
ghost use Rattle.eg_guard.specs.Memory.{ShownMemory, AreWords};
ghost use Rattle.eg_guard.specs.Regions;

use crate::Who;

/// The refusal of a load that the memory map doesn't allow (docs/FORMATS.md, "Memory map").
#[derive(Clone, Copy, PartialEq, Eq)]
pub struct Refused;

/// Why a store was refused.
#[derive(Clone, Copy, PartialEq, Eq)]
pub enum StoreRefusal {
    /// The memory map doesn't allow the store.
    Refused,
    /// Memory ran out.
    Memory,
}

/// A memory of 4,096 words of 16 bits, guarded by the memory map (docs/CONCEPT.md, "Guarded memory").
///
/// Contracts see what a memory shows (`ShownMemory`): its words by their addresses, and whether it is sure.
pub trait Guarded {
    /// The words, and whether the memory is sure.
    ghost shows: { Self → ShownMemory };

    /// The word at that address. Refused exactly if the memory map allows no load there.
    fn load(&self, who: Who, address: u16) -> Result<u16, Refused>
        ensures allowed { IsOk result ↔ IsTrue (Regions.access who address).load }
        ensures word { IfOk result (λ word. word ≡ slice_index (shows self.now).words address) }
        ensures words { AreWords (shows self.now).words };

    /// Puts a word at that address, and changes no other. A refusal changes nothing.
    ///
    /// Claim 26 (C23, F41; `refused`): A store is refused exactly if the memory map doesn't allow it at that
    /// address to the level, or the board, that asks for it.
    fn store(&mut self, who: Who, address: u16, word: u16) -> Result<(), StoreRefusal>
        ensures stored { OnOk result
            ((shows self.new).words ≡ slice_set (shows self.old).words address word) }
        ensures unchanged { OnErr result (shows self.new ≡ shows self.old) }

        // When it is refused.
        ensures refused { IsErrOf result StoreRefused ↔ IsFalse (Regions.access who address).store }
        ensures allowed { OnOk result (IsTrue (Regions.access who address).store) }

        // A sure memory takes no memory, and stays sure.
        ensures sure { IsTrue (shows self.old).sure → ¬ IsErrOf result Memory }
        ensures stays_sure { (shows self.new).sure ≡ (shows self.old).sure }

        ensures words { AreWords (shows self.new).words };
}
