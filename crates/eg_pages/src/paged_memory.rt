// A guarded memory in pages that are copied when they are written.
ghost use Rattle.std.specs.Prelude.{◌≡◌, IfOk, replicate, true, false};
ghost use Rattle.eg_guard.specs.Memory.{AreWords};

use crate::page::{SharedPages, fill, joined, put_at, share, word_at, zero_pages};
use eg_base::NoMemory;
use eg_guard::{CopyMemory, FlatMemory, Guarded, Refused, StoreRefusal, WORDS, Who, access};
use std::alloc::Global;
use std::marker::Model;

/// A guarded memory in pages of 64 words. A copy is meant to share a page with it until one of the two writes
/// the page. It isn't sure, since a store to a shared page takes memory for a page of its own. No contract
/// says what is really shared (docs/CONCEPT.md, "Guarded memory").
///
/// Contracts see the list of its words.
#[derive(Drop)]
pub struct PagedMemory {
    pages: SharedPages,
    alloc: Global,
}

impl Model for PagedMemory {
    ghost use Rattle.std.specs.Prelude.{ℕ, List};
    ghost use Rattle.eg_pages.specs.Pages.{ArePages, pages_of, page_words};

    ghost Value = { List ℕ };

    ghost view = { λ m. page_words m.pages };

    ghost invariant = { λ m. ArePages (pages_of m.pages) };
}

impl PagedMemory {
    /// A memory of which every word is 0. NoMemory may come at any time.
    pub fn new(alloc: Global) -> Result<PagedMemory, NoMemory>
        ensures words { IfOk result (λ memory. memory ≡ replicate WORDS 0) }
        ensures shown { IfOk result (λ memory. ⟦<PagedMemory as Guarded>⟧.shows memory
            ≡ record { words = replicate WORDS 0; sure = false }) }
        ensures are_words { IfOk result (λ memory. AreWords memory) }
    {
        let pages = zero_pages(alloc)?;
        Ok(PagedMemory { pages, alloc })
    }

    /// A memory of the words of this one in one array. A page that is the same as that of `last` is meant to
    /// be shared with it. NoMemory may come at any time.
    pub fn like(
        alloc: Global,
        memory: &FlatMemory,
        last: &PagedMemory,
    ) -> Result<PagedMemory, NoMemory>
        ensures words { IfOk result (λ paged. paged ≡ memory.now) }
        ensures shown { IfOk result (λ paged. ⟦<PagedMemory as Guarded>⟧.shows paged
            ≡ record { words = memory.now; sure = false }) }
    {
        let mut pages = share(&last.pages)?;
        fill(&mut pages, alloc, memory.words())?;
        Ok(PagedMemory { pages, alloc })
    }

    /// A memory of the same words in one array, which shares nothing. It takes no memory and refuses nothing.
    pub fn flat(&self) -> FlatMemory
        ensures words { result ≡ self.now }
        ensures shown { ⟦<FlatMemory as Guarded>⟧.shows result
            ≡ record { words = (⟦<PagedMemory as Guarded>⟧.shows self.now).words; sure = true } }
    {
        FlatMemory::of_words(joined(&self.pages))
    }
}

impl Guarded for PagedMemory {
    ghost shows = { λ m. record { words = m; sure = false } };

    #[inline]
    #[tactic(auto, using(eg_guard::proofs::AccessLemmas::within))]
    fn load(&self, who: Who, address: u16) -> Result<u16, Refused> {
        let pages = &self.pages;
        if access(who, address).load {
            Ok(word_at(pages, address))
        } else {
            Err(Refused)
        }
    }

    #[inline]
    #[tactic(auto, using(eg_guard::proofs::AccessLemmas::within))]
    fn store(&mut self, who: Who, address: u16, word: u16) -> Result<(), StoreRefusal> {
        let alloc = self.alloc;
        if !access(who, address).store {
            return Err(StoreRefusal::Refused);
        }
        match put_at(&mut self.pages, alloc, address, word) {
            Ok(()) => Ok(()),
            Err(NoMemory) => Err(StoreRefusal::Memory),
        }
    }
}

impl CopyMemory for PagedMemory {
    fn copy(&self, alloc: Global) -> Result<PagedMemory, NoMemory> {
        let pages = share(&self.pages)?;
        Ok(PagedMemory { pages, alloc })
    }
}
