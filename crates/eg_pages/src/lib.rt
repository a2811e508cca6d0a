//! A guarded memory in pages. A copy of a memory shares its pages, and a page is copied when it is written
//! while it is shared. So a copy is meant to be cheap, and memories that differ little are meant to share
//! what is the same.
#![tactic(auto)]

mod page;
mod paged_memory;

pub use page::{PAGE_WORDS, PAGES};
pub use paged_memory::PagedMemory;
