//! What lies outside the simulator: files that are read, and bytes that are written.
//!
//! Contracts see a `Store` and a `Sink` through what they show: what they hold, where that is told; how many
//! faults they have met; and whether they are sure. A sure store answers Failed only where there is no such
//! file, and a sure output takes no memory. The program runs over `FileStore` and `StdSink`, which show what
//! their opener and their stream tell: those of the system tell nothing. Tests and theorems also run over the
//! two stores and the two outputs that stand in memory.
//!
//! Types of other crates keep their texts and vectors as `Text` and `Items`, which contracts see as lists.
#![tactic(auto)]

mod fault_plan;
mod file_store;
mod items;
mod memory_sink;
mod memory_store;
mod named_files;
mod no_memory;
mod opens;
mod sink;
mod std_sink;
mod store;
mod sure_sink;
mod sure_store;
mod text;

pub use file_store::FileStore;
pub use items::Items;
pub use memory_sink::MemorySink;
pub use memory_store::MemoryStore;
pub use no_memory::NoMemory;
pub use opens::Opens;
pub use sink::{PutRefusal, Sink};
pub use std_sink::StdSink;
pub use store::{ReadRefusal, Store};
pub use sure_sink::SureSink;
pub use sure_store::SureStore;
pub use text::Text;
