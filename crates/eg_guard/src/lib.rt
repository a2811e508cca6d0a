//! The memory of the simulated unit: 4,096 words of 16 bits, and who may load and store which of them.
//!
//! Level 1 is code that nobody trusts. What it can reach is decided here, by who asks and by the address
//! alone: each load and each store of the unit goes through `Guarded`. `FlatMemory` is one array of words;
//! `StingyMemory` is for tests of what happens when memory runs out.
#![tactic(auto)]

mod copy_memory;
mod flat_memory;
mod guarded;
mod regions;
mod stingy_memory;

pub use copy_memory::CopyMemory;
pub use flat_memory::FlatMemory;
pub use guarded::{Guarded, Refused, StoreRefusal};
pub use regions::{
    Allowed, DATA, IGNITION, IN_PORT_COUNT, IN_PORTS, LAST_IN_PORT, LAST_PROTECTED, LAST_RESULT,
    LINK, PROTECTED, RESULT_COUNT, RESULTS, Region, THROTTLE, WORDS, Who, access, map_in_numbers,
    region_of,
};
pub use stingy_memory::StingyMemory;
