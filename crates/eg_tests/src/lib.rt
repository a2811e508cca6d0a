//! Tests over fakes of what neither a clause nor the built program shows: which of several reads failed, how
//! many were made, what was written before a put failed, notes that fail, how many ticks a call makes, a
//! stream, lines and memories of which a write, a flush, a read or a store fails, and calls that the program
//! never makes. Each call that takes memory and that the program never makes is made here once, where there
//! is memory. Beside them stands a law of crates that know nothing of each other.
#![tactic(auto)]

mod spelling;

pub use spelling::classes_are_told_as_they_are_read;

#[cfg(test)]
mod calls;
#[cfg(test)]
mod controller;
#[cfg(test)]
mod faults;
#[cfg(test)]
mod lines;
#[cfg(test)]
mod memory;
#[cfg(test)]
mod outside;
#[cfg(test)]
mod ranges;
#[cfg(test)]
mod rows;
#[cfg(test)]
mod steps;
#[cfg(test)]
mod texts;
