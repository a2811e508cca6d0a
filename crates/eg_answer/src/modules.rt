// The eight modules of level 2, by their numbers.

/// Module 0 of level 2 compares each of its words with the complement (docs/CONCEPT.md, "Level 2").
pub const CHECK: u8 = 0;

/// Module 1 of level 2 gives the signal of the pedal.
pub const PEDAL: u8 = 1;

/// Module 2 of level 2 gives the signal of the permitted torque.
pub const PERMITTED: u8 = 2;

/// Module 3 of level 2 gives the signal of the actual torque.
pub const ACTUAL: u8 = 3;

/// Module 4 of level 2 gives the signal of the excess.
pub const EXCESS: u8 = 4;

/// Module 5 of level 2 gives the signal of the pairs that disagree.
pub const PAIRS: u8 = 5;

/// Module 6 of level 2 feeds the debouncers.
pub const DEBOUNCE: u8 = 6;

/// Module 7 of level 2 orders path 1 open and sends the answer.
pub const REACT: u8 = 7;

/// How many modules level 2 has.
pub const MODULES: u8 = 8;
