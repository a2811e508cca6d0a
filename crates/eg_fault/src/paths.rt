// The two shut-off paths, by their numbers.

/// The path that react orders open (docs/CONCEPT.md, "A run, tick by tick").
pub const PATH_1: u8 = 1;

/// The path that the monitoring module orders open (docs/CONCEPT.md, "A run, tick by tick").
pub const PATH_2: u8 = 2;
