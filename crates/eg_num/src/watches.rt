// The watches of the unit.

/// Which watches are found at a tick (docs/CONCEPT.md, "The record of a run"). All but `mirror` and `start`
/// have a debouncer, and are found at the tick at which its limit is first reached in a drive span. (In a
/// test span wrong answers may reach their limit too, and `answers` isn't found.)
#[derive(Clone, Copy)]
pub struct Watches {
    /// A word of level 2 differs from its complement.
    pub mirror: bool,
    /// The two values of the pedal disagree.
    pub pedal: bool,
    /// The two values of the throttle plate disagree.
    pub plate: bool,
    /// The two values of the load disagree.
    pub load: bool,
    /// The two values of the speed disagree.
    pub speed: bool,
    /// The actual torque is an excess over the permitted torque.
    pub torque: bool,
    /// The answers of level 2 are wrong.
    pub answers: bool,
    /// A start-up test of the shut-off paths failed.
    pub start: bool,
}
