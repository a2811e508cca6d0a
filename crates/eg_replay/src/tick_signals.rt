// What is told of one tick of a replay.
use eg_num::Watches;

/// What the debouncers of level 2 weigh after a tick (docs/CONCEPT.md, "Debouncing"): each at most its limit.
#[derive(Clone, Copy)]
pub struct Counters {
    /// That of the pedal's pair.
    pub pedal: u16,
    /// That of the throttle plate's pair.
    pub plate: u16,
    /// That of the load's pair.
    pub load: u16,
    /// That of the speed's pair.
    pub speed: u16,
    /// That of the torque.
    pub torque: u16,
}

/// What a replay tells of one tick (docs/CONCEPT.md, "`replay` and `signals`").
#[derive(Clone, Copy)]
pub struct TickSignals {
    /// The signals of level 2 after the tick: the pedal that it uses (per mille), the permitted and the
    /// actual torque (tenths of Nm), the excess (0 or 1), and the bits of the pairs that disagree.
    pub signals: [u16; 5],
    /// What its debouncers weigh after the tick.
    pub counters: Counters,
    /// What it finds at the tick.
    pub found: Watches,
}
