// What a tick commands to the engine.
ghost use Rattle.eg_tick.specs.Commanding.{RowsCommandAlike};

/// What a tick commands to the engine (docs/CONCEPT.md, "A run, tick by tick").
#[derive(Clone, Copy)]
pub struct Commands {
    /// What level 1 commands to the plate, in per mille; 1000 is the most that counts.
    pub throttle: u16,
    /// What it commands to the ignition, in per mille; 1000 is the most that counts.
    pub ignition: u16,
    /// Whether the power stages are on.
    pub on: bool,
    /// Where a fault holds the plate, in per mille, if one does.
    pub held: Option<u16>,
}

/// Does nothing when it runs. Its clause is a law: so what a tick commands can be told before its row is
/// known.
///
/// Claim 63 (C88): What a tick commands is the same for all drive rows that don't reset the unit. It is the
/// two outputs of the row before (none where a span begins), whether the stages are on, and where the plate
/// is held.
pub fn rows_command_alike()
    ensures { RowsCommandAlike }
{}
