// The row of a tick.
use eg_answer::{AnswerMark, Verdict};
use eg_num::{Drive, Watches};

/// What holds at one tick of a run (docs/CONCEPT.md, "The record of a run").
#[derive(Clone, Copy)]
pub struct Row {
    /// The tick, the first being 0.
    pub tick: u32,
    /// What the drive trace gives to it.
    pub drive: Drive,
    /// The angle of the throttle plate, in per mille.
    pub plate: u16,
    /// The charge of the engine, which is its first load, in per mille.
    pub charge: u16,
    /// The torque of the engine, in tenths of Nm.
    pub torque: u16,
    /// The torque that the drive permits, in tenths of Nm.
    pub limit: u16,
    /// Whether the first shut-off path conducts.
    pub path1: bool,
    /// Whether the second shut-off path conducts.
    pub path2: bool,
    /// Whether the power stages are on.
    pub on: bool,
    /// The signals of level 2 after the tick: the pedal that it uses (per mille), the permitted and the
    /// actual torque (tenths of Nm), the excess (0 or 1), and the bits of the pairs that disagree.
    pub signals: [u16; 5],
    /// Level 1's command of the throttle after the tick, in per mille.
    pub throttle: u16,
    /// Level 1's command of the ignition after the tick, in per mille of its efficiency.
    pub ignition: u16,
    /// The watches that are first found at the tick.
    pub found: Watches,
    /// Whether an answer was sent, and whether it was good.
    pub answer: AnswerMark,
    /// The verdict over the answers of the period that ends with the tick.
    pub verdict: Option<Verdict>,
    /// Whether a start-up test of the shut-off paths is running at the tick.
    pub testing: bool,
    /// Whether the tick is the first of its span: a power cycle begins, or the engine is driven from here on.
    pub fresh: bool,
}
