// What is to be done.
use eg_answer::Questions;
use eg_base::Items;
use eg_num::Drive;
use eg_outcome::Telling;
use eg_plan::RunInput;
use eg_values::Calibration;

/// What is to be done once everything was read and accepted: what a command asks for, with what its files say
/// in place of their names (docs/FORMATS.md, "Commands").
#[derive(Drop)]
pub(crate) enum Job {
    /// To tell the first tick by which the excess of the rows of a check file is confirmed.
    Check {
        calibration: Calibration,
        rows: Items<(Drive, u16)>,
    },
    /// To tell the worst-case reaction and the bound for lapses.
    Bound {
        calibration: Calibration,
    },
    /// To tell all limits.
    Limits {
        calibration: Calibration,
    },
    /// To tell what finds each class of fault, and when.
    Coverage {
        calibration: Calibration,
    },
    /// To play the runs of a campaign, and to tell them in this way.
    Run {
        telling: Telling,
        calibration: Calibration,
        inputs: Items<RunInput>,
    },
    /// To play a run, and to write its record.
    Record {
        calibration: Calibration,
        input: RunInput,
    },
    /// To play a run under a fault of each class at each `step`th tick, and to write their table.
    Sweep {
        calibration: Calibration,
        input: RunInput,
        step: u32,
    },
    /// To tell what level 2 finds on lines of readings.
    Replay {
        calibration: Calibration,
    },
    /// To tell what level 2 finds on lines of readings, line by line.
    Signals {
        calibration: Calibration,
    },
    /// To play a run around a partner's engine, whose answers come line by line.
    Couple {
        calibration: Calibration,
        input: RunInput,
    },
    /// To play runs that are drawn from the seed, and to sum them up.
    Soak {
        seed: u32,
        runs: u32,
    },
    /// To tell the right answers to these questions.
    Answers {
        questions: Questions,
    },
    /// To write the image of these words.
    Asm {
        words: Items<u16>,
    },
    /// To write the source of these words.
    Dis {
        words: Items<u16>,
    },
}
