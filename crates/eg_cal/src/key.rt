// The keys of a calibration file, and why a file is refused.
ghost use Rattle.std.specs.Prelude.{◌≡◌};
ghost use Rattle.eg_cal.specs.Keys.{text_of, table_of, name_of};

use eg_toml::DocumentFault;

/// A key of a calibration file (docs/FORMATS.md, "Calibration files"). The variants stand in the order in
/// which the keys are checked.
#[derive(Clone, Copy, PartialEq, Eq)]
pub enum CalKey {
    /// `version`: the version of the format, 1 to 3.
    Version,
    /// `permit.pedal`: the permit table's points of the pedal, in per mille.
    PermitPedal,
    /// `permit.speed`: its points of the speed, in rpm.
    PermitSpeed,
    /// `permit.table`: its values, in tenths of Nm, a row for each point of the pedal.
    PermitTable,
    /// `permit.threshold`: how much an estimate may exceed the permitted torque, in tenths of Nm.
    PermitThreshold,
    /// `permit.brake`: whether the brake counts. It is a key of versions 2 and 3.
    PermitBrake,
    /// `permit.fall`: by how much the permitted torque may fall in a tick, in tenths of Nm. It is a key of
    /// version 3 alone.
    PermitFall,
    /// `torque.kt`: the torque of a load of 1000, in tenths of Nm.
    TorqueKt,
    /// `torque.up`: what a bad feed adds in the debouncer of the torque.
    TorqueUp,
    /// `torque.down`: what a good feed takes there.
    TorqueDown,
    /// `torque.limit`: the weight that confirms there.
    TorqueLimit,
    /// `pairs.pedal`: by how much the two values of the pedal may differ, in per mille.
    PairsPedal,
    /// `pairs.plate`: the same of the throttle plate, in per mille.
    PairsPlate,
    /// `pairs.load`: the same of the load, in per mille.
    PairsLoad,
    /// `pairs.speed`: the same of the speed, in rpm.
    PairsSpeed,
    /// `pairs.up`: what a bad feed adds in the debouncers of the pairs.
    PairsUp,
    /// `pairs.down`: what a good feed takes there.
    PairsDown,
    /// `pairs.limit`: the weight that confirms there.
    PairsLimit,
    /// `plant.slew`: the most that the plate moves in a tick, in per mille.
    PlantSlew,
    /// `plant.fill`: the most that the charge moves in a tick, in per mille.
    PlantFill,
    /// `plant.angle`: the points of the plate's angle, in per mille.
    PlantAngle,
    /// `plant.charge`: the charge at each of them, in per mille.
    PlantCharge,
    /// `answers.period`: how many ticks a period of the questions has.
    AnswersPeriod,
    /// `answers.first`: the first tick of a period at which an answer may come.
    AnswersFirst,
    /// `answers.last`: the last tick of a period at which an answer may come.
    AnswersLast,
    /// `answers.send`: the tick of a period at which level 2 sends its answer.
    AnswersSend,
    /// `answers.up`: what a wrong verdict adds in the debouncer of the verdicts.
    AnswersUp,
    /// `answers.down`: what a right verdict takes there.
    AnswersDown,
    /// `answers.limit`: the weight that confirms there.
    AnswersLimit,
    /// `question`: the questions of the monitoring module, with their answers.
    Question,
    /// A name that a file of its version may not have.
    Unknown,
}

/// Why a calibration file is refused (docs/FORMATS.md, "Calibration files").
#[derive(Clone, Copy, PartialEq, Eq)]
pub enum CalFault {
    /// There was no memory for the document, or it weighs more than the reader takes.
    Memory,
    /// The bytes are no TOML document.
    Text,
    /// The key is missing, or holds something else than it may; at `Unknown` there is a name that no key of
    /// the file's version has.
    Key { key: CalKey },
    /// The points of the axis don't strictly rise.
    Axis { key: CalKey },
    /// This row of the permit table, the first being 0, has a value below the row before it.
    Rising { row: u16 },
    /// The send tick isn't inside the answer window, or the window isn't inside the period.
    Window,
    /// The answer of this question, the first being 0, isn't the fold of its row.
    Answer { index: u16 },
}

impl From<DocumentFault> for CalFault {
    ghost use Rattle.eg_cal.specs.Faults.{fault_of};

    ghost from_gives = { λ e f. f ≡ fault_of e };

    fn from(fault: DocumentFault) -> CalFault {
        match fault {
            DocumentFault::Memory => CalFault::Memory,
            DocumentFault::Text => CalFault::Text,
        }
    }
}

impl CalKey {
    /// The key as a note prints it (docs/FORMATS.md, "Notes"): the name of its table, a dot and its own name,
    /// or its name alone where it stands at the top. `Unknown` is printed as `unknown`.
    pub fn text(&self) -> &str
        ensures { result.now ≡ text_of self.now }
    {
        match self {
            CalKey::Version => "version",
            CalKey::PermitPedal => "permit.pedal",
            CalKey::PermitSpeed => "permit.speed",
            CalKey::PermitTable => "permit.table",
            CalKey::PermitThreshold => "permit.threshold",
            CalKey::PermitBrake => "permit.brake",
            CalKey::PermitFall => "permit.fall",
            CalKey::TorqueKt => "torque.kt",
            CalKey::TorqueUp => "torque.up",
            CalKey::TorqueDown => "torque.down",
            CalKey::TorqueLimit => "torque.limit",
            CalKey::PairsPedal => "pairs.pedal",
            CalKey::PairsPlate => "pairs.plate",
            CalKey::PairsLoad => "pairs.load",
            CalKey::PairsSpeed => "pairs.speed",
            CalKey::PairsUp => "pairs.up",
            CalKey::PairsDown => "pairs.down",
            CalKey::PairsLimit => "pairs.limit",
            CalKey::PlantSlew => "plant.slew",
            CalKey::PlantFill => "plant.fill",
            CalKey::PlantAngle => "plant.angle",
            CalKey::PlantCharge => "plant.charge",
            CalKey::AnswersPeriod => "answers.period",
            CalKey::AnswersFirst => "answers.first",
            CalKey::AnswersLast => "answers.last",
            CalKey::AnswersSend => "answers.send",
            CalKey::AnswersUp => "answers.up",
            CalKey::AnswersDown => "answers.down",
            CalKey::AnswersLimit => "answers.limit",
            CalKey::Question => "question",
            CalKey::Unknown => "unknown",
        }
    }

    /// The name of the key's table, and the empty text at the top.
    pub(crate) fn table(&self) -> &str
        ensures { result.now ≡ table_of self.now }
    {
        match self {
            CalKey::Version | CalKey::Question | CalKey::Unknown => "",
            CalKey::PermitPedal
            | CalKey::PermitSpeed
            | CalKey::PermitTable
            | CalKey::PermitThreshold
            | CalKey::PermitBrake
            | CalKey::PermitFall => "permit",
            CalKey::TorqueKt | CalKey::TorqueUp | CalKey::TorqueDown | CalKey::TorqueLimit =>
                "torque",
            CalKey::PairsPedal
            | CalKey::PairsPlate
            | CalKey::PairsLoad
            | CalKey::PairsSpeed
            | CalKey::PairsUp
            | CalKey::PairsDown
            | CalKey::PairsLimit => "pairs",
            CalKey::PlantSlew | CalKey::PlantFill | CalKey::PlantAngle | CalKey::PlantCharge =>
                "plant",
            CalKey::AnswersPeriod
            | CalKey::AnswersFirst
            | CalKey::AnswersLast
            | CalKey::AnswersSend
            | CalKey::AnswersUp
            | CalKey::AnswersDown
            | CalKey::AnswersLimit => "answers",
        }
    }

    /// The key's name in its table.
    pub(crate) fn name(&self) -> &str
        ensures { result.now ≡ name_of self.now }
    {
        match self {
            CalKey::Version => "version",
            CalKey::PermitPedal | CalKey::PairsPedal => "pedal",
            CalKey::PermitSpeed | CalKey::PairsSpeed => "speed",
            CalKey::PermitTable => "table",
            CalKey::PermitThreshold => "threshold",
            CalKey::PermitBrake => "brake",
            CalKey::PermitFall => "fall",
            CalKey::TorqueKt => "kt",
            CalKey::TorqueUp | CalKey::PairsUp | CalKey::AnswersUp => "up",
            CalKey::TorqueDown | CalKey::PairsDown | CalKey::AnswersDown => "down",
            CalKey::TorqueLimit | CalKey::PairsLimit | CalKey::AnswersLimit => "limit",
            CalKey::PairsPlate => "plate",
            CalKey::PairsLoad => "load",
            CalKey::PlantSlew => "slew",
            CalKey::PlantFill => "fill",
            CalKey::PlantAngle => "angle",
            CalKey::PlantCharge => "charge",
            CalKey::AnswersPeriod => "period",
            CalKey::AnswersFirst => "first",
            CalKey::AnswersLast => "last",
            CalKey::AnswersSend => "send",
            CalKey::Question => "question",
            CalKey::Unknown => "unknown",
        }
    }
}
