// How a call of the program ends.
ghost use Rattle.std.specs.Prelude.{◌≡◌};
ghost use Rattle.eg_outcome.specs.Roles.{role_in};
ghost use Rattle.eg_outcome.specs.Status.{status_of};

use eg_asm::AsmFault;
use eg_cal::CalFault;
use eg_input::{ImageFault, TraceFault};
use eg_plan::CampaignFault;

/// A file of a command, by what it is for (docs/FORMATS.md, "Commands").
#[derive(Clone, Copy, PartialEq, Eq)]
pub enum Role {
    /// The calibration file behind `--cal`, or that of `answers`.
    Calibration,
    /// The file of `check`, or standard input for the commands that read lines.
    Check,
    /// The campaign file of `run`, `table`, `margins`, `record`, `couple` or `sweep`.
    Campaign,
    /// The drive trace of a run of the campaign, the first being 1.
    Trace { run: u32 },
    /// The image of a run of the campaign, the first being 1; that of `dis` has the number 0.
    Image { run: u32 },
    /// The source of `asm`.
    Source,
}

/// Why a line of a partner is refused that has the form of an answer: the law of engines that it breaks
/// (docs/FORMATS.md, "The lines of `couple`"). The first record is 1.
#[derive(Clone, Copy, PartialEq, Eq)]
pub enum AnswerFault {
    /// The estimate of one of the loads lies below the torque.
    LoadBelowTorque { record: u32 },
    /// There is torque, though the power stages are off.
    TorqueWhileOff { record: u32 },
}

/// Why a file was refused: the first rule that it breaks, in the order of docs/FORMATS.md; or why a run or a
/// sweep that was asked for can't be.
#[derive(Clone, Copy, PartialEq, Eq)]
pub enum Refusal {
    /// The file has more than 4,194,304 bytes.
    Size { file: Role },
    /// A calibration file. Out of memory is `Outcome::Memory`, and never stands here.
    Calibration(CalFault),
    /// The records of a check file, or the lines of standard input. Out of memory is `Outcome::Memory`, and
    /// never stands here.
    Check(TraceFault),
    /// A campaign file, or too many ticks of its runs in all. Out of memory never stands here.
    Campaign(CampaignFault),
    /// The records of the drive trace of a run. Out of memory never stands here.
    Trace { run: u32, fault: TraceFault },
    /// The lines of the image of a run. Out of memory never stands here.
    Image { run: u32, fault: ImageFault },
    /// The campaign has no run of that name.
    NoRun,
    /// The lines of a source. Out of memory never stands here.
    Source(AsmFault),
    /// An answer of a partner that breaks a law of engines.
    Answer(AnswerFault),
    /// A sweep would have more than 1,000 runs, or its runs more than 1,000,000 ticks in all.
    Grid,
}

/// How a call of the program ends (docs/FORMATS.md, "Outcomes").
#[derive(Clone, Copy, PartialEq, Eq)]
pub enum Outcome {
    /// The whole text was written.
    Done,
    /// The words are no form of a command. Nothing was read.
    Usage,
    /// Reading a file failed, or there is no such file.
    ReadFault { file: Role },
    /// A file was read and refused, the campaign has no run of that name, or the grid of a sweep is too
    /// large.
    Refused(Refusal),
    /// Writing failed. A prefix of the text may have been written.
    WriteFault,
    /// Memory ran out. A prefix of the text may have been written.
    Memory,
}

impl Outcome {
    /// The exit status: 0 where the work was done, and 2 to 6 for the other outcomes in their order
    /// (docs/FORMATS.md, "Outcomes").
    pub fn status(&self) -> u8
        ensures { result ≡ status_of self.now }
    {
        match self {
            Outcome::Done => 0,
            Outcome::Usage => 2,
            Outcome::ReadFault { .. } => 3,
            Outcome::Refused(_) => 4,
            Outcome::WriteFault => 5,
            Outcome::Memory => 6,
        }
    }

    /// What the file is for that the outcome speaks of, if it speaks of one.
    pub fn role(&self) -> Option<Role>
        ensures { result ≡ role_in self.now }
    {
        match self {
            Outcome::ReadFault { file } | Outcome::Refused(Refusal::Size { file }) => Some(*file),
            Outcome::Refused(Refusal::Calibration(_)) => Some(Role::Calibration),
            Outcome::Refused(Refusal::Check(_) | Refusal::Answer(_)) => Some(Role::Check),
            Outcome::Refused(Refusal::Campaign(_)) => Some(Role::Campaign),
            Outcome::Refused(Refusal::Trace { run, .. }) => Some(Role::Trace { run: *run }),
            Outcome::Refused(Refusal::Image { run, .. }) => Some(Role::Image { run: *run }),
            Outcome::Refused(Refusal::Source(_)) => Some(Role::Source),
            Outcome::Refused(Refusal::NoRun | Refusal::Grid) => None,
            Outcome::Done | Outcome::Usage | Outcome::WriteFault | Outcome::Memory => None,
        }
    }
}
