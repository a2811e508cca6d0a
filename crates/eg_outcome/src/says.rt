// What a note says of a refusal.
ghost use Rattle.std.specs.Prelude.{◌≡◌, ℕ, List};
ghost use Rattle.eg_outcome.specs.Notes.{answer_says, calibration_says, campaign_says, image_says, line_of, line_said, refusal_note};
ghost use Rattle.eg_outcome.specs.Notes.{source_says, trace_says};

use crate::{AnswerFault, Refusal};
use eg_asm::AsmFault;
use eg_cal::CalFault;
use eg_input::{ImageFault, TraceFault};
use eg_plan::CampaignFault;

/// The words of a note: behind the name of the file that they are about, or alone (docs/FORMATS.md, "Notes").
#[derive(Clone, Copy)]
pub(crate) enum Says<'a> {
    /// These words.
    Words(&'a str),
    /// Words, and a number.
    Number(&'a str, u32),
    /// A number between these words.
    Between(&'a str, u32, &'a str),
    /// Words, and a key of the file.
    Key(&'a str, &'a str),
    /// A key of this run of the campaign.
    RunKey(u32, &'a str),
    /// These words, of no file.
    Alone(&'a str),
}

/// What is said of a refusal.
pub(crate) fn refusal_says(refusal: &Refusal) -> Says<'_>
    ensures { (file : List ℕ) → line_said result file ≡ refusal_note refusal.now file }
{
    match refusal {
        Refusal::Size { .. } => Says::Words("longer than 4194304 bytes"),
        Refusal::Calibration(fault) => calibration_says(fault),
        Refusal::Check(fault) => trace_says(fault),
        Refusal::Campaign(fault) => campaign_says(fault),
        Refusal::Trace { fault, .. } => trace_says(fault),
        Refusal::Image { fault, .. } => image_says(fault),
        Refusal::NoRun => Says::Alone("no such run"),
        Refusal::Source(fault) => source_says(fault),
        Refusal::Answer(fault) => answer_says(fault),
        Refusal::Grid => Says::Alone("grid too large"),
    }
}

/// What is said of a calibration's fault.
fn calibration_says(fault: &CalFault) -> Says<'_>
    ensures { (file : List ℕ) → line_said result file ≡ line_of file (calibration_says fault.now) }
{
    match fault {
        CalFault::Memory => Says::Words("no memory"),
        CalFault::Text => Says::Words("not TOML"),
        CalFault::Key { key } => Says::Key("key ", key.text()),
        CalFault::Axis { key } => Says::Key("axis ", key.text()),
        CalFault::Rising { row } => Says::Between("row ", u32::from(*row), " falls"),
        CalFault::Window => Says::Words("answer window"),
        CalFault::Answer { index } => Says::Number("answer ", u32::from(*index)),
    }
}

/// What is said of a fault of the records of a check file or a trace.
fn trace_says(fault: &TraceFault) -> Says<'_>
    ensures { (file : List ℕ) → line_said result file ≡ line_of file (trace_says fault.now) }
{
    match fault {
        TraceFault::Memory => Says::Words("no memory"),
        TraceFault::Header => Says::Words("header"),
        TraceFault::Row { line } => Says::Number("record ", *line),
        TraceFault::Empty => Says::Words("no records"),
        TraceFault::Long => Says::Words("more than 20000 records"),
    }
}

/// What is said of an answer that breaks a law of engines.
fn answer_says(fault: &AnswerFault) -> Says<'_>
    ensures { (file : List ℕ) → line_said result file ≡ line_of file (answer_says fault.now) }
{
    match fault {
        AnswerFault::LoadBelowTorque { record } => {
            Says::Number("load below torque in record ", *record)
        }
        AnswerFault::TorqueWhileOff { record } => {
            Says::Number("torque with the stages off in record ", *record)
        }
    }
}

/// What is said of an image's fault.
fn image_says(fault: &ImageFault) -> Says<'_>
    ensures { (file : List ℕ) → line_said result file ≡ line_of file (image_says fault.now) }
{
    match fault {
        ImageFault::Memory => Says::Words("no memory"),
        ImageFault::Line { line } => Says::Number("line ", *line),
        ImageFault::Long => Says::Words("more than 1024 lines"),
    }
}

/// What is said of a source's fault.
fn source_says(fault: &AsmFault) -> Says<'_>
    ensures { (file : List ℕ) → line_said result file ≡ line_of file (source_says fault.now) }
{
    match fault {
        AsmFault::Memory => Says::Words("no memory"),
        AsmFault::Line { line } => Says::Number("line ", *line),
        AsmFault::Label { line } => Says::Number("label in line ", *line),
        AsmFault::Long => Says::Words("more than 1024 words"),
    }
}

/// What is said of a campaign's fault.
fn campaign_says(fault: &CampaignFault) -> Says<'_>
    ensures { (file : List ℕ) → line_said result file ≡ line_of file (campaign_says fault.now) }
{
    match fault {
        CampaignFault::Memory => Says::Words("no memory"),
        CampaignFault::Text => Says::Words("not TOML"),
        CampaignFault::Key { run, key } => Says::RunKey(*run, key.text()),
        CampaignFault::TwoFaults { run } => Says::Between("run ", *run, " has two faults"),
        CampaignFault::Name { run } => Says::Between("run ", *run, " repeats a name"),
        CampaignFault::Many => Says::Words("more than 1000 runs"),
        CampaignFault::Ticks { run } => Says::Between("run ", *run, " passes 1000000 ticks"),
    }
}
