// The own keys of the classes of faults, as campaigns spell them, and how what they hold is written.
ghost use Rattle.std.specs.Prelude.{◌≡◌, ◌++◌, OnOk, string_bytes};
ghost use Rattle.eg_fault.specs.Names as held;
ghost use Rattle.eg_fault.specs.Names.{item_text, key_text, number_items, truth_item, truth_items};

use std::alloc::AllocError;

/// A key under which a number of a class stands, or a list of numbers or of truth values (docs/FORMATS.md,
/// "Campaign files").
#[derive(Clone, Copy, PartialEq, Eq)]
pub enum FaultKey {
    /// `track`: a track of a sensor.
    Track,
    /// `values`: what the track reads in turn.
    Values,
    /// `add`: by how much a reading is off.
    Add,
    /// `mask`: the bits that are flipped or mixed in.
    Mask,
    /// `at`: where the plate is held.
    At,
    /// `module`: a module of level 2.
    Module,
    /// `word`: a word of level 2.
    Word,
    /// `offset`: the tick of a period at which answers are sent.
    Offset,
    /// `questions`: the questions that are asked in turn.
    Questions,
    /// `opens`: whether path 2 is ordered open, in turn.
    Opens,
    /// `path`: a shut-off path.
    Path,
    /// `after`: the ticks after the onset at which level 2 doesn't run.
    After,
    /// `every`: after how many ticks the ticks of `after` come again.
    Every,
}

impl FaultKey {
    /// The key as campaigns spell it.
    pub fn text(self) -> &'static str
        ensures { result.now ≡ key_text self }
    {
        match self {
            FaultKey::Track => "track",
            FaultKey::Values => "values",
            FaultKey::Add => "add",
            FaultKey::Mask => "mask",
            FaultKey::At => "at",
            FaultKey::Module => "module",
            FaultKey::Word => "word",
            FaultKey::Offset => "offset",
            FaultKey::Questions => "questions",
            FaultKey::Opens => "opens",
            FaultKey::Path => "path",
            FaultKey::After => "after",
            FaultKey::Every => "every",
        }
    }
}

/// Appends a key and a number.
pub(crate) fn push_number(text: &mut String, key: FaultKey, number: u16) -> Result<(), AllocError>
    ensures { OnOk result (string_bytes text.new
        ≡ string_bytes text.old ++ item_text (key, held.number number)) }
{
    write!(text, "{} {number}", key.text())
}

/// Appends numbers, each behind a blank.
pub(crate) fn push_numbers(text: &mut String, numbers: &[u16]) -> Result<(), AllocError>
    ensures { OnOk result (string_bytes text.new ≡ string_bytes text.old ++ number_items numbers.now) }
{
    for number in numbers {
        write!(text, " {}", *number)?;
    }
    Ok(())
}

/// Appends truth values, each behind a blank.
pub(crate) fn push_truths(text: &mut String, truths: &[bool]) -> Result<(), AllocError>
    ensures { OnOk result (string_bytes text.new ≡ string_bytes text.old ++ truth_items truths.now) }
{
    for truth in truths {
        push_truth(text, *truth)?;
    }
    Ok(())
}

/// Appends a truth value behind a blank.
#[tactic(auto, unfolding(crate::specs::Names::truth_item))]
fn push_truth(text: &mut String, truth: bool) -> Result<(), AllocError>
    ensures { OnOk result (string_bytes text.new ≡ string_bytes text.old ++ truth_item truth) }
{
    text.push_str(if truth { " true" } else { " false" })
}
