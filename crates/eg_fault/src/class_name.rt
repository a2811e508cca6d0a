// The classes of faults as campaigns spell them, with their names, own keys, and numbers in a sweep.
ghost use Rattle.std.specs.Prelude.{◌≡◌, ◌<◌, ◌++◌, ◌∷◌, [], false, OnOk, string_bytes};
ghost use Rattle.eg_fault.specs.Names.{name_of, class_text, class_index, class_named, own_keys, keys_text, swept};

use crate::key::{push_number, push_numbers, push_truths};
use crate::{Class, FaultKey as Key, Opens, PATH_1, Script};
use eg_answer::ACTUAL;
use eg_sensor::{LOAD_1, PEDAL_1};
use std::alloc::AllocError;

/// How many classes there are (docs/CONCEPT.md, "Faults").
pub const CLASSES: usize = 14;

/// How many of them stand before the last, the lapses (docs/CONCEPT.md, "Faults").
pub const LISTED: usize = 13;

/// A class of faults, without its numbers (docs/FORMATS.md, "Campaign files").
#[derive(Clone, Copy)]
pub enum ClassName {
    Script,
    Offset,
    Bus,
    Plate,
    Skip,
    Disturb,
    Flip,
    Halt,
    Timing,
    Wild,
    Path1Closed,
    Path2Closed,
    PathOpen,
    Lapse,
}

impl ClassName {
    /// The classes in their order.
    pub const ORDER: [ClassName; CLASSES] = [
        ClassName::Script,
        ClassName::Offset,
        ClassName::Bus,
        ClassName::Plate,
        ClassName::Skip,
        ClassName::Disturb,
        ClassName::Flip,
        ClassName::Halt,
        ClassName::Timing,
        ClassName::Wild,
        ClassName::Path1Closed,
        ClassName::Path2Closed,
        ClassName::PathOpen,
        ClassName::Lapse,
    ];

    /// Its name.
    #[tactic(auto, unfolding(crate::specs::Names::class_text))]
    pub fn text(self) -> &'static str
        ensures { result.now ≡ class_text self }
    {
        match self {
            ClassName::Script => "script",
            ClassName::Offset => "offset",
            ClassName::Bus => "bus",
            ClassName::Plate => "plate",
            ClassName::Skip => "skip",
            ClassName::Disturb => "disturb",
            ClassName::Flip => "flip",
            ClassName::Halt => "halt",
            ClassName::Timing => "timing",
            ClassName::Wild => "wild",
            ClassName::Path1Closed => "path1-closed",
            ClassName::Path2Closed => "path2-closed",
            ClassName::PathOpen => "path-open",
            ClassName::Lapse => "lapse",
        }
    }

    /// The class that has this name, or None where none has it.
    #[tactic(auto, unfolding(crate::specs::Names::class_named))]
    pub fn named(text: &str) -> Option<ClassName>
        ensures { result ≡ class_named text.now }
    {
        ClassName::ORDER
            .iter()
            .copied()
            .find(|name| name.text() == text)
    }

    /// Its place in their order, from 0 on.
    #[tactic(auto, unfolding(crate::specs::Names::class_index))]
    pub fn index(self) -> usize
        ensures index { result ≡ class_index self }
        ensures within { result < CLASSES }
    {
        self as usize
    }

    /// Its own keys, in the order in which they are checked and written.
    pub fn own_keys(self) -> &'static [Key]
        ensures { result.now ≡ own_keys self }
    {
        match self {
            ClassName::Script => &[Key::Track, Key::Values],
            ClassName::Offset => &[Key::Track, Key::Add],
            ClassName::Bus => &[Key::Mask],
            ClassName::Plate => &[Key::At],
            ClassName::Skip => &[Key::Module],
            ClassName::Disturb => &[Key::Module, Key::Mask],
            ClassName::Flip => &[Key::Word, Key::Mask],
            ClassName::Timing => &[Key::Offset],
            ClassName::Wild => &[Key::Questions, Key::Opens],
            ClassName::PathOpen => &[Key::Path],
            ClassName::Lapse => &[Key::After, Key::Every],
            ClassName::Halt | ClassName::Path1Closed | ClassName::Path2Closed => &[],
        }
    }

    /// Its class with the numbers that it has in a sweep (docs/CONCEPT.md, "`sweep`"). It takes no memory.
    #[tactic(auto, unfolding(crate::specs::Names::swept))]
    pub fn swept(self) -> Class
        ensures { result ≡ swept self }
    {
        match self {
            ClassName::Script => Class::Script {
                track: LOAD_1,
                values: script_of(0),
            },
            ClassName::Offset => Class::Offset {
                track: PEDAL_1,
                add: 200,
            },
            ClassName::Bus => Class::Bus { mask: 1 },
            ClassName::Plate => Class::Plate { at: 1000 },
            ClassName::Skip => Class::Skip { module: ACTUAL },
            ClassName::Disturb => Class::Disturb {
                module: ACTUAL,
                mask: 4096,
            },
            ClassName::Flip => Class::Flip { word: 3, mask: 1 },
            ClassName::Halt => Class::Halt,
            ClassName::Timing => Class::Timing { offset: 99 },
            ClassName::Wild => Class::Wild {
                questions: script_of(65_535),
                opens: never_open(),
            },
            ClassName::Path1Closed => Class::Path1Closed,
            ClassName::Path2Closed => Class::Path2Closed,
            ClassName::PathOpen => Class::PathOpen { path: PATH_1 },
            ClassName::Lapse => Class::Lapse {
                after: script_of(0),
                every: 0,
            },
        }
    }
}

/// The script of this number alone.
fn script_of(value: u16) -> Script
    ensures { result ≡ value ∷ [] }
{
    match Script::new(&[value]) {
        Some(script) => script,
        None => unreachable!(),
    }
}

/// The orders of a wild monitoring module that never orders path 2 open.
fn never_open() -> Opens
    ensures { result ≡ false ∷ [] }
{
    match Opens::new(&[false]) {
        Some(opens) => opens,
        None => unreachable!(),
    }
}

impl Class {
    /// The class without its numbers.
    #[tactic(auto, unfolding(crate::specs::Names::name_of))]
    pub fn name(&self) -> ClassName
        ensures { result ≡ name_of self.now }
    {
        match self {
            Class::Script { .. } => ClassName::Script,
            Class::Offset { .. } => ClassName::Offset,
            Class::Bus { .. } => ClassName::Bus,
            Class::Plate { .. } => ClassName::Plate,
            Class::Skip { .. } => ClassName::Skip,
            Class::Disturb { .. } => ClassName::Disturb,
            Class::Flip { .. } => ClassName::Flip,
            Class::Halt => ClassName::Halt,
            Class::Timing { .. } => ClassName::Timing,
            Class::Wild { .. } => ClassName::Wild,
            Class::Path1Closed => ClassName::Path1Closed,
            Class::Path2Closed => ClassName::Path2Closed,
            Class::PathOpen { .. } => ClassName::PathOpen,
            Class::Lapse { .. } => ClassName::Lapse,
        }
    }

    /// Appends its own keys to a text, as campaigns spell them, each with what it holds (docs/FORMATS.md,
    /// "The rows of `table`").
    #[tactic(auto, unfolding(crate::specs::Names::held, crate::specs::Names::items_text))]
    pub fn push_keys(&self, text: &mut String) -> Result<(), AllocError>
        ensures { OnOk result (string_bytes text.new ≡ string_bytes text.old ++ keys_text self.now) }
    {
        match self {
            Class::Script { track, values } => {
                push_number(text, Key::Track, u16::from(*track))?;
                write!(text, " {}", Key::Values.text())?;
                push_numbers(text, values.values())
            }
            Class::Offset { track, add } => {
                push_number(text, Key::Track, u16::from(*track))?;
                write!(text, " {} {}", Key::Add.text(), *add)
            }
            Class::Bus { mask } => push_number(text, Key::Mask, *mask),
            Class::Plate { at } => push_number(text, Key::At, *at),
            Class::Skip { module } => push_number(text, Key::Module, u16::from(*module)),
            Class::Disturb { module, mask } => {
                push_number(text, Key::Module, u16::from(*module))?;
                write!(text, " {} {}", Key::Mask.text(), *mask)
            }
            Class::Flip { word, mask } => {
                push_number(text, Key::Word, u16::from(*word))?;
                write!(text, " {} {}", Key::Mask.text(), *mask)
            }
            Class::Timing { offset } => push_number(text, Key::Offset, *offset),
            Class::Wild { questions, opens } => {
                text.push_str(Key::Questions.text())?;
                push_numbers(text, questions.values())?;
                write!(text, " {}", Key::Opens.text())?;
                push_truths(text, opens.values())
            }
            Class::PathOpen { path } => push_number(text, Key::Path, u16::from(*path)),
            Class::Lapse { after, every } => {
                text.push_str(Key::After.text())?;
                push_numbers(text, after.values())?;
                write!(text, " {} {}", Key::Every.text(), *every)
            }
            Class::Halt | Class::Path1Closed | Class::Path2Closed => Ok(()),
        }
    }
}
