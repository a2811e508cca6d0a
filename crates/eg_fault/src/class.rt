// A fault, the classes of faults, and what each of them does, by the number of ticks since the onset.
ghost use Rattle.std.specs.Prelude.{◌≡◌, ◌≤◌, ◌↔◌, false, IsTrue, All, length, option_map};
ghost use Rattle.std.specs.List.Sorted.{IsStrictlyIncreasing};
ghost use Rattle.std.specs.Option.{option_copied, option_map_or};
ghost use Rattle.eg_fault.specs.Faults;
ghost use Rattle.eg_fault.specs.Faults.{AreFew, IsValid, IsValidClass, IsOffset, effects_of};
ghost use Rattle.eg_fault.specs.Running.{may_change_levels, changes_levels, runs_of};

use crate::{ModuleRuns, Opens, PATH_1, PATH_2, Script};
use eg_answer::{MODULES, PAIRS, PEDAL, STORED_WORDS};
use eg_sensor::TRACKS;

/// A fault outside level 1 (docs/CONCEPT.md, "Faults"): from the tick of its onset on it does what its class
/// says, and before that nothing.
#[derive(Drop)]
pub struct Fault {
    /// The first tick at which it acts, 0 to 19,999.
    pub onset: u32,
    /// What it does.
    pub class: Class,
}

/// The classes of faults (docs/CONCEPT.md, "Faults").
#[derive(Drop)]
pub enum Class {
    /// A track (0 to 9) reads these values in turn.
    Script { track: u8, values: Script },
    /// A track (0 to 9) reads its sound reading plus this number (-65,535 to 65,535, not 0), cut at 0 and at
    /// 65,535.
    Offset { track: u8, add: i32 },
    /// The raise comes with these bits (1 to 65,535) flipped, its check word as it was sent.
    Bus { mask: u16 },
    /// The throttle plate, or the rack of a diesel engine, is held there (0 to 1000 per mille).
    Plate { at: u16 },
    /// A module of level 2 (0 to 7) doesn't run.
    Skip { module: u8 },
    /// A module of level 2 (1 to 5) has these bits (1 to 65,535) mixed into its signal and into its result of
    /// the test row.
    Disturb { module: u8, mask: u16 },
    /// At the onset alone these bits (1 to 65,535) are flipped in a word of level 2 (0 to 15), or in the
    /// complement of one (16 to 31).
    Flip { word: u8, mask: u16 },
    /// Neither level 1 nor level 2 runs.
    Halt,
    /// Answers are sent at this tick of their period (0 to 99), and at no other.
    Timing { offset: u16 },
    /// The monitoring module asks these questions in turn, orders path 2 open where these truth values in
    /// turn say so, and gives no verdicts.
    Wild { questions: Script, opens: Opens },
    /// Path 1 conducts, whatever its latch says.
    Path1Closed,
    /// Path 2 conducts, whatever its latch says.
    Path2Closed,
    /// A path (1 or 2) doesn't conduct.
    PathOpen { path: u8 },
    /// Level 2 doesn't run at these ticks after the onset (0 to 19,999, rising); where `every` (0 to 20,000)
    /// isn't 0 the count begins anew every `every` ticks.
    Lapse { after: Script, every: u16 },
}

impl Fault {
    /// Whether its onset and the numbers of its class lie in their ranges (docs/CONCEPT.md, "Faults").
    pub fn valid(&self) -> bool
        ensures { IsTrue result ↔ IsValid self.now }
    {
        self.onset <= 19_999 && self.class.is_valid()
    }

    /// An equal fault. It takes no memory.
    pub fn copy(&self) -> Fault
        ensures { result ≡ self.now }
    {
        Fault {
            onset: self.onset,
            class: self.class.copy(),
        }
    }

    /// An equal fault, if there is one. It takes no memory.
    pub fn copied(fault: Option<&Fault>) -> Option<Fault>
        ensures { result ≡ option_copied fault.entry }
    {
        match fault {
            Some(fault) => Some(fault.copy()),
            None => None,
        }
    }
}

impl Class {
    /// An equal class. It takes no memory.
    pub fn copy(&self) -> Class
        ensures { result ≡ self.now }
    {
        match self {
            Class::Script { track, values } => Class::Script {
                track: *track,
                values: values.copy(),
            },
            Class::Offset { track, add } => Class::Offset {
                track: *track,
                add: *add,
            },
            Class::Bus { mask } => Class::Bus { mask: *mask },
            Class::Plate { at } => Class::Plate { at: *at },
            Class::Skip { module } => Class::Skip { module: *module },
            Class::Disturb { module, mask } => Class::Disturb {
                module: *module,
                mask: *mask,
            },
            Class::Flip { word, mask } => Class::Flip {
                word: *word,
                mask: *mask,
            },
            Class::Halt => Class::Halt,
            Class::Timing { offset } => Class::Timing { offset: *offset },
            Class::Wild { questions, opens } => Class::Wild {
                questions: questions.copy(),
                opens: opens.copy(),
            },
            Class::Path1Closed => Class::Path1Closed,
            Class::Path2Closed => Class::Path2Closed,
            Class::PathOpen { path } => Class::PathOpen { path: *path },
            Class::Lapse { after, every } => Class::Lapse {
                after: after.copy(),
                every: *every,
            },
        }
    }

    /// Whether its numbers lie in their ranges.
    #[tactic(auto, unfolding(crate::specs::Faults::IsValidClass))]
    fn is_valid(&self) -> bool
        ensures { IsTrue result ↔ IsValidClass self.now }
    {
        match self {
            Class::Script { track, values } => is_script(*track, values),
            Class::Offset { track, add } => *track < TRACKS && is_offset(*add),
            Class::Bus { mask } => *mask != 0,
            Class::Plate { at } => *at <= 1000,
            Class::Skip { module } => *module < MODULES,
            Class::Disturb { module, mask } => PEDAL <= *module && *module <= PAIRS && *mask != 0,
            Class::Flip { word, mask } => *word < STORED_WORDS && *mask != 0,
            Class::Timing { offset } => *offset <= 99,
            Class::PathOpen { path } => PATH_1 <= *path && *path <= PATH_2,
            Class::Wild { questions, opens } => is_wild(questions, opens),
            Class::Lapse { after, every } => is_lapse(after, *every),
            Class::Halt | Class::Path1Closed | Class::Path2Closed => true,
        }
    }
}

/// Whether a class `Script` of these is valid.
#[tactic(auto, unfolding(crate::specs::Faults::IsValidClass))]
fn is_script(track: u8, values: &Script) -> bool
    ensures { IsTrue result ↔ IsValidClass (Class.Script track values.now) }
{
    // Called for its clause alone: a script has 1 to 64 numbers, and each is a word.
    let _values = values.values();
    track < TRACKS
}

/// Whether a class `Wild` of these is valid, as it always is.
#[tactic(auto, unfolding(crate::specs::Faults::IsValidClass))]
fn is_wild(questions: &Script, opens: &Opens) -> bool
    ensures { IsTrue result ↔ IsValidClass (Class.Wild questions.now opens.now) }
{
    // Called for its clause alone: the questions are 1 to 64 words, the truth values 1 to 64.
    let _questions = questions.values();
    let _opens = opens.values();
    true
}

/// Whether a class `Lapse` of these is valid.
#[tactic(auto, unfolding(crate::specs::Faults::IsValidClass))]
fn is_lapse(after: &Script, every: u16) -> bool
    ensures { IsTrue result ↔ IsValidClass (Class.Lapse after.now every) }
{
    if every > 20_000 {
        return false;
    }
    are_early(after) && are_rising(after)
}

/// Whether a number moves a reading, by at most 65,535.
fn is_offset(add: i32) -> bool
    ensures { IsTrue result ↔ IsOffset add }
{
    add != 0 && add.unsigned_abs() <= 65_535
}

/// Whether each number is at most 19,999.
fn are_early(ticks: &Script) -> bool
    ensures few { AreFew (length ticks.now) }
    ensures early { IsTrue result ↔ All (λ k. k ≤ 19999) ticks.now }
{
    ticks.values().iter().all(|k| *k <= 19_999)
}

/// Whether each number is more than the one before it.
fn are_rising(ticks: &Script) -> bool
    ensures { IsTrue result ↔ IsStrictlyIncreasing ticks.now }
{
    ticks.values().windows(2).all(|pair| pair[0] < pair[1])
}

// What a class does, this many ticks after the onset.
impl Class {
    /// What a track reads, where a sound one reads `sound`.
    #[tactic(auto, unfolding(crate::specs::Effects::no_effects, crate::specs::Faults::effects_of))]
    pub(crate) fn track(&self, after: u32, index: u8, sound: u16) -> u16
        ensures { result ≡ (effects_of self.now after).track index sound }
    {
        match self {
            Class::Script { track, values } if index == *track => in_turn(values, after),
            Class::Offset { track, add } if index == *track => offset_by(*add, sound),
            _ => sound,
        }
    }

    /// What is read as the raise, where `sent` is sent.
    #[tactic(auto, unfolding(crate::specs::Effects::no_effects, crate::specs::Faults::effects_of))]
    pub(crate) fn raise(&self, after: u32, sent: u16) -> u16
        ensures { result ≡ (effects_of self.now after).raise sent }
    {
        match self {
            Class::Bus { mask } => sent ^ mask,
            _ => sent,
        }
    }

    /// Where the plate is held.
    #[tactic(auto, unfolding(crate::specs::Effects::no_effects, crate::specs::Faults::effects_of))]
    pub(crate) fn held_plate(&self, after: u32) -> Option<u16>
        ensures { result ≡ (effects_of self.now after).held_plate }
    {
        match self {
            Class::Plate { at } => Some(*at),
            _ => None,
        }
    }

    /// Whether level 1 runs.
    #[tactic(auto, unfolding(crate::specs::Effects::no_effects, crate::specs::Faults::effects_of))]
    pub(crate) fn level1_runs(&self, after: u32) -> bool
        ensures { result ≡ (effects_of self.now after).level1 }
    {
        !matches!(self, Class::Halt)
    }

    /// Whether the class may change how level 1 and level 2 run. Then it changes nothing else.
    #[tactic(auto, unfolding(crate::specs::Running::may_change_levels))]
    pub(crate) fn may_change_levels(&self) -> bool
        ensures { result ≡ may_change_levels self.now }
    {
        matches!(
            self,
            Class::Skip { .. }
                | Class::Disturb { .. }
                | Class::Flip { .. }
                | Class::Halt
                | Class::Lapse { .. }
        )
    }

    /// Whether the class changes how level 1 and level 2 run.
    #[tactic(auto, unfolding(crate::specs::Running::changes_levels))]
    pub(crate) fn changes_levels(&self, after: u32) -> bool
        ensures { result ≡ changes_levels self.now after }
    {
        match self {
            Class::Skip { .. } | Class::Disturb { .. } | Class::Halt => true,
            Class::Flip { .. } => after == 0,
            Class::Lapse {
                after: ticks,
                every,
            } => is_left_out(ticks, *every, after),
            _ => false,
        }
    }

    /// How the modules of level 2 run.
    #[inline(always)]
    #[tactic(auto, unfolding(crate::specs::Running::runs_of, crate::specs::Running::all_run))]
    pub(crate) fn runs(&self, after: u32) -> ModuleRuns
        ensures { result ≡ runs_of self.now after }
    {
        let mut runs = ModuleRuns::all();
        match self {
            Class::Skip { module } => runs.left_out = *module,
            Class::Disturb { module, mask } => {
                runs.disturbed = *module;
                runs.mask = *mask;
            }
            Class::Halt => runs.none = true,
            Class::Lapse {
                after: ticks,
                every,
            } => runs.none = is_left_out(ticks, *every, after),
            _ => {}
        }
        runs
    }

    /// The word of level 2 that is flipped, and its bits.
    #[tactic(auto, unfolding(crate::specs::Effects::no_effects, crate::specs::Faults::effects_of))]
    pub(crate) fn flip(&self, after: u32) -> Option<(u8, u16)>
        ensures { result ≡ (effects_of self.now after).flip }
    {
        match self {
            Class::Flip { word, mask } if after == 0 => Some((*word, *mask)),
            _ => None,
        }
    }

    /// The tick of a period at which answers are sent, where it isn't the usual one.
    #[tactic(auto, unfolding(crate::specs::Effects::no_effects, crate::specs::Faults::effects_of))]
    pub(crate) fn moved_send(&self, after: u32) -> Option<u16>
        ensures { result ≡ (effects_of self.now after).send }
    {
        match self {
            Class::Timing { offset } => Some(*offset),
            _ => None,
        }
    }

    /// The number of the question that a wild monitoring module asks, and whether it orders path 2 open.
    #[tactic(auto, unfolding(crate::specs::Effects::no_effects, crate::specs::Faults::effects_of))]
    pub(crate) fn wild(&self, after: u32) -> Option<(u16, bool)>
        ensures question { option_map (λ asked. asked.0) result ≡ (effects_of self.now after).wild }
        ensures opens { option_map_or (λ asked. asked.1) result false ≡ (effects_of self.now after).opens }
    {
        match self {
            Class::Wild { questions, opens } => {
                Some((in_turn(questions, after), truth_in_turn(opens, after)))
            }
            _ => None,
        }
    }

    /// Whether path 1 or 2 conducts, where its latch is open (`opened`) or closed.
    #[tactic(auto, unfolding(crate::specs::Effects::no_effects, crate::specs::Faults::effects_of))]
    pub(crate) fn conducts(&self, after: u32, path: u8, opened: bool) -> bool
        ensures { result ≡ (effects_of self.now after).conducts path opened }
    {
        match self {
            Class::Path1Closed => path == PATH_1 || !opened,
            Class::Path2Closed => path == PATH_2 || !opened,
            Class::PathOpen { path: broken } => path != *broken && !opened,
            _ => !opened,
        }
    }
}

/// The number of a script whose turn it is.
#[tactic(auto, unfolding(crate::specs::Faults::in_turn))]
fn in_turn(script: &Script, after: u32) -> u16
    ensures { result ≡ Faults.in_turn script.now after }
{
    let values = script.values();
    values[after as usize % values.len()]
}

/// The truth value whose turn it is.
#[tactic(auto, unfolding(crate::specs::Faults::truth_in_turn))]
fn truth_in_turn(opens: &Opens, after: u32) -> bool
    ensures { result ≡ Faults.truth_in_turn opens.now after }
{
    let values = opens.values();
    values[after as usize % values.len()]
}

/// A reading with something added or taken away, cut at 0 and at 65,535.
#[tactic(auto, unfolding(crate::specs::Faults::offset_by))]
fn offset_by(add: i32, sound: u16) -> u16
    ensures { result ≡ Faults.offset_by add sound }
{
    u32::from(sound).saturating_add_signed(add).min(65_535) as u16
}

/// Whether level 2 is left out at this many ticks after the onset, by the ticks of a lapse.
#[tactic(auto, unfolding(crate::specs::Faults::is_left_out))]
fn is_left_out(ticks: &Script, every: u16, after: u32) -> bool
    ensures { result ≡ Faults.is_left_out ticks.now every after }
{
    let tick = if every == 0 {
        after
    } else {
        after % u32::from(every)
    };
    ticks
        .values()
        .iter()
        .any(|left_out| u32::from(*left_out) == tick)
}
