// What finds each class of fault, and within which time.
ghost use Rattle.std.specs.Prelude.{◌≡◌, ◌≤◌, ◌<◌, ◌++◌, IfSome, IfOk, OnOk, string_bytes};
ghost use Rattle.eg_outcome.specs.Changes.{change_of};
ghost use Rattle.eg_desk.specs.Coverage.{AreTicks, found, unfound, lapse_off, lapse_numbers, numbers_of, case_words, case_stakes, case_watch, found_text, off_text, hidden_text, coverage_line, coverage_lines, coverage_text, TellsCoverage};

use crate::limit::missed_of;
use eg_answer::{feeds_to_confirm, reaction};
use eg_base::{NoMemory, Sink};
use eg_module::test_ticks;
use eg_outcome::{Outcome, put_text};
use eg_values::Calibration;
use std::alloc::{AllocError, Global};

/// A class of fault, or a part of one, that the laws tell apart (docs/FORMATS.md, "The rows of `coverage`").
#[derive(Clone, Copy)]
pub enum CoverageCase {
    /// A track reads a script, so that the pair of the pedal disagrees at as many ticks in a row as confirm
    /// it.
    ScriptPedal,
    /// Likewise that of the throttle plate.
    ScriptPlate,
    /// Likewise that of the load.
    ScriptLoad,
    /// Likewise that of the speed.
    ScriptSpeed,
    /// A track reads a script, so that no pair disagrees at so many ticks.
    ScriptWithin,
    /// A contact of the brake reads a script.
    ScriptContact,
    /// A track has an offset, so that the pair of the pedal disagrees at as many ticks in a row as confirm
    /// it.
    OffsetPedal,
    /// Likewise that of the throttle plate.
    OffsetPlate,
    /// Likewise that of the load.
    OffsetLoad,
    /// Likewise that of the speed.
    OffsetSpeed,
    /// A track has an offset, so that no pair disagrees at so many ticks.
    OffsetWithin,
    /// A contact of the brake has an offset.
    OffsetContact,
    /// The raise is disturbed on its way.
    Bus,
    /// The plate is held.
    Plate,
    /// A module of level 2 doesn't run.
    Skip,
    /// A module of level 2 is disturbed.
    Disturb,
    /// A word of level 2 is flipped.
    Flip,
    /// Neither level 1 nor level 2 runs.
    Halt,
    /// Answers are sent outside the window in which they may come.
    TimingOutside,
    /// Answers are sent at a tick of that window.
    TimingInside,
    /// The monitoring module is wild, and orders path 2 open at times.
    WildOpens,
    /// It is wild, and never does.
    WildNever,
    /// Path 1 is held closed in a drive span.
    Path1Driven,
    /// Path 1 is held closed in a test span.
    Path1Tested,
    /// Path 2 is held closed in a drive span.
    Path2Driven,
    /// Path 2 is held closed in a test span.
    Path2Tested,
    /// A path doesn't conduct.
    PathOpen,
    /// Level 2 is left out at some ticks.
    Lapse,
}

impl CoverageCase {
    /// The cases in their order, which is that of the classes.
    pub const ORDER: [CoverageCase; 28] = [
        CoverageCase::ScriptPedal,
        CoverageCase::ScriptPlate,
        CoverageCase::ScriptLoad,
        CoverageCase::ScriptSpeed,
        CoverageCase::ScriptWithin,
        CoverageCase::ScriptContact,
        CoverageCase::OffsetPedal,
        CoverageCase::OffsetPlate,
        CoverageCase::OffsetLoad,
        CoverageCase::OffsetSpeed,
        CoverageCase::OffsetWithin,
        CoverageCase::OffsetContact,
        CoverageCase::Bus,
        CoverageCase::Plate,
        CoverageCase::Skip,
        CoverageCase::Disturb,
        CoverageCase::Flip,
        CoverageCase::Halt,
        CoverageCase::TimingOutside,
        CoverageCase::TimingInside,
        CoverageCase::WildOpens,
        CoverageCase::WildNever,
        CoverageCase::Path1Driven,
        CoverageCase::Path1Tested,
        CoverageCase::Path2Driven,
        CoverageCase::Path2Tested,
        CoverageCase::PathOpen,
        CoverageCase::Lapse,
    ];

    /// The first two fields of its row: its class and the case.
    #[tactic(auto, unfolding(crate::specs::Coverage::case_words))]
    fn words(self) -> &'static str
        ensures { result.now ≡ case_words self }
    {
        match self {
            CoverageCase::ScriptPedal => "script,pedal apart by more than its tolerance",
            CoverageCase::ScriptPlate => "script,plate apart by more than its tolerance",
            CoverageCase::ScriptLoad => "script,load apart by more than its tolerance",
            CoverageCase::ScriptSpeed => "script,speed apart by more than its tolerance",
            CoverageCase::ScriptWithin => "script,any pair apart within its tolerance",
            CoverageCase::ScriptContact => "script,a contact of the brake",
            CoverageCase::OffsetPedal => "offset,pedal apart by more than its tolerance",
            CoverageCase::OffsetPlate => "offset,plate apart by more than its tolerance",
            CoverageCase::OffsetLoad => "offset,load apart by more than its tolerance",
            CoverageCase::OffsetSpeed => "offset,speed apart by more than its tolerance",
            CoverageCase::OffsetWithin => "offset,any pair apart within its tolerance",
            CoverageCase::OffsetContact => "offset,a contact of the brake",
            CoverageCase::Bus => "bus,any mask",
            CoverageCase::Plate => "plate,any angle",
            CoverageCase::Skip => "skip,any module",
            CoverageCase::Disturb => "disturb,any module",
            CoverageCase::Flip => "flip,any word",
            CoverageCase::Halt => "halt,both levels",
            CoverageCase::TimingOutside => "timing,answers outside the window",
            CoverageCase::TimingInside => "timing,answers inside the window",
            CoverageCase::WildOpens => "wild,opens path 2 at times",
            CoverageCase::WildNever => "wild,never opens path 2",
            CoverageCase::Path1Driven => "path1-closed,without a reset",
            CoverageCase::Path1Tested => "path1-closed,with a reset",
            CoverageCase::Path2Driven => "path2-closed,without a reset",
            CoverageCase::Path2Tested => "path2-closed,with a reset",
            CoverageCase::PathOpen => "path-open,either path",
            CoverageCase::Lapse => "lapse,level 2 left out at times",
        }
    }

    /// The one behind them: what is at stake.
    #[tactic(auto, unfolding(crate::specs::Coverage::case_stakes))]
    fn stakes(self) -> &'static str
        ensures { result.now ≡ case_stakes self }
    {
        match self {
            CoverageCase::ScriptPedal | CoverageCase::OffsetPedal => ",wrong pedal is seen",
            CoverageCase::ScriptPlate | CoverageCase::OffsetPlate => ",wrong plate is seen",
            CoverageCase::ScriptLoad | CoverageCase::OffsetLoad => ",wrong load is seen",
            CoverageCase::ScriptSpeed | CoverageCase::OffsetSpeed => ",wrong speed is seen",
            CoverageCase::ScriptWithin
            | CoverageCase::ScriptContact
            | CoverageCase::OffsetWithin
            | CoverageCase::OffsetContact => ",level 2 errs to the safe side",
            CoverageCase::Bus => ",raise taken as 0",
            CoverageCase::Plate => ",torque not as ordered",
            CoverageCase::Skip | CoverageCase::Disturb | CoverageCase::TimingOutside => {
                ",no answer is right"
            }
            CoverageCase::Flip => ",a wrong word of level 2",
            CoverageCase::Halt => ",outputs stay as they are",
            CoverageCase::TimingInside => ",one verdict may be wrong",
            CoverageCase::WildOpens | CoverageCase::PathOpen => ",cut without need",
            CoverageCase::Path1Driven | CoverageCase::Path1Tested => ",no cut by path 1",
            CoverageCase::WildNever | CoverageCase::Path2Driven | CoverageCase::Path2Tested => {
                ",no cut by path 2"
            }
            CoverageCase::Lapse => ",late cut",
        }
    }

    /// The watch that finds it, if one does.
    #[tactic(auto, unfolding(crate::specs::Coverage::case_watch))]
    fn watch(self) -> &'static str
        ensures { result.now ≡ case_watch self }
    {
        match self {
            CoverageCase::ScriptPedal | CoverageCase::OffsetPedal => "pedal",
            CoverageCase::ScriptPlate | CoverageCase::OffsetPlate => "plate",
            CoverageCase::ScriptLoad | CoverageCase::OffsetLoad => "load",
            CoverageCase::ScriptSpeed | CoverageCase::OffsetSpeed => "speed",
            CoverageCase::Skip
            | CoverageCase::Disturb
            | CoverageCase::Halt
            | CoverageCase::TimingOutside
            | CoverageCase::Lapse => "answers",
            CoverageCase::Flip => "mirror",
            CoverageCase::Path1Tested | CoverageCase::Path2Tested => "start",
            _ => "-",
        }
    }
}

/// When the stages are off for good under a fault.
#[derive(Clone, Copy)]
pub enum Off {
    /// Nothing says so.
    Never,
    /// From so many ticks after the tick from which a fault has to be found.
    After(u32),
    /// From so many ticks after the first tick by which a true excess is confirmed.
    Confirmed(u32),
    /// From so many ticks after the first order to open path 2.
    Ordered(u32),
    /// No true excess lasts so many ticks.
    Excess(u32),
}

/// The numbers of a row.
#[derive(Clone, Copy)]
pub struct CoverageRow {
    /// Within how many ticks it is found, if anything finds it.
    pub within: Option<u32>,
    /// When the stages are off.
    pub off: Off,
    /// Whether a run of any length may show nothing of it.
    pub hidden: bool,
}

/// What the numbers of all rows are made of.
#[derive(Clone, Copy)]
pub struct CoverageTicks {
    /// How many ticks in a row at which a pair disagrees confirm it.
    pub pair: u32,
    /// The worst-case reaction.
    pub reaction: u32,
    /// The tick of its span at which a start-up test reads the shut-off paths back.
    pub test: u32,
    /// How many wrong verdicts in a row confirm.
    pub verdicts: u32,
    /// How many ticks in a row an excess lasts at the most under lapses, if a number is proved for the
    /// calibration.
    pub missed: Option<u32>,
}

/// What the numbers of the rows are made of, by this calibration.
fn ticks_of(calibration: &Calibration) -> CoverageTicks
    ensures are { AreTicks calibration.now result }
    ensures test { result.test ≤ 1000000 }
    ensures missed { IfSome result.missed (λ ticks. ticks < 200000000) }
{
    let times = calibration.times();
    CoverageTicks {
        pair: feeds_to_confirm(&calibration.rules().pair),
        reaction: reaction(times),
        test: test_ticks(times),
        verdicts: feeds_to_confirm(times.weights()),
        missed: missed_of(calibration),
    }
}

/// The row of a fault that is found within so many ticks.
fn found(within: u32, off: Off) -> CoverageRow
    ensures { result ≡ found within off }
{
    CoverageRow {
        within: Some(within),
        off,
        hidden: false,
    }
}

/// The row of a fault that nothing need find, and that can stay hidden.
fn unfound(off: Off) -> CoverageRow
    ensures { result ≡ unfound off }
{
    CoverageRow {
        within: None,
        off,
        hidden: true,
    }
}

/// How long a true excess may last under a lapse, if a number is proved for the calibration.
#[tactic(auto, unfolding(crate::specs::Coverage::lapse_off))]
fn lapse_off(longest: Option<u32>) -> Off
    requires { IfSome longest (λ ticks. ticks < 200000000) }
    ensures { result ≡ lapse_off longest }
{
    match longest {
        Some(longest) => Off::Excess(longest + 1),
        None => Off::Never,
    }
}

/// The numbers of the row of a lapse: it is found where one wrong verdict confirms, else it can stay hidden.
#[tactic(auto, unfolding(crate::specs::Coverage::lapse_numbers))]
fn lapse_numbers(ticks: &CoverageTicks) -> CoverageRow
    requires { IfSome ticks.now.missed (λ ticks. ticks < 200000000) }
    ensures { result ≡ lapse_numbers ticks.now }
{
    if ticks.verdicts == 1 {
        found(ticks.reaction, Off::After(ticks.reaction))
    } else {
        unfound(lapse_off(ticks.missed))
    }
}

/// The numbers of the row of a case (docs/FORMATS.md, "The rows of `coverage`").
#[tactic(auto, unfolding(crate::specs::Coverage::numbers_of))]
fn numbers_of(ticks: &CoverageTicks, case: CoverageCase) -> CoverageRow
    requires test { ticks.now.test ≤ 1000000 }
    requires missed { IfSome ticks.now.missed (λ ticks. ticks < 200000000) }
    ensures { result ≡ numbers_of ticks.now case }
{
    match case {
        CoverageCase::ScriptPedal | CoverageCase::OffsetPedal => {
            found(ticks.pair, Off::Confirmed(1))
        }
        CoverageCase::ScriptPlate
        | CoverageCase::ScriptLoad
        | CoverageCase::ScriptSpeed
        | CoverageCase::OffsetPlate
        | CoverageCase::OffsetLoad
        | CoverageCase::OffsetSpeed => found(ticks.pair, Off::After(ticks.pair)),
        CoverageCase::Skip
        | CoverageCase::Disturb
        | CoverageCase::Halt
        | CoverageCase::TimingOutside => found(ticks.reaction, Off::After(ticks.reaction)),
        CoverageCase::Flip => found(1, Off::After(1)),
        CoverageCase::Path1Tested | CoverageCase::Path2Tested => {
            found(ticks.test + 1, Off::After(0))
        }
        CoverageCase::WildOpens => unfound(Off::Ordered(1)),
        CoverageCase::Path1Driven => unfound(Off::Confirmed(ticks.reaction)),
        CoverageCase::PathOpen => unfound(Off::After(0)),
        CoverageCase::Lapse => lapse_numbers(ticks),
        _ => unfound(Off::Confirmed(1)),
    }
}

/// Puts a header and a row for each case: by which watch the fault is found, and within which time
/// (docs/FORMATS.md, "The rows of `coverage`").
pub fn put_coverage<K: Sink>(alloc: Global, calibration: &Calibration, out: &mut K) -> Outcome
    ensures { TellsCoverage calibration.now (change_of K.shows out.old out.new) result }
{
    match coverage_text(alloc, &ticks_of(calibration)) {
        Ok(text) => put_text(text.as_bytes(), out),
        Err(NoMemory) => Outcome::Memory,
    }
}

/// The header and all rows.
#[tactic(auto, unfolding(crate::specs::Coverage::coverage_text))]
fn coverage_text(alloc: Global, ticks: &CoverageTicks) -> Result<String, NoMemory>
    requires test { ticks.now.test ≤ 1000000 }
    requires missed { IfSome ticks.now.missed (λ ticks. ticks < 200000000) }
    ensures { IfOk result (λ text. string_bytes text ≡ coverage_text ticks.now) }
{
    let mut text = String::new(alloc);
    text.push_str("class,case,effect,finds,within,off,hidden\n")?;
    push_rows(&mut text, ticks, &CoverageCase::ORDER)?;
    Ok(text)
}

/// Appends the rows of these cases.
fn push_rows(
    text: &mut String,
    ticks: &CoverageTicks,
    cases: &[CoverageCase],
) -> Result<(), AllocError>
    requires test { ticks.now.test ≤ 1000000 }
    requires missed { IfSome ticks.now.missed (λ ticks. ticks < 200000000) }
    ensures { OnOk result (string_bytes text.new
        ≡ string_bytes text.old ++ coverage_lines ticks.now cases.now) }
{
    for case in cases {
        push_row(text, ticks, *case)?;
    }
    Ok(())
}

/// Appends the row of a case.
fn push_row(text: &mut String, ticks: &CoverageTicks, case: CoverageCase) -> Result<(), AllocError>
    requires test { ticks.now.test ≤ 1000000 }
    requires missed { IfSome ticks.now.missed (λ ticks. ticks < 200000000) }
    ensures { OnOk result (string_bytes text.new ≡ string_bytes text.old ++ coverage_line ticks.now case) }
{
    let row = numbers_of(ticks, case);
    text.push_str(case.words())?;
    text.push_str(case.stakes())?;
    push_found(text, case, row.within)?;
    push_off(text, row.off)?;
    push_hidden(text, row.hidden)
}

/// Appends which watch finds it and within how many ticks, or `-` twice.
#[tactic(auto, unfolding(crate::specs::Coverage::found_text))]
fn push_found(text: &mut String, case: CoverageCase, within: Option<u32>) -> Result<(), AllocError>
    ensures { OnOk result (string_bytes text.new ≡ string_bytes text.old ++ found_text case within) }
{
    match within {
        Some(ticks) => write!(text, ",{},{ticks}", case.watch()),
        None => text.push_str(",-,-"),
    }
}

/// Appends when the stages are off, or `-`.
#[tactic(auto, unfolding(crate::specs::Coverage::off_text))]
fn push_off(text: &mut String, off: Off) -> Result<(), AllocError>
    ensures { OnOk result (string_bytes text.new ≡ string_bytes text.old ++ off_text off) }
{
    match off {
        Off::Never => text.push_str(",-"),
        Off::After(ticks) => write!(text, ",{ticks}"),
        Off::Confirmed(ticks) => write!(text, ",confirmed + {ticks}"),
        Off::Ordered(ticks) => write!(text, ",ordered + {ticks}"),
        Off::Excess(ticks) => write!(text, ",excess < {ticks}"),
    }
}

/// Appends whether it may stay hidden, and the end of the line.
#[tactic(auto, unfolding(crate::specs::Coverage::hidden_text))]
fn push_hidden(text: &mut String, hidden: bool) -> Result<(), AllocError>
    ensures { OnOk result (string_bytes text.new ≡ string_bytes text.old ++ hidden_text hidden) }
{
    if hidden {
        text.push_str(",1\n")
    } else {
        text.push_str(",0\n")
    }
}
