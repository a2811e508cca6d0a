// The line of a tick.
ghost use Rattle.std.specs.Prelude.{◌≡◌, ◌++◌, OnOk, OnErr};
ghost use Rattle.eg_replay.specs.Texts.{signal_numbers, signals_header, signals_line};

use crate::TickSignals;
use eg_base::NoMemory;
use eg_record::{FOUND_ROOM, NUMBER_ROOM, put_found, put_numbers};

/// The line above the ticks, with its LF (docs/FORMATS.md, "The rows of `signals`").
#[tactic(auto, unfolding(crate::specs::Texts::signals_header))]
pub fn signals_header() -> &'static str
    ensures { result.now ≡ signals_header }
{
    "tick,used,permitted,actual,excess,pairs,pedal,plate,load,speed,torque,found\n"
}

/// How many columns of a line are numbers.
const NUMBERS: usize = 11;

/// How many bytes are room enough for a line: its numbers, the names of all watches, and the LF.
const LINE_ROOM: usize = NUMBERS * NUMBER_ROOM + FOUND_ROOM + 1;

/// Appends the line of the tick of this number, with its LF, to a text (docs/FORMATS.md, "The rows of
/// `signals`"). NoMemory is its one refusal. Then the text stays as it was.
pub fn push_signals(text: &mut Vec<u8>, tick: u32, told: &TickSignals) -> Result<(), NoMemory>
    ensures line { OnOk result (text.new.items ≡ text.old.items ++ signals_line tick told.now) }
    ensures kept { OnErr result (text.new.items ≡ text.old.items) }
{
    let mut line = [b'\n'; LINE_ROOM];
    let start = put_found(&told.found, &mut line, LINE_ROOM - 1);
    let start = put_numbers(&numbers_of(tick, told), &mut line, start);
    text.extend_from_slice(&line[start..])?;
    Ok(())
}

/// The columns of a line that are numbers: that of the tick, its five signals, and the five weights after it.
#[tactic(auto, unfolding(crate::specs::Texts::signal_numbers))]
fn numbers_of(tick: u32, told: &TickSignals) -> [u32; NUMBERS]
    ensures { result ≡ signal_numbers tick told.now }
{
    let [used, permitted, actual, excess, pairs] = told.signals;
    let counters = &told.counters;
    [
        tick,
        u32::from(used),
        u32::from(permitted),
        u32::from(actual),
        u32::from(excess),
        u32::from(pairs),
        u32::from(counters.pedal),
        u32::from(counters.plate),
        u32::from(counters.load),
        u32::from(counters.speed),
        u32::from(counters.torque),
    ]
}
