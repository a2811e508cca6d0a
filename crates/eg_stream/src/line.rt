// The lines of `couple`.
ghost use Rattle.std.specs.Prelude.{◌≡◌, ◌++◌, OnOk};
ghost use Rattle.eg_stream.specs.Texts.{coupled_header, commands_text, held_text, first_line, coupled_line};

use eg_base::NoMemory;
use eg_record::{NUMBER_ROOM, Row, push_row, put_numbers};
use eg_tick::Commands;
use itoa::write_digits;

/// The line above the rows, with its LF (docs/FORMATS.md, "The lines of `couple`").
#[tactic(auto, unfolding(crate::specs::Texts::coupled_header))]
pub(crate) fn coupled_header() -> &'static str
    ensures { result.now ≡ coupled_header }
{
    "tick,pedal,speed,raise,plate,charge,torque,limit,path1,path2,on,\
     used,permitted,actual,excess,pairs,throttle,ignition,found,answer,verdict,\
     next_throttle,next_ignition,next_on,next_held\n"
}

/// What stands before the columns of what is commanded, where there was no tick yet.
const NO_ROW: &[u8] = b"-,-,-,-,-,-,-,-,-,-,-,-,-,-,-,-,-,-,-,-,-,";

/// Appends the line before the first tick, with its LF, to a text.
pub(crate) fn push_first(text: &mut Vec<u8>, next: &Commands) -> Result<(), NoMemory>
    ensures { OnOk result (text.new.items ≡ text.old.items ++ first_line next.now) }
{
    text.extend_from_slice(NO_ROW)?;
    push_commands(text, next)
}

/// Appends the line of a row and of what is commanded next, with its LF, to a text.
pub(crate) fn push_coupled(text: &mut Vec<u8>, row: &Row, next: &Commands) -> Result<(), NoMemory>
    ensures { OnOk result (text.new.items ≡ text.old.items ++ coupled_line row.now next.now) }
{
    push_row(text, row)?;
    // A comma takes the place of the row's LF.
    text.pop();
    text.push(b',')?;
    push_commands(text, next)
}

/// Appends the columns of what is commanded, and an LF, to a text.
#[tactic(auto, unfolding(crate::specs::Texts::commands_text))]
fn push_commands(text: &mut Vec<u8>, next: &Commands) -> Result<(), NoMemory>
    ensures { OnOk result (text.new.items ≡ text.old.items ++ commands_text next.now) }
{
    let numbers = [
        u32::from(next.throttle),
        u32::from(next.ignition),
        u32::from(next.on),
    ];
    let mut columns = [0; COMMANDS_ROOM];
    let start = put_numbers(&numbers, &mut columns, COMMANDS_ROOM);
    text.extend_from_slice(&columns[start..])?;
    push_held(text, next.held)?;
    text.push(b'\n')?;
    Ok(())
}

/// How many bytes are room enough for the three numbers of what is commanded.
const COMMANDS_ROOM: usize = 3 * NUMBER_ROOM;

/// Appends where the plate is held, or `-`, to a text.
#[tactic(auto, unfolding(crate::specs::Texts::held_text))]
fn push_held(text: &mut Vec<u8>, held: Option<u16>) -> Result<(), NoMemory>
    ensures { OnOk result (text.new.items ≡ text.old.items ++ held_text held) }
{
    let Some(at) = held else {
        text.push(b'-')?;
        return Ok(());
    };
    let mut digits = [0; 5];
    let start = write_digits(u64::from(at), &mut digits, 5);
    text.extend_from_slice(&digits[start..])?;
    Ok(())
}
