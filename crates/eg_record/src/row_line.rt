// The line of a row.
ghost use Rattle.std.specs.Prelude.{◌≡◌, ◌+◌, ◌≤◌, ◌<◌, ◌++◌, ◌∷◌, [], length, drop, codes, string_bytes, vec_len, vec_capacity, IfOk, OnOk, OnErr, IsOk, if◌then◌else◌};
ghost use Rattle.std.specs.Str.{IsAscii, IsUtf8};
ghost use Rattle.eg_record.specs.Texts.{plus, watch_name, found_text, answer_text, verdict_text};
ghost use Rattle.eg_record.specs.Texts.{numbers_text, row_numbers, events_text, row_line, record_header};

use crate::numbers::{NUMBER_ROOM, put_numbers};
use crate::{AnswerMark, Row, Verdict, Watch, Watches};
use eg_base::NoMemory;
use std::alloc::Global;

/// The line above the rows of a record, with its LF (docs/FORMATS.md, "The record").
#[tactic(auto, unfolding(crate::specs::Texts::record_header))]
pub fn record_header() -> &'static str
    ensures { result.now ≡ record_header }
{
    "tick,pedal,speed,raise,plate,charge,torque,limit,path1,path2,on,\
     used,permitted,actual,excess,pairs,throttle,ignition,found,answer,verdict\n"
}

/// How many columns of a row are numbers or truth values.
const NUMBERS: usize = 18;

/// How many bytes are room enough for the line of a row: its numbers, each with a comma behind it, the names
/// of all watches, the answer and the verdict.
pub const ROW_ROOM: usize = NUMBERS * NUMBER_ROOM + FOUND_ROOM + 14;

/// How many bytes are room enough for the names of all watches.
pub const FOUND_ROOM: usize = 64;

/// Appends the line of a row, with its LF, to a text (docs/FORMATS.md, "The record"). NoMemory is its one
/// refusal: the text has no room for the line, and memory for more ran out. Then the text stays as it was.
/// A text with room for `ROW_ROOM` bytes more has room for the line of any row.
pub fn push_row(text: &mut Vec<u8>, row: &Row) -> Result<(), NoMemory>
    ensures line { OnOk result (text.new.items ≡ text.old.items ++ row_line row.now) }
    ensures is_text { IsUtf8 (row_line row.now) }
    ensures fits { length (row_line row.now) ≤ ROW_ROOM }
    ensures room { vec_len text.old + length (row_line row.now) ≤ vec_capacity text.old → IsOk result }
    ensures keeps_room { vec_capacity text.old ≤ vec_capacity text.new }
    ensures kept { OnErr result (text.new.items ≡ text.old.items) }
{
    let mut line = [0; ROW_ROOM];
    let start = put_row_line(row, &mut line);
    text.extend_from_slice(&line[start..])?;
    Ok(())
}

/// The line of a row, with its LF (docs/FORMATS.md, "The record"). NoMemory is its one refusal.
pub fn row_text(alloc: Global, row: &Row) -> Result<String, NoMemory>
    ensures { IfOk result (λ line. string_bytes line ≡ row_line row.now) }
{
    let mut line = Vec::new(alloc);
    push_row(&mut line, row)?;
    match String::from_utf8(line) {
        Ok(line) => Ok(line),
        Err(_) => unreachable!("the line of a row is ASCII"),
    }
}

/// Puts the line of a row, with its LF, to the end of an array, and tells where it starts (docs/FORMATS.md,
/// "The record"). Columns are put from the last to the first, since the digits of a number are found so.
pub fn put_row_line(row: &Row, line: &mut [u8; ROW_ROOM]) -> usize
    ensures put { drop result line.new ≡ row_line row.now }
    ensures ascii { IsAscii (numbers_text (row_numbers row.now)) }
    ensures start { result ≤ ROW_ROOM }
{
    let start = put_events(row, line, ROW_ROOM);
    put_numbers(&numbers_of(row), line, start)
}

/// The columns of a row that are numbers, in their order. A truth value is 0 or 1.
#[tactic(auto, unfolding(crate::specs::Texts::row_numbers))]
fn numbers_of(row: &Row) -> [u32; NUMBERS]
    ensures { result ≡ row_numbers row.now }
{
    let [used, permitted, actual, excess, pairs] = row.signals;
    [
        row.tick,
        u32::from(row.drive.pedal()),
        u32::from(row.drive.speed()),
        u32::from(row.drive.raise()),
        u32::from(row.plate),
        u32::from(row.charge),
        u32::from(row.torque),
        u32::from(row.limit),
        u32::from(row.path1),
        u32::from(row.path2),
        u32::from(row.on),
        u32::from(used),
        u32::from(permitted),
        u32::from(actual),
        u32::from(excess),
        u32::from(pairs),
        u32::from(row.throttle),
        u32::from(row.ignition),
    ]
}

/// Puts bytes before a place of a line, and tells where they start.
fn put_bytes(bytes: &[u8], line: &mut [u8], end: usize) -> usize
    requires room { length bytes.now ≤ end }
    requires within { end ≤ length line.old }
    ensures put { drop result line.new ≡ bytes.now ++ drop end line.old }
    ensures start { result + length bytes.now ≡ end }
{
    let start = end - bytes.len();
    line[start..end].copy_from_slice(bytes);
    start
}

/// Puts the columns of what is found and heard, and LF.
#[tactic(auto, unfolding(crate::specs::Texts::events_text))]
fn put_events(row: &Row, line: &mut [u8], end: usize) -> usize
    requires room { 78 ≤ end }
    requires within { end ≤ length line.old }
    ensures put { drop result line.new ≡ events_text row.now ++ codes "\n" ++ drop end line.old }
    ensures few { end ≤ result + 78 }
    ensures start { result ≤ end }
{
    let start = put_bytes(verdict_text(row.verdict), line, end);
    let start = put_bytes(answer_text(row.answer), line, start);
    put_found(&row.found, line, start)
}

/// Puts the names of the watches that are found, or `-`, before a place of a line, and tells where they
/// start.
pub fn put_found(found: &Watches, line: &mut [u8], end: usize) -> usize
    requires room { 64 ≤ end }
    requires within { end ≤ length line.old }
    ensures put { drop result line.new ≡ found_text found.now ++ drop end line.old }
    ensures few { end ≤ result + 64 }
    ensures start { result ≤ end }
{
    let mut start = end;
    for i in (0..Watch::ORDER.len()).rev() {
        let watch = Watch::ORDER[i];
        if watch.is_among(found) {
            start = put_name(watch, start == end, line, start);
        }
    }
    if start == end {
        return put_bytes(b"-", line, end);
    }
    start
}

/// Puts the name of a watch, and a `+` behind it where it isn't the last.
fn put_name(watch: Watch, is_last: bool, line: &mut [u8], end: usize) -> usize
    requires room { 8 ≤ end }
    requires within { end ≤ length line.old }
    ensures put { drop result line.new
        ≡ watch_name watch ++ (if is_last then [] else plus ∷ []) ++ drop end line.old }
    ensures few { end ≤ result + 8 }
    ensures some { result < end }
{
    let end = if is_last {
        end
    } else {
        put_bytes(b"+", line, end)
    };
    put_bytes(name_of(watch), line, end)
}

/// The name of a watch, which has 4 to 7 letters.
fn name_of(watch: Watch) -> &'static [u8]
    ensures name { result.now ≡ watch_name watch }
    ensures some { 1 ≤ length result.now }
    ensures short { length result.now ≤ 7 }
{
    watch.name().as_bytes()
}

/// A comma, and the mark of a tick.
#[tactic(auto, unfolding(crate::specs::Texts::answer_text))]
fn answer_text(answer: AnswerMark) -> &'static [u8]
    ensures text { result.now ≡ codes "," ++ answer_text answer }
    ensures short { length result.now ≤ 5 }
{
    match answer {
        AnswerMark::Absent => b",-",
        AnswerMark::Good => b",good",
        AnswerMark::Bad => b",bad",
    }
}

/// A comma, the verdict of a tick, and LF.
#[tactic(auto, unfolding(crate::specs::Texts::verdict_text))]
fn verdict_text(verdict: Option<Verdict>) -> &'static [u8]
    ensures text { result.now ≡ codes "," ++ verdict_text verdict ++ codes "\n" }
    ensures short { length result.now ≤ 7 }
{
    match verdict {
        None => b",-\n",
        Some(Verdict::Right) => b",right\n",
        Some(Verdict::Wrong) => b",wrong\n",
    }
}
