// The lines of the summary of `soak`.
ghost use Rattle.std.specs.Prelude.{◌≡◌, ◌++◌, ◌∷◌, [], ℕ, List, map, string_bytes, IfOk, OnOk};
ghost use Rattle.eg_soak.specs.Texts.{lines_of, numbers};

use crate::SoakSummary;
use eg_base::NoMemory;
use std::alloc::Global;

/// The lines of a summary, one for each of its numbers, each with its LF (docs/FORMATS.md, "The summary of
/// `soak`"). NoMemory is its one refusal.
pub fn soak_lines(alloc: Global, summary: &SoakSummary) -> Result<Vec<String>, NoMemory>
    ensures { IfOk result (λ lines. map string_bytes lines.items ≡ lines_of (numbers summary.now)) }
{
    let mut lines = Vec::new(alloc);
    push(alloc, &mut lines, "runs", summary.runs)?;
    push(alloc, &mut lines, "none", summary.none)?;
    let [mirror, pedal, plate, load, speed, torque, answers] = summary.by_watch;
    push(alloc, &mut lines, "mirror", mirror)?;
    push(alloc, &mut lines, "pedal", pedal)?;
    push(alloc, &mut lines, "plate", plate)?;
    push(alloc, &mut lines, "load", load)?;
    push(alloc, &mut lines, "speed", speed)?;
    push(alloc, &mut lines, "torque", torque)?;
    push(alloc, &mut lines, "answers", answers)?;
    push(alloc, &mut lines, "trapped", summary.trapped)?;
    push(alloc, &mut lines, "off", summary.off)?;
    push(alloc, &mut lines, "longest", summary.longest)?;
    Ok(lines)
}

/// Appends the line of a number.
fn push(alloc: Global, lines: &mut Vec<String>, name: &str, number: u32) -> Result<(), NoMemory>
    ensures { (before : List (List ℕ × ℕ)) → map string_bytes lines.old.items ≡ lines_of before
        → OnOk result (map string_bytes lines.new.items ≡ lines_of (before ++ (name.now, number) ∷ [])) }
{
    let line = format!(in alloc; "{name} {number}\n")?;
    lines.push(line)?;
    Ok(())
}
