// The lines of the report.
ghost use Rattle.std.specs.Prelude.{◌≡◌, ◌++◌, map, string_bytes, IfOk};
ghost use Rattle.std.specs.List.{concat};
ghost use Rattle.eg_record.specs.Texts.{summary_line, report_end};

use eg_base::NoMemory;
use eg_record::{Summary, report_end_text, summary_text};
use std::alloc::Global;

/// The lines of the report on these runs, in their order, and its last line (docs/FORMATS.md, "The report").
pub(crate) fn report_lines(alloc: Global, summaries: &[Summary]) -> Result<Vec<String>, NoMemory>
    ensures { IfOk result (λ lines. concat (map string_bytes lines.items)
        ≡ concat (map summary_line summaries.now) ++ report_end summaries.now) }
{
    let mut lines = summary_lines(alloc, summaries)?;
    let end = report_end_text(alloc, summaries)?;
    lines.push(end)?;
    Ok(lines)
}

/// A line for each run.
fn summary_lines(alloc: Global, summaries: &[Summary]) -> Result<Vec<String>, NoMemory>
    ensures { IfOk result (λ lines. concat (map string_bytes lines.items)
        ≡ concat (map summary_line summaries.now)) }
{
    let mut lines = Vec::new(alloc);
    for summary in summaries {
        let line = summary_text(alloc, summary)?;
        lines.push(line)?;
    }
    Ok(lines)
}
