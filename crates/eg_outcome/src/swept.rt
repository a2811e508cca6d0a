// The run that a sweep plays.
ghost use Rattle.std.specs.Prelude.{◌≡◌, map, IfOk};
ghost use Rattle.eg_outcome.specs.Runs.{without_reset, without_resets};

use eg_base::NoMemory;
use eg_num::Drive;
use eg_plan::{RunInput, SharedItems};
use std::alloc::Global;

/// The same run without the resets of its trace (docs/CONCEPT.md, "`sweep`").
pub fn without_resets(alloc: Global, input: RunInput) -> Result<RunInput, NoMemory>
    ensures { IfOk result (λ one. one ≡ without_resets input) }
{
    let RunInput { plan, drive, image } = input;
    let drive = rows_without_resets(alloc, drive.as_slice())?;
    Ok(RunInput { plan, drive, image })
}

/// The rows of a drive, but without their resets.
fn rows_without_resets(alloc: Global, drive: &[Drive]) -> Result<SharedItems<Drive>, NoMemory>
    ensures { IfOk result (λ rows. rows ≡ map without_reset drive.now) }
{
    let mut rows = Vec::new(alloc);
    for row in drive {
        rows.push(without_reset(row))?;
    }
    SharedItems::of(rows)
}

/// This drive row, but without a reset of the unit.
fn without_reset(row: &Drive) -> Drive
    ensures { result ≡ without_reset row.now }
{
    match Drive::new(row.pedal(), row.speed(), row.raise(), false, row.brake()) {
        Some(row) => row,
        None => unreachable!("its numbers are within their limits"),
    }
}
