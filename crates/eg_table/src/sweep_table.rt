// The table of a sweep.
ghost use Rattle.std.specs.Prelude.{◌≡◌, ◌≤◌, ◌<◌, ◌+◌, All, length};
ghost use Rattle.std.specs.List.{sum, sum_by};
ghost use Rattle.eg_table.specs.Sweep.{table_of};

use crate::SweepRow;
use eg_fault::{CLASSES, Fault};
use eg_record::Facts;

/// What comes of the runs under these faults, at most 1,000, `facts` being those of each run in the same
/// order: a row for each class, in the order of `Class` (docs/CONCEPT.md, "`sweep`"). It takes no memory.
pub fn tabulate(faults: &[Fault], facts: &[Facts]) -> [SweepRow; CLASSES]
    requires same { length faults.now ≡ length facts.now }
    requires few { length faults.now ≤ 1000 }
    ensures rows { result ≡ table_of faults.now facts.now }
    // Each run is counted once: under its class, and there by its first watch or where none is found.
    ensures runs { sum_by (λ row. row.runs) result ≡ length faults.now }
    ensures watches { All (λ row. row.none + sum row.by_watch ≡ row.runs) result }
{
    let mut rows = [SweepRow::new(); CLASSES];
    for (fault, of_run) in faults.iter().zip(facts) {
        rows[fault.class.name().index()].add(of_run);
    }
    rows
}
