// The drives of the runs of a campaign, of which equal ones are kept once.
ghost use Rattle.std.specs.Prelude.{◌≡◌, IfOk, IfSome};

use crate::SharedItems;
use crate::drive_number::number_of_drive;
use eg_base::NoMemory;
use eg_num::Drive;
use std::alloc::Global;
use std::collections::HashMap;

/// How many rows at the beginning of a drive, and as many at its end, make its number.
const SAMPLE: usize = 64;

/// The drives that were kept so far, each under a number that is made of its length and of some of its rows.
/// Equal ones are meant to be kept once: no contract says so, but that each has the rows that it was made of.
#[derive(Drop)]
pub struct Drives {
    by_number: HashMap<u64, SharedItems<Drive>>,
}

impl Drives {
    /// No drives. Takes no memory.
    pub fn new(alloc: Global) -> Drives {
        Drives {
            by_number: HashMap::new(alloc),
        }
    }

    /// The drive of these rows, shared with one that was kept before where that has the same. Rows are
    /// compared only where the numbers are equal. NoMemory is its one refusal.
    pub fn keep(&mut self, rows: Vec<Drive>) -> Result<SharedItems<Drive>, NoMemory>
        ensures { IfOk result (λ drive. drive ≡ rows.items) }
    {
        let first = &rows[..rows.len().min(SAMPLE)];
        let last = &rows[rows.len() - first.len()..];
        let number = number_of_drive(number_of_drive(rows.len() as u64, first), last);
        if let Some(drive) = self.by_number.get(&number) {
            return share_or_own(drive, rows);
        }
        let drive = SharedItems::of(rows)?;
        if let Some(kept) = drive.share() {
            self.by_number.insert(number, kept)?;
        }
        Ok(drive)
    }
}

/// The drive of these rows, which is this one, shared, where it has the same.
fn share_or_own(
    drive: &SharedItems<Drive>,
    rows: Vec<Drive>,
) -> Result<SharedItems<Drive>, NoMemory>
    ensures { IfOk result (λ drive. drive ≡ rows.items) }
{
    match shared_if_same(drive, &rows) {
        Some(same) => Ok(same),
        None => SharedItems::of(rows),
    }
}

/// This drive, shared, where it has these rows.
#[tactic(auto, using(crate::proofs::DriveLemmas::same_rows))]
fn shared_if_same(drive: &SharedItems<Drive>, rows: &[Drive]) -> Option<SharedItems<Drive>>
    ensures { IfSome result (λ same. same ≡ rows.now) }
{
    if drive.as_slice() == rows {
        drive.share()
    } else {
        None
    }
}
