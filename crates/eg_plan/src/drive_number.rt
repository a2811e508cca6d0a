// A number made of a drive.
ghost use Rattle.std.specs.Prelude.{◌≡◌, fold};
ghost use Rattle.eg_plan.specs.DriveNumbers.{mixed, row_number};

use eg_num::Drive;

/// A number and the next one, made one. Of many numbers in turn it makes the one by which equal drives, or
/// alike runs, are found. Unlike ones may have it too, so what is found by it is compared.
#[tactic(auto, unfolding(crate::specs::DriveNumbers::mixed))]
pub fn mixed(number: u64, next: u64) -> u64
    ensures { result ≡ mixed number next }
{
    (number.rotate_left(26) ^ next).wrapping_mul(6_364_136_223_846_793_005)
}

/// A number and the rows of a drive, made one, by `mixed`: what `Drives` finds an equal drive by, and a
/// campaign the runs of a group.
pub fn number_of_drive(number: u64, rows: &[Drive]) -> u64
    ensures { result ≡ fold (λ all row. mixed all (row_number row)) number rows.now }
{
    let mut all = number;
    for row in rows {
        all = mixed(all, row_number(row));
    }
    all
}

/// A drive row as one number.
#[tactic(auto, unfolding(crate::specs::DriveNumbers::row_number))]
fn row_number(row: &Drive) -> u64
    ensures { result ≡ row_number row.now }
{
    let (pedal, speed, raise) = (row.pedal(), row.speed(), row.raise());
    let numbers = (u64::from(pedal) * 65_536 + u64::from(speed)) * 65_536 + u64::from(raise);
    numbers * 4 + 2 * u64::from(row.reset()) + u64::from(row.brake())
}
