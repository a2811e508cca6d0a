// Torque monitoring of the rows of a check file.
ghost use Rattle.std.specs.Prelude.{◌≡◌};
ghost use Rattle.eg_num.specs.Places.{IsFirst};
ghost use Rattle.eg_desk.specs.Check.{row_permits, excesses};

use eg_answer::Rules;
use eg_num::{Counter, Drive};
use eg_torque::{excess, ramped};

/// The permitted torque of a row, in tenths of Nm (docs/CONCEPT.md, "Torque"), `before` being that of the row
/// before it.
fn row_permits(rules: &Rules, before: u16, drive: &Drive) -> u16
    ensures { result ≡ row_permits rules.now before drive.now }
{
    let speed = drive.speed();
    let demand = rules.permit.at(drive.pedal(), speed, speed, drive.raise());
    ramped(rules.fall, before, demand)
}

/// The first tick by which the excess of these rows is confirmed, each row being one tick of a drive span.
pub(crate) fn first_confirmed(rules: &Rules, rows: &[(Drive, u16)]) -> Option<usize>
    ensures { IsFirst rules.now.torque (excesses rules.now rows.now) result }
{
    // A limit is at least 1: without a row nothing is confirmed.
    let limit = rules.torque.limit();
    prove!(limit >= 1);
    let mut counter = Counter::new();
    let mut permitted = 0;
    for (tick, (drive, torque)) in rows.iter().enumerate() {
        permitted = row_permits(rules, permitted, drive);
        if counter.feed(&rules.torque, excess(*torque, permitted, rules.threshold)) {
            return Some(tick);
        }
    }
    None
}
