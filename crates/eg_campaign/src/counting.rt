// A count of ticks is a number of 64 bits.
ghost use Rattle.std.specs.Prelude.{◌≡◌, []};
ghost use Rattle.eg_tick.specs.Counting.{count_with};

use eg_tick::Ticks;

/// Where no row is made, the count of ticks stays as it is: its numbers, which are counted modulo 2^64, are
/// below that already. It does nothing when it runs.
pub(crate) fn count_none(steps: &Ticks)
    ensures { steps.now ≡ count_with steps.now [] }
{
    // They are read for their range alone.
    let _numbers = (steps.count(), steps.sum());
}
