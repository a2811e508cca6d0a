// What the debouncers weigh after a tick.
ghost use Rattle.std.specs.Prelude.{◌≡◌, ℕ, ◌+◌};
ghost use Rattle.eg_level2.specs.Words.{words_of};
ghost use Rattle.eg_record.specs.Margins.{IsMarginTallyOf};
ghost use Rattle.eg_model.specs.Bench.{Run};
ghost use Rattle.eg_model.specs.Records.{row_at};
ghost use Rattle.eg_tick.specs.Run.{IsAt};
ghost use Rattle.eg_tick.specs.Margins.{counters_kept, weighed_to};

use crate::{BenchedEngine, Controller};
use eg_guard::Guarded;
use eg_module::Monitor;
use eg_record::{Counters, MarginTally, Row};
use eg_turns::word;

/// Feeds the row of the tick that a controller has just made to a tally, with what the debouncers weigh after
/// it, where the run is `WEIGHED` (docs/CONCEPT.md, "`margins`"). It takes no memory and refuses nothing.
#[inline(always)]
pub fn weigh<E: BenchedEngine, M: Guarded + Drop, const WEIGHED: bool>(
    tally: &mut MarginTally,
    row: &Row,
    controller: &Controller<E, M>,
)
    // A tally that stands for the ticks of a run before that one stands for it too.
    ensures { (r : Run) (t : ℕ) → row.now ≡ row_at E.bench r t →
        IsAt E.bench E.come_to r (t + 1) controller.now →
        IsMarginTallyOf tally.old (weighed_to WEIGHED E.bench r t) →
        IsMarginTallyOf tally.new (weighed_to WEIGHED E.bench r (t + 1)) }
{
    if WEIGHED {
        tally.feed(row, &controller.counters());
    }
}

/// What the debouncers weigh: the numbers of level 2, as they stand in the memory, and that of the monitoring
/// module.
#[tactic(auto, unfolding(crate::specs::Margins::counters_kept, eg_level2::specs::Words::named))]
pub(crate) fn counters<M: Guarded>(memory: &M, monitor: &Monitor) -> Counters
    ensures { result ≡ counters_kept (words_of (M.shows memory.now).words) monitor.now.value }
{
    Counters {
        pedal: word(memory, 5),
        plate: word(memory, 6),
        load: word(memory, 7),
        speed: word(memory, 8),
        torque: word(memory, 9),
        answers: monitor.weight(),
    }
}
