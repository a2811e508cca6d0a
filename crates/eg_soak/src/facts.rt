// What `soak` counts of a run.
ghost use Rattle.std.specs.Prelude.{◌≡◌};
ghost use Rattle.eg_values.specs.Reference.{reference_parts};
ghost use Rattle.eg_draw.specs.Runs.{IsDrawn};
ghost use Rattle.eg_tick.specs.Counting.{count_with};
ghost use Rattle.eg_model.specs.EngineRuns.{rows_in_time};
ghost use Rattle.eg_soak.specs.Facts.{facts_in, drawn_facts, is_first};
ghost use Rattle.eg_soak.specs.Soak.{run_drawn};

use crate::run_facts;
use eg_draw::DrawnRun;
use eg_plan::usual_slices;
use eg_record::{Facts, Watch};
use eg_tick::Ticks;
use eg_values::Calibration;

/// What `soak` counts of a run (docs/CONCEPT.md, "`soak`").
#[derive(Clone, Copy)]
pub(crate) struct DrawnFacts {
    /// The first watch that is found, if any.
    pub first: Option<Watch>,
    /// Whether level 1 trapped.
    pub is_trapped: bool,
    /// Whether the power stages are off at some tick.
    pub goes_off: bool,
    /// The ticks from the one by which a true excess is first confirmed until the stages are off for good; 0
    /// where none is confirmed, or the stages are on at the last tick.
    pub reaction: u32,
}

impl DrawnFacts {
    /// What `soak` counts of a run with these facts, in which level 1 trapped or didn't.
    #[tactic(auto, unfolding(crate::specs::Facts::facts_in))]
    fn of(facts: &Facts, is_trapped: bool) -> DrawnFacts
        ensures { result ≡ facts_in facts.now is_trapped }
    {
        DrawnFacts {
            first: facts.first.map(|(watch, _)| watch),
            is_trapped,
            goes_off: facts.off.is_some(),
            reaction: facts.reaction().unwrap_or(0),
        }
    }

    /// Whether this watch is the first that was found.
    pub(crate) fn is_first(&self, watch: Watch) -> bool
        ensures { result ≡ is_first watch self.now }
    {
        self.first == Some(watch)
    }
}

/// Plays a run that was drawn, by the reference calibration, and tells what counts of it (docs/CONCEPT.md,
/// "`soak`"). No row of it is kept. Its ticks are counted in `steps`.
#[inline(never)]
pub(crate) fn play(calibration: &Calibration, drawn: &DrawnRun, steps: &mut Ticks) -> DrawnFacts
    requires calibration { calibration.now ≡ reference_parts }
    requires drawn { IsDrawn drawn.now }
    ensures facts { result ≡ drawn_facts (run_drawn drawn.now) }
    ensures counted { steps.new ≡ count_with steps.old (rows_in_time (run_drawn drawn.now)) }
{
    let plan = usual_slices();
    let (image, drive, fault) = (
        drawn.image.as_slice(),
        drawn.drive.as_slice(),
        drawn.fault.as_ref(),
    );
    let (facts, trap) = run_facts(calibration, image, &plan, drive, fault, steps);
    DrawnFacts::of(&facts, trap.is_some())
}
