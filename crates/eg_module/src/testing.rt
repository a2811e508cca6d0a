// How long the test of the shut-off paths takes.
ghost use Rattle.std.specs.Prelude.{◌≡◌, ◌≤◌};
ghost use Rattle.eg_answer.specs.Times.{test_ticks_of};

use eg_answer::{Times, feeds_to_confirm};

/// How many ticks the start-up test takes until path 2 is open, `W` (docs/CONCEPT.md, "Worst-case reaction"):
/// no answer is sent in the test, so that each verdict is wrong.
#[tactic(auto, unfolding(eg_answer::specs::Times::test_ticks_of))]
pub fn test_ticks(times: &Times) -> u32
    ensures number { result ≡ test_ticks_of times.now }
    ensures within { result ≤ 1000000 }
{
    feeds_to_confirm(times.weights()) * u32::from(times.period())
}
