// The summary of the runs of `soak`.
ghost use Rattle.std.specs.Prelude.{◌≡◌, ◌≤◌, length, count_by, max, not, is_some};
ghost use Rattle.std.specs.List.{fold};
ghost use Rattle.eg_soak.specs.Facts.{is_first};
ghost use Rattle.eg_soak.specs.Soak.{summary_of};

use crate::facts::DrawnFacts;
use eg_record::Watch;

/// What `soak` tells of its runs (docs/CONCEPT.md, "`soak`").
#[derive(Clone, Copy)]
pub struct SoakSummary {
    /// How many runs were played.
    pub runs: u32,
    /// In how many no watch was found.
    pub none: u32,
    /// In how many each watch was the first that was found, in the order of the watches. That of the start-up
    /// test isn't among them: no drawn run has a test.
    pub by_watch: [u32; 7],
    /// In how many level 1 trapped.
    pub trapped: u32,
    /// In how many the power stages went off.
    pub off: u32,
    /// The longest reaction, in ticks; 0 where no run has one.
    pub longest: u32,
}

impl SoakSummary {
    /// The summary of runs, by what counts of each of them.
    #[tactic(auto, unfolding(crate::specs::Soak::summary_of))]
    pub(crate) fn of(all: &[DrawnFacts]) -> SoakSummary
        requires { length all.now ≤ 500 }
        ensures { result ≡ summary_of all.now }
    {
        SoakSummary {
            runs: all.len() as u32,
            none: count_none(all),
            by_watch: [
                count_first(all, Watch::Mirror),
                count_first(all, Watch::Pedal),
                count_first(all, Watch::Plate),
                count_first(all, Watch::Load),
                count_first(all, Watch::Speed),
                count_first(all, Watch::Torque),
                count_first(all, Watch::Answers),
            ],
            trapped: count_trapped(all),
            off: count_off(all),
            longest: longest(all),
        }
    }
}

/// In how many of these runs no watch was found.
fn count_none(all: &[DrawnFacts]) -> u32
    requires { length all.now ≤ 500 }
    ensures { result ≡ count_by (λ facts. not (is_some facts.first)) all.now }
{
    all.iter().filter(|facts| facts.first.is_none()).count() as u32
}

/// In how many of these runs this watch was the first that was found.
fn count_first(all: &[DrawnFacts], watch: Watch) -> u32
    requires { length all.now ≤ 500 }
    ensures { result ≡ count_by (is_first watch) all.now }
{
    all.iter().filter(|facts| facts.is_first(watch)).count() as u32
}

/// In how many of these runs level 1 trapped.
fn count_trapped(all: &[DrawnFacts]) -> u32
    requires { length all.now ≤ 500 }
    ensures { result ≡ count_by (λ facts. facts.is_trapped) all.now }
{
    all.iter().filter(|facts| facts.is_trapped).count() as u32
}

/// In how many of these runs the power stages went off.
fn count_off(all: &[DrawnFacts]) -> u32
    requires { length all.now ≤ 500 }
    ensures { result ≡ count_by (λ facts. facts.goes_off) all.now }
{
    all.iter().filter(|facts| facts.goes_off).count() as u32
}

/// The longest reaction of these runs, in ticks.
fn longest(all: &[DrawnFacts]) -> u32
    ensures { result ≡ fold (λ most facts. max most facts.reaction) 0 all.now }
{
    let mut longest = 0u32;
    for facts in all {
        longest = longest.max(facts.reaction);
    }
    longest
}
