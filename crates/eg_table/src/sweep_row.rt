// A row of the table of a sweep.
ghost use Rattle.std.specs.Prelude.{◌≡◌, ◌<◌, ◌++◌, ◌∷◌, [], List, length};
ghost use Rattle.eg_record.specs.Detection.{rank};

use eg_record::{Facts, Watch};

/// What comes of the runs under the faults of one class (docs/CONCEPT.md, "`sweep`").
#[derive(Clone, Copy)]
pub struct SweepRow {
    /// How many runs there are.
    pub runs: u32,
    /// In how many of them no watch is found.
    pub none: u32,
    /// In how many each watch is the first that is found, in the order of the watches.
    pub by_watch: [u32; 8],
    /// The greatest reaction, in ticks, or None where no run has one.
    pub reaction: Option<u32>,
}

impl SweepRow {
    ghost use Rattle.eg_table.specs.Sweep.{row_of};

    /// The row of no runs.
    #[tactic(auto, unfolding(crate::specs::Sweep::row_of, crate::specs::Sweep::greatest_number))]
    pub(crate) fn new() -> SweepRow
        ensures { result ≡ row_of [] }
    {
        SweepRow {
            runs: 0,
            none: 0,
            by_watch: [0; 8],
            reaction: None,
        }
    }

    /// Adds a run with these facts to fewer than 1,000 runs.
    pub(crate) fn add(&mut self, facts: &Facts)
        requires { (runs : List Facts) × (self.old ≡ row_of runs) × (length runs < 1000) }
        ensures { (runs : List Facts) → self.old ≡ row_of runs → self.new ≡ row_of (runs ++ facts.now ∷ []) }
    {
        self.runs += 1;
        match facts.first {
            Some((watch, _)) => self.by_watch[rank(watch)] += 1,
            None => self.none += 1,
        }
        self.reaction = self.reaction.max(facts.reaction());
    }
}

/// The index of a watch in the order.
#[tactic(auto, unfolding(eg_record::specs::Detection::rank))]
fn rank(watch: Watch) -> usize
    ensures index { result ≡ rank watch }
    ensures within { result < 8 }
{
    watch as usize
}
