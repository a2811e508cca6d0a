// The debounce counter.
ghost use Rattle.std.specs.Prelude.{◌≡◌, ◌↔◌, ◌≤◌, List, Bool, ◌∷◌, IsTrue};
ghost use Rattle.eg_num.specs.Windows.{is_confirmed};
ghost use Rattle.eg_num.specs.Counting.{fed, StandsFor, CounterLaw};
ghost use Rattle.eg_num.specs.Places.{PlaceLaw};

use crate::Weights;

/// A debounce counter (docs/CONCEPT.md, "Debouncing"). Until it is confirmed its value is the greatest weight
/// of a window that ends at the last feed; from then on it is the limit.
#[derive(Clone, Copy)]
pub struct Counter {
    /// 0 to the limit of its weights.
    pub value: u16,
}

impl Counter {
    /// A counter that was fed nothing.
    pub fn new() -> Counter
        ensures { result.value ≡ 0 }
    {
        Counter { value: 0 }
    }

    /// Feeds one bit, and answers whether the counter is confirmed, by this feed or an earlier one.
    pub fn feed(&mut self, weights: &Weights, bad: bool) -> bool
        requires { self.old.value ≤ weights.now.limit }
        ensures value { self.new.value ≡ fed weights.now self.old.value bad }
        ensures within { self.new.value ≤ weights.now.limit }
        ensures at_limit { IsTrue result ↔ (self.new.value ≡ weights.now.limit) }
        // What it stands for, whichever feeds it has had.
        ensures windows { (bits : List Bool) → StandsFor weights.now self.old.value bits
            → StandsFor weights.now self.new.value (bad ∷ bits) }
        ensures confirmed { (bits : List Bool) → StandsFor weights.now self.old.value bits
            → result ≡ is_confirmed weights.now (bad ∷ bits) }
    {
        let limit = weights.limit();
        if self.value < limit {
            self.value = if bad {
                limit.min(self.value + weights.up())
            } else {
                self.value.saturating_sub(weights.down())
            };
        }
        self.value == limit
    }
}

/// Does nothing when it runs. Its contract is the law of counters, fed any feeds from 0 (docs/CONCEPT.md,
/// "Debouncing").
///
/// Claim 31 (C9, C10): A debounce counter is the greatest weight of the windows that end at the last feed.
/// Once it has reached the limit, it stays there.
pub fn counters_count_windows()
    ensures { CounterLaw }
{}

/// Does nothing when it runs. Its contract is the law of windows: the rule over lists that stand newest first
/// is the rule by places in the order of time, and a counter keeps it too (docs/CONCEPT.md, "Debouncing").
pub fn windows_are_places()
    ensures { PlaceLaw }
{}
