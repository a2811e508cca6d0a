// The times of the answers, and what follows from them: the worst-case reaction, the bound for lapses, and
// the distance of missed runs from which on wrong answers never cut before a trip.
ghost use Rattle.std.specs.Prelude.{◌≡◌, ℕ, ◌+◌, ◌-◌, ◌*◌, ◌≤◌, ◌<◌, SomeIff, IfSome};
ghost use Rattle.eg_num.specs.Windows.{AreWeights};
ghost use Rattle.eg_answer.specs.Times.{TimeParts, AreTimes, feeds_to_confirm, reaction_of, periods_to_confirm, HasLapseBound, lapse_bound_of, rights_between, most_wrong, further_ticks, longest_missed_of, HasMissSpacing, TakesBack, TakesBackWithin, miss_spacing_of};

use eg_num::Weights;
use std::marker::Model;

/// The times of the answers (docs/CONCEPT.md, "Questions and answers"), in ticks. A period has 2 to 100
/// ticks. An answer may come from its tick `first` to its tick `last`, and level 2 sends it at its tick
/// `send`, between those two; each is counted from the period's begin. The verdicts are debounced by the
/// weights. Contracts see its `TimeParts`.
#[derive(Drop)]
pub struct Times {
    period: u16,
    first: u16,
    last: u16,
    send: u16,
    weights: Weights,
}

impl Model for Times {
    ghost use Rattle.eg_answer.specs.Times.{TimeParts, AreTimes};

    ghost Value = { TimeParts };

    ghost view = { λ t. record {
      period = t.period;
      first = t.first;
      last = t.last;
      send = t.send;
      weights = t.weights;
    } };

    ghost invariant = { λ t. AreTimes (record {
      period = t.period;
      first = t.first;
      last = t.last;
      send = t.send;
      weights = t.weights;
    }) };
}

impl Times {
    /// These times, or None where the period isn't 2 to 100 ticks, or `first <= send <= last < period` fails.
    pub fn new(period: u16, first: u16, last: u16, send: u16, weights: Weights) -> Option<Times>
        ensures { let times : TimeParts =
            record { period = period; first = first; last = last; send = send; weights = weights } in
            SomeIff result (AreTimes times) times }
    {
        let is_period = 2 <= period && period <= 100;
        if is_period && first <= send && send <= last && last < period {
            Some(Times {
                period,
                first,
                last,
                send,
                weights,
            })
        } else {
            None
        }
    }

    /// How many ticks a period has.
    pub fn period(&self) -> u16
        ensures period { result ≡ self.now.period }
        ensures times { AreTimes self.now }
    {
        self.period
    }

    /// The first tick of a period at which an answer may come.
    pub fn first(&self) -> u16
        ensures first { result ≡ self.now.first }
        ensures times { AreTimes self.now }
    {
        self.first
    }

    /// The last tick of a period at which an answer may come.
    pub fn last(&self) -> u16
        ensures last { result ≡ self.now.last }
        ensures times { AreTimes self.now }
    {
        self.last
    }

    /// The tick of a period at which level 2 sends its answer.
    pub fn send(&self) -> u16
        ensures send { result ≡ self.now.send }
        ensures times { AreTimes self.now }
    {
        self.send
    }

    /// The weights of the debouncer of the verdicts.
    pub fn weights(&self) -> &Weights
        ensures weights { result.now ≡ self.now.weights }
        ensures times { AreTimes self.now }
        ensures limits { AreWeights self.now.weights }
    {
        // Called for its clause alone: the weights keep their limits.
        let _limit = self.weights.limit();
        &self.weights
    }

    /// Equal times.
    pub fn copy(&self) -> Times
        ensures { result ≡ self.now }
    {
        Times {
            period: self.period,
            first: self.first,
            last: self.last,
            send: self.send,
            weights: self.weights.copy(),
        }
    }
}

/// The worst-case reaction in ticks (docs/CONCEPT.md, "Worst-case reaction"): where no answer is right any
/// more from the tick after a send tick on, path 2 is open this many ticks later.
///
/// Claim 5 (C35): R is `(N + 1)*period - send - 1` ticks, where N wrong verdicts in a row are enough to
/// confirm wrong answers.
pub fn reaction(times: &Times) -> u32
    ensures { result ≡ reaction_of times.now }
{
    let verdicts = feeds_to_confirm(times.weights());
    (verdicts + 1) * u32::from(times.period()) - u32::from(times.send()) - 1
}

/// How many bad feeds of a debouncer in a row are enough to confirm (docs/CONCEPT.md, "Worst-case reaction"
/// and "Debouncing"): wrong verdicts, by the weights of the answers; runs of level 2 that find an excess, by
/// those of the torque.
pub fn feeds_to_confirm(weights: &Weights) -> u32
    ensures number { result ≡ feeds_to_confirm weights.now }
    ensures some { 1 ≤ result }
    ensures within { result ≤ 10000 }
{
    u32::from(weights.limit()).div_ceil(u32::from(weights.up()))
}

/// How many periods are filled by the runs of level 2 that are enough to confirm an excess (docs/CONCEPT.md,
/// "Lapses").
fn periods_to_confirm(torque: &Weights, times: &Times) -> u32
    ensures number { result ≡ periods_to_confirm torque.now times.now }
    ensures some { 1 ≤ result }
    ensures within { result ≤ 10000 }
    ensures ticks { result * times.now.period < 10000 + times.now.period }
{
    let runs = feeds_to_confirm(torque);
    runs.div_ceil(u32::from(times.period()))
}

/// The bound for lapses in ticks (docs/CONCEPT.md, "Lapses"): where level 2 as a whole doesn't run at some
/// ticks, whichever they are, each stretch of torque excess is shorter. `torque` are the weights by which
/// level 2 debounces the excess. Its runs to confirm fill some periods (`periods_to_confirm`), and a wrong
/// verdict adds `up`. None exactly if the right verdicts of all but one of these periods,
/// `(periods - 1) * down`, are at least `up`, at equality too.
pub fn lapse_bound(torque: &Weights, times: &Times) -> Option<u32>
    ensures { SomeIff result (HasLapseBound torque.now times.now) (lapse_bound_of torque.now times.now) }
{
    let answers = times.weights();
    let up = u32::from(answers.up());
    let periods = periods_to_confirm(torque, times);
    let taken = (periods - 1) * u32::from(answers.down());
    if taken < up {
        let rounds = u32::from(answers.limit()).div_ceil(up - taken);
        Some((rounds * periods + 2) * u32::from(times.period()))
    } else {
        None
    }
}

/// How many right verdicts may stand between wrong ones while an excess isn't confirmed (docs/CONCEPT.md,
/// "Lapses").
fn rights_between(torque: &Weights, times: &Times) -> u32
    ensures number { result ≡ rights_between torque.now times.now }
    ensures within { result ≤ 10000 }
    ensures ticks { result * times.now.period ≤ 10000 }
{
    let runs = feeds_to_confirm(torque);
    runs.saturating_sub(2) / u32::from(times.period())
}

/// How many wrong verdicts a debouncer takes at the most, the confirming one counted, with so many right ones
/// between them (docs/CONCEPT.md, "Lapses").
fn most_wrong(weights: &Weights, rights: u32) -> u32
    requires { rights ≤ 10000 }
    ensures number { result ≡ most_wrong weights.now rights }
    ensures within { result ≤ feeds_to_confirm weights.now + rights * (feeds_to_confirm weights.now - 1) }
{
    let verdicts = feeds_to_confirm(weights);
    let below = u32::from(weights.limit()) - 1 + rights * u32::from(weights.down());
    let weighed = below / u32::from(weights.up()) + 1;
    weighed.min(verdicts + rights * (verdicts - 1))
}

/// The ticks of the periods whose wrong verdicts a debouncer takes beyond those that confirm in a row (C103).
fn further_ticks(torque: &Weights, times: &Times) -> u32
    ensures number { result ≡ further_ticks torque.now times.now }
    ensures within { result ≤ 100000000 }
{
    let answers = times.weights();
    let verdicts = feeds_to_confirm(answers);
    let wrong = most_wrong(answers, rights_between(torque, times));
    wrong.saturating_sub(verdicts) * u32::from(times.period())
}

/// How many ticks in a row an excess lasts at the most where level 2 as a whole doesn't run at some ticks,
/// whichever they are, and there is no ramp (docs/CONCEPT.md, "Lapses").
pub fn longest_missed(torque: &Weights, times: &Times) -> u32
    ensures { result ≡ longest_missed_of torque.now times.now }
{
    // Called for its clause alone: few verdicts confirm, so that the sum is small.
    let _verdicts = feeds_to_confirm(times.weights());
    let listed = feeds_to_confirm(torque) - 1 + reaction(times);
    listed + further_ticks(torque, times).saturating_sub(1)
}

/// How far apart, in ticks, missed runs of level 2 have to lie so that wrong answers never cut before a trip
/// (docs/CONCEPT.md, "Lapses"). A missed run spoils at most two verdicts, which add `2 * up`. Where two
/// misses lie so far apart, the verdicts between those that they spoil are right, and take that back. The
/// number is the least count of whole periods in which all verdicts but one do, in ticks, and one tick more.
/// None exactly if two wrong verdicts are enough to confirm, `limit <= 2 * up`, or a right one takes
/// nothing.
pub fn miss_spacing(times: &Times) -> Option<u32>
    ensures distance { SomeIff result (HasMissSpacing times.now) (miss_spacing_of times.now) }
    ensures enough { IfSome result (λ ticks. TakesBackWithin times.now ticks) }
    ensures least { (periods : ℕ) → TakesBack times.now periods →
        IfSome result (λ ticks. ticks ≤ periods * times.now.period + 1) }
{
    let answers = times.weights();
    let spoiled = 2 * u32::from(answers.up());
    let down = u32::from(answers.down());
    if down >= 1 && spoiled < u32::from(answers.limit()) {
        let periods = spoiled.div_ceil(down) + 1;
        Some(periods * u32::from(times.period()) + 1)
    } else {
        None
    }
}
