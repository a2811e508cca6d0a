// The monitoring module.
ghost use Rattle.std.specs.Prelude.{◌≡◌, ◌↔◌, ℕ, ◌+◌, ◌/◌, ◌%◌, ◌<◌, ◌≤◌, ◌==◌, ◌&&◌, List, [], ◌∷◌, All, length, map};
ghost use Rattle.std.specs.Prelude.{IfSome, IfNone, IsTrue};
ghost use Rattle.std.specs.Option.{SomeIff};
ghost use Rattle.eg_num.specs.Windows.{is_confirmed};
ghost use Rattle.eg_num.specs.Counting.{counted, fed};
ghost use Rattle.eg_answer.specs.Periods.{period_of, place_of, is_last_tick, is_in_window, asked};
ghost use Rattle.eg_answer.specs.Periods.{verdict_over, IsAnswered, with_verdict, is_wrong};
ghost use Rattle.eg_answer.specs.declared.marks.Verdict.{Verdict};
ghost use Rattle.eg_module.specs.Monitoring.{IsMonitor, HasGiven, expected_at};
ghost use Rattle.eg_module.specs.Inside.{newest_first};

use arrayvec::ArrayVec;
use eg_answer::{Questions, Times, Verdict};
use eg_num::Counter;
use std::marker::Model;

/// An answer as it was heard.
#[derive(Clone, Copy, Default)]
struct Heard {
    tick: u32,
    number: u32,
}

/// The high word of a number that is expected: a flow that shows that all eight modules of level 2 ran at
/// each tick since the last answer.
const WHOLE_TOKEN: u32 = 0x00ff_0000;

/// The monitoring module (docs/CONCEPT.md, "Questions and answers"). It counts the verdicts that it has
/// given, and keeps the answers that it has heard since the last one. Ticks are counted from 0, and from 0
/// again after `restart`. Contracts see its `MonitorParts`. No call takes memory.
#[derive(Drop)]
pub struct Monitor {
    times: Times,
    questions: Questions,
    verdicts: u32,
    // That of the period that has no verdict yet, so that nothing is divided at its ticks.
    question: u16,
    heard: ArrayVec<Heard, 100>,
    counter: Counter,
}

impl Model for Monitor {
    ghost use Rattle.eg_module.specs.Monitoring.{MonitorParts};

    ghost Value = { MonitorParts };

    ghost use Rattle.eg_module.specs.Inside.{parts_of, IsKept};

    ghost view = { parts_of };

    ghost invariant = { IsKept };
}

impl Monitor {
    /// A monitoring module that has heard nothing and given no verdict, for at least two questions.
    pub fn new(times: Times, questions: Questions) -> Monitor
        requires { 2 ≤ length questions }
        ensures begins { result ≡
            record { times = times; questions = questions; verdicts = 0; heard = []; value = 0 } }
        ensures given { HasGiven result [] }
        ensures next { result.verdicts ≡ period_of result.times 0 }
        ensures keeps { IsMonitor result }
    {
        // Called for its clause alone: the weights and the times keep their limits.
        let _weights = times.weights();
        Monitor {
            times,
            questions,
            verdicts: 0,
            question: 0,
            heard: ArrayVec::new(),
            counter: Counter::new(),
        }
    }

    /// Begins again, as a new monitoring module with the same times and questions.
    pub fn restart(&mut self)
        ensures begins { self.new ≡ record self.old { verdicts = 0; heard = []; value = 0 } }
        ensures given { HasGiven self.new [] }
        ensures next { self.new.verdicts ≡ period_of self.new.times 0 }
        ensures keeps { IsMonitor self.new }
    {
        self.verdicts = 0;
        self.question = 0;
        self.heard.clear();
        self.counter = Counter::new();
    }

    /// An equal monitoring module.
    pub fn copy(&self) -> Monitor
        ensures equal { result ≡ self.now }
        ensures keeps { IsMonitor result }
    {
        let mut heard = ArrayVec::new();
        match heard.try_extend_from_slice(self.heard.as_slice()) {
            Ok(()) => Monitor {
                times: self.times.copy(),
                questions: self.questions.copy(),
                verdicts: self.verdicts,
                question: self.question,
                heard,
                counter: self.counter,
            },
            Err(_) => unreachable!(),
        }
    }

    /// The number of the question that is asked at a tick, the first question being 0 (docs/CONCEPT.md,
    /// "Questions and answers").
    #[tactic(auto, unfolding(eg_answer::specs::Periods::asked, eg_answer::specs::Periods::period_of))]
    pub fn question(&self, tick: u32) -> u16
        ensures number { result ≡ asked self.now.times (length self.now.questions) tick }
        ensures within { result < length self.now.questions }
        ensures keeps { IsMonitor self.now }
    {
        match place_in(self.verdicts, self.times.period(), tick) {
            Some(_) => self.question,
            None => question_of(&self.times, &self.questions, tick),
        }
    }

    /// Which tick of its period a tick is, the first being 0 (docs/CONCEPT.md, "Questions and answers").
    #[tactic(auto, unfolding(eg_answer::specs::Periods::place_of))]
    pub fn place(&self, tick: u32) -> u32
        ensures place { result ≡ place_of self.now.times tick }
    {
        match place_in(self.verdicts, self.times.period(), tick) {
            Some(place) => place,
            None => tick % u32::from(self.times.period()),
        }
    }

    /// Keeps an answer that comes at a tick: one of the period that has no verdict yet, later than all
    /// answers that are kept. So no more are kept than a period has ticks, at most 100. Nothing else changes
    /// (docs/CONCEPT.md, "Questions and answers").
    pub fn hear(&mut self, tick: u32, answer: u32)
        requires this_period { self.old.verdicts ≡ period_of self.old.times tick }
        requires later { All (λ heard. heard.tick < tick) self.old.heard }
        ensures heard { self.new ≡
            record self.old { heard = (record { tick = tick; number = answer }) ∷ self.old.heard } }
        ensures room { length self.new.heard ≤ self.new.times.period }
        ensures given { (verdicts : List Verdict) → HasGiven self.old verdicts → HasGiven self.new verdicts }
        ensures keeps { IsMonitor self.new }
    {
        self.heard.push(Heard {
            tick,
            number: answer,
        });
    }

    /// At the last tick of the period that has no verdict yet, gives the verdict over the answers that were
    /// heard in it, feeds it to the counter, and forgets the answers. At any other tick of that period it
    /// gives none and changes nothing (docs/CONCEPT.md, "Questions and answers").
    ///
    /// Claim 30 (C33, C34; `right`): A verdict is right exactly if one answer came in the period, in the
    /// answer window, and it was the expected number.
    pub fn close(&mut self, tick: u32) -> Option<Verdict>
        requires { self.old.verdicts ≡ period_of self.old.times tick }
        ensures verdict { SomeIff result (IsTrue (is_last_tick self.old.times tick))
            (verdict_over self.old.times (expected_at self.old tick) self.old.heard) }
        // In words: right exactly if one answer came, in the window, and it was the expected number.
        ensures right { IfSome result (λ verdict. (verdict ≡ Verdict.Right)
            ↔ IsAnswered self.old.times (expected_at self.old tick) self.old.heard) }
        ensures closed { IfSome result (λ verdict. self.new ≡ record self.old {
          verdicts = self.old.verdicts + 1;
          heard = [];
          value = fed self.old.times.weights self.old.value (is_wrong verdict);
        }) }
        ensures unchanged { IfNone result (self.new ≡ self.old) }
        // The counter stands for the verdicts that were given, whichever they are. The next tick lies in the
        // period that has no verdict yet.
        ensures given { (verdicts : List Verdict) → HasGiven self.old verdicts
            → HasGiven self.new (with_verdict result verdicts) }
        ensures next { self.new.verdicts ≡ period_of self.new.times (tick + 1) }
        ensures keeps { IsMonitor self.new }
    {
        if !is_last(&self.times, self.verdicts, tick) {
            return None;
        }
        let expected = self.expected(tick);
        let verdict = judge(&self.times, expected, self.heard.as_slice());
        self.counter.feed(self.times.weights(), is_bad(verdict));
        self.heard.clear();
        self.verdicts += 1;
        self.question = question_after(self.question, self.questions.len());
        Some(verdict)
    }

    /// Whether the wrong verdicts are confirmed, by the weights of the answers (docs/CONCEPT.md,
    /// "Debouncing"). From then on it stays so.
    pub fn confirmed(&self) -> bool
        ensures at_limit { IsTrue result ↔ (self.now.value ≡ self.now.times.weights.limit) }
        ensures verdicts { (verdicts : List Verdict) → HasGiven self.now verdicts
            → result ≡ is_confirmed self.now.times.weights (map is_wrong verdicts) }
    {
        self.counter.value == self.times.weights().limit()
    }

    /// What the wrong verdicts weigh (docs/CONCEPT.md, "Debouncing"): the limit once they are confirmed, and
    /// until then the greatest weight of a window of them.
    pub fn weight(&self) -> u16
        ensures value { result ≡ self.now.value }
        ensures verdicts { (verdicts : List Verdict) → HasGiven self.now verdicts
            → result ≡ counted self.now.times.weights (map is_wrong verdicts) }
    {
        self.counter.value
    }

    /// The number that is expected to be heard in the period that has no verdict yet, in which a tick lies.
    fn expected(&self, tick: u32) -> u32
        requires { self.now.verdicts ≡ period_of self.now.times tick }
        ensures { result ≡ expected_at self.now tick }
    {
        WHOLE_TOKEN + u32::from(self.questions.answer(usize::from(self.question)))
    }
}

/// Which tick of the period with this number a tick is, or None if it lies in another one.
fn place_in(number: u32, period: u16, tick: u32) -> Option<u32>
    requires { 2 ≤ period }
    ensures { IfSome result (λ place. (place ≡ tick % period) × (number ≡ tick / period)) }
{
    let begin = u64::from(number) * u64::from(period);
    // Past `period` where the tick comes before it.
    let place = u64::from(tick).wrapping_sub(begin);
    if place < u64::from(period) {
        Some(place as u32)
    } else {
        None
    }
}

/// The number of the question of a tick, whichever it is.
#[inline(never)]
#[tactic(auto, unfolding(eg_answer::specs::Periods::asked, eg_answer::specs::Periods::period_of))]
fn question_of(times: &Times, questions: &Questions, tick: u32) -> u16
    requires { 2 ≤ length questions.now }
    ensures number { result ≡ asked times.now (length questions.now) tick }
    ensures within { result < length questions.now }
{
    let period = tick / u32::from(times.period());
    (period % questions.len() as u32) as u16
}

/// The number of the question after this one: after the last one the first comes again.
fn question_after(question: u16, count: usize) -> u16
    requires question { question < count }
    requires count { count ≤ 64 }
    ensures { (number : ℕ) → question ≡ number % count → result ≡ (number + 1) % count }
{
    if usize::from(question) + 1 == count {
        0
    } else {
        question + 1
    }
}

/// The verdict over the answers of a period, where `expected` is the number that is expected.
#[tactic(auto, using(crate::proofs::VerdictLemmas::judging))]
fn judge(times: &Times, expected: u32, heard: &[Heard]) -> Verdict
    ensures { result ≡ verdict_over times.now expected (newest_first heard.now) }
{
    let [answer] = heard else {
        return Verdict::Wrong;
    };
    if is_right(times, expected, *answer) {
        Verdict::Right
    } else {
        Verdict::Wrong
    }
}

/// Whether an answer came in the window, and is the expected number.
fn is_right(times: &Times, expected: u32, answer: Heard) -> bool
    ensures { result ≡ (is_in_window times.now answer.tick && (answer.number == expected)) }
{
    in_window(times, answer.tick) && answer.number == expected
}

/// Whether an answer may come at this tick.
#[tactic(auto, unfolding(eg_answer::specs::Periods::is_in_window, eg_answer::specs::Periods::place_of))]
fn in_window(times: &Times, tick: u32) -> bool
    ensures { result ≡ is_in_window times.now tick }
{
    let place = tick % u32::from(times.period());
    u32::from(times.first()) <= place && place <= u32::from(times.last())
}

/// Whether a tick is the last one of the period with this number, in which it lies.
#[tactic(auto, unfolding(eg_answer::specs::Periods::is_last_tick))]
fn is_last(times: &Times, number: u32, tick: u32) -> bool
    requires { number ≡ period_of times.now tick }
    ensures { result ≡ is_last_tick times.now tick }
{
    let period = u32::from(times.period());
    place_from(times, number, tick) + 1 == period
}

/// Which tick of the period with this number a tick is, which lies in it.
#[tactic(auto, unfolding(eg_answer::specs::Periods::period_of, eg_answer::specs::Periods::place_of))]
fn place_from(times: &Times, number: u32, tick: u32) -> u32
    requires { number ≡ period_of times.now tick }
    ensures place { result ≡ place_of times.now tick }
    ensures within { result < times.now.period }
{
    tick - number * u32::from(times.period())
}

/// Whether a verdict is debounced as a bad feed.
#[tactic(auto, unfolding(eg_answer::specs::Periods::is_wrong))]
fn is_bad(verdict: Verdict) -> bool
    ensures { result ≡ is_wrong verdict }
{
    match verdict {
        Verdict::Right => false,
        Verdict::Wrong => true,
    }
}
