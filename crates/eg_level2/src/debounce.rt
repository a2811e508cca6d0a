// Module 6: the signals are debounced, and what is confirmed for the first time is found.
ghost use Rattle.std.specs.Prelude.{◌≡◌, ◌≤◌, ◌&&◌, nat_lt};
ghost use Rattle.eg_sensor.specs.Readings.{has_bit};
ghost use Rattle.eg_level2.specs.Words.{words_of, AreMirrored, AreWithin};
ghost use Rattle.eg_level2.specs.Modules.{feeds_now, debounced, trips, finding};
ghost use Rattle.eg_level2.specs.Inner.Stores.{Makes, RunMakes, fed_of, feeds_of, found_of, counting, fed_stores, is_still};
ghost use Rattle.eg_level2.specs.Order.{debounce_stores};

use crate::step::no_watches;
use crate::words::{
    EXCESS, LIMP, LOAD_COUNTER, PAIRS, PEDAL_COUNTER, PLATE_COUNTER, SPEED_COUNTER, TOKEN,
    TORQUE_COUNTER, TRIP, is_set, keep, keep_where, word,
};
use crate::{Phase, Step};
use eg_answer::{EXCESS_BIT, Rules, next_token};
use eg_base::NoMemory;
use eg_guard::Guarded;
use eg_num::{Counter, Watches, Weights};
use eg_sensor::{LOAD_PAIR, PEDAL_PAIR, PLATE_PAIR, SPEED_PAIR};

/// A counter after a feed, and whether that feed brings it to its limit.
#[derive(Clone, Copy)]
struct Fed {
    value: u16,
    found: bool,
}

/// The five counters after their feeds.
#[derive(Clone, Copy)]
struct Feeds {
    pedal: Fed,
    plate: Fed,
    load: Fed,
    speed: Fed,
    torque: Fed,
}

/// Module 6: debounces the pairs and the excess, but not in a test, nor where a trip stands. A pedal that is
/// found limits the operation; any other watch that is found trips (docs/CONCEPT.md, "Level 2"). A trip and
/// limited operation are stored before the counters: where memory runs out, no counter stands at its limit
/// without them. If all counters stand at 0 and nothing bad is fed, the token alone is stored.
#[inline(always)]
pub(crate) fn debounce<M: Guarded>(
    memory: &mut M,
    rules: &Rules,
    phase: Phase,
) -> Result<Step, NoMemory>
    requires within { AreWithin rules.now (words_of (M.shows memory.old).words) }
    requires mirrored { AreMirrored (M.shows memory.old).words }
    ensures { RunMakes (debounce_stores rules.now phase (words_of (M.shows memory.old).words))
        (finding (debounced rules.now phase (words_of (M.shows memory.old).words)))
        (M.shows memory.old) (M.shows memory.new) result }
{
    let token = next_token(word(memory, TOKEN), eg_answer::DEBOUNCE);
    if !feeds_now(memory, phase) || is_still(memory) {
        keep(memory, TOKEN, token)?;
        return Ok(Step::quiet());
    }
    let feeds = feed_all(memory, rules);
    keep_fed(memory, &feeds, token)?;
    Ok(Step::finding(feeds.found()))
}

/// Whether the counters are fed: not in a test, and not where a trip stands.
#[tactic(auto, unfolding(crate::specs::Words::named, crate::specs::Modules::feeds_now))]
fn feeds_now<M: Guarded>(memory: &M, phase: Phase) -> bool
    ensures { result ≡ feeds_now phase (words_of (M.shows memory.now).words) }
{
    phase.feeds() && !is_set(word(memory, TRIP))
}

/// Whether all counters stand at 0 and nothing bad is fed, so that no feed changes one. Mostly it is so.
#[inline(always)]
#[tactic(auto, unfolding(crate::specs::Words::named, crate::specs::Inner::Stores::is_still))]
fn is_still<M: Guarded>(memory: &M) -> bool
    ensures { result ≡ is_still (words_of (M.shows memory.now).words) }
{
    (word(memory, PAIRS) == 0)
        & (word(memory, EXCESS) == 0)
        & (word(memory, PEDAL_COUNTER) == 0)
        & (word(memory, PLATE_COUNTER) == 0)
        & (word(memory, LOAD_COUNTER) == 0)
        & (word(memory, SPEED_COUNTER) == 0)
        & (word(memory, TORQUE_COUNTER) == 0)
}

/// One feed of a counter.
#[tactic(auto, unfolding(crate::specs::Inner::Stores::fed_of, crate::specs::Modules::is_found))]
fn feed(weights: &Weights, value: u16, bad: bool) -> Fed
    requires { value ≤ weights.now.limit }
    ensures { result ≡ fed_of weights.now value bad }
{
    let mut counter = Counter { value };
    let confirmed = counter.feed(weights, bad);
    Fed {
        value: counter.value,
        found: is_new(value, weights, confirmed),
    }
}

/// Whether a counter is confirmed that was below its limit before.
fn is_new(before: u16, weights: &Weights, confirmed: bool) -> bool
    ensures { result ≡ (nat_lt before weights.now.limit && confirmed) }
{
    before < weights.limit() && confirmed
}

/// Whether the bit of that size is set in a word.
#[tactic(auto, unfolding(eg_sensor::specs::Readings::has_bit))]
fn has_bit(size: u16, word: u16) -> bool
    requires { 1 ≤ size }
    ensures { result ≡ has_bit size word }
{
    word / size % 2 == 1
}

/// Feeds the counters with the bits of the pairs and of the excess.
#[inline(always)]
#[tactic(auto, unfolding(crate::specs::Words::named))]
fn feed_all<M: Guarded>(memory: &M, rules: &Rules) -> Feeds
    requires { AreWithin rules.now (words_of (M.shows memory.now).words) }
    ensures { result ≡ feeds_of rules.now (words_of (M.shows memory.now).words) }
{
    let pairs = word(memory, PAIRS);
    let excess = word(memory, EXCESS);
    Feeds {
        pedal: feed(
            &rules.pair,
            word(memory, PEDAL_COUNTER),
            has_bit(PEDAL_PAIR, pairs),
        ),
        plate: feed(
            &rules.pair,
            word(memory, PLATE_COUNTER),
            has_bit(PLATE_PAIR, pairs),
        ),
        load: feed(
            &rules.pair,
            word(memory, LOAD_COUNTER),
            has_bit(LOAD_PAIR, pairs),
        ),
        speed: feed(
            &rules.pair,
            word(memory, SPEED_COUNTER),
            has_bit(SPEED_PAIR, pairs),
        ),
        torque: feed(
            &rules.torque,
            word(memory, TORQUE_COUNTER),
            has_bit(EXCESS_BIT, excess),
        ),
    }
}

/// Stores what comes of the feeds, and the token.
#[inline(always)]
fn keep_fed<M: Guarded>(memory: &mut M, feeds: &Feeds, token: u16) -> Result<(), NoMemory>
    ensures { Makes (fed_stores feeds.now token) (M.shows memory.old) (M.shows memory.new) result }
{
    keep_where(feeds.trips(), memory, TRIP, 1)?;
    keep_where(feeds.pedal.found, memory, LIMP, 1)?;
    keep_counters(memory, feeds)?;
    keep(memory, TOKEN, token)
}

/// Stores the counters.
#[inline(always)]
fn keep_counters<M: Guarded>(memory: &mut M, feeds: &Feeds) -> Result<(), NoMemory>
    ensures { Makes (counting feeds.now) (M.shows memory.old) (M.shows memory.new) result }
{
    keep(memory, PEDAL_COUNTER, feeds.pedal.value)?;
    keep(memory, PLATE_COUNTER, feeds.plate.value)?;
    keep(memory, LOAD_COUNTER, feeds.load.value)?;
    keep(memory, SPEED_COUNTER, feeds.speed.value)?;
    keep(memory, TORQUE_COUNTER, feeds.torque.value)
}

impl Feeds {
    /// Whether a watch is found that trips: any of the five but `pedal`.
    #[tactic(auto, unfolding(crate::specs::Modules::trips, crate::specs::Inner::Stores::found_of))]
    fn trips(&self) -> bool
        ensures { result ≡ trips (found_of self.now) }
    {
        self.plate.found || self.load.found || self.speed.found || self.torque.found
    }

    /// The watches that are found.
    #[tactic(auto, unfolding(crate::specs::Modules::no_watches, crate::specs::Inner::Stores::found_of))]
    fn found(&self) -> Watches
        ensures { result ≡ found_of self.now }
    {
        Watches {
            pedal: self.pedal.found,
            plate: self.plate.found,
            load: self.load.found,
            speed: self.speed.found,
            torque: self.torque.found,
            ..no_watches()
        }
    }
}
