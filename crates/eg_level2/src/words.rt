// Level 2's words in the guarded memory: each is stored with its complement.
ghost use Rattle.std.specs.Prelude.{◌≡◌, ◌↔◌, ◌<◌, IsTrue, OnOk, OnErr};
ghost use Rattle.eg_guard.specs.Memory.{KeepsMemory};
ghost use Rattle.eg_answer.specs.declared.words.TheConstants.{MIRRORED_WORDS, STORED_WORDS};
ghost use Rattle.eg_level2.specs.Words.{address_of, word_at, AreMirrored, is_set};
ghost use Rattle.eg_level2.specs.Inner.Stores.{Makes, outside};
ghost use Rattle.eg_level2.specs.Stores.{put, both, both_where, both_from};

use eg_answer::MIRRORED_WORDS;
use eg_base::NoMemory;
use eg_guard::{Guarded, PROTECTED, RESULT_COUNT, RESULTS, StoreRefusal, Who};

/// How many words there are. The complement of word `n` has the number `n + WORDS`.
const WORDS: u16 = MIRRORED_WORDS as u16;

/// How many words, from word 0 on, are signals. The signals stand among the results.
pub(crate) const SIGNALS: u16 = RESULT_COUNT;

// The numbers of the words (docs/FORMATS.md, "Words of level 2").
pub(crate) const PEDAL: u16 = 0;

pub(crate) const PERMITTED: u16 = 1;

pub(crate) const ACTUAL: u16 = 2;

pub(crate) const EXCESS: u16 = 3;

pub(crate) const PAIRS: u16 = 4;

pub(crate) const PEDAL_COUNTER: u16 = 5;

pub(crate) const PLATE_COUNTER: u16 = 6;

pub(crate) const LOAD_COUNTER: u16 = 7;

pub(crate) const SPEED_COUNTER: u16 = 8;

pub(crate) const TORQUE_COUNTER: u16 = 9;

pub(crate) const LIMP: u16 = 10;

pub(crate) const TRIP: u16 = 11;

pub(crate) const TOKEN: u16 = 12;

pub(crate) const FLOW: u16 = 13;

pub(crate) const LAST: u16 = 14;

pub(crate) const SIGN: u16 = 15;

/// The high word of an answer where the program flow is whole.
pub(crate) const WHOLE_FLOW: u16 = 0x00ff;

/// The bit that marks the high word of an answer where the program flow was broken.
pub(crate) const BROKEN_FLOW: u16 = 0x8000;

/// The address at which the word of level 2 of that number stands, 0 to 15, and from 16 on its complement
/// (docs/FORMATS.md, "Words of level 2").
#[inline]
#[tactic(auto, unfolding(crate::specs::Words::address_of))]
pub fn word_address(number: u16) -> u16
    requires { number < STORED_WORDS }
    ensures { result ≡ address_of number }
{
    if number < SIGNALS {
        RESULTS + number
    } else {
        PROTECTED + (number - SIGNALS)
    }
}

/// The word of that number, and from 16 on the complement.
#[tactic(auto, using(crate::proofs::PlaceLemmas::places), unfolding(crate::specs::Words::word_at))]
pub(crate) fn word<M: Guarded>(memory: &M, number: u16) -> u16
    requires { number < STORED_WORDS }
    ensures { result ≡ word_at (M.shows memory.now).words number }
{
    match memory.load(Who::Level2, word_address(number)) {
        Ok(word) => word,
        Err(_) => unreachable!(),
    }
}

/// Stores one word alone.
#[tactic(auto, using(crate::proofs::PlaceLemmas::places))]
fn put<M: Guarded>(memory: &mut M, number: u16, value: u16) -> Result<(), NoMemory>
    requires { number < STORED_WORDS }
    ensures stored { OnOk result (word_at (M.shows memory.new).words
        ≡ put number value (word_at (M.shows memory.old).words)) }
    ensures stopped { OnErr result (word_at (M.shows memory.new).words
        ≡ word_at (M.shows memory.old).words) }
    ensures outside { outside (M.shows memory.new).words ≡ outside (M.shows memory.old).words }
    ensures memory { KeepsMemory (M.shows memory.old) (M.shows memory.new) result }
{
    match memory.store(Who::Level2, word_address(number), value) {
        Ok(()) => Ok(()),
        Err(StoreRefusal::Refused) => unreachable!(),
        Err(StoreRefusal::Memory) => Err(NoMemory),
    }
}

/// Stores a word and its complement.
#[inline(always)]
pub(crate) fn keep<M: Guarded>(memory: &mut M, number: u16, value: u16) -> Result<(), NoMemory>
    requires { number < MIRRORED_WORDS }
    ensures { Makes (both number value) (M.shows memory.old) (M.shows memory.new) result }
{
    put(memory, number, value)?;
    put(memory, number + WORDS, u16::MAX - value)
}

/// Stores a word and its complement where a test is true, and else nothing.
pub(crate) fn keep_where<M: Guarded>(
    test: bool,
    memory: &mut M,
    number: u16,
    value: u16,
) -> Result<(), NoMemory>
    requires { number < MIRRORED_WORDS }
    ensures { Makes (both_where test number value) (M.shows memory.old) (M.shows memory.new) result }
{
    if !test {
        return Ok(());
    }
    keep(memory, number, value)
}

/// Stores all words, in the order of their numbers.
pub(crate) fn keep_all<M: Guarded>(
    memory: &mut M,
    words: &[u16; MIRRORED_WORDS as usize],
) -> Result<(), NoMemory>
    ensures makes { Makes (both_from 0 words.now) (M.shows memory.old) (M.shows memory.new) result }
    ensures mirrored { OnOk result (AreMirrored (M.shows memory.new).words) }
{
    for number in 0..WORDS {
        let value = words[usize::from(number)];
        keep(memory, number, value)?;
    }
    Ok(())
}

/// Whether every word and its complement add up to 65535.
pub(crate) fn is_mirrored<M: Guarded>(memory: &M) -> bool
    ensures { IsTrue result ↔ AreMirrored (M.shows memory.now).words }
{
    let mut same = true;
    for number in 0..WORDS {
        same &= word(memory, number + WORDS) == u16::MAX - word(memory, number);
    }
    same
}

/// Whether a word that is 1 or 0 is set.
#[tactic(auto, unfolding(crate::specs::Words::is_set))]
pub(crate) fn is_set(word: u16) -> bool
    ensures { result ≡ is_set word }
{
    word != 0
}
