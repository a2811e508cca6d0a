// What the board itself writes into the memory.
ghost use Rattle.std.specs.Prelude.{◌≡◌, ℕ, ◌+◌, ◌<◌, ◌≤◌, length, slice_index, slice_set, bit_xor, IsTrue, OnOk, OnErr};
ghost use Rattle.eg_guard.specs.declared.regions.Who.TheVariants.{Board};
ghost use Rattle.eg_guard.specs.Memory.{AreWords, SameOutside, KeepsMemory};
ghost use Rattle.eg_guard.specs.declared.regions.TheConstants.{DATA as CODE_END, WORDS};
ghost use Rattle.eg_guard.specs.Regions;
ghost use Rattle.eg_answer.specs.declared.words.TheConstants.{STORED_WORDS};
ghost use Rattle.eg_word.specs.Memory.{is_level1_own};
ghost use Rattle.eg_word.specs.World.{world_of, new_registers, new_world};
ghost use Rattle.eg_level2.specs.Words.{address_of, AreMirrored, is_level2_own};
ghost use Rattle.eg_level2.specs.Inputs.{readings_of, asked_of};
ghost use Rattle.eg_level2.specs.Stores.{after_stores};
ghost use Rattle.eg_turns.specs.Board.{IsWritten, is_board_own, by_tracks, stores_from, clearing, showing, AreMade};

use eg_base::NoMemory;
use eg_guard::{DATA, Guarded, IN_PORTS, LINK, StoreRefusal, THROTTLE, Who};
use eg_level2::word_address;
use eg_sensor::Readings;

/// The first word of the code (docs/FORMATS.md, "Memory map").
const CODE: u16 = 0;

/// Stores a word at an address that the board may store to.
fn put<M: Guarded>(memory: &mut M, address: u16, word: u16) -> Result<(), NoMemory>
    requires { IsTrue (Regions.access Board address).store }
    ensures stored { OnOk result
        ((M.shows memory.new).words ≡ slice_set (M.shows memory.old).words address word) }
    ensures stopped { OnErr result ((M.shows memory.new).words ≡ (M.shows memory.old).words) }
    ensures keeps { KeepsMemory (M.shows memory.old) (M.shows memory.new) result }
{
    match memory.store(Who::Board, address, word) {
        Ok(()) => Ok(()),
        Err(StoreRefusal::Refused) => unreachable!(),
        Err(StoreRefusal::Memory) => Err(NoMemory),
    }
}

/// Loads a word from an address that the board may load from.
pub(crate) fn load<M: Guarded>(memory: &M, address: u16) -> u16
    requires { IsTrue (Regions.access Board address).load }
    ensures word { result ≡ slice_index (M.shows memory.now).words address }
    ensures are_words { AreWords (M.shows memory.now).words }
{
    match memory.load(Who::Board, address) {
        Ok(word) => word,
        Err(_) => unreachable!(),
    }
}

/// Stores these words from an address on, in their order. Where memory runs out the stores up to there were
/// made, and nothing else has changed.
fn write<M: Guarded>(memory: &mut M, first: u16, values: &[u16]) -> Result<(), NoMemory>
    requires stored { (k : ℕ) → k < length values.now → IsTrue (Regions.access Board (first + k)).store }
    requires within { first + length values.now ≤ WORDS }
    requires are_words { AreWords (M.shows memory.old).words }
    ensures written { OnOk result (IsWritten (M.shows memory.old).words (M.shows memory.new).words
        first values.now (length values.now)) }
    ensures made { OnOk result (slice_index (M.shows memory.new).words
        ≡ after_stores (stores_from first values.now) (slice_index (M.shows memory.old).words)) }
    ensures stopped { OnErr result (AreMade (stores_from first values.now)
        (M.shows memory.old).words (M.shows memory.new).words) }
    ensures keeps { KeepsMemory (M.shows memory.old) (M.shows memory.new) result }
{
    let mut address = first;
    for value in values {
        put(memory, address, *value)?;
        address += 1;
    }
    Ok(())
}

/// Loads the image that level 1 runs (docs/CONCEPT.md, "Level 1").
#[tactic(auto, using(crate::proofs::BoardLemmas::board))]
pub(crate) fn load_image<M: Guarded>(memory: &mut M, image: &[u16]) -> Result<(), NoMemory>
    requires fits { length image.now ≤ CODE_END }
    requires are_words { AreWords (M.shows memory.old).words }
    ensures written { OnOk result
        (IsWritten (M.shows memory.old).words (M.shows memory.new).words 0 image.now (length image.now)) }
    ensures stopped { OnErr result (AreMade (stores_from 0 image.now)
        (M.shows memory.old).words (M.shows memory.new).words) }
    ensures keeps { KeepsMemory (M.shows memory.old) (M.shows memory.new) result }
{
    write(memory, CODE, image)
}

/// Clears level 1's data and its two outputs, as at the start of a run (docs/CONCEPT.md, "Level 1").
#[tactic(auto, using(crate::proofs::BoardLemmas::board))]
pub(crate) fn clear<M: Guarded>(memory: &mut M) -> Result<(), NoMemory>
    requires are_words { AreWords (M.shows memory.old).words }
    ensures world { OnOk result (world_of new_registers (M.shows memory.new).words ≡ new_world) }
    ensures outside { OnOk result
        (SameOutside is_level1_own (M.shows memory.old).words (M.shows memory.new).words) }
    ensures stopped { OnErr result (AreMade clearing
        (M.shows memory.old).words (M.shows memory.new).words) }
    ensures keeps { KeepsMemory (M.shows memory.old) (M.shows memory.new) result }
{
    write(memory, DATA, &[0; 1024])?;
    write(memory, THROTTLE, &[0, 0])
}

/// Writes the readings to the input ports, and the number of the question to the link (docs/FORMATS.md,
/// "Memory map").
#[tactic(auto, using(crate::proofs::BoardLemmas::board))]
pub fn show<M: Guarded>(memory: &mut M, readings: &Readings, asked: u16) -> Result<(), NoMemory>
    requires are_words { AreWords (M.shows memory.old).words }
    ensures readings { OnOk result (readings_of (M.shows memory.new).words ≡ by_tracks readings.now) }
    ensures asked { OnOk result (asked_of (M.shows memory.new).words ≡ asked) }
    ensures outside { OnOk result
        (SameOutside is_board_own (M.shows memory.old).words (M.shows memory.new).words) }
    ensures stopped { OnErr result (AreMade (showing readings.now asked)
        (M.shows memory.old).words (M.shows memory.new).words) }
    ensures keeps { KeepsMemory (M.shows memory.old) (M.shows memory.new) result }
{
    let ports = [
        readings.pedal[0],
        readings.pedal[1],
        readings.plate[0],
        readings.plate[1],
        readings.load[0],
        readings.load[1],
        readings.speed[0],
        readings.speed[1],
        readings.raise,
        readings.raise_check,
    ];
    write(memory, IN_PORTS, &ports)?;
    put(memory, LINK, asked)
}

/// Flips bits of a word of level 2 (docs/CONCEPT.md, "Faults").
#[tactic(auto, using(crate::proofs::BoardLemmas::board))]
pub(crate) fn flip<M: Guarded>(memory: &mut M, word: u8, mask: u16) -> Result<(), NoMemory>
    requires word { word < STORED_WORDS }
    requires some { 1 ≤ mask }
    ensures flipped { OnOk result ((M.shows memory.new).words
        ≡ slice_set (M.shows memory.old).words (address_of word)
        (bit_xor (slice_index (M.shows memory.old).words (address_of word)) mask)) }
    ensures changed { AreMirrored (M.shows memory.old).words
        → OnOk result (¬ AreMirrored (M.shows memory.new).words) }
    ensures outside { OnOk result
        (SameOutside is_level2_own (M.shows memory.old).words (M.shows memory.new).words) }
    ensures stopped { OnErr result ((M.shows memory.new).words ≡ (M.shows memory.old).words) }
    ensures keeps { KeepsMemory (M.shows memory.old) (M.shows memory.new) result }
{
    let address = word_address(u16::from(word));
    let before = load(memory, address);
    put(memory, address, before ^ mask)
}
