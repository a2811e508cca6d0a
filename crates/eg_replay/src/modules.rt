// The eight modules of level 2, over a memory that is sure.
ghost use Rattle.std.specs.Prelude.{◌≡◌, ◌+◌, ◌<◌, ℕ};
ghost use Rattle.eg_answer.specs.declared.modules.TheConstants.{CHECK, MODULES};
ghost use Rattle.eg_sensor.specs.declared.readings.Readings.{Readings as IsReadings};
ghost use Rattle.eg_guard.specs.Memory.{AreWords};
ghost use Rattle.eg_level2.specs.Words.{Words, words_of, AreMirrored, AreWithin};
ghost use Rattle.eg_level2.specs.Inputs.{IsPrepared, readings_of, asked_of};
ghost use Rattle.eg_level2.specs.Modules.{found_by};
ghost use Rattle.eg_level2.specs.Ticks.{after_modules, after_tick, finds_at, inputs_for};
ghost use Rattle.eg_turns.specs.Board.{by_tracks};
ghost use Rattle.eg_replay.specs.Inner.Running.{meeting, HasRun};

use eg_guard::FlatMemory;
use eg_level2::{Level2, Phase, Prepared};
use eg_num::Watches;
use eg_sensor::Readings;
use eg_turns::show;

/// Writes the readings to the input ports, as the board does. The number of the question is 0.
pub(crate) fn show_readings(memory: &mut FlatMemory, readings: &Readings)
    requires { AreWords memory.old }
    ensures are_words { AreWords memory.new }
    ensures readings { readings_of memory.new ≡ by_tracks readings.now }
    ensures asked { asked_of memory.new ≡ 0 }
    ensures words { words_of memory.new ≡ words_of memory.old }
    ensures mirrored { AreMirrored memory.old → AreMirrored memory.new }
{
    match show(memory, readings, 0) {
        Ok(()) => (),
        Err(_) => unreachable!("a sure memory never runs out"),
    }
}

/// Runs the eight modules at a tick, over the readings at the input ports. Answers what they find.
pub(crate) fn run_modules(
    level2: &Level2,
    prepared: &Prepared,
    tick: u16,
    memory: &mut FlatMemory,
) -> Watches
    requires prepared { IsPrepared level2.now (asked_of memory.old) prepared.now }
    requires are_words { AreWords memory.old }
    requires mirrored { AreMirrored memory.old }
    requires within { AreWithin level2.now.rules (words_of memory.old) }
    ensures words { (reads : IsReadings) (asked : ℕ) → readings_of memory.old ≡ reads →
        asked_of memory.old ≡ asked → words_of memory.new
        ≡ after_tick (meeting level2.now reads asked tick) (words_of memory.old) }
    ensures found { (reads : IsReadings) (asked : ℕ) → readings_of memory.old ≡ reads →
        asked_of memory.old ≡ asked →
        result ≡ finds_at (meeting level2.now reads asked tick) (words_of memory.old) }
    ensures are_words { AreWords memory.new }
    ensures mirrored { AreMirrored memory.new }
    ensures within { AreWithin level2.now.rules (words_of memory.new) }
{
    run_module(level2, prepared, tick, 0, memory);
    run_module(level2, prepared, tick, 1, memory);
    run_module(level2, prepared, tick, 2, memory);
    run_module(level2, prepared, tick, 3, memory);
    run_module(level2, prepared, tick, 4, memory);
    run_module(level2, prepared, tick, 5, memory);
    let found = run_module(level2, prepared, tick, eg_answer::DEBOUNCE, memory);
    run_module(level2, prepared, tick, eg_answer::REACT, memory);
    found
}

/// Runs the module of a number. Answers what it finds.
#[inline(always)]
fn run_module(
    level2: &Level2,
    prepared: &Prepared,
    tick: u16,
    number: u8,
    memory: &mut FlatMemory,
) -> Watches
    requires number { number < MODULES }
    requires prepared { IsPrepared level2.now (asked_of memory.old) prepared.now }
    requires are_words { AreWords memory.old }
    requires mirrored { AreMirrored memory.old }
    requires within { AreWithin level2.now.rules (words_of memory.old) }
    ensures run { (reads : IsReadings) (asked : ℕ) (before : Words) →
        HasRun (meeting level2.now reads asked tick) before number memory.old →
        HasRun (meeting level2.now reads asked tick) before (number + 1) memory.new }
    ensures found { (reads : IsReadings) (asked : ℕ) (before : Words) →
        HasRun (meeting level2.now reads asked tick) before number memory.old →
        result ≡ found_by (inputs_for (meeting level2.now reads asked tick) number) number
        (after_modules (meeting level2.now reads asked tick) number before) }
    ensures prepared { IsPrepared level2.now (asked_of memory.new) prepared.now }
    ensures are_words { AreWords memory.new }
    ensures mirrored { AreMirrored memory.new }
    ensures within { AreWithin level2.now.rules (words_of memory.new) }
{
    match level2.module_with_lookup(number, memory, tick, Phase::Quiet, 0, prepared) {
        Ok(step) => step.found,
        Err(_) => unreachable!("a sure memory never runs out"),
    }
}
