// Level 2 alone, over readings that were recorded.
ghost use Rattle.std.specs.Prelude.{◌≡◌, ◌∷◌, [], List};
ghost use Rattle.eg_level2.specs.Words.{words_of, start, AreMirrored, AreWithin};
ghost use Rattle.eg_replay.specs.Replay.{told_after, given_readings};
ghost use Rattle.eg_replay.specs.Inner.Running.{counters_kept};
ghost use Rattle.eg_replay.specs.Running.{IsReplayOf};
ghost use Rattle.eg_input.specs.declared.recorded.Recorded.{Recorded as IsRecorded};

use crate::modules::{run_modules, show_readings};
use crate::{Counters, TickSignals};
use eg_guard::FlatMemory;
use eg_input::Recorded;
use eg_level2::{Level2, Lookup, Prepared};
use eg_sensor::{Readings, gate, pressed};
use eg_turns::{signals, word};
use eg_values::Calibration;
use std::marker::Model;

/// Level 2 alone, over readings that were recorded (docs/CONCEPT.md, "`replay` and `signals`"): it begins as
/// new, and runs its eight modules once for each line. It is the unit's own level 2. Contracts see its
/// `ReplayParts`, and say for which recordings it stands. No call takes memory.
#[derive(Drop)]
pub struct Replay {
    calibration: Calibration,
    level2: Level2,
    prepared: Prepared,
    memory: FlatMemory,
    tick: u16,
}

impl Model for Replay {
    ghost use Rattle.std.specs.Prelude.{◌≡◌, List};
    ghost use Rattle.eg_values.specs.Calibration.{IsAccepted};
    ghost use Rattle.eg_replay.specs.Running.{ReplayParts, AreSound, IsWhole};

    ghost Value = { ReplayParts };

    ghost view = { λ r. record { cal = r.calibration; memory = r.memory } };

    ghost invariant = { λ r. IsWhole r.calibration r.level2 r.prepared r.memory };
}

impl Replay {
    /// A replay that was fed nothing, by this calibration.
    pub fn new(calibration: &Calibration) -> Replay
        ensures cal { result.cal ≡ calibration.now }
        // It stands for no recordings.
        ensures stands { IsReplayOf result [] }
    {
        let level2 = Level2::new(calibration.rules().copy(), calibration.questions().copy());
        let prepared = level2.prepared(0, Lookup::new(level2.rules(), 0, 0));
        let memory = started(&level2);
        Replay {
            calibration: calibration.copy(),
            level2,
            prepared,
            memory,
            tick: 0,
        }
    }

    /// Runs the tick at which this was recorded, and tells what comes of it.
    pub fn feed(&mut self, recorded: &Recorded) -> TickSignals
        ensures cal { self.new.cal ≡ self.old.cal }
        // Of the recordings that it stood for, whichever they are, and of this one the model tells the same.
        ensures told { (seen : List IsRecorded) → IsReplayOf self.old seen →
            result ≡ told_after self.old.cal recorded.now seen }
        ensures stands { (seen : List IsRecorded) → IsReplayOf self.old seen →
            IsReplayOf self.new (recorded.now ∷ seen) }
    {
        let readings = self.given(recorded);
        show_readings(&mut self.memory, &readings);
        let found = run_modules(&self.level2, &self.prepared, self.tick, &mut self.memory);
        self.tick = self.tick.wrapping_add(1);
        TickSignals {
            signals: signals(&self.memory),
            counters: counters(&self.memory),
            found,
        }
    }

    /// The readings that level 2 is given: gated where the brake counts and is taken as pressed.
    fn given(&self, recorded: &Recorded) -> Readings
        ensures { result ≡ given_readings self.now.cal recorded.now }
    {
        if self.calibration.brake() && pressed(recorded.contacts) {
            gate(&recorded.readings)
        } else {
            recorded.readings
        }
    }
}

/// A memory with the words with which level 2 starts.
fn started(level2: &Level2) -> FlatMemory
    ensures words { words_of result ≡ start }
    ensures mirrored { AreMirrored result }
    ensures within { AreWithin level2.now.rules (words_of result) }
{
    let mut memory = FlatMemory::new();
    match level2.reset(&mut memory) {
        Ok(()) => memory,
        Err(_) => unreachable!("a sure memory never runs out"),
    }
}

/// What the debouncers weigh, as it stands in the memory.
#[tactic(auto, unfolding(crate::specs::Inner::Running::counters_kept, eg_level2::specs::Words::named))]
fn counters(memory: &FlatMemory) -> Counters
    ensures { result ≡ counters_kept (words_of memory.now) }
{
    Counters {
        pedal: word(memory, 5),
        plate: word(memory, 6),
        load: word(memory, 7),
        speed: word(memory, 8),
        torque: word(memory, 9),
    }
}
