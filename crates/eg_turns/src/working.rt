// What level 1 and level 2 do at a tick, and how they begin.
ghost use Rattle.std.specs.Prelude.{◌≡◌, ℕ, ◌≤◌, ◌<◌, List, length, replicate, slice_index, OnOk};
ghost use Rattle.std.specs.Option.{option_copied};
ghost use Rattle.eg_guard.specs.declared.regions.TheConstants.{DATA as CODE_END, WORDS};
ghost use Rattle.eg_guard.specs.Memory.{KeepsMemory};
ghost use Rattle.eg_word.specs.declared.instruction.Instruction.{Instruction};
ghost use Rattle.eg_word.specs.Program.{IsProgramOf};
ghost use Rattle.eg_word.specs.World.{new_registers, new_world};
ghost use Rattle.eg_level2.specs.Inputs.{IsPrepared};
ghost use Rattle.eg_level2.specs.Words.{start};
ghost use Rattle.eg_fault.specs.Faults.{effects, IsNoneOrValid};
ghost use Rattle.eg_turns.specs.Midway.{IsReady};
ghost use Rattle.eg_turns.specs.Working.{Holds, Works};

use crate::board::{clear, load_image, show};
use crate::levels::run_levels;
use eg_base::NoMemory;
use eg_fault::Fault;
use eg_guard::Guarded;
use eg_host::{Level1, Slices};
use eg_level2::{Level2, Phase, Prepared, Step};
use eg_sensor::Readings;

/// What level 1 and level 2 are handed at a tick (docs/CONCEPT.md, "A run, tick by tick").
#[derive(Clone, Copy)]
pub struct Task {
    /// Its number in the run, which a fault uses.
    pub tick: u32,
    /// Its number in its span, which level 2 uses.
    pub local: u16,
    /// What level 2 is to do at it.
    pub phase: Phase,
    /// The number of the question.
    pub asked: u16,
    /// The readings.
    pub readings: Readings,
    /// What is looked up already for level 2.
    pub prepared: Prepared,
    /// How many instructions level 1 may do in each slice.
    pub slices: Slices,
}

/// The memory as a run begins, where all is 0: the image, which has at most 1,024 words, is loaded, and level
/// 2's words are put to their start (docs/CONCEPT.md, "Level 1" and "Level 2"). NoMemory is the one refusal.
pub fn set_up<M: Guarded>(level2: &Level2, image: &[u16], memory: &mut M) -> Result<(), NoMemory>
    requires fits { length image.now ≤ CODE_END }
    requires zeros { (M.shows memory.old).words ≡ replicate WORDS 0 }
    ensures holds { OnOk result
        (Holds image.now start new_world new_registers (M.shows memory.new).words) }
    ensures program { (program : List Instruction) → IsProgramOf image.now program
        → OnOk result (IsProgramOf (M.shows memory.new).words program) }
    ensures keeps { KeepsMemory (M.shows memory.old) (M.shows memory.new) result }
{
    load_image(memory, image)?;
    level2.reset(memory)?;
    Ok(())
}

/// Level 1 and level 2 as a span begins: all is as at the start of a run (docs/CONCEPT.md, "Power cycles").
/// The code stays: nobody changes it. NoMemory is the one refusal.
pub fn restart<M: Guarded>(
    level2: &Level2,
    level1: &mut Level1,
    memory: &mut M,
) -> Result<(), NoMemory>
    requires { IsReady level2.now.rules level1.old.program (M.shows memory.old).words }
    ensures holds { (image : List ℕ) → ((k : ℕ) → k < CODE_END
        → slice_index (M.shows memory.old).words k ≡ slice_index image k)
        → OnOk result (Holds image start new_world level1.new.registers (M.shows memory.new).words) }
    ensures ready { OnOk result (IsReady level2.now.rules level1.new.program (M.shows memory.new).words) }
    ensures keeps { KeepsMemory (M.shows memory.old) (M.shows memory.new) result }
{
    clear(memory)?;
    level2.reset(memory)?;
    level1.restart();
    Ok(())
}

/// What level 1 and level 2 do at a tick: the readings are written to the input ports and the number of the
/// question to the link, and then slices of level 1 and modules of level 2 run in turn (docs/CONCEPT.md, "A
/// run, tick by tick"). It answers what level 2 orders, answers and finds. NoMemory is the one refusal.
#[inline(always)]
pub fn work<M: Guarded + Drop>(
    level2: &Level2,
    fault: Option<&Fault>,
    task: &Task,
    level1: &mut Level1,
    memory: &mut M,
) -> Result<Step, NoMemory>
    requires ready { IsReady level2.now.rules level1.old.program (M.shows memory.old).words }
    requires fault { IsNoneOrValid (option_copied fault) }
    requires prepared { IsPrepared level2.now task.now.asked task.now.prepared }
    ensures { Works level2.now (effects (option_copied fault.entry) task.now.tick) task.now
        level1.old level1.new (M.shows memory.old) (M.shows memory.new) result }
{
    show(memory, &task.readings, task.asked)?;
    run_levels(level2, fault, task, level1, memory)
}
