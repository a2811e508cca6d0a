// The slices of level 1 and the modules of level 2, in turn over one memory.
ghost use Rattle.std.specs.Prelude.{◌≡◌, ℕ, ◌+◌, ◌<◌, ◌==◌, ◌&&◌, ◌≤◌, List, length, slice_index, true, false, IsFalse, OnOk, IfOk, None};
ghost use Rattle.std.specs.Option.{option_copied};
ghost use Rattle.eg_guard.specs.Memory.{KeepsMemory};
ghost use Rattle.eg_answer.specs.declared.rules.Rules.{Rules};
ghost use Rattle.eg_answer.specs.declared.modules.TheConstants.{MODULES};
ghost use Rattle.eg_word.specs.declared.instruction.Instruction.{Instruction};
ghost use Rattle.eg_word.specs.declared.registers.Registers.{Registers};
ghost use Rattle.eg_word.specs.Program.{IsProgramOf};
ghost use Rattle.eg_fault.specs.Faults.{effects};
ghost use Rattle.eg_fault.specs.Running.{IsRunning};
ghost use Rattle.eg_level2.specs.Words.{words_of, AreMirrored, AreWithin};
ghost use Rattle.eg_level2.specs.Inputs.{IsPrepared, asked_of};
ghost use Rattle.eg_level2.specs.Modules.{quiet_step};
ghost use Rattle.eg_fault.specs.Faults.{IsNoneOrValid};
ghost use Rattle.eg_turns.specs.Inner.Midway;
ghost use Rattle.eg_turns.specs.Inner.Midway.{IsTurn, RunLevels, step_at};
ghost use Rattle.eg_turns.specs.Midway.{Work, IsMidway, IsReady, Meets};

use crate::board::flip;
use crate::working::Task;
use eg_base::NoMemory;
use eg_fault::{Fault, ModuleRuns, fault_of_levels, level1_runs, module_runs};
use eg_guard::Guarded;
use eg_host::Level1;
use eg_level2::{Level2, Step, Watches};

/// A slice of level 1 at a tick at which it runs (docs/CONCEPT.md, "Level 1").
#[inline(always)]
fn slice<M: Guarded>(level1: &mut Level1, memory: &mut M, budget: u16) -> Result<(), NoMemory>
    requires { IsProgramOf (M.shows memory.old).words level1.old.program }
    ensures midway { (w : Work) (j : ℕ) → w.level1 ≡ true → j < length w.slices
        → slice_index w.slices j ≡ budget
        → IsMidway w j j level1.old.registers (M.shows memory.old).words
        → OnOk result (IsMidway w (j + 1) j level1.new.registers (M.shows memory.new).words) }
    ensures ready { (rules : Rules) → IsReady rules level1.old.program (M.shows memory.old).words
        → IsReady rules level1.new.program (M.shows memory.new).words }
    ensures asked { asked_of (M.shows memory.new).words ≡ asked_of (M.shows memory.old).words }
    ensures keeps { KeepsMemory (M.shows memory.old) (M.shows memory.new) result }
{
    level1.slice(memory, budget)
}

/// A run of a module of level 2, where it runs at this tick (docs/CONCEPT.md, "Level 2").
#[inline(always)]
fn module<M: Guarded>(
    level2: &Level2,
    fault: Option<&Fault>,
    runs: &ModuleRuns,
    task: &Task,
    number: u8,
    memory: &mut M,
) -> Result<Step, NoMemory>
    requires number { number < MODULES }
    requires runs { IsRunning (effects (option_copied fault) task.now.tick) runs.now }
    requires prepared { IsPrepared level2.now (asked_of (M.shows memory.old).words) task.now.prepared }
    requires mirrored { AreMirrored (M.shows memory.old).words }
    requires within { AreWithin level2.now.rules (words_of (M.shows memory.old).words) }
    ensures midway { (w : Work) (i : ℕ) (m : Registers)
        → Meets level2.now (effects (option_copied fault.entry) task.now.tick) task.now w.doing
        → (number == 0 && w.doing.differs) ≡ false → IsMidway w i number m (M.shows memory.old).words
        → OnOk result (IsMidway w i (number + 1) m (M.shows memory.new).words) }
    ensures step { (w : Work) (i : ℕ) (m : Registers)
        → Meets level2.now (effects (option_copied fault.entry) task.now.tick) task.now w.doing
        → (number == 0 && w.doing.differs) ≡ false → IsMidway w i number m (M.shows memory.old).words
        → IfOk result (λ step. step ≡ step_at w.doing number w.words) }
    ensures ready { (program : List Instruction) → IsReady level2.now.rules program (M.shows memory.old).words
        → OnOk result (IsReady level2.now.rules program (M.shows memory.new).words) }
    ensures prepared { OnOk result
        (IsPrepared level2.now (asked_of (M.shows memory.new).words) task.now.prepared) }
    ensures keeps { KeepsMemory (M.shows memory.old) (M.shows memory.new) result }
{
    if !runs.runs(number) {
        return Ok(Step::quiet());
    }
    let disturbance = runs.disturbance(number);
    level2.module_with_lookup(
        number,
        memory,
        task.local,
        task.phase,
        disturbance,
        &task.prepared,
    )
}

/// The run of module 0. A scheduled flip comes as it begins (docs/CONCEPT.md, "A run, tick by tick").
#[inline(always)]
fn first_module<M: Guarded>(
    level2: &Level2,
    fault: Option<&Fault>,
    runs: &ModuleRuns,
    task: &Task,
    memory: &mut M,
) -> Result<Step, NoMemory>
    requires fault { IsNoneOrValid (option_copied fault) }
    requires runs { IsRunning (effects (option_copied fault) task.now.tick) runs.now }
    requires prepared { IsPrepared level2.now (asked_of (M.shows memory.old).words) task.now.prepared }
    requires mirrored { AreMirrored (M.shows memory.old).words }
    requires within { AreWithin level2.now.rules (words_of (M.shows memory.old).words) }
    ensures midway { (w : Work) (i : ℕ) (m : Registers)
        → Meets level2.now (effects (option_copied fault.entry) task.now.tick) task.now w.doing
        → IsMidway w i 0 m (M.shows memory.old).words
        → OnOk result (IsMidway w i 1 m (M.shows memory.new).words) }
    ensures step { (w : Work) (i : ℕ) (m : Registers)
        → Meets level2.now (effects (option_copied fault.entry) task.now.tick) task.now w.doing
        → IsMidway w i 0 m (M.shows memory.old).words
        → IfOk result (λ step. step ≡ step_at w.doing 0 w.words) }
    ensures ready { (program : List Instruction) → IsReady level2.now.rules program (M.shows memory.old).words
        → OnOk result (IsReady level2.now.rules program (M.shows memory.new).words) }
    ensures prepared { OnOk result
        (IsPrepared level2.now (asked_of (M.shows memory.new).words) task.now.prepared) }
    ensures keeps { KeepsMemory (M.shows memory.old) (M.shows memory.new) result }
{
    let Some((word, mask)) = eg_fault::flip(fault, task.tick) else {
        return module(level2, fault, runs, task, 0, memory);
    };
    flip(memory, word, mask)?;
    // No fault that flips a word leaves module 0 out, or disturbs it.
    level2.module_with_lookup(0, memory, task.local, task.phase, 0, &task.prepared)
}

/// The slice of level 1 of that number, and then the module of level 2 of the same number, at a tick at which
/// level 1 runs (docs/CONCEPT.md, "A run, tick by tick").
#[inline(always)]
fn turn<M: Guarded>(
    level2: &Level2,
    fault: Option<&Fault>,
    runs: &ModuleRuns,
    task: &Task,
    number: u8,
    level1: &mut Level1,
    memory: &mut M,
) -> Result<Step, NoMemory>
    requires number { number < MODULES }
    requires fault { IsNoneOrValid (option_copied fault) }
    requires runs { IsRunning (effects (option_copied fault) task.now.tick) runs.now }
    requires level1 { (effects (option_copied fault) task.now.tick).level1 ≡ true }
    requires prepared { IsPrepared level2.now (asked_of (M.shows memory.old).words) task.now.prepared }
    requires ready { IsReady level2.now.rules level1.old.program (M.shows memory.old).words }
    ensures { IsTurn level2.now (effects (option_copied fault.entry) task.now.tick) task.now number
        level1.old level1.new (M.shows memory.old) (M.shows memory.new) result }
{
    let budget = task.slices.budget_of(number);
    slice(level1, memory, budget)?;
    if number == 0 {
        return first_module(level2, fault, runs, task, memory);
    }
    module(level2, fault, runs, task, number, memory)
}

/// The nine slices of level 1 and the eight modules of level 2 of a tick, in turn: after each slice but the
/// last comes the module of its number (docs/CONCEPT.md, "A run, tick by tick"). Answers what the modules
/// order, answer and find. A tick at which no fault acts on the two levels takes a shorter form, and one at
/// which neither runs none.
#[inline(always)]
#[tactic(auto, unfolding(eg_fault::specs::Faults::IsNoneOrValid))]
pub(crate) fn run_levels<M: Guarded + Drop>(
    level2: &Level2,
    fault: Option<&Fault>,
    task: &Task,
    level1: &mut Level1,
    memory: &mut M,
) -> Result<Step, NoMemory>
    requires fault { IsNoneOrValid (option_copied fault) }
    requires prepared { IsPrepared level2.now (asked_of (M.shows memory.old).words) task.now.prepared }
    requires ready { IsReady level2.now.rules level1.old.program (M.shows memory.old).words }
    ensures { RunLevels level2.now (effects (option_copied fault.entry) task.now.tick) task.now
        level1.old level1.new (M.shows memory.old) (M.shows memory.new) result }
{
    let fault = fault_of_levels(fault, task.tick);
    if fault.is_none() {
        return run_turns::<M, false>(level2, None, task, level1, memory);
    }
    if !level1_runs(fault, task.tick) {
        return Ok(stopped(task));
    }
    run_faulty_turns(level2, fault, *task, level1, memory)
}

/// What a tick at which neither level 1 nor level 2 runs orders, answers and finds.
#[inline(always)]
fn stopped(task: &Task) -> Step
    ensures quiet { result ≡ quiet_step }
    ensures nine { length task.now.slices ≡ 9 }
{
    // Called for its clause alone: there are nine slices.
    let _last = task.slices.budget_of(8);
    Step::quiet()
}

/// The turns of a tick at which a fault acts on them. They aren't compiled into each caller of a tick. The
/// task is handed over by value, so that at any other tick its parts needn't stand in one place.
#[inline(never)]
fn run_faulty_turns<M: Guarded + Drop>(
    level2: &Level2,
    fault: Option<&Fault>,
    task: Task,
    level1: &mut Level1,
    memory: &mut M,
) -> Result<Step, NoMemory>
    requires fault { IsNoneOrValid (option_copied fault) }
    requires level1 { (effects (option_copied fault) task.tick).level1 ≡ true }
    requires prepared { IsPrepared level2.now (asked_of (M.shows memory.old).words) task.prepared }
    requires ready { IsReady level2.now.rules level1.old.program (M.shows memory.old).words }
    ensures { RunLevels level2.now (effects (option_copied fault.entry) task.tick) task
        level1.old level1.new (M.shows memory.old) (M.shows memory.new) result }
{
    run_turns::<M, true>(level2, fault, &task, level1, memory)
}

/// `run_levels` in one of its two forms: compiled with what is asked of a fault at each turn, or without. The
/// turns are written out, so that each is compiled for its own number.
#[inline(always)]
fn run_turns<M: Guarded + Drop, const FAULTY: bool>(
    level2: &Level2,
    fault: Option<&Fault>,
    task: &Task,
    level1: &mut Level1,
    memory: &mut M,
) -> Result<Step, NoMemory>
    requires fault { IsNoneOrValid (option_copied fault) }
    requires quiet { IsFalse FAULTY → option_copied fault ≡ None }
    requires level1 { (effects (option_copied fault) task.now.tick).level1 ≡ true }
    requires prepared { IsPrepared level2.now (asked_of (M.shows memory.old).words) task.now.prepared }
    requires ready { IsReady level2.now.rules level1.old.program (M.shows memory.old).words }
    ensures { RunLevels level2.now (effects (option_copied fault.entry) task.now.tick) task.now
        level1.old level1.new (M.shows memory.old) (M.shows memory.new) result }
{
    let fault = acting::<FAULTY>(fault);
    let runs = module_runs(fault, task.tick);
    let whole = Step::quiet();
    let step = turn(level2, fault, &runs, task, 0, level1, memory)?;
    let whole = joined(&whole, &step);
    let step = turn(level2, fault, &runs, task, 1, level1, memory)?;
    let whole = joined(&whole, &step);
    let step = turn(level2, fault, &runs, task, 2, level1, memory)?;
    let whole = joined(&whole, &step);
    let step = turn(level2, fault, &runs, task, 3, level1, memory)?;
    let whole = joined(&whole, &step);
    let step = turn(level2, fault, &runs, task, 4, level1, memory)?;
    let whole = joined(&whole, &step);
    let step = turn(level2, fault, &runs, task, 5, level1, memory)?;
    let whole = joined(&whole, &step);
    let step = turn(level2, fault, &runs, task, 6, level1, memory)?;
    let whole = joined(&whole, &step);
    let step = turn(level2, fault, &runs, task, 7, level1, memory)?;
    let whole = joined(&whole, &step);
    let last = task.slices.budget_of(8);
    slice(level1, memory, last)?;
    Ok(whole)
}

/// The fault that may act, in the form with a fault; in the other there is none.
#[inline(always)]
fn acting<const FAULTY: bool>(fault: Option<&Fault>) -> Option<&Fault>
    requires { IsFalse FAULTY → option_copied fault ≡ None }
    ensures { option_copied result ≡ option_copied fault.entry }
{
    if FAULTY { fault } else { None }
}

/// What is ordered, answered and found by a step and by the next.
#[tactic(auto, unfolding(crate::specs::Inner::Midway::joined, crate::specs::Inner::Midway::found_in_both))]
fn joined(first: &Step, next: &Step) -> Step
    ensures { result ≡ Midway.joined first.now next.now }
{
    Step {
        open_path: first.open_path | next.open_path,
        answer: first.answer.or(next.answer),
        found: Watches {
            mirror: first.found.mirror | next.found.mirror,
            pedal: first.found.pedal | next.found.pedal,
            plate: first.found.plate | next.found.plate,
            load: first.found.load | next.found.load,
            speed: first.found.speed | next.found.speed,
            torque: first.found.torque | next.found.torque,
            answers: first.found.answers | next.found.answers,
            start: first.found.start | next.found.start,
        },
    }
}
