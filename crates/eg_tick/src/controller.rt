// The controller: what it is made of, and how it begins.
ghost use Rattle.std.specs.Prelude.{◌≡◌, ◌+◌, ◌%◌, ◌^◌, ◌≤◌, ◌<◌, true, false, length, replicate, List, []};
ghost use Rattle.std.specs.Prelude.{IsTrue, None, IsOk, IfOk, OnErr};
ghost use Rattle.std.specs.Option.{option_or};
ghost use Rattle.eg_guard.specs.declared.regions.TheConstants.{DATA as CODE_END, WORDS};
ghost use Rattle.eg_model.specs.History.{Setting, Entry};
ghost use Rattle.eg_model.specs.Spans.{moments};
ghost use Rattle.eg_model.specs.Rows.{trap_in, first_trap};
ghost use Rattle.eg_model.specs.Records.{NeverFails};
ghost use Rattle.eg_fault.specs.Faults.{IsNoneOrValid};
ghost use Rattle.eg_tick.specs.Stands.{Stands};
ghost use Rattle.eg_tick.specs.Advancing.{world_before, IsTick, IsTrapped, HoldsOutputs, RowIsUnpowered, RowCutsSharply, RowReactsInTime, RowReactsAtOnce, RowCutsStandingExcess, HistoryHasShortExcess};
ghost use Rattle.eg_tick.specs.Margins.{counters_in_run};
ghost use Rattle.eg_tick.specs.Weights.{weight_of};

use crate::Slices;
use crate::monitoring::{judge, question};
use crate::paths::Paths;
use crate::plant::{readings, step_engine};
use crate::row::{Beginning, demand, effective, look_up, row};
use crate::span::{Span, enter};
use crate::weighing::counters;
use eg_base::NoMemory;
use eg_fault::{Fault, fault_beyond_levels, held};
use eg_guard::Guarded;
use eg_host::Level1;
use eg_level2::{Level2, Lookup};
use eg_module::{Monitor, test_ticks};
use eg_num::Drive;
use eg_plant::Engine;
use eg_record::{Counters, Row};
use eg_torque::ramped;
use eg_turns::{Task, set_up, work};
use eg_values::Calibration;
use eg_word::{State, Trap};
use std::marker::Model;

mod branching;
mod commanding;
mod restarting;
mod ticks;

pub use ticks::Ticks;

/// The controller (docs/CONCEPT.md, "A run, tick by tick"): level 1 and level 2 over one guarded memory, the
/// monitoring module, the latches of the two paths, and the engine. Contracts see its `ControllerParts`.
#[derive(Drop)]
pub struct Controller<E: Engine, M: Guarded> {
    calibration: Calibration,
    fault: Option<Fault>,
    level2: Level2,
    test_ticks: u32,
    span: Span,
    level1: Level1,
    memory: M,
    engine: E,
    ticks: u32,
    trap: Option<(Trap, u32)>,
    lost: bool,
    lookup: Lookup,
}

impl<E: Engine, M: Guarded> Model for Controller<E, M> {
    ghost use Rattle.std.specs.Prelude.{◌≡◌};
    ghost use Rattle.eg_tick.specs.Kept.{ControllerParts};
    ghost use Rattle.eg_tick.specs.Inside.{IsWhole};

    ghost Value = { ControllerParts E };

    ghost view = { λ c. record {
      engine = c.engine;
      kept = record {
        cal = c.calibration;
        fault = c.fault;
        ticks = c.ticks;
        span = c.span;
        memory = M.shows c.memory;
        registers = c.level1.registers;
        trap = c.trap;
        kt = E.kt c.engine;
        shown = E.shows c.engine;
        lost = c.lost;
      };
    } };

    ghost invariant = { λ c. IsWhole c.calibration c.level2 c.test_ticks c.level1.program c.lookup (record {
      cal = c.calibration;
      fault = c.fault;
      ticks = c.ticks;
      span = c.span;
      memory = M.shows c.memory;
      registers = c.level1.registers;
      trap = c.trap;
      kt = E.kt c.engine;
      shown = E.shows c.engine;
      lost = c.lost;
    }) };
}

impl<E: Engine + Drop, M: Guarded + Drop> Controller<E, M> {
    /// A controller that has made no tick (docs/CONCEPT.md, "The controller"): with this calibration, the
    /// image that level 1 runs (at most 1,024 words), the fault of the run, if any, which is a valid one, a
    /// memory of 0s, and an engine whose `kt` is that of the calibration. On NoMemory, its one refusal,
    /// memory and engine are dropped.
    pub fn new(
        calibration: Calibration,
        image: &[u16],
        fault: Option<Fault>,
        memory: M,
        engine: E,
    ) -> Result<Controller<E, M>, NoMemory>
        requires image { length image.now ≤ CODE_END }
        requires fault { IsNoneOrValid fault }
        requires zeros { (M.shows memory).words ≡ replicate WORDS 0 }
        requires kt { E.kt engine ≡ calibration.rules.kt }
        // It stands for the history of this run without a tick.
        ensures stands { IfOk result (λ controller.
            Stands (record { cal = calibration; image = image.now; fault = fault }) controller.kept []) }
        // The engine is the one handed in, and what is kept of it is what it shows.
        ensures engine { IfOk result (λ controller. controller.engine ≡ engine) }
        ensures shows { IfOk result (λ controller. controller.kept.shown ≡ E.shows engine) }
        // NoMemory never comes over a sure memory, and the controller's is as sure as the one handed in.
        ensures kept_sure { IfOk result (λ controller.
            controller.kept.memory.sure ≡ (M.shows memory).sure) }
        ensures sure { IsTrue (M.shows memory).sure → IsOk result }
    {
        let mut memory = memory;
        let level2 = Level2::new(calibration.rules().copy(), calibration.questions().copy());
        set_up(&level2, image, &mut memory)?;
        let level1 = Level1::new(image);
        let test_ticks = test_ticks(calibration.times());
        let lookup = Lookup::new(calibration.rules(), 0, 0);
        let monitor = Monitor::new(calibration.times().copy(), calibration.questions().copy());
        let span = Span::new(monitor);
        Ok(Controller {
            calibration,
            fault,
            level2,
            test_ticks,
            span,
            level1,
            memory,
            engine,
            ticks: 0,
            trap: None,
            lost: false,
            lookup,
        })
    }

    /// One tick of all three levels (docs/CONCEPT.md, "A run, tick by tick" and "The controller"), and its
    /// row. It is counted in `steps`. A controller makes at most 20,000 ticks. After NoMemory every later
    /// tick answers NoMemory.
    ///
    /// Claim 34 (C53, C54; `made`): The controller, with its counters, tokens and mirrored words, does what
    /// the model does: each row that it answers is the row of the model, for the run that its ticks so far
    /// make.
    #[inline(always)]
    pub fn tick(
        &mut self,
        drive: &Drive,
        slices: &Slices,
        steps: &mut Ticks,
    ) -> Result<Row, NoMemory>
        requires fewer { self.old.kept.ticks < 20000 }
        ensures made { IsTick E.shows E.steps drive.now slices.now self.old self.new result }
        // Once it is trapped level 1 changes nothing any more in this span: its outputs hold.
        ensures trapped { (s : Setting) (h : List Entry) → Stands s self.old.kept h
            → IsTrapped (world_before s drive.now h)
            → IfOk result (HoldsOutputs (world_before s drive.now h)) }
        // Without a fault, and before the onset of one, no test of the paths fails, and the cut is sharp if
        // the engine showed one load twice at each tick so far.
        ensures passes { (s : Setting) (h : List Entry) → Stands s self.old.kept h
            → IfOk result (NeverFails s.fault) }
        ensures sharp { (s : Setting) → IfOk result (RowCutsSharply s self.old.kept drive.now) }
        // The stages are off while the paths are tested. While the engine is driven they are off in time
        // after a confirmed torque excess, and under a lapse excess that stands is cut.
        ensures unpowered { (s : Setting) → IfOk result (RowIsUnpowered s self.old.kept drive.now) }
        ensures reacts { (s : Setting) → IfOk result (RowReactsInTime s self.old.kept) }
        ensures at_once { (s : Setting) → IfOk result (RowReactsAtOnce s self.old.kept) }
        ensures lapses { (s : Setting) → IfOk result (RowCutsStandingExcess s self.old.kept) }
        ensures short { (s : Setting) → HistoryHasShortExcess s self.new.kept }
        // The tick is counted, and its row is weighed.
        ensures count { steps.new.count ≡ (steps.old.count + 1) % 2 ^ 64 }
        ensures weight { IfOk result (λ row.
            steps.new.weights ≡ (steps.old.weights + weight_of row) % 2 ^ 64) }
        ensures no_weight { OnErr result (steps.new.weights ≡ steps.old.weights) }
    {
        steps.raise();
        let row = self.advance(drive, slices)?;
        steps.add(&row);
        Ok(row)
    }

    /// The tick itself. Memory counts as lost until it is done.
    #[inline(always)]
    fn advance(&mut self, drive: &Drive, slices: &Slices) -> Result<Row, NoMemory>
        requires fewer { self.old.kept.ticks < 20000 }
        ensures { IsTick E.shows E.steps drive.now slices.now self.old self.new result }
    {
        if self.lost {
            return Err(NoMemory);
        }
        self.lost = true;
        let (level1, memory) = (&mut self.level1, &mut self.memory);
        enter(&mut self.span, &self.level2, level1, memory, drive.reset())?;
        let (tick, local, fault) = (self.ticks, self.span.local, self.fault.as_ref());
        let other = fault_beyond_levels(fault, tick);
        let (questions, times) = (self.calibration.questions(), self.calibration.times());
        let (rules, brake) = (self.calibration.rules(), self.calibration.brake());
        let effective = effective(drive, brake);
        let lookup = look_up(&self.lookup, rules, &effective);
        let begins = Beginning {
            tick,
            drive: *drive,
            limit: ramped(rules.fall, self.span.limit, demand(&lookup, &effective)),
            span_tick: self.span.next_tick(self.test_ticks),
            paths: Paths::at(other, tick, &self.span),
        };
        let held_plate = held(other, tick);
        step_engine(&mut self.engine, &self.memory, begins.paths.on, held_plate);
        let asked = question(&self.span.monitor, questions, other, tick, local);
        let task = Task {
            tick,
            local: local as u16,
            phase: self.span.phase(other, tick, times, begins.span_tick.told),
            asked,
            readings: readings(&self.engine, drive, brake, other, tick),
            prepared: self.level2.prepared(asked, lookup),
            slices: *slices,
        };
        let (level1, memory) = (&mut self.level1, &mut self.memory);
        let step = work(&self.level2, fault, &task, level1, memory)?;
        let (monitor, answer) = (&mut self.span.monitor, step.answer);
        let judged = judge(monitor, questions, other, tick, local, asked, answer);
        self.span
            .note(begins.limit, step.open_path, judged, begins.passes());
        note_trap(&mut self.trap, &self.level1, tick);
        (self.ticks, self.lost, self.lookup) = (tick + 1, false, lookup);
        Ok(row(begins, &self.engine, &self.memory, step.found, judged))
    }

    /// The engine (docs/CONCEPT.md, "The controller"). What the controller keeps of it is what it shows.
    pub fn engine(&self) -> &E
        ensures engine { result.now ≡ self.now.engine }
        ensures shown { self.now.kept.shown ≡ E.shows self.now.engine }
    {
        &self.engine
    }

    /// Level 1's first trap in the run, with the tick at which it came, or None where it hasn't trapped in
    /// the ticks that were made (docs/CONCEPT.md, "Level 1").
    pub fn trap(&self) -> Option<(Trap, u32)>
        ensures trap { result ≡ self.now.kept.trap }
        ensures first { (s : Setting) (h : List Entry) → Stands s self.now.kept h
            → result ≡ first_trap (moments s h) }
    {
        self.trap
    }

    /// What the debouncers weigh after the ticks that were made (docs/CONCEPT.md, "Debouncing"): of each span
    /// anew.
    pub fn counters(&self) -> Counters
        ensures { (s : Setting) (h : List Entry) → Stands s self.now.kept h
            → result ≡ counters_in_run s.cal (moments s h) }
    {
        counters(&self.memory, &self.span.monitor)
    }
}

/// Notes level 1's trap after a tick, where there was none before.
#[tactic(auto, unfolding(eg_model::specs::Rows::trap_in))]
fn note_trap(trap: &mut Option<(Trap, u32)>, level1: &Level1, tick: u32)
    ensures { trap.new ≡ option_or trap.old (trap_in level1.now.registers.state tick) }
{
    if trap.is_some() {
        return;
    }
    if let State::Trapped(kind) = level1.registers().state {
        *trap = Some((kind, tick));
    }
}
