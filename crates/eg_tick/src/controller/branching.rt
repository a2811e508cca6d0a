// A controller that is branched: another goes on from its tick, under a fault that hasn't begun.
ghost use Rattle.std.specs.Prelude.{◌≡◌, true, false, length, List, None, IfOk};
ghost use Rattle.eg_fault.specs.Faults.{IsNoneOrValid};
ghost use Rattle.eg_model.specs.History.{Setting, Entry};
ghost use Rattle.eg_model.specs.Branching.{BeginsFrom, under};
ghost use Rattle.eg_tick.specs.Stands.{Stands};

use super::Controller;
use crate::span::Span;
use eg_base::NoMemory;
use eg_fault::Fault;
use eg_guard::{CopyMemory, Guarded};
use eg_level2::Level2;
use eg_plant::{CopyEngine, Engine};
use std::alloc::Global;

impl<E: Engine + Drop, M: Guarded + Drop> Controller<E, M> {
    /// How many ticks it has made, from tick 0 of the run on (docs/CONCEPT.md, "The controller").
    pub fn ticks(&self) -> u32
        ensures ticks { result ≡ self.now.kept.ticks }
        ensures length { (s : Setting) (h : List Entry) → Stands s self.now.kept h → result ≡ length h }
    {
        self.ticks
    }
}

impl<E: CopyEngine + Drop, M: CopyMemory + Drop> Controller<E, M> {
    /// Another controller, which goes on from here under this fault, or without one: a run under a fault is,
    /// up to its onset, the run without one (docs/CONCEPT.md, "Faults"). This one has no fault, and stays as
    /// it is. The fault is a valid one, and begins at the next tick or later. Where memory has run out in
    /// this one, it has in the branch. NoMemory, where there is no memory for a copy, is the one refusal.
    pub fn branch(&self, alloc: Global, fault: Option<Fault>) -> Result<Controller<E, M>, NoMemory>
        requires none { self.now.kept.fault ≡ None }
        requires valid { IsNoneOrValid fault }
        requires onset { BeginsFrom self.now.kept.ticks fault }
        // All that it keeps is the same but the fault, and its engine is equal.
        ensures kept { IfOk result (λ branch. branch.kept ≡ record self.now.kept { fault = fault }) }
        ensures engine { IfOk result (λ branch. branch.engine ≡ self.now.engine) }
        // Whichever history this one stands for, the branch stands for it under the fault.
        ensures stands { (s : Setting) (h : List Entry) → Stands s self.now.kept h
            → IfOk result (λ branch. Stands (under fault s) branch.kept h) }
    {
        let memory = self.memory.copy(alloc)?;
        Ok(self.branch_over(memory, fault))
    }
}

impl<E: CopyEngine + Drop, M: Guarded + Drop> Controller<E, M> {
    /// The memory (docs/CONCEPT.md, "Guarded memory"), so that a caller can make another of the same words.
    pub fn memory(&self) -> &M
        ensures { M.shows result.now ≡ self.now.kept.memory }
    {
        &self.memory
    }

    /// The same as `branch` over another memory, of whatever kind, that shows the same words
    /// (docs/CONCEPT.md, "The controller"). Where memory has run out in this controller, that other memory
    /// must not be a sure one. The call takes no memory and refuses nothing.
    pub fn branch_over<N: Guarded + Drop>(
        &self,
        memory: N,
        fault: Option<Fault>,
    ) -> Controller<E, N>
        requires none { self.now.kept.fault ≡ None }
        requires valid { IsNoneOrValid fault }
        requires onset { BeginsFrom self.now.kept.ticks fault }
        requires words { (N.shows memory).words ≡ self.now.kept.memory.words }
        requires unsure { self.now.kept.lost ≡ true → (N.shows memory).sure ≡ false }
        // All that it keeps is the same but fault and memory, and its engine is equal.
        ensures kept { result.kept
            ≡ record self.now.kept { fault = fault; memory = N.shows memory } }
        ensures engine { result.engine ≡ self.now.engine }
        // Whichever history this one stands for, the branch stands for it under the fault.
        ensures stands { (s : Setting) (h : List Entry) → Stands s self.now.kept h
            → Stands (under fault s) result.kept h }
    {
        let calibration = self.calibration.copy();
        let level2 = Level2::new(calibration.rules().copy(), calibration.questions().copy());
        let level1 = self.level1.copy();
        let engine = self.engine.copy();
        Controller {
            calibration,
            fault,
            level2,
            test_ticks: self.test_ticks,
            span: copy_of_span(&self.span),
            level1,
            memory,
            engine,
            ticks: self.ticks,
            trap: self.trap,
            lost: self.lost,
            lookup: self.lookup,
        }
    }
}

/// An equal span. It takes no memory.
fn copy_of_span(span: &Span) -> Span
    ensures { result ≡ span.now }
{
    Span {
        tests: span.tests,
        passed: span.passed,
        local: span.local,
        limit: span.limit,
        monitor: span.monitor.copy(),
        open1: span.open1,
        open2: span.open2,
    }
}
