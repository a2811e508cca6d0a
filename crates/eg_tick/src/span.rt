// The span of ticks that a controller is in, and how one begins.
ghost use Rattle.std.specs.Prelude.{◌≡◌, ◌+◌, ◌<◌, ◌==◌, ◌||◌, false, List, [], OnOk, OnErr};
ghost use Rattle.std.specs.Option.{option_copied};
ghost use Rattle.eg_guard.specs.Memory.{KeepsMemory};
ghost use Rattle.eg_answer.specs.Periods.{period_of};
ghost use Rattle.eg_answer.specs.Times.{TimeParts, test_ticks_of};
ghost use Rattle.eg_fault.specs.Faults.{effects};
ghost use Rattle.eg_module.specs.Monitoring.{HasGiven};
ghost use Rattle.eg_model.specs.History.{Setting, Tick, SpanKind};
ghost use Rattle.eg_model.specs.Paths.{is_testing, is_told_to_open, reads_back};
ghost use Rattle.eg_agree.specs.Doings.{phase_at};
ghost use Rattle.eg_turns.specs.Midway.{IsReady};
ghost use Rattle.eg_tick.specs.Stands.{kind_of, HoldsSpan};
ghost use Rattle.eg_tick.specs.Entering.{kind_from, ticks_from, begun, span_from};

use crate::monitoring::Judgement;
use eg_answer::Times;
use eg_base::NoMemory;
use eg_fault::{Fault, sends};
use eg_guard::Guarded;
use eg_host::Level1;
use eg_level2::{Level2, Phase};
use eg_module::Monitor;
use eg_turns::restart;

/// What a controller keeps of the span of ticks that it is in, besides level 1 and the memory
/// (docs/CONCEPT.md, "The controller").
#[derive(Drop)]
pub(crate) struct Span {
    /// Whether the shut-off paths are tested in it. Else the engine is driven.
    pub(crate) tests: bool,
    /// Whether a start-up test was passed at its last tick.
    pub(crate) passed: bool,
    /// How many ticks of it were made.
    pub(crate) local: u32,
    /// The permitted torque at its last tick, in tenths of Nm.
    pub(crate) limit: u16,
    /// The monitoring module.
    pub(crate) monitor: Monitor,
    /// Whether the latch of path 1 is open.
    pub(crate) open1: bool,
    /// Whether the latch of path 2 is open.
    pub(crate) open2: bool,
}

/// The place of a tick in its span.
#[derive(Clone, Copy)]
pub(crate) struct SpanTick {
    /// Whether the shut-off paths are tested in the span. Else the engine is driven.
    pub(crate) tests: bool,
    /// Whether the tick is the first of the span.
    pub(crate) fresh: bool,
    /// Whether a start-up test is running.
    pub(crate) testing: bool,
    /// Whether react is told to order path 1 open.
    pub(crate) told: bool,
    /// Whether the paths are read back.
    pub(crate) reads_back: bool,
}

impl Span {
    /// A span in which the engine is driven, without a tick.
    pub(crate) fn new(monitor: Monitor) -> Span
        ensures { result ≡ record {
          tests = false;
          passed = false;
          local = 0;
          limit = 0;
          monitor = monitor;
          open1 = false;
          open2 = false;
        } }
    {
        Span {
            tests: false,
            passed: false,
            local: 0,
            limit: 0,
            monitor,
            open1: false,
            open2: false,
        }
    }

    /// A span begins in its place: it has no tick, the permitted torque before it is 0, no latch is open, and
    /// the monitoring module begins again.
    pub(crate) fn start(&mut self, tests: bool)
        ensures begun { self.new ≡ begun tests self.old }
        ensures given { HasGiven self.new.monitor [] }
        ensures next { self.new.monitor.verdicts ≡ period_of self.new.monitor.times 0 }
    {
        self.tests = tests;
        self.passed = false;
        self.local = 0;
        self.limit = 0;
        self.monitor.restart();
        self.open1 = false;
        self.open2 = false;
    }

    /// The place of its next tick, where a start-up test reads the paths back at its tick `test_ticks`.
    pub(crate) fn next_tick(&self, test_ticks: u32) -> SpanTick
        requires { self.now.local < 20000 }
        ensures tests { result.tests ≡ self.now.tests }
        ensures fresh { result.fresh ≡ (self.now.local == 0) }
        ensures testing { (times : TimeParts) → test_ticks ≡ test_ticks_of times
            → result.testing ≡ is_testing (kind_of self.now.tests) times self.now.local }
        ensures told { (times : TimeParts) → test_ticks ≡ test_ticks_of times
            → result.told ≡ is_told_to_open (kind_of self.now.tests) times self.now.local }
        ensures reads_back { (times : TimeParts) → test_ticks ≡ test_ticks_of times
            → result.reads_back ≡ reads_back (kind_of self.now.tests) times self.now.local }
    {
        SpanTick {
            tests: self.tests,
            fresh: self.local == 0,
            testing: self.testing(test_ticks),
            told: self.told(test_ticks),
            reads_back: self.reads_back(test_ticks),
        }
    }

    /// Whether a start-up test is running at the next tick.
    #[tactic(auto, unfolding(crate::specs::Stands::kind_of, eg_model::specs::Paths::is_testing))]
    fn testing(&self, test_ticks: u32) -> bool
        ensures { (times : TimeParts) → test_ticks ≡ test_ticks_of times
            → result ≡ is_testing (kind_of self.now.tests) times self.now.local }
    {
        self.tests && self.local <= test_ticks
    }

    /// Whether react is told at the next tick to order path 1 open.
    #[tactic(auto, unfolding(crate::specs::Stands::kind_of, eg_model::specs::Paths::is_told_to_open))]
    fn told(&self, test_ticks: u32) -> bool
        requires { self.now.local < 20000 }
        ensures { (times : TimeParts) → test_ticks ≡ test_ticks_of times
            → result ≡ is_told_to_open (kind_of self.now.tests) times self.now.local }
    {
        self.tests && self.local + 1 == test_ticks
    }

    /// Whether the paths are read back at the next tick.
    #[tactic(auto, unfolding(crate::specs::Stands::kind_of, eg_model::specs::Paths::reads_back))]
    fn reads_back(&self, test_ticks: u32) -> bool
        ensures { (times : TimeParts) → test_ticks ≡ test_ticks_of times
            → result ≡ reads_back (kind_of self.now.tests) times self.now.local }
    {
        self.tests && self.local == test_ticks
    }

    /// What level 2 is to do at its next tick, which is this tick of the run (docs/CONCEPT.md, "Level 2").
    pub(crate) fn phase(&self, fault: Option<&Fault>, tick: u32, times: &Times, told: bool) -> Phase
        requires times { self.now.monitor.times ≡ times.now }
        requires told { told ≡ is_told_to_open (kind_of self.now.tests) times.now self.now.local }
        ensures { result ≡ phase_at (kind_of self.now.tests) times.now
            (effects (option_copied fault.entry) tick) self.now.local }
    {
        if self.tests {
            return if told { Phase::TestOrder } else { Phase::Test };
        }
        let place = self.monitor.place(self.local);
        if sends(fault, tick, place, times) {
            Phase::Send
        } else {
            Phase::Quiet
        }
    }

    /// One tick more: at it the permitted torque was `limit`, path 1 was ordered open or not, the monitoring
    /// module judged so, and a start-up test was passed or not. No latch closes.
    pub(crate) fn note(&mut self, limit: u16, open_path: bool, judged: Judgement, passes: bool)
        requires { self.old.local < 20000 }
        ensures { self.new ≡ record self.old {
          passed = passes;
          local = self.old.local + 1;
          limit = limit;
          open1 = open_path || self.old.open1;
          open2 = (judged.confirms || judged.opens) || self.old.open2;
        } }
    {
        self.open1 = either(open_path, self.open1);
        self.open2 = either(either(judged.confirms, judged.opens), self.open2);
        self.passed = passes;
        self.local += 1;
        self.limit = limit;
    }
}

/// Whether one of the two is so.
fn either(first: bool, second: bool) -> bool
    ensures { result ≡ (first || second) }
{
    first || second
}

/// Comes into the span of the next tick (docs/CONCEPT.md, "A run, tick by tick"): one begins where the tick's
/// drive row resets the unit, or a start-up test was passed at the tick before; else the span goes on.
#[tactic(auto, unfolding(crate::specs::Entering::kind_from, crate::specs::Entering::ticks_from))]
pub(crate) fn enter<M: Guarded>(
    span: &mut Span,
    level2: &Level2,
    level1: &mut Level1,
    memory: &mut M,
    reset: bool,
) -> Result<(), NoMemory>
    requires { IsReady level2.now.rules level1.old.program (M.shows memory.old).words }
    ensures holds { (kind : SpanKind) (s : Setting) (h : List Tick)
        → HoldsSpan kind s span.old level1.old.registers (M.shows memory.old).words h
        → OnOk result (HoldsSpan (kind_from reset span.old.passed kind) s span.new
        level1.new.registers (M.shows memory.new).words (ticks_from reset span.old.passed h)) }
    ensures begun { OnOk result (span.new ≡ span_from reset span.old) }
    ensures stopped { OnErr result (span.new ≡ span.old) }
    ensures ready { OnOk result (IsReady level2.now.rules level1.new.program (M.shows memory.new).words) }
    ensures keeps { KeepsMemory (M.shows memory.old) (M.shows memory.new) result }
{
    if reset || span.passed {
        return begin(span, level2, level1, memory, reset);
    }
    Ok(())
}

/// Begins a span, in which all is as at the start of a run but for the engine, the fault, the slice plan and
/// the trap that is told, which go on (docs/CONCEPT.md, "Power cycles"). The code stays: nobody changes it.
#[inline(never)]
fn begin<M: Guarded>(
    span: &mut Span,
    level2: &Level2,
    level1: &mut Level1,
    memory: &mut M,
    tests: bool,
) -> Result<(), NoMemory>
    requires { IsReady level2.now.rules level1.old.program (M.shows memory.old).words }
    ensures holds { (kind : SpanKind) (s : Setting) (h : List Tick)
        → HoldsSpan kind s span.old level1.old.registers (M.shows memory.old).words h
        → OnOk result (HoldsSpan (kind_of tests) s span.new level1.new.registers
        (M.shows memory.new).words []) }
    ensures begun { OnOk result (span.new ≡ begun tests span.old) }
    // Where memory runs out no latch has closed yet.
    ensures stopped { OnErr result (span.new ≡ span.old) }
    ensures ready { OnOk result (IsReady level2.now.rules level1.new.program (M.shows memory.new).words) }
    ensures keeps { KeepsMemory (M.shows memory.old) (M.shows memory.new) result }
{
    restart(level2, level1, memory)?;
    span.start(tests);
    Ok(())
}
