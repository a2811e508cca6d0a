// Level 2 as a whole: its eight modules by their numbers, and its reset.
ghost use Rattle.std.specs.Prelude.{◌≡◌, ℕ, ◌%◌, ◌<◌, ◌≤◌, length, IsTrue, IsOk, OnOk, OnErr};
ghost use Rattle.eg_answer.specs.declared.modules.TheConstants.{CHECK, MODULES, PAIRS};
ghost use Rattle.eg_guard.specs.Memory.{AreWords, SameOutside};
ghost use Rattle.eg_level2.specs.Words.{ChangeLaw, word_at, words_of, AreMirrored, AreWithin, is_level2_own, start};
ghost use Rattle.eg_level2.specs.Inputs.{AreParts, IsLookup, IsPrepared, inputs_of, asked_of};
ghost use Rattle.eg_level2.specs.Modules.{quiet_step};
ghost use Rattle.eg_level2.specs.Inner.Stores.{RunMakes};
ghost use Rattle.eg_level2.specs.Stores.{AreFirst};
ghost use Rattle.eg_level2.specs.Order.{reset_stores, stores_of};
ghost use Rattle.eg_level2.specs.Runs.{IsModuleRun};

use crate::check::check;
use crate::debounce::debounce;
use crate::ports::asked;
use crate::react::react;
use crate::results::{RowResults, results_of_all};
use crate::signals::{signal, write};
use crate::words::{WHOLE_FLOW, keep_all};
use crate::{Lookup, Phase, Prepared, Step};
use arrayvec::ArrayVec;
use eg_answer::{MIRRORED_WORDS, Questions, Rules};
use eg_base::NoMemory;
use eg_guard::Guarded;
use std::marker::Model;

/// The words after a reset, in the order of their numbers: as if module 0 had last run just before tick 0.
const START: [u16; MIRRORED_WORDS as usize] = [
    0,
    0,
    0,
    0,
    0,
    0,
    0,
    0,
    0,
    0,
    0,
    0,
    0,
    WHOLE_FLOW,
    u16::MAX,
    0,
];

/// Level 2, the function monitoring (docs/CONCEPT.md, "Level 2"): the rules that it follows, and the
/// questions that it answers. What it remembers stands in the guarded memory. Contracts see its
/// `Level2Parts`.
#[derive(Drop)]
pub struct Level2 {
    rules: Rules,
    questions: Questions,
    tests: ArrayVec<RowResults, 64>,
}

impl Model for Level2 {
    ghost use Rattle.std.specs.Prelude.{◌≡◌, map};
    ghost use Rattle.eg_level2.specs.Inputs.{Level2Parts, AreParts, results_by};

    ghost Value = { Level2Parts };

    ghost view = { λ l. record { rules = l.rules; questions = l.questions } };

    ghost invariant = { λ l. AreParts (record { rules = l.rules; questions = l.questions })
        × (l.tests.items ≡ map (λ question. results_by l.rules question.row) l.questions) };
}

impl Level2 {
    /// Level 2 with these rules and these questions, of which there are at least two. The results of the test
    /// rows are computed here, once.
    pub fn new(rules: Rules, questions: Questions) -> Level2
        requires { 2 ≤ length questions }
        ensures parts { result ≡ record { rules = rules; questions = questions } }
        ensures keeps { AreParts result }
    {
        let tests = results_of_all(&rules, &questions);
        Level2 {
            rules,
            questions,
            tests,
        }
    }

    /// The rules that it follows.
    pub fn rules(&self) -> &Rules
        ensures rules { result.now ≡ self.now.rules }
        ensures keeps { AreParts self.now }
    {
        &self.rules
    }

    /// The questions that it answers.
    pub fn questions(&self) -> &Questions
        ensures questions { result.now ≡ self.now.questions }
        ensures keeps { AreParts self.now }
    {
        &self.questions
    }

    /// Stores the words with which level 2 starts a span, with their complements, in the order of their
    /// numbers (docs/CONCEPT.md, "Level 2").
    #[tactic(auto, using(crate::proofs::StoreLemmas::outsides))]
    pub fn reset<M: Guarded>(&self, memory: &mut M) -> Result<(), NoMemory>
        ensures words { OnOk result (words_of (M.shows memory.new).words ≡ start) }
        ensures within { OnOk result (AreWithin self.now.rules (words_of (M.shows memory.new).words)) }
        ensures mirrored { OnOk result (AreMirrored (M.shows memory.new).words) }

        // Where memory ran out, its stores were made up to some point, in their order, and no other.
        ensures stopped { OnErr result (AreFirst reset_stores
            (word_at (M.shows memory.old).words) (word_at (M.shows memory.new).words)) }

        // No word outside results and protected changes. NoMemory never comes over a sure memory.
        ensures outside { SameOutside is_level2_own (M.shows memory.old).words (M.shows memory.new).words }
        ensures sure { IsTrue (M.shows memory.old).sure → IsOk result }
        ensures stays_sure { (M.shows memory.new).sure ≡ (M.shows memory.old).sure }
        ensures are_words { AreWords (M.shows memory.old).words → AreWords (M.shows memory.new).words }
    {
        keep_all(memory, &START)
    }

    /// Runs the module of this number, 0 to 7, over the memory (docs/CONCEPT.md, "Level 2"). The readings and
    /// the number of the question stand at the input ports and at the link. `tick` is the number of the tick
    /// in its span, and `phase` says what is to be done at it. `disturbance` is mixed in by exclusive or; 0
    /// disturbs nothing. After NoMemory the stores that the run made up to then stay. Their order makes sure
    /// that no trip is forgotten, and no word that differed from its complement.
    pub fn module<M: Guarded>(
        &self,
        module: u8,
        memory: &mut M,
        tick: u16,
        phase: Phase,
        disturbance: u16,
    ) -> Result<Step, NoMemory>
        requires module { «module» < MODULES }
        // Module 0 takes any words. The others rely on what it has checked.
        requires mirrored { CHECK < «module» → AreMirrored (M.shows memory.old).words }
        requires within { CHECK < «module» → AreWithin self.now.rules (words_of (M.shows memory.old).words) }
        ensures { IsModuleRun self.now «module» tick phase disturbance
            (M.shows memory.old) (M.shows memory.new) result }
    {
        let lookup = Lookup::new(self.rules(), 0, 0);
        let prepared = self.prepared(asked(memory), lookup);
        self.module_with_lookup(module, memory, tick, phase, disturbance, &prepared)
    }

    /// What the modules of a tick needn't look up: what the permit table says already, and the results of the
    /// test row of the question with this number, which is taken modulo the count of questions.
    #[inline(always)]
    pub fn prepared(&self, asked: u16, lookup: Lookup) -> Prepared
        requires { IsLookup self.now.rules lookup }
        ensures prepared { IsPrepared self.now asked result }
        ensures lookup { result.lookup ≡ lookup }
    {
        Prepared {
            lookup,
            row: self.tests[row_index(asked, self.tests.len())],
        }
    }

    /// Runs a module as `module` does, but looks up nothing that is prepared already. The unit calls it at
    /// every tick.
    #[inline(always)]
    pub fn module_with_lookup<M: Guarded>(
        &self,
        number: u8,
        memory: &mut M,
        tick: u16,
        phase: Phase,
        disturbance: u16,
        prepared: &Prepared,
    ) -> Result<Step, NoMemory>
        requires number { number < MODULES }
        requires prepared { IsPrepared self.now (asked_of (M.shows memory.old).words) prepared.now }
        requires mirrored { CHECK < number → AreMirrored (M.shows memory.old).words }
        requires within { CHECK < number → AreWithin self.now.rules (words_of (M.shows memory.old).words) }
        ensures { IsModuleRun self.now number tick phase disturbance
            (M.shows memory.old) (M.shows memory.new) result }
    {
        if number == eg_answer::CHECK {
            return check(memory, tick, prepared.row.seed);
        }
        if number <= eg_answer::PAIRS {
            return self.run_signal(number, memory, disturbance, prepared);
        }
        if number == eg_answer::DEBOUNCE {
            return debounce(memory, &self.rules, phase);
        }
        react(memory, phase)
    }

    /// Runs a module of number 1 to 5, one with a signal.
    #[inline(always)]
    fn run_signal<M: Guarded>(
        &self,
        number: u8,
        memory: &mut M,
        disturbance: u16,
        prepared: &Prepared,
    ) -> Result<Step, NoMemory>
        requires first { CHECK < number }
        requires last { number ≤ PAIRS }
        requires prepared { IsPrepared self.now (asked_of (M.shows memory.old).words) prepared.now }
        ensures { (tick : ℕ) (phase : Phase) → RunMakes
            (stores_of (inputs_of self.now (M.shows memory.old).words tick phase disturbance) number
            (words_of (M.shows memory.old).words))
            quiet_step (M.shows memory.old) (M.shows memory.new) result }
    {
        let signal = signal(number, memory, &self.rules, &prepared.lookup);
        let test = prepared.row.results[usize::from(number) - 1];
        write(memory, number, signal, test, disturbance)?;
        Ok(Step::quiet())
    }
}

/// The index of a question among `count` questions: its number modulo their count.
#[inline(always)]
fn row_index(asked: u16, count: usize) -> usize
    requires { 1 ≤ count }
    ensures index { result ≡ asked % count }
    ensures within { result < count }
{
    let asked = usize::from(asked);
    if asked < count { asked } else { asked % count }
}

/// Does nothing when it runs. Its contract is a law: where one of the mirrored words changes alone, or one
/// complement alone, they are mirrored no longer, so that module 0 finds it (docs/CONCEPT.md, "Level 2").
pub fn one_changed_word_is_found()
    ensures { ChangeLaw }
{}
