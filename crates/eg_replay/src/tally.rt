// The tally of the ticks of a replay.
ghost use Rattle.std.specs.Prelude.{◌≡◌, ◌+◌, ◌<◌, ◌^◌, List, [], ◌∷◌};
ghost use Rattle.eg_replay.specs.Findings.{findings_of};
ghost use Rattle.eg_replay.specs.Inner.TickMore.{lasting_with};
ghost use Rattle.eg_replay.specs.Tallies.{IsTallyOf, IsTally};

use crate::{Findings, TickSignals};
use std::marker::Model;

/// A tally is fed what is told of the ticks of a replay one by one, from tick 0 on, and has their findings in
/// place of the ticks (docs/CONCEPT.md, "`replay` and `signals`"). Contracts see its `TallyParts`, and say
/// for which ticks it stands. No call takes memory.
#[derive(Clone, Copy)]
pub struct Tally {
    findings: Findings,
    lasting: u64,
}

impl Model for Tally {
    ghost use Rattle.eg_replay.specs.Tallies.{TallyParts, IsTally};

    ghost Value = { TallyParts };

    ghost view = { λ t. record { findings = t.findings; lasting = t.lasting } };

    ghost invariant = { λ t. IsTally (record { findings = t.findings; lasting = t.lasting }) };

    ghost inverse = { λ p. record { findings = p.findings; lasting = p.lasting } };
}

impl Tally {
    /// A tally that was fed nothing.
    pub fn new() -> Tally
        ensures ticks { result.findings.ticks ≡ 0 }
        // It stands for no ticks.
        ensures stands { IsTallyOf result [] }
    {
        Tally {
            findings: Findings::none(),
            lasting: 0,
        }
    }

    /// Feeds what is told of the next tick. Fewer than 2^64 - 1 ticks were fed before.
    #[inline(always)]
    pub fn feed(&mut self, told: &TickSignals)
        requires fewer { self.old.findings.ticks + 1 < 2 ^ 64 }
        ensures ticks { self.new.findings.ticks ≡ self.old.findings.ticks + 1 }
        // It stands for the ticks that it stood for, whichever they are, and this one.
        ensures stands { (ticks : List TickSignals) → IsTallyOf self.old ticks →
            IsTallyOf self.new (told.now ∷ ticks) }
    {
        self.lasting = lasting_with(told, self.lasting);
        self.findings.add(told, self.lasting);
    }

    /// The findings of the ticks that it was fed. It isn't inlined: the loop that feeds the tally would keep
    /// these numbers in pieces.
    #[inline(never)]
    pub fn findings(&self) -> Findings
        ensures kept { result ≡ self.now.findings }
        ensures findings { (ticks : List TickSignals) → IsTallyOf self.now ticks →
            result ≡ findings_of ticks }
        // Each tally stands for some ticks.
        ensures some { IsTally self.now }
    {
        self.findings
    }
}

/// How many ticks in a row have an excess up to this one, where so many had one up to the tick before it.
#[tactic(auto, unfolding(crate::specs::Inner::TickMore::lasting_with))]
fn lasting_with(told: &TickSignals, lasting: u64) -> u64
    requires fewer { lasting + 1 < 2 ^ 64 }
    ensures { result ≡ lasting_with told.now lasting }
{
    if told.signals[3] == 0 { 0 } else { lasting + 1 }
}
