// Which calls of a fake are to fail.
ghost use Rattle.std.specs.Prelude.{◌≡◌, ◌≤◌, [], ◌∷◌, ◌++◌, OnOk, OnErr};
ghost use Rattle.eg_base.specs.Counts.{next_count};
ghost use Rattle.eg_base.specs.Fakes.{PlanState, is_listed};

use crate::NoMemory;
use std::alloc::Global;
use std::marker::Model;

/// The numbers of the calls that are to fail, the first call being 0; how many calls were made; and how many
/// faults were met. Both counts stop at the last value of a u64.
#[derive(Drop)]
pub(crate) struct FaultPlan {
    failing: Vec<u32>,
    calls: u64,
    faults: u64,
}

impl Model for FaultPlan {
    ghost use Rattle.eg_base.specs.Fakes.{PlanState};

    ghost Value = { PlanState };

    ghost view = { λ p. record { failing = p.failing.items; calls = p.calls; faults = p.faults } };
}

impl FaultPlan {
    /// A plan by which no call fails.
    pub(crate) fn new(alloc: Global) -> FaultPlan
        ensures { result ≡ record { failing = []; calls = 0; faults = 0 } }
    {
        FaultPlan {
            failing: Vec::new(alloc),
            calls: 0,
            faults: 0,
        }
    }

    /// Lists the number of a call that is to fail.
    pub(crate) fn fail_at(&mut self, number: u32) -> Result<(), NoMemory>
        ensures ok { OnOk result (self.new ≡ record self.old { failing = self.old.failing ++ number ∷ [] }) }
        ensures err { OnErr result (self.new ≡ self.old) }
    {
        self.failing.push(number)?;
        Ok(())
    }

    /// Counts a call, and answers whether its number is listed.
    pub(crate) fn next_fails(&mut self) -> bool
        ensures state { self.new ≡ record self.old { calls = next_count self.old.calls } }
        ensures fails { result ≡ is_listed self.old.failing self.old.calls }
    {
        let number = self.calls;
        self.calls = number.saturating_add(1);
        self.failing
            .iter()
            .any(|listed| u64::from(*listed) == number)
    }

    /// Counts a fault.
    pub(crate) fn count_fault(&mut self)
        ensures state { self.new ≡ record self.old { faults = next_count self.old.faults } }
        ensures count { self.old.faults ≤ self.new.faults }
    {
        self.faults = self.faults.saturating_add(1);
    }
}
