// Runs that are drawn.
ghost use Rattle.std.specs.Prelude.{◌≡◌, IfOk, OnOk};
ghost use Rattle.eg_draw.specs.Runs.{drawn_run, state_after, IsDrawn};

use crate::Generator;
use eg_base::{Items, NoMemory};
use eg_fault::Fault;
use eg_num::Drive;
use std::alloc::Global;

/// A run that was drawn (docs/CONCEPT.md, "The generator of `soak`").
#[derive(Drop)]
pub struct DrawnRun {
    /// The words of level 1's image, at most 256 of them.
    pub image: Items<u16>,
    /// Its drive: a row for each of 2,000 ticks.
    pub drive: Items<Drive>,
    /// The fault, a valid one, if there is one.
    pub fault: Option<Fault>,
}

impl Generator {
    /// Draws the next run: its image, then its drive, then its fault (docs/CONCEPT.md, "The generator of
    /// `soak`"). NoMemory is its one refusal; after it nothing is said of the generator's state.
    #[tactic(auto, unfolding(crate::specs::Runs::drawn_run, crate::specs::Runs::state_after))]
    pub fn run(&mut self, alloc: Global) -> Result<DrawnRun, NoMemory>
        ensures run { IfOk result (λ run. run ≡ drawn_run self.old) }
        ensures state { OnOk result (self.new ≡ state_after self.old) }
        ensures proper { IfOk result IsDrawn }
    {
        let kind = self.below(4);
        let image = self.image(alloc, kind)?;
        let drive = self.trace(alloc)?;
        let fault = self.fault();
        Ok(DrawnRun {
            image,
            drive,
            fault,
        })
    }
}
