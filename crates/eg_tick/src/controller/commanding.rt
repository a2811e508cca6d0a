// What a controller commands next, and an engine elsewhere that is told what it shows then.
ghost use Rattle.std.specs.Prelude.{◌≡◌, ◌&&◌, List, false, not};
ghost use Rattle.eg_num.specs.Drive.{DriveRow};
ghost use Rattle.eg_plant.specs.Engine.{KeepsLaws};
ghost use Rattle.eg_fault.specs.Faults.{effects};
ghost use Rattle.eg_model.specs.History.{Setting, Entry};
ghost use Rattle.eg_tick.specs.Stands.{Stands};
ghost use Rattle.eg_tick.specs.Commanding.{commanded_at};

use super::Controller;
use crate::Commands;
use crate::paths::Paths;
use eg_fault::{PATH_1, PATH_2, conducts, held};
use eg_guard::Guarded;
use eg_plant::{Engine, ForeignEngine, PartnerStep};
use eg_turns::Outputs;

impl<E: Engine + Drop, M: Guarded + Drop> Controller<E, M> {
    /// What the next tick commands to the engine (docs/CONCEPT.md, "`couple`"). Nothing changes.
    ///
    /// Claim 62 (C88): A controller tells exactly what the next tick of the model commands to the engine,
    /// given whether the drive row of that tick resets the unit.
    pub fn commands(&self, resets: bool) -> Commands
        ensures { (s : Setting) (drive : DriveRow) (h : List Entry) → drive.reset ≡ resets
            → Stands s self.now.kept h → result ≡ commanded_at s drive h }
    {
        if resets || self.span.passed {
            return self.first_commands(resets);
        }
        let outputs = Outputs::of(&self.memory);
        let fault = self.fault.as_ref();
        Commands {
            throttle: outputs.throttle,
            ignition: outputs.ignition,
            on: Paths::at(fault, self.ticks, &self.span).on,
            held: held(fault, self.ticks),
        }
    }

    /// What the first tick of a span commands: nothing of level 1 yet. No latch is open.
    fn first_commands(&self, tests: bool) -> Commands
        ensures throttle { result.throttle ≡ 0 }
        ensures ignition { result.ignition ≡ 0 }
        ensures on { result.on ≡ (not tests
            && ((effects self.now.kept.fault self.now.kept.ticks).conducts PATH_1 false
            && (effects self.now.kept.fault self.now.kept.ticks).conducts PATH_2 false)) }
        ensures held { result.held ≡ (effects self.now.kept.fault self.now.kept.ticks).held_plate }
    {
        let (fault, tick) = (self.fault.as_ref(), self.ticks);
        Commands {
            throttle: 0,
            ignition: 0,
            on: !tests
                && conducts(fault, tick, PATH_1, false)
                && conducts(fault, tick, PATH_2, false),
            held: held(fault, tick),
        }
    }
}

impl<M: Guarded + Drop> Controller<ForeignEngine, M> {
    /// Tells its engine what it shows after its next step, which must keep the laws of engines
    /// (docs/CONCEPT.md, "`couple`"). All else stays, and what the engine shows now too.
    pub fn tell(&mut self, next: PartnerStep)
        requires laws { KeepsLaws self.old.kept.kt next }
        ensures kept { self.new.kept ≡ self.old.kept }
        ensures engine { self.new.engine ≡ record self.old.engine { next = next } }
    {
        self.engine.tell(next);
    }
}
