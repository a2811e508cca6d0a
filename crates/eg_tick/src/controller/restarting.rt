// A controller that begins another run, in its place.
ghost use Rattle.std.specs.Prelude.{◌≡◌, ◌≤◌, length, [], IsTrue};
ghost use Rattle.eg_guard.specs.declared.regions.TheConstants.{DATA as CODE_END};
ghost use Rattle.eg_fault.specs.Faults.{IsNoneOrValid};
ghost use Rattle.eg_tick.specs.Stands.{Stands};

use super::Controller;
use eg_fault::Fault;
use eg_guard::FlatMemory;
use eg_plant::Engine;
use eg_turns::set_up;

impl<E: Engine + Drop> Controller<E, FlatMemory> {
    /// Begins another run of the same calibration, as a controller that is new (docs/CONCEPT.md, "The
    /// controller"): with this image, of at most 1,024 words, this fault, if any, which is a valid one, and
    /// an engine whose `kt` is that of the calibration. It takes no memory, and refuses nothing.
    pub fn restart(&mut self, image: &[u16], fault: Option<Fault>, engine: E)
        requires image { length image.now ≤ CODE_END }
        requires fault { IsNoneOrValid fault }
        requires kt { E.kt engine ≡ self.old.kept.cal.rules.kt }
        ensures stands { Stands (record { cal = self.old.kept.cal; image = image.now; fault = fault })
            self.new.kept [] }
        ensures engine { self.new.engine ≡ engine }
        ensures sure { IsTrue self.new.kept.memory.sure }
    {
        self.memory.clear();
        let Ok(()) = set_up(&self.level2, image, &mut self.memory) else {
            unreachable!("a sure memory never runs out")
        };
        self.level1.reload(image);
        self.span.start(false);
        self.fault = fault;
        self.engine = engine;
        (self.ticks, self.trap, self.lost) = (0, None, false);
    }
}
