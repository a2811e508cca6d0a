// Which modules of level 2 run at a tick, and which is disturbed, worked out once.
ghost use Rattle.std.specs.Prelude.{◌≡◌, ◌<◌};
ghost use Rattle.eg_answer.specs.declared.modules.TheConstants.{MODULES};
ghost use Rattle.eg_fault.specs.Effects.{Effects};
ghost use Rattle.eg_fault.specs.Running.{all_run, IsRunning};

/// How the modules of level 2 run at a tick (docs/CONCEPT.md, "Faults"): none of them, or all, or all but
/// one. One of them may be disturbed.
#[derive(Clone, Copy)]
pub struct ModuleRuns {
    /// Whether none runs.
    pub none: bool,
    /// The module that doesn't run. 255, where there is none.
    pub left_out: u8,
    /// The module that is disturbed.
    pub disturbed: u8,
    /// The bits that are mixed into its signal and into its result of the test row. 0, where none is.
    pub mask: u16,
}

impl ModuleRuns {
    /// All run, and none is disturbed.
    #[inline(always)]
    #[tactic(auto, unfolding(crate::specs::Running::all_run))]
    pub(crate) fn all() -> ModuleRuns
        ensures { result ≡ all_run }
    {
        ModuleRuns {
            none: false,
            left_out: 255,
            disturbed: 0,
            mask: 0,
        }
    }

    /// Whether a module (0 to 7) runs.
    #[inline(always)]
    pub fn runs(&self, module: u8) -> bool
        requires { «module» < MODULES }
        ensures { (x : Effects) → IsRunning x self.now → result ≡ x.ran «module» }
    {
        !self.none && module != self.left_out
    }

    /// The bits that are mixed into the signal of a module (0 to 7), and into its result of the test row.
    #[inline(always)]
    pub fn disturbance(&self, module: u8) -> u16
        ensures { (x : Effects) → IsRunning x self.now → result ≡ x.disturbance «module» }
    {
        if module == self.disturbed {
            self.mask
        } else {
            0
        }
    }
}
