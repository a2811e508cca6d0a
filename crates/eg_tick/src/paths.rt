// The two shut-off paths and the power stages at a tick.
ghost use Rattle.std.specs.Prelude.{◌≡◌, ◌&&◌};
ghost use Rattle.std.specs.Option.{option_copied};
ghost use Rattle.eg_fault.specs.Faults.{effects};
ghost use Rattle.eg_model.specs.History.{drives};
ghost use Rattle.eg_tick.specs.Stands.{kind_of};

use crate::span::Span;
use eg_fault::{Fault, PATH_1, PATH_2, conducts};

/// Whether each of the two shut-off paths conducts at a tick, and whether the power stages are on
/// (docs/CONCEPT.md, "A run, tick by tick").
#[derive(Clone, Copy)]
pub(crate) struct Paths {
    pub(crate) path1: bool,
    pub(crate) path2: bool,
    pub(crate) on: bool,
}

impl Paths {
    /// The paths at a tick of this span. The stages are off where the paths are tested in it.
    #[inline(always)]
    #[tactic(auto, unfolding(crate::specs::Stands::kind_of, eg_model::specs::History::drives))]
    pub(crate) fn at(fault: Option<&Fault>, tick: u32, span: &Span) -> Paths
        ensures path1 { result.path1
            ≡ (effects (option_copied fault.entry) tick).conducts PATH_1 span.now.open1 }
        ensures path2 { result.path2
            ≡ (effects (option_copied fault.entry) tick).conducts PATH_2 span.now.open2 }
        ensures on { result.on ≡ (drives (kind_of span.now.tests) && (result.path1 && result.path2)) }
    {
        let path1 = conducts(fault, tick, PATH_1, span.open1);
        let path2 = conducts(fault, tick, PATH_2, span.open2);
        Paths {
            path1,
            path2,
            on: !span.tests && path1 && path2,
        }
    }
}
