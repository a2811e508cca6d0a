// What a run of a module answers.
ghost use Rattle.std.specs.Prelude.{◌≡◌};
ghost use Rattle.eg_level2.specs.Modules.{no_watches, mirror_alone, finding, quiet_step};

use eg_num::Watches;

/// What a run of a module orders, answers and finds (docs/CONCEPT.md, "Level 2").
#[derive(Clone, Copy)]
pub struct Step {
    /// Shut-off path 1 is to be open.
    pub open_path: bool,
    /// The answer that is sent, if any: the flow in the high word, the fold in the low word.
    pub answer: Option<u32>,
    /// The watches that are found.
    pub found: Watches,
}

impl Step {
    /// A run that finds these watches, and no more.
    pub(crate) fn finding(found: Watches) -> Step
        ensures { result ≡ finding found }
    {
        Step {
            open_path: false,
            answer: None,
            found,
        }
    }

    /// A run that orders, answers and finds nothing. A module that doesn't run at a tick counts as this
    /// (docs/CONCEPT.md, "Level 2").
    pub fn quiet() -> Step
        ensures { result ≡ quiet_step }
    {
        Step::finding(no_watches())
    }

    /// A run that finds a word that differs from its complement.
    #[tactic(auto, unfolding(crate::specs::Modules::mirror_alone, crate::specs::Modules::no_watches))]
    pub(crate) fn mirror() -> Step
        ensures { result ≡ finding mirror_alone }
    {
        Step::finding(Watches {
            mirror: true,
            ..no_watches()
        })
    }
}

/// No watch.
#[tactic(auto, unfolding(crate::specs::Modules::no_watches))]
pub(crate) fn no_watches() -> Watches
    ensures { result ≡ no_watches }
{
    Watches {
        mirror: false,
        pedal: false,
        plate: false,
        load: false,
        speed: false,
        torque: false,
        answers: false,
        start: false,
    }
}
