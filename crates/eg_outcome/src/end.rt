// How a command that plays runs ends.
ghost use Rattle.std.specs.Prelude.{◌≡◌, None};

use crate::Outcome;
use eg_base::Text;

/// How a command ends (docs/FORMATS.md, "Outcomes").
#[derive(Drop)]
pub struct End {
    /// The outcome.
    pub outcome: Outcome,
    /// Where the outcome speaks of the trace or the image of a run: the name that the campaign gives to it.
    pub file: Option<Text>,
}

impl End {
    /// An end that speaks of no file of a run.
    pub fn of(outcome: Outcome) -> End
        ensures outcome { result.outcome ≡ outcome }
        ensures file { result.file ≡ None }
    {
        End {
            outcome,
            file: None,
        }
    }
}
