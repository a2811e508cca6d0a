// Runs that are of one group.
ghost use Rattle.std.specs.Prelude.{◌≡◌};
ghost use Rattle.eg_campaign.specs.Groups.{is_alike, is_same_engine};

use eg_plan::{EngineKind, RunInput};

/// Whether two runs are of one group: their engines, images, slice plans and drives are equal, so that
/// without their faults they are one run (docs/CONCEPT.md, "The record of a run"). It takes no memory.
#[tactic(auto, unfolding(crate::specs::Groups::is_alike))]
pub(crate) fn is_alike(a: &RunInput, b: &RunInput) -> bool
    ensures { result ≡ is_alike a.now b.now }
{
    if !is_same_engine(a.plan.engine, b.plan.engine) {
        return false;
    }
    if a.image.as_slice() != b.image.as_slice() {
        return false;
    }
    if a.plan.slices.rows() != b.plan.slices.rows() {
        return false;
    }
    a.drive.as_slice() == b.drive.as_slice()
}

/// Whether two engines are of one kind.
fn is_same_engine(a: EngineKind, b: EngineKind) -> bool
    ensures { result ≡ is_same_engine a b }
{
    a.number() == b.number()
}
