// The campaign that a command plays.
ghost use Rattle.std.specs.Prelude.{IfErr, IfOk};
ghost use Rattle.eg_plan.specs.declared.key.CampaignFault.TheVariants.{Memory};
ghost use Rattle.eg_plan.specs.Rules.{AreRuns};
ghost use Rattle.eg_outcome.specs.Changes.{change_of};
ghost use Rattle.eg_outcome.specs.Reads.{KeepsFiles, ReadsFile, Says};
ghost use Rattle.eg_outcome.specs.declared.outcome.Role.TheVariants as role;
ghost use Rattle.eg_outcome.specs.Campaigns.{campaign_said, campaign_or_refusal, campaign_file};
ghost use Rattle.eg_outcome.specs.Roles.{role_in};
ghost use Rattle.eg_outcome.specs.Runs.{IsNotOfRun};

use crate::{Outcome, Refusal, Role, file_bytes};
use eg_base::{Items, Store};
use eg_plan::{CampaignFault, RunPlan, read_campaign};
use std::alloc::Global;

/// The runs of the campaign in the file of that name, or how the call ends without them.
pub(crate) fn campaign_for<S: Store>(
    alloc: Global,
    file: &str,
    store: &mut S,
) -> Result<Items<RunPlan>, Outcome>
    ensures reads { ReadsFile role.Campaign campaign_file file.now
        (change_of S.shows store.old store.new) result }
    ensures keeps { KeepsFiles (change_of S.shows store.old store.new) result }
    ensures rules { IfOk result AreRuns }
    ensures of_campaign { IfErr result (λ outcome. IsNotOfRun (role_in outcome)) }
{
    match file_bytes(alloc, Role::Campaign, file, store) {
        Ok(bytes) => campaign_in(alloc, bytes.as_slice()),
        Err(end) => Err(end),
    }
}

/// The runs that these bytes of a campaign file say, or how the call ends without them.
#[tactic(auto, unfolding(crate::specs::Campaigns::campaign_said))]
fn campaign_in(alloc: Global, bytes: &[u8]) -> Result<Items<RunPlan>, Outcome>
    ensures says { Says campaign_or_refusal bytes.now result }
    ensures rules { IfOk result AreRuns }
    ensures of_campaign { IfErr result (λ outcome. IsNotOfRun (role_in outcome)) }
{
    match read_campaign(alloc, bytes) {
        Ok(plans) => Ok(Items::new(plans)),
        Err(CampaignFault::Memory) => Err(Outcome::Memory),
        Err(fault) => Err(Outcome::Refused(Refusal::Campaign(fault))),
    }
}
