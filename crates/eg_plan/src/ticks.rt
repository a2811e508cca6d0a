// How many ticks the runs of a campaign have in all.
ghost use Rattle.std.specs.Prelude.{◌≡◌, ◌≤◌, IfOk};
ghost use Rattle.eg_plan.specs.Ticks.{sum_with};

use crate::CampaignFault;

/// The most ticks that the runs of a campaign may have in all.
const MOST: u32 = 1_000_000;

/// The sum with `count` ticks more, which are those of run `run`. The campaign is refused at the first run
/// with which it has more than 1,000,000 ticks (docs/FORMATS.md, "Campaign files").
pub fn add_ticks(sum: u32, run: u32, count: u32) -> Result<u32, CampaignFault>
    requires sum { sum ≤ 1000000 }
    requires count { count ≤ 20000 }
    ensures sum { result ≡ sum_with sum run count }
    ensures bound { IfOk result (λ total. total ≤ 1000000) }
{
    let sum = sum + count;
    if sum > MOST {
        return Err(CampaignFault::Ticks { run });
    }
    Ok(sum)
}
