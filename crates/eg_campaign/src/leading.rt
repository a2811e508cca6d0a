// Which run is the first of the group of each.
ghost use Rattle.std.specs.Prelude.{◌≡◌, ◌<◌, All, length, map, Some, is_some, unwrap_or, IfOk, OnOk, if◌then◌else◌};
ghost use Rattle.std.specs.HashMap.{get};
ghost use Rattle.eg_campaign.specs.declared.key.GroupKey.{GroupKey as Key};
ghost use Rattle.eg_campaign.specs.Inner.Keys.{is_same_key};
ghost use Rattle.eg_campaign.specs.Groups.{leader_in};
ghost use Rattle.eg_campaign.specs.Inner.Checkpoints.{AreCounts};

use crate::key::GroupKey;
use eg_base::NoMemory;
use eg_plan::RunInput;
use std::alloc::Global;
use std::collections::HashMap;

/// For each of these runs its leader, the index of the first run of its group (docs/CONCEPT.md, "The record
/// of a run"). Its time grows as the runs and their rows do. NoMemory is its one refusal.
pub(crate) fn leaders(alloc: Global, inputs: &[RunInput]) -> Result<Vec<usize>, NoMemory>
    ensures { IfOk result (λ all. all.items ≡ map (leader_in inputs.now) inputs.now) }
{
    let mut leaders = Vec::new(alloc);
    // A run that is alone needs no key.
    if inputs.len() == 1 {
        leaders.push(0)?;
        return Ok(leaders);
    }
    let mut firsts = HashMap::new(alloc);
    for i in 0..inputs.len() {
        let leader = first_or(&mut firsts, GroupKey::of(&inputs[i]), i)?;
        leaders.push(leader)?;
    }
    Ok(leaders)
}

/// The index under a key, which is put there where there is none.
fn first_or<'a>(
    firsts: &mut HashMap<GroupKey<'a>, usize>,
    key: GroupKey<'a>,
    index: usize,
) -> Result<usize, NoMemory>
    ensures first { IfOk result (λ first. first ≡ unwrap_or (get is_same_key firsts.old key.entry) index) }
    ensures put { OnOk result ((k : Key) → get is_same_key firsts.new k
        ≡ if is_some (get is_same_key firsts.old key.entry) then get is_same_key firsts.old k
        else (if is_same_key key.entry k then Some index else get is_same_key firsts.old k)) }
{
    if let Some(first) = firsts.get(&key) {
        return Ok(*first);
    }
    firsts.insert(key, index)?;
    Ok(index)
}

/// For each run how many it leads, by the leader of each. NoMemory is its one refusal.
pub(crate) fn counts_led(alloc: Global, leaders: &[usize]) -> Result<Vec<usize>, NoMemory>
    requires { All (λ leader. leader < length leaders.now) leaders.now }
    ensures { IfOk result (λ counts. AreCounts leaders.now counts.items) }
{
    let mut counts = vec![in alloc; 0; leaders.len()]?;
    for leader in leaders {
        counts[*leader] += 1;
    }
    Ok(counts)
}
