// Module 7: what comes of a trip, and the answer.
ghost use Rattle.std.specs.Prelude.{◌≡◌, ◌+◌, ◌*◌, ◌==◌, if◌then◌else◌, Some, None};
ghost use Rattle.eg_level2.specs.Words.{words_of};
ghost use Rattle.eg_level2.specs.Modules.{marked, closed_flow, opens_now, answers_now, react_step, reacted};
ghost use Rattle.eg_level2.specs.Inner.Stores.{RunMakes};
ghost use Rattle.eg_level2.specs.Order.{react_stores};

use crate::step::no_watches;
use crate::words::{BROKEN_FLOW, FLOW, SIGN, TOKEN, TRIP, WHOLE_FLOW, is_set, keep, word};
use crate::{Phase, Step};
use eg_answer::next_token;
use eg_base::NoMemory;
use eg_guard::Guarded;

/// The token that all eight modules have moved.
const WHOLE_TOKEN: u16 = 0x00ff;

/// Module 7: orders path 1 open where a trip stands or a test asks for it, and sends the answer in the phase
/// `Send` where no trip stands (docs/CONCEPT.md, "Level 2").
#[inline(always)]
pub(crate) fn react<M: Guarded>(memory: &mut M, phase: Phase) -> Result<Step, NoMemory>
    ensures { RunMakes (react_stores (react_step phase (words_of (M.shows memory.old).words)))
        (reacted phase (words_of (M.shows memory.old).words))
        (M.shows memory.old) (M.shows memory.new) result }
{
    let opens = opens_now(memory, phase);
    let sends = answers_now(memory, phase);
    let flow = closed_flow(memory);
    let sign = word(memory, SIGN);
    keep(memory, TOKEN, 0)?;
    keep(memory, FLOW, flow_after(sends, flow))?;
    Ok(Step {
        open_path: opens,
        answer: sent_number(sends, flow, sign),
        found: no_watches(),
    })
}

/// The flow of this tick's answer.
#[tactic(auto, unfolding(crate::specs::Words::named, crate::specs::Modules::closed_flow))]
fn closed_flow<M: Guarded>(memory: &M) -> u16
    ensures { result ≡ closed_flow (words_of (M.shows memory.now).words) }
{
    closed(
        word(memory, FLOW),
        next_token(word(memory, TOKEN), eg_answer::REACT),
    )
}

/// The flow, marked where the token isn't whole.
#[tactic(auto, unfolding(crate::specs::Modules::marked))]
fn closed(flow: u16, token: u16) -> u16
    ensures { result ≡ (if token == 255 then flow else marked flow) }
{
    if token == WHOLE_TOKEN {
        flow
    } else {
        flow | BROKEN_FLOW
    }
}

/// Whether path 1 is ordered open: where a trip stands, or a test asks for it.
#[tactic(auto, unfolding(crate::specs::Words::named, crate::specs::Modules::opens_now))]
fn opens_now<M: Guarded>(memory: &M, phase: Phase) -> bool
    ensures { result ≡ opens_now phase (words_of (M.shows memory.now).words) }
{
    is_set(word(memory, TRIP)) || phase.orders()
}

/// Whether an answer is sent: in the phase `Send`, where no trip stands.
#[tactic(auto, unfolding(crate::specs::Words::named, crate::specs::Modules::answers_now))]
fn answers_now<M: Guarded>(memory: &M, phase: Phase) -> bool
    ensures { result ≡ answers_now phase (words_of (M.shows memory.now).words) }
{
    phase.sends() && !is_set(word(memory, TRIP))
}

/// The flow, which begins anew once an answer was sent.
fn flow_after(sent: bool, flow: u16) -> u16
    ensures { result ≡ (if sent then 255 else flow) }
{
    if sent { WHOLE_FLOW } else { flow }
}

/// The number that is sent, if one is.
fn sent_number(sends: bool, flow: u16, sign: u16) -> Option<u32>
    ensures { result ≡ (if sends then Some (flow * 65536 + sign) else None) }
{
    if sends {
        Some(u32::from(flow) * 65536 + u32::from(sign))
    } else {
        None
    }
}
