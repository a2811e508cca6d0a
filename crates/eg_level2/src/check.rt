// Module 0: whether level 2's words are as level 2 left them, and whether it ran at the tick before.
ghost use Rattle.std.specs.Prelude.{◌≡◌, ◌⊎◌, ◌+◌, ◌%◌, ◌==◌, OnOk, if◌then◌else◌};
ghost use Rattle.eg_level2.specs.Words.{words_of, in_order, AreMirrored};
ghost use Rattle.eg_level2.specs.Modules.{marked, check_step, given_up, mirror_alone, finding, quiet_step};
ghost use Rattle.eg_level2.specs.Inner.Stores.{Makes, RunMakes};
ghost use Rattle.eg_level2.specs.Order.{check_stores, given_up_stores};

use crate::Step;
use crate::words::{
    BROKEN_FLOW, FLOW, LAST, SIGN, TOKEN, TRIP, WHOLE_FLOW, is_mirrored, keep, keep_all, word,
};
use eg_answer::{MIRRORED_WORDS, next_token};
use eg_base::NoMemory;
use eg_guard::Guarded;

/// Module 0: compares each word with its complement, and begins the token and the fold of this tick
/// (docs/CONCEPT.md, "Level 2").
#[inline(always)]
pub(crate) fn check<M: Guarded>(memory: &mut M, tick: u16, seed: u16) -> Result<Step, NoMemory>
    // Where each word has its complement it goes on, and else it gives all words up.
    ensures { (AreMirrored (M.shows memory.old).words
        × RunMakes (check_stores (check_step seed tick (words_of (M.shows memory.old).words))) quiet_step
        (M.shows memory.old) (M.shows memory.new) result)
        ⊎ ((¬ AreMirrored (M.shows memory.old).words)
        × RunMakes (given_up_stores tick) (finding mirror_alone)
        (M.shows memory.old) (M.shows memory.new) result
        × OnOk result (AreMirrored (M.shows memory.new).words)) }
{
    if !is_mirrored(memory) {
        give_up(memory, tick)?;
        return Ok(Step::mirror());
    }
    go_on(memory, tick, seed)?;
    Ok(Step::quiet())
}

/// Moves the token, looks at the tick of the last run, notes this one, and begins the fold.
fn go_on<M: Guarded>(memory: &mut M, tick: u16, seed: u16) -> Result<(), NoMemory>
    ensures { Makes (check_stores (check_step seed tick (words_of (M.shows memory.old).words)))
        (M.shows memory.old) (M.shows memory.new) result }
{
    let token = next_token(word(memory, TOKEN), eg_answer::CHECK);
    let last = word(memory, LAST);
    let flow = flow_after(word(memory, FLOW), last, tick);
    keep(memory, TOKEN, token)?;
    keep(memory, FLOW, flow)?;
    keep(memory, LAST, tick)?;
    keep(memory, SIGN, seed)
}

/// The flow, marked where the last run wasn't at the tick before.
#[tactic(auto, unfolding(crate::specs::Modules::marked))]
fn flow_after(flow: u16, last: u16, tick: u16) -> u16
    ensures { result ≡ (if (last + 1) % 65536 == tick then flow else marked flow) }
{
    if last.wrapping_add(1) == tick {
        flow
    } else {
        flow | BROKEN_FLOW
    }
}

/// Gives all words up, and trips. The trip is stored first, so that after each store a trip stands or a word
/// differs from its complement: memory that runs out in between doesn't hide the fault.
fn give_up<M: Guarded>(memory: &mut M, tick: u16) -> Result<(), NoMemory>
    ensures makes { Makes (given_up_stores tick) (M.shows memory.old) (M.shows memory.new) result }
    ensures mirrored { OnOk result (AreMirrored (M.shows memory.new).words) }
{
    keep(memory, TRIP, 1)?;
    keep_all(memory, &given_up_words(tick))
}

/// The words that are given up, in the order of their numbers.
#[tactic(auto, unfolding(crate::specs::Words::in_order, crate::specs::Modules::given_up))]
fn given_up_words(tick: u16) -> [u16; MIRRORED_WORDS as usize]
    ensures { result ≡ in_order (given_up tick) }
{
    let flow = WHOLE_FLOW | BROKEN_FLOW;
    [0, 0, 0, 0, 0, 0, 0, 0, 0, 0, 0, 1, 1, flow, tick, 0]
}
