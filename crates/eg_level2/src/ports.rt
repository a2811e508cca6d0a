// What the board hands to level 2: the readings at the input ports, and the number of the question at the
// link.
ghost use Rattle.std.specs.Prelude.{◌≡◌, ◌+◌, ◌<◌, slice_index};
ghost use Rattle.eg_guard.specs.declared.regions.TheConstants.{IN_PORTS, IN_PORT_COUNT};
ghost use Rattle.eg_level2.specs.Inputs.{readings_of, asked_of};

use eg_guard::{Guarded, IN_PORTS, LINK, Who};
use eg_sensor::Readings;

/// The word at the input port of that number, the first being 0.
#[tactic(auto, using(crate::proofs::PortLemmas::ports))]
fn port<M: Guarded>(memory: &M, number: u16) -> u16
    requires { number < IN_PORT_COUNT }
    ensures { result ≡ slice_index (M.shows memory.now).words (IN_PORTS + number) }
{
    match memory.load(Who::Level2, IN_PORTS + number) {
        Ok(word) => word,
        Err(_) => unreachable!(),
    }
}

/// The readings of this tick.
#[tactic(auto, unfolding(crate::specs::Inputs::readings_of))]
pub(crate) fn readings<M: Guarded>(memory: &M) -> Readings
    ensures { result ≡ readings_of (M.shows memory.now).words }
{
    Readings {
        pedal: [port(memory, 0), port(memory, 1)],
        plate: [port(memory, 2), port(memory, 3)],
        load: [port(memory, 4), port(memory, 5)],
        speed: [port(memory, 6), port(memory, 7)],
        raise: port(memory, 8),
        raise_check: port(memory, 9),
    }
}

/// The number of the question that is asked.
#[tactic(auto, using(crate::proofs::PortLemmas::ports), unfolding(crate::specs::Inputs::asked_of))]
pub(crate) fn asked<M: Guarded>(memory: &M) -> u16
    ensures { result ≡ asked_of (M.shows memory.now).words }
{
    match memory.load(Who::Level2, LINK) {
        Ok(number) => number,
        Err(_) => unreachable!(),
    }
}
