// The watches, one by one.
ghost use Rattle.std.specs.Prelude.{◌≡◌};
ghost use Rattle.eg_record.specs.Detection.{first_watch, is_found};
ghost use Rattle.eg_record.specs.Texts.{watch_name};

use eg_num::Watches;

/// A watch of the unit (docs/CONCEPT.md, "The record of a run"). Of several that are found at one tick, the
/// first in this order is told.
#[derive(Clone, Copy, PartialEq, Eq)]
pub enum Watch {
    /// A word of level 2 differs from its complement.
    Mirror,
    /// The pair of the pedal disagrees.
    Pedal,
    /// The pair of the throttle plate disagrees.
    Plate,
    /// The pair of the load disagrees.
    Load,
    /// The pair of the speed disagrees.
    Speed,
    /// The torque exceeds what is permitted.
    Torque,
    /// Answers are wrong.
    Answers,
    /// A start-up test of the shut-off paths failed.
    Start,
}

impl Watch {
    /// The watches in their order.
    pub const ORDER: [Watch; 8] = [
        Watch::Mirror,
        Watch::Pedal,
        Watch::Plate,
        Watch::Load,
        Watch::Speed,
        Watch::Torque,
        Watch::Answers,
        Watch::Start,
    ];

    /// Its name (docs/FORMATS.md, "The record").
    #[tactic(auto, unfolding(crate::specs::Texts::watch_name))]
    pub fn name(self) -> &'static str
        ensures { result.now ≡ watch_name self }
    {
        match self {
            Watch::Mirror => "mirror",
            Watch::Pedal => "pedal",
            Watch::Plate => "plate",
            Watch::Load => "load",
            Watch::Speed => "speed",
            Watch::Torque => "torque",
            Watch::Answers => "answers",
            Watch::Start => "start",
        }
    }

    /// Whether this watch is among those that are found.
    #[tactic(auto, unfolding(crate::specs::Detection::is_found))]
    pub fn is_among(self, found: &Watches) -> bool
        ensures { result ≡ is_found found.now self }
    {
        match self {
            Watch::Mirror => found.mirror,
            Watch::Pedal => found.pedal,
            Watch::Plate => found.plate,
            Watch::Load => found.load,
            Watch::Speed => found.speed,
            Watch::Torque => found.torque,
            Watch::Answers => found.answers,
            Watch::Start => found.start,
        }
    }

    /// The first watch in their order that is among those that are found, or None where none is found.
    #[tactic(auto, unfolding(crate::specs::Detection::first_watch))]
    pub fn first_among(found: &Watches) -> Option<Watch>
        ensures { result ≡ first_watch found.now }
    {
        Watch::ORDER
            .iter()
            .copied()
            .find(|watch| watch.is_among(found))
    }
}
