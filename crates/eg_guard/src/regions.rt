// The memory map: which words there are, and who may load and store them.
ghost use Rattle.std.specs.Prelude.{◌≡◌, ◌≤◌, [], ◌∷◌, map, replicate};
ghost use Rattle.eg_guard.specs.Regions;

/// How many words the memory has (docs/FORMATS.md, "Memory map"). Its addresses are the numbers below this.
pub const WORDS: u16 = 4096;

/// The address of the first word of level 1's own data. The code stands before it, from 0 on.
pub const DATA: u16 = 1024;

/// The address of the first input port.
pub const IN_PORTS: u16 = 2048;

/// The address of the last input port.
pub const LAST_IN_PORT: u16 = 2057;

/// How many input ports there are: two tracks of four pairs, the raise and its check word.
pub const IN_PORT_COUNT: u16 = LAST_IN_PORT - IN_PORTS + 1;

/// The address of the first output port: the command to the throttle plate.
pub const THROTTLE: u16 = 2064;

/// The address of the second output port: the command to the ignition.
pub const IGNITION: u16 = 2065;

/// The address of the first result. The results are the signals of level 2.
pub const RESULTS: u16 = 2080;

/// The address of the last result.
pub const LAST_RESULT: u16 = 2084;

/// How many results there are.
pub const RESULT_COUNT: u16 = LAST_RESULT - RESULTS + 1;

/// The address of the first protected word.
pub const PROTECTED: u16 = 2096;

/// The address of the last protected word.
pub const LAST_PROTECTED: u16 = 2122;

/// The address of the link, at which the number of the question stands.
pub const LINK: u16 = 2128;

/// Who asks for a word (docs/CONCEPT.md, "Guarded memory").
#[derive(Clone, Copy, PartialEq, Eq)]
pub enum Who {
    /// The function level: code that nobody trusts.
    Level1,
    /// The function monitoring.
    Level2,
    /// The unit's own hardware: it loads the image, and writes the readings and the question.
    Board,
}

/// A part of the memory (docs/FORMATS.md, "Memory map").
#[derive(Clone, Copy, PartialEq, Eq)]
pub enum Region {
    /// The image that level 1 runs.
    Code,
    /// Level 1's own words.
    Data,
    /// The readings of this tick.
    InPorts,
    /// The commands to the plate and to the ignition.
    OutPorts,
    /// The five signals of level 2, which level 1 may read.
    Results,
    /// The other words of level 2, and the complements of all.
    Protected,
    /// The number of the question.
    Link,
    /// No word stands there.
    None,
}

/// What the one who asks may do at an address (docs/FORMATS.md, "Memory map").
#[derive(Clone, Copy, PartialEq, Eq)]
pub struct Allowed {
    /// The word may be read.
    pub load: bool,
    /// The word may be changed.
    pub store: bool,
}

impl Allowed {
    const NOTHING: Allowed = Allowed {
        load: false,
        store: false,
    };

    const LOAD_ONLY: Allowed = Allowed {
        load: true,
        store: false,
    };

    const BOTH: Allowed = Allowed {
        load: true,
        store: true,
    };
}

impl Region {
    /// What the region allows to the one who asks.
    #[inline]
    #[tactic(auto, unfolding(crate::specs::Regions::allows))]
    fn allows(self, who: Who) -> Allowed
        ensures { result ≡ Regions.allows self who }
    {
        match who {
            Who::Level1 => match self {
                Region::Data | Region::OutPorts => Allowed::BOTH,
                Region::Code | Region::InPorts | Region::Results => Allowed::LOAD_ONLY,
                Region::Protected | Region::Link | Region::None => Allowed::NOTHING,
            },
            Who::Level2 => match self {
                Region::Results | Region::Protected => Allowed::BOTH,
                Region::InPorts | Region::Link => Allowed::LOAD_ONLY,
                Region::Code | Region::Data | Region::OutPorts | Region::None => Allowed::NOTHING,
            },
            Who::Board => match self {
                Region::None => Allowed::NOTHING,
                _ => Allowed::BOTH,
            },
        }
    }
}

/// The region in which an address lies (docs/FORMATS.md, "Memory map").
#[inline]
#[tactic(auto, unfolding(crate::specs::Regions::region_of))]
pub fn region_of(address: u16) -> Region
    ensures { result ≡ Regions.region_of address }
{
    match address / DATA {
        0 => Region::Code,
        1 => Region::Data,
        _ => port_of(address),
    }
}

/// The region of an address past the data. (`region_of` itself answers for code and data, since these are
/// asked for most often.)
#[inline]
#[tactic(auto, unfolding(crate::specs::Regions::region_of))]
fn port_of(address: u16) -> Region
    requires { IN_PORTS ≤ address }
    ensures { result ≡ Regions.region_of address }
{
    if address <= LAST_IN_PORT {
        return Region::InPorts;
    }
    match address {
        THROTTLE..=IGNITION => Region::OutPorts,
        RESULTS..=LAST_RESULT => Region::Results,
        PROTECTED..=LAST_PROTECTED => Region::Protected,
        LINK => Region::Link,
        _ => Region::None,
    }
}

/// What the one who asks may do at an address (docs/FORMATS.md, "Memory map").
#[inline]
#[tactic(auto, unfolding(crate::specs::Regions::access))]
pub fn access(who: Who, address: u16) -> Allowed
    ensures { result ≡ Regions.access who address }
{
    region_of(address).allows(who)
}

/// Does nothing when it runs. Its contract is the memory map in numbers (docs/FORMATS.md, "Memory map"): the
/// first and the last address of each region, the addresses next to these that have no word, and how many
/// words, input ports and results there are.
#[tactic(auto, unfolding(crate::specs::Regions::region_of))]
pub fn map_in_numbers()
    ensures regions { map Regions.region_of
        (0 ∷ 1023 ∷ 1024 ∷ 2047 ∷ 2048 ∷ 2057 ∷ 2064 ∷ 2065 ∷ 2080 ∷ 2084 ∷ 2096 ∷ 2122 ∷ 2128 ∷ [])
        ≡ Region.Code ∷ Region.Code ∷ Region.Data ∷ Region.Data ∷ Region.InPorts ∷ Region.InPorts
        ∷ Region.OutPorts ∷ Region.OutPorts ∷ Region.Results ∷ Region.Results ∷ Region.Protected
        ∷ Region.Protected ∷ Region.Link ∷ [] }
    ensures gaps { map Regions.region_of
        (2058 ∷ 2063 ∷ 2066 ∷ 2079 ∷ 2085 ∷ 2095 ∷ 2123 ∷ 2127 ∷ 2129 ∷ 4096 ∷ [])
        ≡ replicate 10 Region.None }
    ensures counts { WORDS ∷ IN_PORT_COUNT ∷ RESULT_COUNT ∷ [] ≡ 4096 ∷ 10 ∷ 5 ∷ [] }
{}
