// What level 2 is told of a tick.
ghost use Rattle.std.specs.Prelude.{◌≡◌};
ghost use Rattle.eg_level2.specs.Phases.{feeds, sends, orders};

/// What level 2 is to do at a tick (docs/CONCEPT.md, "Level 2").
#[derive(Clone, Copy)]
pub enum Phase {
    /// The engine is driven, and no answer is sent.
    Quiet,
    /// The engine is driven, and the answer is sent.
    Send,
    /// The shut-off paths are tested: the debouncers aren't fed, and no answer is sent.
    Test,
    /// As `Test`, and path 1 is ordered open.
    TestOrder,
}

impl Phase {
    /// Whether the debouncers are fed.
    #[tactic(auto, unfolding(crate::specs::Phases::feeds))]
    pub(crate) fn feeds(self) -> bool
        ensures { result ≡ feeds self }
    {
        match self {
            Phase::Quiet | Phase::Send => true,
            Phase::Test | Phase::TestOrder => false,
        }
    }

    /// Whether the answer is sent.
    #[tactic(auto, unfolding(crate::specs::Phases::sends))]
    pub(crate) fn sends(self) -> bool
        ensures { result ≡ sends self }
    {
        match self {
            Phase::Send => true,
            Phase::Quiet | Phase::Test | Phase::TestOrder => false,
        }
    }

    /// Whether path 1 is ordered open, whatever was found.
    #[tactic(auto, unfolding(crate::specs::Phases::orders))]
    pub(crate) fn orders(self) -> bool
        ensures { result ≡ orders self }
    {
        match self {
            Phase::TestOrder => true,
            Phase::Quiet | Phase::Send | Phase::Test => false,
        }
    }
}
