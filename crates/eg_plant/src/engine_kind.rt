// Which engines there are.
ghost use Rattle.std.specs.Prelude.{◌≡◌};
ghost use Rattle.eg_plant.specs.EngineKinds.{number_of};

/// Which engine stands on the bench in a run (docs/FORMATS.md, "Campaign files"). What each does is told in
/// docs/CONCEPT.md, "Plant".
#[derive(Clone, Copy)]
pub enum EngineKind {
    /// `gasoline`: the gasoline engine, also of a run that names none.
    Gasoline,
    /// `diesel`: the diesel engine.
    Diesel,
}

impl EngineKind {
    /// Its number, which no other has.
    pub fn number(self) -> u64
        ensures { result ≡ number_of self }
    {
        match self {
            EngineKind::Gasoline => 0,
            EngineKind::Diesel => 1,
        }
    }
}
