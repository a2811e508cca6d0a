// The sharp cut.
ghost use Rattle.eg_model.specs.SharpCut.{CutsSharply};

/// The sharp cut (docs/CONCEPT.md, "Why the unit reacts"): while nothing is out of order outside level 1,
/// and the engine shows one load twice, the stages are on exactly up to the tick by which the
/// full-efficiency excess is first confirmed. It does nothing when it runs.
pub fn cuts_sharply()
    ensures { CutsSharply }
{}
