// What the numbers of `coverage` mean.
ghost use Rattle.eg_desk.specs.Means.{NumbersMean};

/// What the numbers of each row of `coverage` mean (docs/FORMATS.md, "The rows of `coverage`"). It does
/// nothing when it runs.
///
/// Claim 91 (F44): Under each valid fault of the row's class, `within` and `off` of `coverage` hold in each
/// drive span. In the rows with the watch `start` they hold in each test span. Where `hidden` is 1, such
/// faults can stay hidden as claims 85 to 89, 92 and 98 say, those of claim 89 on the diesel engine. Of
/// lapses `hidden` is 1 exactly if N isn't 1, since claim 97 finds each miss if N is 1.
/// Claim 97.
pub fn numbers_mean()
    ensures { NumbersMean }
{}
