// What `table` tells of the rows of a run, in words.
ghost use Rattle.eg_laws.specs.InWords.{PeakIsGreatest, StretchIsLongest, ReactionIsLongest};

/// Does nothing when it runs. Its clauses are laws of what `table` tells of the rows of a run
/// (docs/CONCEPT.md, "`table`"): `peak` is the least number that no torque passes above what is permitted
/// and the threshold together; `stretch` the least number of rows that no stretch of true excess in a span
/// passes; and `reaction` the least number of ticks after which, in each span that ends with the stages off,
/// these are off. There is a `reaction` exactly if some such span confirms an excess.
///
/// Claim 15.
pub fn told_numbers_are_least()
    ensures peak { PeakIsGreatest }
    ensures stretch { StretchIsLongest }
    ensures reaction { ReactionIsLongest }
{}
