// The laws of what a fault does within a run, of how it is told, and of all sweeps.
ghost use Rattle.eg_table.specs.Laws.{OthersDoNothing, EffectsDoSomething, ActedLaw, UnactedLaw, KeysHaveNoComma};
ghost use Rattle.eg_table.specs.SweepLaws.{OnsetsLaw, OnsetsAreWithin, SweptAreValid, SweptAreListed, SweptInOrder, ReactionsAreBounded};

/// Does nothing when it runs. Its contract has the laws of `acted` (docs/CONCEPT.md, "`table`"): at a tick at
/// which a class has no effect nothing is out of order, and at one at which a valid class has one something
/// is; so a valid fault has acted exactly if something is out of order by it at some tick of the run. (A
/// `timing` fault at the usual send tick counts too, though it changes nothing.)
pub fn acting_is_doing_something()
    ensures nothing { OthersDoNothing }
    ensures something { EffectsDoSomething }
    ensures acted { ActedLaw }
    ensures unacted { UnactedLaw }
{}

/// The own keys of a fault stand in one column of a row of `table` (docs/FORMATS.md, "The rows of `table`"):
/// no comma is in them. It does nothing when it runs.
pub fn keys_stand_in_one_column()
    ensures { KeysHaveNoComma }
{}

/// The laws of the faults of a grid (docs/CONCEPT.md, "`sweep`"): the onsets are the multiples of the step
/// within the run; each fault begins within it and is valid, and each but the lapses is a listed one; and
/// they come in the order of the classes. It does nothing when it runs.
pub fn swept_faults_are_listed()
    ensures onsets { OnsetsLaw }
    ensures within { OnsetsAreWithin }
    ensures valid { SweptAreValid }
    ensures listed { SweptAreListed }
    ensures order { SweptInOrder }
{}

/// The law of the reactions in a table (docs/CONCEPT.md, "`sweep`"): where no run under a listed fault has a
/// reaction longer than a bound, no row but that of lapses tells a longer one, nor does the last line. It
/// does nothing when it runs.
pub fn tables_are_bounded()
    ensures { ReactionsAreBounded }
{}
