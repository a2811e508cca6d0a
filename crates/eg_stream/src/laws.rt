// Laws of coupled runs.
ghost use Rattle.std.specs.Prelude.{ℕ, List};
ghost use Rattle.eg_fault.specs.Faults.{IsNoneOrValid};
ghost use Rattle.eg_values.specs.Calibration.{IsAccepted};
ghost use Rattle.eg_model.specs.History.{Setting, Entry};
ghost use Rattle.eg_stream.specs.Coupled.{CoupledUnit, AreTaken};
ghost use Rattle.eg_stream.specs.Headline.{KeepsCoupledHeadline, RowsComeInTurn};
ghost use Rattle.eg_stream.specs.Texts.{TextTellsRows};
ghost use Rattle.eg_stream.specs.Used.{CommandsAreUsed};
ghost use Rattle.eg_input.specs.declared.answered.PartnerAnswer.{PartnerAnswer as SomeAnswer};

/// Does nothing when it runs. Its clauses are the headline of coupled runs (docs/CONCEPT.md, "`couple`"), for
/// each accepted calibration, without a fault and under each valid one. By `rows` each answer adds the row of
/// its tick.
///
/// Claim 59 (C90; `keeps`): Whatever lines a partner answers that are taken, the rows of `couple` show what
/// was answered, and keep the headline but for its fields on the engines of the bench and on reports. They
/// also keep claim 96, and what claim 97 says of path 2.
/// Claim 60 (C90; `keeps`): If the partner's two loads are equal at each tick, these rows also keep claims 9
/// to 11 and 23.
/// Claim 61 (C90; `keeps`): With another image or slice plan, the same answers have the same rows but for the
/// two outputs of level 1.
/// Claim 64 (`text`).
pub fn coupled_runs_keep_the_headline()
    ensures keeps { (unit : CoupledUnit) (lines : List (List ℕ)) (answers : List SomeAnswer) →
        IsAccepted unit.setting.cal → IsNoneOrValid unit.setting.fault → AreTaken unit lines answers →
        KeepsCoupledHeadline unit answers }
    ensures rows { RowsComeInTurn }
    ensures text { TextTellsRows }
{}

/// Does nothing when it runs. Its clause is the law on what is told as commanded next, as the next tick uses
/// it.
///
/// Claim 63.
pub fn commands_are_used()
    ensures { (s : Setting) (h : List Entry) → CommandsAreUsed s h }
{}
