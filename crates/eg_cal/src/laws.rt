// Laws of calibration files.
ghost use Rattle.std.specs.Prelude.{◌≡◌, Ok};
ghost use Rattle.eg_toml.specs.Documents.{document_of};
ghost use Rattle.eg_values.specs.Reference.{reference_parts};
ghost use Rattle.eg_cal.specs.Calibration.{calibration_of};
ghost use Rattle.eg_cal.specs.Answers.{AnswersLaw, NoAnswerLaw};
ghost use Rattle.eg_cal.specs.Rules.{AcceptedLaw};
ghost use Rattle.eg_cal.specs.Reference.{reference_text};

/// Does nothing when it runs. Its contract is a law of calibration files (docs/FORMATS.md, "Calibration
/// files").
///
/// Claim 38 (C74, F20, F21): The document of a calibration file is accepted exactly if it keeps the rules:
/// each key of its version is there and holds what it may, no other name is there, and the values go
/// together. The calibration then has the values under the keys.
pub fn accepted_files_keep_the_rules()
    ensures { AcceptedLaw }
{}

/// Does nothing when it runs. Its contract is a law: the text of the reference file says the calibration that
/// `reference` gives (docs/FORMATS.md, "Calibration files").
pub fn reference_is_its_file()
    ensures { calibration_of (document_of reference_text) ≡ Ok reference_parts }
{}

/// Does nothing when it runs. Its clauses are laws: a document that is refused for no more than wrong answers
/// is accepted once the right ones are put in, and nothing else of its calibration changes; and none is
/// refused for its answers where the right ones are asked for (docs/FORMATS.md, "Calibration files").
pub fn right_answers_are_accepted()
    ensures accepted { AnswersLaw }
    ensures never_refused { NoAnswerLaw }
{}
