// What level 2 is to compute of the test rows.
ghost use Rattle.std.specs.Prelude.{◌≡◌, map};
ghost use Rattle.eg_level2.specs.Inputs.{results_by};

use arrayvec::ArrayVec;
use eg_answer::{Questions, Rules, TestRow, results};

/// The seed of a test row, and the results that modules 1 to 5 are to have on it (docs/CONCEPT.md, "Questions
/// and answers").
#[derive(Clone, Copy, Default)]
pub struct RowResults {
    /// The seed.
    pub seed: u16,
    /// The five results, in the order of the modules.
    pub results: [u16; 5],
}

impl RowResults {
    /// The seed and the results of a row.
    #[tactic(auto, unfolding(crate::specs::Inputs::results_by))]
    fn of(rules: &Rules, row: &TestRow) -> RowResults
        ensures { result ≡ results_by rules.now row.now }
    {
        RowResults {
            seed: row.seed,
            results: results(rules, row),
        }
    }
}

/// The seeds and the results of the rows of all questions, in their order.
pub(crate) fn results_of_all(rules: &Rules, questions: &Questions) -> ArrayVec<RowResults, 64>
    ensures { result.items ≡ map (λ question. results_by rules.now question.row) questions.now }
{
    let mut all = ArrayVec::new();
    for i in 0..questions.len() {
        all.push(RowResults::of(rules, questions.row(i)));
    }
    all
}
