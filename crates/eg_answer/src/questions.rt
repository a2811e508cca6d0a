// The questions of the monitoring module.
ghost use Rattle.std.specs.Prelude.{◌≡◌, ◌↔◌, ◌+◌, ◌<◌, ◌≤◌, [], ◌∷◌, ◌++◌, length, IsTrue};
ghost use Rattle.std.specs.Bool.{OnTrue, OnFalse};
ghost use Rattle.eg_answer.specs.Questions.{question_at};

use crate::TestRow;
use arrayvec::ArrayVec;
use eg_sensor::Readings;
use std::marker::Model;

/// A question of the monitoring module (docs/CONCEPT.md, "Questions and answers"): a test row, and its
/// answer.
#[derive(Clone, Copy)]
pub struct Question {
    /// The test row.
    pub row: TestRow,
    /// The fold that a right answer carries.
    pub answer: u16,
}

impl Default for Question {
    ghost use Rattle.eg_answer.specs.Questions.{no_question};

    ghost is_default = { λ question. question ≡ no_question };

    /// The question whose numbers are all 0.
    fn default() -> Question {
        Question {
            row: TestRow {
                seed: 0,
                readings: Readings {
                    pedal: [0; 2],
                    plate: [0; 2],
                    load: [0; 2],
                    speed: [0; 2],
                    raise: 0,
                    raise_check: 0,
                },
                used: 0,
                estimate: 0,
                allowed: 0,
            },
            answer: 0,
        }
    }
}

/// The questions of the monitoring module, at most 64, in the order in which they are asked (docs/CONCEPT.md,
/// "Questions and answers"). Contracts see the list of them.
#[derive(Drop)]
pub struct Questions {
    questions: ArrayVec<Question, 64>,
}

impl Model for Questions {
    ghost use Rattle.std.specs.Prelude.{List, ◌≤◌, length};
    ghost use Rattle.eg_answer.specs.declared.questions.Question.{Question};

    ghost Value = { List Question };

    ghost view = { λ q. q.questions.items };

    ghost invariant = { λ q. length q.questions.items ≤ 64 };
}

impl Questions {
    /// No questions.
    pub fn new() -> Questions
        ensures { result ≡ [] }
    {
        Questions {
            questions: ArrayVec::new(),
        }
    }

    /// Adds a question at the end, or answers false and changes nothing where there are 64 already.
    pub fn push(&mut self, row: TestRow, answer: u16) -> bool
        ensures room { IsTrue result ↔ (length self.old < 64) }
        ensures added { OnTrue result (self.new ≡ self.old ++ (record { row = row; answer = answer }) ∷ []) }
        ensures unchanged { OnFalse result (self.new ≡ self.old) }
        ensures within { length self.new ≤ 64 }
    {
        self.questions.try_push(Question { row, answer }).is_ok()
    }

    /// How many questions there are.
    pub fn len(&self) -> usize
        ensures length { result ≡ length self.now }
        ensures within { length self.now ≤ 64 }
    {
        self.questions.len()
    }

    /// The test row of question `i`, the first being 0.
    pub fn row(&self, i: usize) -> &TestRow
        requires { i < length self.now }
        ensures { result.now ≡ (question_at self.now i).row }
    {
        &self.questions[i].row
    }

    /// The answer to question `i`, the first being 0.
    pub fn answer(&self, i: usize) -> u16
        requires { i < length self.now }
        ensures { result ≡ (question_at self.now i).answer }
    {
        self.questions[i].answer
    }

    /// Equal questions. It takes no memory.
    pub fn copy(&self) -> Questions
        ensures { result ≡ self.now }
    {
        let mut questions = ArrayVec::new();
        match questions.try_extend_from_slice(self.questions.as_slice()) {
            Ok(()) => Questions { questions },
            Err(_) => unreachable!(),
        }
    }
}
