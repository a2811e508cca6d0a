// The questions of a calibration file.
ghost use Rattle.std.specs.Prelude.{◌≡◌, ◌≤◌, ◌<◌, ◌+◌, ◌++◌, ◌∷◌, [], true, IfSome, length};
ghost use Rattle.toml.specs.View.{view, table_view, items_view};
ghost use Rattle.eg_toml.specs.Arrays.{all_read, one, numbers_in, HasRead};
ghost use Rattle.eg_toml.specs.Names.{all_names, is_among};
ghost use Rattle.eg_cal.specs.Questions.{question_names, word_at, pair_at, readings_in, row_in, asked_in, question_of, questions_in};

use eg_answer::{Question, Questions, TestRow};
use eg_sensor::Readings;
use eg_toml::{has_only_names, items_in, member, number_at, number_in};
use toml::{Table, Value};

/// The names of a question.
const NAMES: [&str; 11] = [
    "seed", "pedal", "plate", "load", "speed", "raise", "check", "used", "estimate", "allowed",
    "answer",
];

/// The 2 to 64 questions that an array is (docs/FORMATS.md, "Calibration files"), or None where the value
/// isn't such an array.
pub(crate) fn questions_in(value: &Value) -> Option<Questions>
    ensures value { result ≡ questions_in (view value.now) }
    ensures count { IfSome result (λ questions. 2 ≤ length questions) }
{
    let items = items_in(value, 2, 64)?;
    let mut questions = Questions::new();
    if !push_questions(items, &mut questions) {
        return None;
    }
    Some(questions)
}

/// Adds the items, where each is a question, and answers false where one isn't.
fn push_questions(items: &[Value], questions: &mut Questions) -> bool
    requires { length questions.old + length items.now ≤ 64 }
    ensures read { let read = all_read (one question_of) (items_view items.now) in
        HasRead read questions.old questions.new result }
    ensures count { result ≡ true → length questions.new ≡ length questions.old + length items.now }
{
    for item in items {
        match question_of(item) {
            Some(question) => add(questions, question),
            None => return false,
        }
    }
    true
}

fn add(questions: &mut Questions, question: Question)
    requires { length questions.old < 64 }
    ensures { questions.new ≡ questions.old ++ question ∷ [] }
{
    questions.push(question.row, question.answer);
}

/// The question that a table is.
fn question_of(value: &Value) -> Option<Question>
    ensures { result ≡ question_of (view value.now) }
{
    let table = value.as_table()?;
    if !has_question_names(table) {
        return None;
    }
    asked_in(table)
}

fn has_question_names(table: &Table) -> bool
    ensures { result ≡ all_names (is_among question_names) (table_view table.now) }
{
    has_only_names(table, &NAMES)
}

#[tactic(auto, unfolding(crate::specs::Questions::asked_in))]
fn asked_in(table: &Table) -> Option<Question>
    ensures { result ≡ asked_in (table_view table.now) }
{
    let row = row_in(table)?;
    let answer = word_at(table, "answer")?;
    Some(Question { row, answer })
}

#[tactic(auto, unfolding(crate::specs::Questions::row_in))]
fn row_in(table: &Table) -> Option<TestRow>
    ensures { result ≡ row_in (table_view table.now) }
{
    let seed = word_at(table, "seed")?;
    let readings = readings_in(table)?;
    let used = word_at(table, "used")?;
    let estimate = word_at(table, "estimate")?;
    let allowed = word_at(table, "allowed")?;
    Some(TestRow {
        seed,
        readings,
        used,
        estimate,
        allowed,
    })
}

#[tactic(auto, unfolding(crate::specs::Questions::readings_in))]
fn readings_in(table: &Table) -> Option<Readings>
    ensures { result ≡ readings_in (table_view table.now) }
{
    let pedal = pair_at(table, "pedal")?;
    let plate = pair_at(table, "plate")?;
    let load = pair_at(table, "load")?;
    let speed = pair_at(table, "speed")?;
    let raise = word_at(table, "raise")?;
    let raise_check = word_at(table, "check")?;
    Some(Readings {
        pedal,
        plate,
        load,
        speed,
        raise,
        raise_check,
    })
}

/// The number of one word under a name.
fn word_at(table: &Table, name: &str) -> Option<u16>
    ensures { result ≡ word_at name.now (table_view table.now) }
{
    number_at(table, name, 0, u16::MAX)
}

/// The two numbers of one word under a name.
fn pair_at(table: &Table, name: &str) -> Option<[u16; 2]>
    ensures { result ≡ pair_at name.now (table_view table.now) }
{
    pair_in(member(table, name)?)
}

fn pair_in(value: &Value) -> Option<[u16; 2]>
    ensures { result ≡ numbers_in 2 2 65535 (view value.now) }
{
    let items = items_in(value, 2, 2)?;
    let first = number_in(&items[0], 0, u16::MAX)?;
    let second = number_in(&items[1], 0, u16::MAX)?;
    Some([first, second])
}
