// The reference calibration.
ghost use Rattle.std.specs.Prelude.{◌≡◌, ◌<◌, ◌++◌, ◌∷◌, [], length};
ghost use Rattle.std.specs.List.Sorted.{IsStrictlyIncreasing};
ghost use Rattle.eg_num.specs.Windows.{AreWeights};
ghost use Rattle.eg_values.specs.Calibration.{IsAccepted};
ghost use Rattle.eg_values.specs.Reference.{reference_permit, reference_rules, reference_plant, reference_times, reference_questions, reference_parts};

use crate::Calibration;
use eg_answer::{Question, Questions, Rules, TestRow, Times};
use eg_num::{Axis, Table1, Table2, Weights};
use eg_plant::PlantData;
use eg_sensor::Readings;
use eg_torque::{NO_RAMP, Permit};

/// The reference calibration (docs/CONCEPT.md, "Calibration"). It is an accepted one, and the brake doesn't
/// count in it. It takes no memory.
pub fn reference() -> Calibration
    ensures parts { result ≡ reference_parts }
    ensures accepted { IsAccepted result }
{
    let calibration = Calibration::new(rules(), plant(), times(), questions(), false);
    let Some(calibration) = calibration else {
        unreachable!();
    };
    calibration
}

fn axis(points: &[u16; 3]) -> Axis
    requires { IsStrictlyIncreasing points.now }
    ensures { result ≡ points.now }
{
    let Some(axis) = Axis::new(points) else {
        unreachable!();
    };
    axis
}

fn permit_table() -> Table2
    ensures { result ≡ reference_permit }
{
    let values = [200, 100, 0, 1000, 1200, 900, 2000, 2400, 1800];
    let table = Table2::new(axis(&[0, 500, 1000]), axis(&[800, 3000, 6000]), &values);
    let Some(table) = table else {
        unreachable!();
    };
    table
}

fn permit() -> Permit
    ensures { result ≡ reference_permit }
{
    let Ok(permit) = Permit::new(permit_table()) else {
        unreachable!();
    };
    permit
}

fn weights(up: u16, down: u16, limit: u16) -> Weights
    requires { AreWeights (record { up = up; down = down; limit = limit }) }
    ensures { result ≡ record { up = up; down = down; limit = limit } }
{
    let Some(weights) = Weights::new(up, down, limit) else {
        unreachable!();
    };
    weights
}

fn rules() -> Rules
    ensures { result ≡ reference_rules }
{
    Rules {
        permit: permit(),
        fall: NO_RAMP,
        kt: 2500,
        threshold: 200,
        tolerances: [50; 4],
        pair: weights(2, 1, 10),
        torque: weights(1, 1, 5),
    }
}

fn plant() -> PlantData
    ensures { result ≡ reference_plant }
{
    let Some(charge) = Table1::new(axis(&[0, 200, 1000]), &[40, 300, 1000]) else {
        unreachable!();
    };
    let Some(plant) = PlantData::new(50, 40, charge, 2500) else {
        unreachable!();
    };
    plant
}

fn times() -> Times
    ensures { result ≡ reference_times }
{
    let Some(times) = Times::new(10, 4, 7, 5, weights(3, 1, 9)) else {
        unreachable!();
    };
    times
}

/// The four questions.
const QUESTIONS: [Question; 4] = [
    Question {
        row: TestRow {
            seed: 4660,
            readings: Readings {
                pedal: [500, 500],
                plate: [200, 800],
                load: [300, 300],
                speed: [800, 800],
                raise: 0,
                raise_check: 65_535,
            },
            used: 500,
            estimate: 1400,
            allowed: 1000,
        },
        answer: 8842,
    },
    Question {
        row: TestRow {
            seed: 42_435,
            readings: Readings {
                pedal: [1000, 0],
                plate: [0, 1000],
                load: [40, 120],
                speed: [3000, 3000],
                raise: 0,
                raise_check: 65_535,
            },
            used: 1000,
            estimate: 400,
            allowed: 200,
        },
        answer: 55_753,
    },
    Question {
        row: TestRow {
            seed: 3855,
            readings: Readings {
                pedal: [250, 700],
                plate: [100, 960],
                load: [500, 490],
                speed: [1900, 1900],
                raise: 600,
                raise_check: 64_935,
            },
            used: 0,
            estimate: 65_535,
            allowed: 65_334,
        },
        answer: 44_807,
    },
    Question {
        row: TestRow {
            seed: 32_769,
            readings: Readings {
                pedal: [1000, 200],
                plate: [1000, 0],
                load: [0, 0],
                speed: [800, 6000],
                raise: 300,
                raise_check: 300,
            },
            used: 750,
            estimate: 0,
            allowed: 0,
        },
        answer: 19_505,
    },
];

fn questions() -> Questions
    ensures { result ≡ reference_questions }
{
    let mut questions = Questions::new();
    let [first, second, third, fourth] = QUESTIONS;
    ask(&mut questions, first);
    ask(&mut questions, second);
    ask(&mut questions, third);
    ask(&mut questions, fourth);
    questions
}

/// Adds a question at the end.
fn ask(questions: &mut Questions, question: Question)
    requires { length questions.old < 64 }
    ensures { questions.new ≡ questions.old ++ question ∷ [] }
{
    questions.push(question.row, question.answer);
}
