// What a calibration file says, whatever its answers.
ghost use Rattle.std.specs.Prelude.{◌≡◌, ◌≤◌, length, map};
ghost use Rattle.eg_toml.specs.Refusals.{Checks};
ghost use Rattle.eg_cal.specs.Calibration.{answer_fault};
ghost use Rattle.eg_cal.specs.Answers.{answered, answered_in};
ghost use Rattle.eg_values.specs.Calibration.{made_of};

use crate::CalFault;
use eg_answer::{Questions, Rules, Times, expected};
use eg_plant::PlantData;
use eg_values::{Apart, Calibration};
use std::marker::Model;

/// The parts of a calibration, which keep all rules together but the one on answers. Contracts see the parts
/// of the calibration.
#[derive(Drop)]
pub(crate) struct Unanswered {
    pub(crate) rules: Rules,
    pub(crate) plant: PlantData,
    pub(crate) times: Times,
    pub(crate) questions: Questions,
    pub(crate) brake: bool,
}

impl Model for Unanswered {
    ghost use Rattle.std.specs.Prelude.{◌≡◌, ◌≤◌, length};
    ghost use Rattle.eg_values.specs.Calibration.{CalibrationParts, made_of};

    ghost Value = { CalibrationParts };

    ghost view = { λ u. made_of u.rules u.plant u.times u.questions u.brake };

    ghost invariant = { λ u. (u.rules.kt ≡ u.plant.kt) × (2 ≤ length u.questions) };
}

impl Unanswered {
    /// The calibration, where each question's answer is the fold of its row.
    pub(crate) fn checked(self) -> Result<Calibration, CalFault>
        ensures { Checks (answer_fault self) self result }
    {
        let Unanswered {
            rules,
            plant,
            times,
            questions,
            brake,
        } = self;
        match Calibration::of_parts(rules, plant, times, questions, brake) {
            Ok(calibration) => Ok(calibration),
            Err(Apart::Answer { index }) => Err(CalFault::Answer { index }),
            Err(Apart::Torque) => unreachable!(),
            Err(Apart::Few) => unreachable!(),
        }
    }

    /// The questions, each with the right answer.
    pub(crate) fn right_answers(&self) -> Questions
        ensures { result ≡ answered_in self.now }
    {
        let mut answered = Questions::new();
        for i in 0..self.questions.len() {
            let row = self.questions.row(i);
            answered.push(row.copy(), expected(&self.rules, row));
        }
        answered
    }
}
