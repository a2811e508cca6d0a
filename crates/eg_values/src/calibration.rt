// The values of a calibration.
ghost use Rattle.std.specs.Prelude.{◌≡◌, ◌↔◌, ◌<◌, ◌^◌, All, IsOk, IfOk, IfErr, IsSome, IfSome, IfNone};
ghost use Rattle.eg_values.specs.Calibration.{made_of, AreAnswered, IsFirstWrong, GoTogether, IsApart, IsAccepted};

use eg_answer::{Questions, Rules, Times, expected};
use eg_plant::PlantData;
use std::marker::Model;

/// Why parts don't go together as a calibration (docs/CONCEPT.md, "Calibration"): the first of these that
/// applies.
#[derive(Clone, Copy)]
pub enum Apart {
    /// Plant and rules have different torques of a load of 1000.
    Torque,
    /// There are fewer than two questions.
    Few,
    /// The answer of this question, the first being 0, isn't the fold of its row; those before it are.
    Answer { index: u16 },
}

/// A calibration (docs/CONCEPT.md, "Calibration"): the rules of level 2, the plant, the times of the answers,
/// the questions with their answers, and whether the brake counts. Each value of the type is an accepted
/// calibration (`IsAccepted`). Contracts see its `CalibrationParts`.
#[derive(Drop)]
pub struct Calibration {
    rules: Rules,
    plant: PlantData,
    times: Times,
    questions: Questions,
    brake: bool,
}

impl Model for Calibration {
    ghost use Rattle.eg_values.specs.Calibration.{CalibrationParts, made_of, IsAccepted};

    ghost Value = { CalibrationParts };

    ghost view = { λ c. made_of c.rules c.plant c.times c.questions c.brake };

    ghost invariant = { λ c. IsAccepted (made_of c.rules c.plant c.times c.questions c.brake) };
}

impl Calibration {
    /// The calibration of these parts, or None where they don't go together. They do where plant and rules
    /// have one torque of a load of 1000, there are at least two questions, and each question's answer is the
    /// fold of its row.
    pub fn new(
        rules: Rules,
        plant: PlantData,
        times: Times,
        questions: Questions,
        brake: bool,
    ) -> Option<Calibration>
        ensures accepted { IsSome result ↔ GoTogether (made_of rules plant times questions brake) }
        ensures kept { let parts = made_of rules plant times questions brake in
            IfSome result (λ calibration. (calibration ≡ parts) × IsAccepted parts) }
    {
        Calibration::of_parts(rules, plant, times, questions, brake).ok()
    }

    /// The calibration of these parts, or the first reason why they don't go together.
    pub fn of_parts(
        rules: Rules,
        plant: PlantData,
        times: Times,
        questions: Questions,
        brake: bool,
    ) -> Result<Calibration, Apart>
        ensures accepted { IsOk result ↔ GoTogether (made_of rules plant times questions brake) }
        ensures kept { let parts = made_of rules plant times questions brake in
            IfOk result (λ calibration. (calibration ≡ parts) × IsAccepted parts) }
        ensures refused { IfErr result (IsApart (made_of rules plant times questions brake)) }
    {
        if rules.kt != plant.kt() {
            return Err(Apart::Torque);
        }
        if questions.len() < 2 {
            return Err(Apart::Few);
        }
        if let Some(index) = wrong_answer(&rules, &questions) {
            return Err(Apart::Answer { index });
        }
        // Called for its clause alone: tables, weights and times keep the limits of their types.
        let _values = rules.permit.table().values();
        let _limits = (rules.pair.limit(), rules.torque.limit());
        let _charges = plant.charge().values();
        let _weights = times.weights();
        Ok(Calibration {
            rules,
            plant,
            times,
            questions,
            brake,
        })
    }

    /// The rules of level 2.
    pub fn rules(&self) -> &Rules
        ensures rules { result.now ≡ self.now.rules }
        ensures accepted { IsAccepted self.now }
    {
        &self.rules
    }

    /// The data of the plant.
    pub fn plant(&self) -> &PlantData
        ensures plant { result.now ≡ self.now.plant }
        ensures accepted { IsAccepted self.now }
    {
        &self.plant
    }

    /// The times of the answers.
    pub fn times(&self) -> &Times
        ensures times { result.now ≡ self.now.times }
        ensures accepted { IsAccepted self.now }
    {
        &self.times
    }

    /// The questions and their answers.
    pub fn questions(&self) -> &Questions
        ensures questions { result.now ≡ self.now.questions }
        ensures accepted { IsAccepted self.now }
    {
        &self.questions
    }

    /// Whether the brake counts: where it does, pedal and raise are taken as 0 while the brake is taken as
    /// pressed (docs/CONCEPT.md, "The brake").
    pub fn brake(&self) -> bool
        ensures brake { result ≡ self.now.brake }
        ensures accepted { IsAccepted self.now }
    {
        self.brake
    }

    /// An equal calibration. It takes no memory.
    pub fn copy(&self) -> Calibration
        ensures { result ≡ self.now }
    {
        Calibration {
            rules: self.rules.copy(),
            plant: self.plant.copy(),
            times: self.times.copy(),
            questions: self.questions.copy(),
            brake: self.brake,
        }
    }
}

/// The index of the first question, from 0 on, whose answer isn't the fold of its row. Where there is none,
/// it is known besides that the seeds are words.
fn wrong_answer(rules: &Rules, questions: &Questions) -> Option<u16>
    ensures wrong { IfSome result (IsFirstWrong rules.now questions.now) }
    ensures answered { IfNone result (AreAnswered rules.now questions.now) }
    ensures seeds { IfNone result (All (λ question. question.row.seed < 2 ^ 16) questions.now) }
{
    for i in 0..questions.len() {
        if questions.answer(i) != expected(rules, questions.row(i)) {
            return Some(i as u16);
        }
    }
    None
}
