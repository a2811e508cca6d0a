// What stands under all keys of a calibration file, table by table.
ghost use Rattle.std.specs.Prelude.{◌≡◌, ◌≤◌, [], ◌∷◌, IfOk, length};
ghost use Rattle.toml.specs.View.{table_view};
ghost use Rattle.eg_cal.specs.declared.key.CalKey.TheVariants.{PermitThreshold, TorqueKt, Question};
ghost use Rattle.eg_cal.specs.Keys.{content_of, number, version_keys, permit_keys, torque_keys, pairs_keys, plant_keys, answers_keys, question_keys, brake_keys, fall_keys, lower_keys};
ghost use Rattle.eg_toml.specs.Refusals.{Checks};
ghost use Rattle.eg_cal.specs.Contents.{version_of, number_of, questions_of};
ghost use Rattle.eg_cal.specs.Checks.{first_fault, keys_fault};
ghost use Rattle.eg_cal.specs.Calibration.{permit_of, weights_of, torque_weights_of, tolerances_of, pair_weights_of, plant_of, times_of, brake_of, fall_of, parts_of};

use crate::document::{Document, has_brake, has_fall};
use crate::{CalFault, CalKey};
use eg_answer::Questions;
use eg_num::{Table2, Weights};
use eg_plant::PlantData;
use eg_torque::NO_RAMP;
use std::marker::Model;

/// The times of the answers, before it is known that they go together.
#[derive(Drop)]
pub(crate) struct AnswerTimes {
    pub(crate) period: u16,
    pub(crate) first: u16,
    pub(crate) last: u16,
    pub(crate) send: u16,
    pub(crate) weights: Weights,
}

impl Model for AnswerTimes {
    ghost use Rattle.std.specs.Prelude.{◌≤◌};
    ghost use Rattle.eg_answer.specs.Times.{TimeParts};

    ghost Value = { TimeParts };

    ghost view = { λ t. record {
      period = t.period;
      first = t.first;
      last = t.last;
      send = t.send;
      weights = t.weights;
    } };

    ghost invariant = { λ t. (2 ≤ t.period) × (t.period ≤ 100) };
}

/// What stands under the keys, before it is known that it goes together. Contracts see the parts of the
/// calibration.
#[derive(Drop)]
pub(crate) struct Entries {
    pub(crate) permit: Table2,
    pub(crate) fall: u16,
    pub(crate) threshold: u16,
    pub(crate) kt: u16,
    pub(crate) torque: Weights,
    pub(crate) tolerances: [u16; 4],
    pub(crate) pair: Weights,
    pub(crate) plant: PlantData,
    pub(crate) times: AnswerTimes,
    pub(crate) questions: Questions,
    pub(crate) brake: bool,
}

impl Model for Entries {
    ghost use Rattle.std.specs.Prelude.{◌≡◌, ◌≤◌, length};
    ghost use Rattle.eg_values.specs.Calibration.{CalibrationParts};

    ghost Value = { CalibrationParts };

    ghost view = { λ e. record {
      rules = record {
        permit = e.permit;
        fall = e.fall;
        kt = e.kt;
        threshold = e.threshold;
        tolerances = e.tolerances;
        pair = e.pair;
        torque = e.torque;
      };
      plant = e.plant;
      times = e.times;
      questions = e.questions;
      brake = e.brake;
    } };

    ghost invariant = { λ e. (e.kt ≡ e.plant.kt) × (2 ≤ length e.questions) };
}

/// The version of the file.
#[tactic(auto, unfolding(crate::specs::Checks::first_fault))]
pub(crate) fn version_in(document: &Document) -> Result<u16, CalFault>
    ensures { let ms = table_view document.now.root in
        Checks (first_fault ms version_keys) (version_of ms) result }
{
    document.number(CalKey::Version, 1, 3)
}

/// What stands under the keys below the version of a file of this version, or the fault of the first key that
/// has one.
pub(crate) fn entries_in(document: &Document, version: u16) -> Result<Entries, CalFault>
    requires { version ≡ version_of (table_view document.now.root) }
    ensures { let ms = table_view document.now.root in
        Checks (keys_fault ms (lower_keys version)) (parts_of ms) result }
{
    let (permit, threshold, brake, fall) = permit_in(document, version)?;
    let (kt, torque) = torque_in(document)?;
    let (tolerances, pair) = pairs_in(document)?;
    let plant = plant_in(document, kt)?;
    let times = times_in(document)?;
    let questions = questions_in(document)?;
    Ok(Entries {
        permit,
        fall,
        threshold,
        kt,
        torque,
        tolerances,
        pair,
        plant,
        times,
        questions,
        brake,
    })
}

/// The permit table, the threshold, whether the brake counts, and by how much the permitted torque may fall.
#[tactic(auto, unfolding(crate::specs::Checks::first_fault))]
fn permit_in(document: &Document, version: u16) -> Result<(Table2, u16, bool, u16), CalFault>
    requires { version ≡ version_of (table_view document.now.root) }
    ensures { let ms = table_view document.now.root in
        let fault = first_fault ms (permit_keys version) in
        Checks fault (permit_of ms, number_of ms PermitThreshold, brake_of ms, fall_of ms) result }
{
    let pedal = document.axis(CalKey::PermitPedal, 1000)?;
    let speed = document.axis(CalKey::PermitSpeed, 8000)?;
    let table = document.grid(CalKey::PermitTable, pedal, speed, 10_000)?;
    let threshold = document.number(CalKey::PermitThreshold, 0, 10_000)?;
    let (brake, fall) = brake_in(document, version)?;
    Ok((table, threshold, brake, fall))
}

/// Whether the brake counts, and by how much the permitted torque may fall: as a file from version 2 on says;
/// in one of version 1 the brake doesn't count, and there is no ramp.
#[tactic(auto, unfolding(crate::specs::Checks::first_fault))]
fn brake_in(document: &Document, version: u16) -> Result<(bool, u16), CalFault>
    requires { version ≡ version_of (table_view document.now.root) }
    ensures { let ms = table_view document.now.root in
        Checks (first_fault ms (brake_keys version)) (brake_of ms, fall_of ms) result }
{
    if !has_brake(version) {
        return Ok((false, NO_RAMP));
    }
    let brake = document.truth(CalKey::PermitBrake)?;
    let fall = fall_in(document, version)?;
    Ok((brake, fall))
}

/// By how much the permitted torque may fall: as a file of version 3 says; in the others there is no ramp.
#[tactic(auto, unfolding(crate::specs::Checks::first_fault))]
fn fall_in(document: &Document, version: u16) -> Result<u16, CalFault>
    requires { version ≡ version_of (table_view document.now.root) }
    ensures { let ms = table_view document.now.root in
        Checks (first_fault ms (fall_keys version)) (fall_of ms) result }
{
    if !has_fall(version) {
        return Ok(NO_RAMP);
    }
    document.number(CalKey::PermitFall, 0, 10_000)
}

/// The weights under the three keys of a debouncer.
#[tactic(auto, unfolding(crate::specs::Checks::first_fault))]
fn weights_in(
    document: &Document,
    up: CalKey,
    down: CalKey,
    limit: CalKey,
) -> Result<Weights, CalFault>
    requires up { content_of up ≡ number 1 100 }
    requires down { content_of down ≡ number 0 100 }
    requires limit { content_of limit ≡ number 1 10000 }
    ensures { let ms = table_view document.now.root in
        Checks (first_fault ms (up ∷ down ∷ limit ∷ [])) (weights_of ms up down limit) result }
{
    let up = document.number(up, 1, 100)?;
    let down = document.number(down, 0, 100)?;
    let limit = document.number(limit, 1, 10_000)?;
    let Some(weights) = Weights::new(up, down, limit) else {
        unreachable!();
    };
    Ok(weights)
}

/// The torque of a load of 1000, and the weights of the torque.
#[tactic(auto, unfolding(crate::specs::Checks::first_fault))]
fn torque_in(document: &Document) -> Result<(u16, Weights), CalFault>
    ensures value { let ms = table_view document.now.root in
        Checks (first_fault ms torque_keys) (number_of ms TorqueKt, torque_weights_of ms) result }
    ensures kt { IfOk result (λ torque. (1 ≤ torque.0) × (torque.0 ≤ 10000)) }
{
    let kt = document.number(CalKey::TorqueKt, 1, 10_000)?;
    let weights = weights_in(
        document,
        CalKey::TorqueUp,
        CalKey::TorqueDown,
        CalKey::TorqueLimit,
    )?;
    Ok((kt, weights))
}

/// The tolerances and the weights of the pairs.
#[tactic(auto, unfolding(crate::specs::Checks::first_fault))]
fn pairs_in(document: &Document) -> Result<([u16; 4], Weights), CalFault>
    ensures { let ms = table_view document.now.root in
        Checks (first_fault ms pairs_keys) (tolerances_of ms, pair_weights_of ms) result }
{
    let pedal = document.number(CalKey::PairsPedal, 0, 10_000)?;
    let plate = document.number(CalKey::PairsPlate, 0, 10_000)?;
    let load = document.number(CalKey::PairsLoad, 0, 10_000)?;
    let speed = document.number(CalKey::PairsSpeed, 0, 10_000)?;
    let weights = weights_in(
        document,
        CalKey::PairsUp,
        CalKey::PairsDown,
        CalKey::PairsLimit,
    )?;
    Ok(([pedal, plate, load, speed], weights))
}

/// The data of the plant, with this torque of a load of 1000.
#[tactic(auto, unfolding(crate::specs::Checks::first_fault))]
fn plant_in(document: &Document, kt: u16) -> Result<PlantData, CalFault>
    requires least { 1 ≤ kt }
    requires most { kt ≤ 10000 }
    ensures { let ms = table_view document.now.root in
        Checks (first_fault ms plant_keys) (plant_of ms kt) result }
{
    let slew = document.number(CalKey::PlantSlew, 1, 1000)?;
    let fill = document.number(CalKey::PlantFill, 1, 1000)?;
    let angle = document.axis(CalKey::PlantAngle, 1000)?;
    let charge = document.curve(CalKey::PlantCharge, angle, 1000)?;
    let Some(plant) = PlantData::new(slew, fill, charge, kt) else {
        unreachable!();
    };
    Ok(plant)
}

/// The times of the answers.
#[tactic(auto, unfolding(crate::specs::Checks::first_fault))]
fn times_in(document: &Document) -> Result<AnswerTimes, CalFault>
    ensures { let ms = table_view document.now.root in
        Checks (first_fault ms answers_keys) (times_of ms) result }
{
    let period = document.number(CalKey::AnswersPeriod, 2, 100)?;
    let first = document.number(CalKey::AnswersFirst, 0, 99)?;
    let last = document.number(CalKey::AnswersLast, 0, 99)?;
    let send = document.number(CalKey::AnswersSend, 0, 99)?;
    let weights = weights_in(
        document,
        CalKey::AnswersUp,
        CalKey::AnswersDown,
        CalKey::AnswersLimit,
    )?;
    Ok(AnswerTimes {
        period,
        first,
        last,
        send,
        weights,
    })
}

/// The questions.
#[tactic(auto, unfolding(crate::specs::Checks::first_fault))]
fn questions_in(document: &Document) -> Result<Questions, CalFault>
    ensures value { let ms = table_view document.now.root in
        Checks (first_fault ms question_keys) (questions_of ms Question) result }
    ensures count { IfOk result (λ questions. 2 ≤ length questions) }
{
    document.questions(CalKey::Question)
}
