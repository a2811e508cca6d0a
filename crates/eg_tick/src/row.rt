// The row of a tick.
ghost use Rattle.std.specs.Prelude.{◌≡◌, ◌<◌, not, ◌&&◌, ◌||◌, slice_index};
ghost use Rattle.eg_guard.specs.declared.regions.TheConstants.{THROTTLE, IGNITION};
ghost use Rattle.eg_num.specs.Drive.{IsDrive};
ghost use Rattle.eg_num.specs.Interpolation.{grid_at};
ghost use Rattle.eg_level2.specs.Inputs.{IsLookup};
ghost use Rattle.eg_level2.specs.Words.{words_of};
ghost use Rattle.eg_torque.specs.Permit.{drive_permits};
ghost use Rattle.eg_values.specs.Calibration.{CalibrationParts};
ghost use Rattle.eg_model.specs.History.{drives};
ghost use Rattle.eg_model.specs.Moments.{effective_drive};
ghost use Rattle.eg_turns.specs.Midway.{signals_in};
ghost use Rattle.eg_tick.specs.Stands.{kind_of};

use crate::monitoring::Judgement;
use crate::paths::Paths;
use crate::span::SpanTick;
use eg_answer::Rules;
use eg_guard::Guarded;
use eg_level2::Lookup;
use eg_num::{Drive, Watches};
use eg_plant::Engine;
use eg_record::Row;
use eg_turns::{Outputs, signals};

/// What a tick begins with: its number, what the drive trace gives to it, the permitted torque in tenths of
/// Nm, its place in its span, and the paths.
#[derive(Clone, Copy)]
pub(crate) struct Beginning {
    pub(crate) tick: u32,
    pub(crate) drive: Drive,
    pub(crate) limit: u16,
    pub(crate) span_tick: SpanTick,
    pub(crate) paths: Paths,
}

impl Beginning {
    /// Whether a start-up test is passed: the paths are read back, and neither conducts.
    pub(crate) fn passes(&self) -> bool
        ensures { result ≡
            (self.now.span_tick.reads_back && not (self.now.paths.path1 || self.now.paths.path2)) }
    {
        self.span_tick.reads_back && !(self.paths.path1 || self.paths.path2)
    }

    /// Whether a start-up test fails: the paths are read back, and one of them conducts, or both do.
    fn fails(&self) -> bool
        ensures { result ≡ (self.now.span_tick.reads_back && (self.now.paths.path1 || self.now.paths.path2)) }
    {
        self.span_tick.reads_back && (self.paths.path1 || self.paths.path2)
    }

    /// Whether wrong answers are found, where they are confirmed so: not where the paths are tested.
    #[tactic(auto, unfolding(crate::specs::Stands::kind_of, eg_model::specs::History::drives))]
    fn finds(&self, confirms: bool) -> bool
        ensures { result ≡ (drives (kind_of self.now.span_tick.tests) && confirms) }
    {
        !self.span_tick.tests && confirms
    }
}

/// The drive row that counts (docs/CONCEPT.md, "Torque"): where the brake counts and the driver brakes, pedal
/// and raise are 0. `brake` says whether it counts.
#[tactic(auto, unfolding(eg_model::specs::Moments::effective_drive))]
pub(crate) fn effective(drive: &Drive, brake: bool) -> Drive
    ensures { (cal : CalibrationParts) → cal.brake ≡ brake → result ≡ effective_drive cal drive.now }
{
    if !brake || !drive.brake() {
        return *drive;
    }
    let Some(effective) = Drive::new(0, drive.speed(), 0, drive.reset(), drive.brake()) else {
        unreachable!();
    };
    effective
}

/// What the permit table says of a drive row: what was looked up last, if that was at its pedal and speed.
#[inline(always)]
pub(crate) fn look_up(last: &Lookup, rules: &Rules, drive: &Drive) -> Lookup
    requires last { IsLookup rules.now last.now }
    ensures pedal { result.pedal ≡ drive.now.pedal }
    ensures speed { result.speed ≡ drive.now.speed }
    ensures lookup { IsLookup rules.now result }
    ensures drive { IsDrive drive.now }
{
    let (pedal, speed) = (drive.pedal(), drive.speed());
    if pedal == last.pedal && speed == last.speed {
        *last
    } else {
        Lookup::new(rules, pedal, speed)
    }
}

/// The torque that the driver demands by a drive row, in tenths of Nm (docs/CONCEPT.md, "Torque"), by what
/// the permit table of the calibration says of it.
#[tactic(auto, unfolding(eg_torque::specs::Permit::drive_permits))]
pub(crate) fn demand(lookup: &Lookup, drive: &Drive) -> u16
    requires pedal { lookup.now.pedal ≡ drive.now.pedal }
    requires speed { lookup.now.speed ≡ drive.now.speed }
    ensures demand { (cal : CalibrationParts)
        → lookup.now.torque ≡ grid_at cal.rules.permit lookup.now.pedal lookup.now.speed
        → result ≡ drive_permits cal.rules.permit drive.now }
{
    lookup.torque.max(drive.raise())
}

/// The row of a tick (docs/CONCEPT.md, "The record of a run"): what it began with, what the engine shows,
/// what stands in the memory now, and what level 2 and the monitoring module found.
pub(crate) fn row<E: Engine, M: Guarded>(
    begins: Beginning,
    engine: &E,
    memory: &M,
    found: Watches,
    judgement: Judgement,
) -> Row
    ensures { result ≡ record {
      tick = begins.tick;
      drive = begins.drive;
      plate = (E.shows engine.now).position;
      charge = (E.shows engine.now).load_1;
      torque = (E.shows engine.now).torque;
      limit = begins.limit;
      path1 = begins.paths.path1;
      path2 = begins.paths.path2;
      on = begins.paths.on;
      signals = signals_in (words_of (M.shows memory.now).words);
      throttle = slice_index (M.shows memory.now).words THROTTLE;
      ignition = slice_index (M.shows memory.now).words IGNITION;
      found = record found {
        answers = drives (kind_of begins.span_tick.tests) && judgement.confirms;
        start = begins.span_tick.reads_back && (begins.paths.path1 || begins.paths.path2);
      };
      answer = judgement.mark;
      verdict = judgement.verdict;
      testing = begins.span_tick.testing;
      fresh = begins.span_tick.fresh;
    } }
{
    let outputs = Outputs::of(memory);
    Row {
        tick: begins.tick,
        drive: begins.drive,
        plate: engine.position(),
        charge: engine.loads()[0],
        torque: engine.torque(),
        limit: begins.limit,
        path1: begins.paths.path1,
        path2: begins.paths.path2,
        on: begins.paths.on,
        signals: signals(memory),
        throttle: outputs.throttle,
        ignition: outputs.ignition,
        found: Watches {
            answers: begins.finds(judgement.confirms),
            start: begins.fails(),
            ..found
        },
        answer: judgement.mark,
        verdict: judgement.verdict,
        testing: begins.span_tick.testing,
        fresh: begins.span_tick.fresh,
    }
}
