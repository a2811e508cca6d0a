// Runs under lapses, worked out from the definitions.
ghost use Rattle.std.specs.Prelude.{◌≡◌, ◌*◌, [], ◌∷◌, ◌++◌, map, replicate, true, false, Some, None};
ghost use Rattle.eg_answer.specs.Times.{reaction_of, lapse_periods, lapse_bound_of, HasMissSpacing, miss_spacing_of};
ghost use Rattle.eg_answer.specs.declared.marks.AnswerMark.TheVariants.{Good};
ghost use Rattle.eg_values.specs.Reference.{reference_parts};
ghost use Rattle.eg_values.specs.Calibration.{IsAccepted};
ghost use Rattle.eg_values.specs.Excess.{BoundsLapses};
ghost use Rattle.eg_record.specs.declared.watch.Watch.TheVariants.{Answers, Torque};
ghost use Rattle.eg_record.specs.Excess.{full_excess};
ghost use Rattle.eg_model.specs.Engines.{gasoline};
ghost use Rattle.eg_model.specs.Records.{rows_to, ExceedLast};
ghost use Rattle.eg_model.specs.Examples.{full, rows_in_time, report_on, reported, answers_of, stages_of};
ghost use Rattle.eg_runs.specs.WorkedLapses.{lapsing_run, dead_run, slow_parts, standing_run, excesses_of};
ghost use Rattle.eg_laws.specs.Availability.{IsSpacedLapse};
ghost use Rattle.eg_laws.specs.MissedTicks.{KeepsMissing};
ghost use Rattle.eg_runs.specs.WorkedMisses.{missed_from, sevens, missed_run, single_miss, gap_run, reported_with};
ghost use Rattle.eg_runs.specs.Ramps.{ramped_run, raised_once};

/// A run under lapses that is cut: level 2 runs at one tick of ten, so it feeds too few bits to find the
/// excess of ticks 5 to 29, and sends no answer; `answers` is found at tick 29, and the stages are off from
/// tick 30 on. The bound for lapses is 50 ticks (docs/CONCEPT.md, "Lapses"). It does nothing when it runs.
pub fn a_run_with_lapses_is_cut()
    ensures line { report_on lapsing_run ≡ reported (Some (Answers, 29)) (Some 30) None (Some 9) }
    ensures stretch { excesses_of lapsing_run ≡ replicate 5 false ++ replicate 25 true ++ replicate 30 false }
    ensures answers { answers_of lapsing_run ≡ [] }
    ensures stages { stages_of lapsing_run ≡ replicate 30 true ++ replicate 30 false }
    ensures bound { lapse_bound_of reference_parts.rules.torque reference_parts.times ≡ 50 }
{}

/// A level 2 that never runs again (docs/CONCEPT.md, "Lapses"): it misses each tick from tick 6 on, and the
/// last good answer came at tick 5. Level 1 opens the throttle, and the excess is confirmed at tick 9. The
/// wrong answers are found at tick 39, and the stages are off from tick 40 on, R ticks after the onset and
/// not sooner. It does nothing when it runs.
pub fn a_dead_level_2_is_cut()
    ensures keeps { KeepsMissing dead_run.setting.fault reference_parts.times.period }
    ensures line { report_on dead_run ≡ reported (Some (Answers, 39)) (Some 40) None (Some 9) }
    ensures answers { answers_of dead_run ≡ (5, Good) ∷ [] }
    ensures bound { reaction_of reference_parts.times ≡ 34 }
{}

/// Excess that stands for `lapse_periods` whole periods, and is then cut (docs/CONCEPT.md, "Lapses"): by a
/// calibration with which 10 runs of level 2 confirm an excess, and a period has 6 ticks up to its send tick.
/// Level 2 runs up to tick 15, which is a send tick. There is true excess at each of the ticks 10 to 49, four
/// whole periods, and the stages are off from tick 50 on. It does nothing when it runs.
pub fn standing_excess_run()
    ensures accepted { IsAccepted reference_parts → IsAccepted slow_parts }
    ensures bound { BoundsLapses slow_parts }
    ensures periods { lapse_periods slow_parts.rules.torque slow_parts.times ≡ 4 }
    ensures stands { ExceedLast 200 (lapse_periods slow_parts.rules.torque slow_parts.times * 10)
        (rows_to gasoline standing_run 50) }
    ensures stages { stages_of standing_run ≡ replicate 50 true ++ replicate 3 false }
{}

/// Misses that cut and misses that don't, by one calibration with a question every 7 ticks: a wrong verdict
/// adds 3 of 9, and a right one takes 2. Level 2 misses tick 3, which is a send tick, and so spoils two
/// verdicts. A miss every 28 ticks cuts, at tick 70; one every 29 ticks, which is `eg_answer::miss_spacing`,
/// doesn't. Where two wrong verdicts are enough to confirm there is no such distance: a single miss cuts. It
/// does nothing when it runs.
pub fn near_misses_cut_and_far_ones_do_not()
    ensures spacing { miss_spacing_of (sevens 9).times ≡ 29 }
    ensures near { report_on (missed_run 28) ≡ reported_with 24 (Some (Answers, 69)) (Some 70) }
    ensures far_apart { IsSpacedLapse (missed_run 29).setting 0 77 }
    ensures within { IsSpacedLapse (missed_run 10).setting 14 24 }
    ensures far { report_on (missed_run 29) ≡ reported_with 24 None None }
    ensures none { ¬ HasMissSpacing (sevens 6).times }
    ensures single { report_on single_miss ≡ reported_with 17 (Some (Answers, 13)) (Some 14) }
{}

/// A single miss that cuts by a trip: the full-efficiency excess of ticks 5 to 8 and of tick 10 isn't
/// confirmed, since the good tick 9 takes one from the counter. Where level 2 misses tick 9 the debouncer is
/// fed with five bad bits, and the torque is found. It does nothing when it runs.
pub fn missed_gap_is_cut()
    ensures excesses { map (full_excess 2500 200) (rows_in_time (gap_run None))
        ≡ replicate 5 false ++ replicate 4 true ++ false ∷ true ∷ replicate 19 false }
    ensures uncut { report_on (gap_run None) ≡ reported None None None None }
    ensures cut { report_on (gap_run (missed_from 9 0)) ≡ reported (Some (Torque, 10)) (Some 11) None None }
{}

/// A single miss that cuts by a trip, with a ramp of 5.0 Nm a tick and without an excess: a raise permits
/// all torque at tick 4, which level 2 misses. The permitted torque comes down the ramp from there, and
/// level 2's stays at the 20.0 Nm that it was, so that it finds an excess at full throttle where there is
/// none. Without the miss nothing is found. It does nothing when it runs.
pub fn a_miss_cuts_on_the_ramp()
    ensures excesses { map (full_excess 2500 200)
        (rows_in_time (ramped_run full (missed_from 4 0) raised_once)) ≡ replicate 30 false }
    ensures uncut { report_on (ramped_run full None raised_once) ≡ reported None None None None }
    ensures cut { report_on (ramped_run full (missed_from 4 0) raised_once)
        ≡ reported (Some (Torque, 9)) (Some 10) None None }
{}
