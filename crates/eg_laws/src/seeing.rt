// Several faults at once.
ghost use Rattle.std.specs.Prelude.{false, true, [], ◌∷◌, ◌++◌, replicate};
ghost use Rattle.eg_values.specs.Calibration.{IsAccepted};
ghost use Rattle.eg_values.specs.Reference.{reference_parts};
ghost use Rattle.eg_laws.specs.Seeing.{SeenExcessIsCut, SeenExcessIsCutInTime};
ghost use Rattle.eg_laws.specs.Examples.{StaysOn, Shows, high_pedal, low_loads, low_speeds, braked_parts, unseen_brake, left_out, disturbed_between, both_closed, closed_and_wild, missed_last, cut_late, ramped_parts, disturbed_once};

/// The reaction under several faults at once, whatever they are (docs/CONCEPT.md, "Why the unit reacts"). It
/// does nothing when it runs.
///
/// Claim 45 (C67; `cut`): Whatever faults there are, if level 2 can see an excess at each tick of a drive
/// span up to the one that confirms a true excess, the stages are off at each later tick of the span at
/// which path 1 obeys.
/// Claim 46 (C67; `in_time`): Under the same condition, the stages are off from R ticks after the tick that
/// confirms, at each tick at which path 2 obeys. This holds if up to then answers are sent at their usual
/// ticks and the monitoring module isn't wild.
pub fn seen_excess_is_cut()
    ensures cut { SeenExcessIsCut }
    ensures in_time { SeenExcessIsCutInTime }
{}

/// Of what `seen_excess_is_cut` asks these are needed, each by a run with the reference calibration. There
/// is excess at 60 ticks, and the stages are on at each: where both tracks of pedal, of load or of speed
/// read wrongly, or both contacts of a brake that counts; where module 4 is left out and path 2 is closed,
/// or it is disturbed at all ticks but the send ticks; where both paths are closed; or where path 1 is
/// closed and the monitoring module is wild. Where module 6 is left out once, at the tick by which the
/// excess is confirmed, the stages stay on. With a ramp that falls by 5.0 Nm a tick they stay on where
/// module 2 is disturbed at one quiet tick, before 40 ticks of excess: its permitted torque comes down the
/// ramp from there, so that level 2 doesn't see the excess. Where path 1 is closed and answers are sent a
/// tick earlier, they are still on R ticks after the excess is confirmed. It does nothing when it runs.
pub fn premises_are_needed()
    ensures pedal { StaysOn reference_parts high_pedal }
    ensures loads { StaysOn reference_parts low_loads }
    ensures speeds { StaysOn reference_parts low_speeds }
    ensures brake { StaysOn braked_parts unseen_brake }
    ensures runs { StaysOn reference_parts left_out }
    ensures undisturbed { StaysOn reference_parts disturbed_between }
    ensures paths { StaysOn reference_parts both_closed }
    ensures wild { StaysOn reference_parts closed_and_wild }
    ensures up_to_confirmed { Shows reference_parts missed_last 14 (replicate 51 true) }
    ensures all_ticks { Shows ramped_parts disturbed_once 15 (replicate 51 true) }
    ensures sends { Shows reference_parts cut_late 15 (replicate 50 true ++ false ∷ []) }
    ensures accepted { IsAccepted reference_parts → IsAccepted braked_parts }
    ensures ramped { IsAccepted reference_parts → IsAccepted ramped_parts }
{}
