// What holds of all campaign files.
ghost use Rattle.eg_plan.specs.Accepted.{AcceptedLaw, RunsLaw, NoTicksLaw};

/// Does nothing when it runs. Its clauses are laws of campaign files (docs/FORMATS.md, "Campaign files"). By
/// `runs` they are 1 to 1,000 runs, no two of one name, each with proper names and slices and with no fault
/// or a valid one; by `ticks` no file is refused for its ticks as it is read, since it doesn't say how many
/// its runs have.
///
/// Claim 39 (F15, F16, F17; `accepted`): The document of a campaign is accepted exactly if it keeps the
/// rules, and its runs are then those that its tables say. What is read of the bytes of its file is exactly
/// these runs, or else the first refusal.
pub fn accepted_files_keep_the_rules()
    ensures accepted { AcceptedLaw }
    ensures runs { RunsLaw }
    ensures ticks { NoTicksLaw }
{}
