// What was gathered is done.
ghost use Rattle.std.specs.Prelude.{◌≡◌, false};
ghost use Rattle.eg_outcome.specs.Changes.{change, change_of};
ghost use Rattle.eg_app.specs.Gathered.{IsSound};
ghost use Rattle.eg_app.specs.Performed.{Performs, PutsNothingBy, takes_lines};

use crate::job::Job;
use crate::soak::play_drawn;
use eg_base::Sink;
use eg_desk::{put_answers, put_bound, put_check, put_coverage, put_image, put_limits, put_source};
use eg_lines::Lines;
use eg_outcome::Outcome;
use eg_play::{put_record, put_table, put_told};
use eg_stream::{couple_lines, replay_lines, signals_lines};
use eg_tick::Ticks;
use std::alloc::Global;

/// Does a job: it reads `lines` where the job takes lines, writes its text to `out`, and counts in `steps`
/// the ticks that it makes. What a job says was read before, and no file is read here.
pub(crate) fn perform<L: Lines, K: Sink>(
    alloc: Global,
    job: Job,
    lines: &mut L,
    out: &mut K,
    steps: &mut Ticks,
) -> Outcome
    requires sound { IsSound job }
    ensures performs { Performs job (change_of L.shows lines.old lines.new)
        (change_of K.shows out.old out.new) (change steps.old steps.new) result }
    ensures no_line { takes_lines job ≡ false → lines.new ≡ lines.old }
    ensures nothing_put { PutsNothingBy job result → out.new ≡ out.old }
{
    match job {
        Job::Check { calibration, rows } => {
            put_check(alloc, calibration.rules(), rows.as_slice(), out)
        }
        Job::Bound { calibration } => put_bound(alloc, &calibration, out),
        Job::Limits { calibration } => put_limits(alloc, &calibration, out),
        Job::Coverage { calibration } => put_coverage(alloc, &calibration, out),
        Job::Run {
            telling,
            calibration,
            inputs,
        } => put_told(alloc, telling, &calibration, inputs.as_slice(), out, steps),
        Job::Record { calibration, input } => put_record(&calibration, &input, out, steps),
        Job::Sweep {
            calibration,
            input,
            step,
        } => put_table(alloc, &calibration, input, step, out, steps),
        Job::Replay { calibration } => replay_lines(alloc, &calibration, lines, out),
        Job::Signals { calibration } => signals_lines(alloc, &calibration, lines, out),
        Job::Couple { calibration, input } => {
            couple_lines(alloc, &calibration, &input, lines, out, steps)
        }
        Job::Soak { seed, runs } => play_drawn(alloc, seed, runs, out, steps),
        Job::Answers { questions } => put_answers(alloc, &questions, out),
        Job::Asm { words } => put_image(alloc, words.as_slice(), out),
        Job::Dis { words } => put_source(alloc, words.as_slice(), out),
    }
}
