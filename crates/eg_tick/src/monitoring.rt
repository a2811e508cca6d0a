// What the monitoring module makes of a tick, also where it is wild.
ghost use Rattle.std.specs.Prelude.{◌≡◌, ◌<◌, ◌&&◌, List, ◌∷◌, All, length, None, OnSome, is_some, not};
ghost use Rattle.std.specs.Option.{option_copied};
ghost use Rattle.eg_answer.specs.Answers.{answer_number};
ghost use Rattle.eg_answer.specs.Questions.{question_at};
ghost use Rattle.eg_answer.specs.Periods.{period_of};
ghost use Rattle.eg_answer.specs.declared.marks.Verdict.{Verdict};
ghost use Rattle.eg_module.specs.Monitoring.{HasGiven};
ghost use Rattle.eg_fault.specs.Effects.{asked_at};
ghost use Rattle.eg_fault.specs.Faults.{effects};
ghost use Rattle.eg_model.specs.History.{Setting, Tick, SpanKind};
ghost use Rattle.eg_agree.specs.Replies.{moment_after, mark_of};
ghost use Rattle.eg_tick.specs.Stands.{HoldsMonitor};
ghost use Rattle.eg_tick.specs.Inner.Judging.{with_heard, Takes, IsDeaf, ComesNext, Tells};

use eg_answer::{AnswerMark, Questions, Verdict};
use eg_fault::{Fault, wild};
use eg_module::Monitor;

/// What the monitoring module makes of a tick.
#[derive(Clone, Copy)]
pub(crate) struct Judgement {
    /// Whether level 2 sent an answer, and whether it was good.
    pub mark: AnswerMark,
    /// The verdict over the answers of a period, if this is its last tick.
    pub verdict: Option<Verdict>,
    /// Whether wrong answers are confirmed now, for the first time.
    pub confirms: bool,
    /// Whether a wild monitoring module orders path 2 open.
    pub opens: bool,
}

/// The number of the question that is asked at a tick, also by a wild monitoring module, whose numbers count
/// modulo the count of questions (docs/CONCEPT.md, "Questions and answers"). A fault uses the number `tick`
/// that the tick has in the run, a period the number `local` that it has in its span.
#[tactic(auto, unfolding(eg_fault::specs::Effects::asked_at, eg_fault::specs::Effects::asked_in))]
pub(crate) fn question(
    monitor: &Monitor,
    questions: &Questions,
    fault: Option<&Fault>,
    tick: u32,
    local: u32,
) -> u16
    requires { monitor.now.questions ≡ questions.now }
    ensures number { result ≡ asked_at (effects (option_copied fault.entry) tick) monitor.now.times
        (length questions.now) local }
    ensures within { result < length questions.now }
{
    let usual = monitor.question(local);
    match wild(fault, tick) {
        Some((number, _)) => (u32::from(number) % questions.len() as u32) as u16,
        None => usual,
    }
}

/// Judges a tick at which this question was asked, and level 2 sends this answer, or none (docs/CONCEPT.md,
/// "Questions and answers" and "A run, tick by tick"). The monitoring module hears the answer, and gives its
/// verdict at the last tick of a period. A wild one hears nothing, gives no verdict, and may order path 2
/// open. A fault uses the number `tick` that the tick has in the run, the monitoring module the number
/// `local` that it has in its span.
#[inline(always)]
pub(crate) fn judge(
    monitor: &mut Monitor,
    questions: &Questions,
    fault: Option<&Fault>,
    tick: u32,
    local: u32,
    asked: u16,
    answer: Option<u32>,
) -> Judgement
    requires questions { monitor.old.questions ≡ questions.now }
    requires asked { asked ≡ asked_at (effects (option_copied fault) tick) monitor.old.times
        (length questions.now) local }
    requires within { asked < length questions.now }
    requires period { (effects (option_copied fault) tick).wild ≡ None
        → monitor.old.verdicts ≡ period_of monitor.old.times local }
    requires later { (effects (option_copied fault) tick).wild ≡ None
        → All (λ heard. heard.tick < local) monitor.old.heard }
    // The monitoring module goes on to be what the model says.
    ensures holds { (kind : SpanKind) (s : Setting) (x : Tick) (h : List Tick)
        → ComesNext kind s (option_copied fault.entry) tick local answer monitor.old x h
        → HoldsMonitor kind s monitor.new (x ∷ h) }
    ensures tells { (kind : SpanKind) (s : Setting) (x : Tick) (h : List Tick)
        → ComesNext kind s (option_copied fault.entry) tick local answer monitor.old x h
        → Tells result (moment_after kind s x h) }
    ensures opens { result.opens ≡ (effects (option_copied fault.entry) tick).opens }
{
    let mark = mark(expected_number(questions, asked), answer);
    let before = monitor.confirmed();
    let verdict = verdict(monitor, fault, tick, local, answer);
    Judgement {
        mark,
        verdict,
        confirms: is_first(before, monitor.confirmed()),
        opens: opens(fault, tick),
    }
}

/// The number that is expected as the answer to a question.
#[tactic(auto, unfolding(eg_answer::specs::Answers::answer_number))]
fn expected_number(questions: &Questions, asked: u16) -> u32
    requires { asked < length questions.now }
    ensures { result ≡ answer_number (question_at questions.now asked).answer }
{
    0x00ff_0000 + u32::from(questions.answer(usize::from(asked)))
}

/// The mark of an answer, where this number is expected.
#[tactic(auto, unfolding(eg_agree::specs::Replies::mark_of))]
fn mark(expected: u32, answer: Option<u32>) -> AnswerMark
    ensures { result ≡ mark_of expected answer }
{
    match answer {
        None => AnswerMark::Absent,
        Some(number) if number == expected => AnswerMark::Good,
        Some(_) => AnswerMark::Bad,
    }
}

/// The verdict of a tick, if there is one. A wild monitoring module hears nothing and gives none.
#[inline(always)]
fn verdict(
    monitor: &mut Monitor,
    fault: Option<&Fault>,
    tick: u32,
    local: u32,
    answer: Option<u32>,
) -> Option<Verdict>
    requires period { (effects (option_copied fault) tick).wild ≡ None
        → monitor.old.verdicts ≡ period_of monitor.old.times local }
    requires later { (effects (option_copied fault) tick).wild ≡ None
        → All (λ heard. heard.tick < local) monitor.old.heard }
    ensures wild { OnSome (effects (option_copied fault.entry) tick).wild
        (IsDeaf monitor.old monitor.new result) }
    ensures orderly { (effects (option_copied fault.entry) tick).wild ≡ None
        → Takes local answer monitor.old monitor.new result }
{
    if is_wild(fault, tick) {
        return None;
    }
    hear(monitor, local, answer);
    monitor.close(local)
}

/// Hears the answer of a tick, if one came.
#[tactic(auto, unfolding(crate::specs::Inner::Judging::with_heard))]
fn hear(monitor: &mut Monitor, local: u32, answer: Option<u32>)
    requires this_period { monitor.old.verdicts ≡ period_of monitor.old.times local }
    requires later { All (λ heard. heard.tick < local) monitor.old.heard }
    ensures heard { monitor.new ≡
        record monitor.old { heard = with_heard local answer monitor.old.heard } }
    ensures given { (verdicts : List Verdict) → HasGiven monitor.old verdicts
        → HasGiven monitor.new verdicts }
{
    if let Some(number) = answer {
        monitor.hear(local, number);
    }
}

/// Whether the monitoring module is wild at a tick.
fn is_wild(fault: Option<&Fault>, tick: u32) -> bool
    ensures { result ≡ is_some (effects (option_copied fault.entry) tick).wild }
{
    wild(fault, tick).is_some()
}

/// Whether a wild module orders path 2 open at a tick.
fn opens(fault: Option<&Fault>, tick: u32) -> bool
    ensures { result ≡ (effects (option_copied fault.entry) tick).opens }
{
    match wild(fault, tick) {
        Some((_, opens)) => opens,
        None => false,
    }
}

/// Whether what wasn't so before is so now.
fn is_first(before: bool, now: bool) -> bool
    ensures { result ≡ (now && not before) }
{
    now && !before
}
