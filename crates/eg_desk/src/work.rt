// The words of what is done by a calibration.
ghost use Rattle.std.specs.Prelude.{◌≡◌, ◌≤◌, ◌+◌, length, option_map, IfSome};
ghost use Rattle.std.specs.Option.{option_copied};
ghost use Rattle.eg_desk.specs.Names.{checked_by};
ghost use Rattle.eg_desk.specs.Words.{word_bytes, campaign_in, said_work, run, run_work_of, step_in, sweep, word, work_of, WorkKeepsLimits};

use crate::forms::{is_alone, is_on_file, is_on_run};
use crate::number::number_in;
use eg_outcome::{Columns, NamedRun, Telling};

/// What is done by a calibration (docs/FORMATS.md, "Commands"). The words stand here without `--cal NAME`.
#[derive(Clone, Copy)]
pub enum Work<'a> {
    /// `check FILE`.
    Check { file: &'a str },
    /// `bound`.
    Bound,
    /// `limits`.
    Limits,
    /// `coverage`.
    Coverage,
    /// `run CAMPAIGN`, and `table` and `margins` likewise.
    Run { telling: Telling, campaign: &'a str },
    /// `record CAMPAIGN RUN`.
    Record { run: NamedRun<'a> },
    /// `sweep CAMPAIGN RUN STEP`: a fault of each class at each `step`th tick, 1 to 20,000.
    Sweep { run: NamedRun<'a>, step: u32 },
    /// `replay`.
    Replay,
    /// `signals`.
    Signals,
    /// `couple CAMPAIGN RUN`.
    Couple { run: NamedRun<'a> },
}

impl<'a> Work<'a> {
    /// What the words ask for, where the command's own words, if it has any, begin at place `own`; or None
    /// where they have no form of work.
    #[tactic(auto, unfolding(crate::specs::Words::work_of))]
    pub(crate) fn of(words: &'a [String], own: usize) -> Option<Work<'a>>
        requires least { 1 ≤ own }
        requires most { own ≤ 3 }
        ensures work { option_map said_work result ≡ work_of (word_bytes words.now) own }
        ensures limits { IfSome result (λ work. WorkKeepsLimits (said_work work)) }
    {
        if is_alone("bound", words, own) {
            return Some(Work::Bound);
        }
        if is_alone("limits", words, own) {
            return Some(Work::Limits);
        }
        if is_alone("coverage", words, own) {
            return Some(Work::Coverage);
        }
        if is_alone("replay", words, own) {
            return Some(Work::Replay);
        }
        if is_alone("signals", words, own) {
            return Some(Work::Signals);
        }
        if is_on_file("check", words, own) {
            return Some(Work::Check {
                file: words[own].as_str(),
            });
        }
        if is_on_file("run", words, own) {
            return Some(Work::told(Telling::Report, words[own].as_str()));
        }
        if is_on_file("table", words, own) {
            return Some(Work::told(Telling::Rows(Columns::Table), words[own].as_str()));
        }
        if is_on_file("margins", words, own) {
            return Some(Work::told(Telling::Rows(Columns::Margins), words[own].as_str()));
        }
        Work::of_run(words, own)
    }

    /// What the words ask for of one run; or None where they have no form of such work.
    #[tactic(auto, unfolding(crate::specs::Words::run_work_of))]
    fn of_run(words: &'a [String], own: usize) -> Option<Work<'a>>
        requires least { 1 ≤ own }
        requires most { own ≤ 3 }
        ensures work { option_map said_work result ≡ run_work_of (word_bytes words.now) own }
        ensures limits { IfSome result (λ work. WorkKeepsLimits (said_work work)) }
    {
        if is_on_run("record", words, own, 2) {
            return Some(Work::Record {
                run: named(words, own),
            });
        }
        if is_on_run("couple", words, own, 2) {
            return Some(Work::Couple {
                run: named(words, own),
            });
        }
        if is_on_run("sweep", words, own, 3) {
            return Work::of_sweep(words, own);
        }
        None
    }

    /// To tell the runs of a campaign in this way.
    fn told(telling: Telling, campaign: &'a str) -> Work<'a>
        ensures { said_work result ≡ run telling campaign.now }
    {
        Work::Run { telling, campaign }
    }

    /// What the words `sweep CAMPAIGN RUN STEP` ask for, where CAMPAIGN stands at place `own`; None where
    /// STEP isn't a number from 1 to 20,000.
    fn of_sweep(words: &'a [String], own: usize) -> Option<Work<'a>>
        requires least { 1 ≤ own }
        requires most { own ≤ 3 }
        requires words { own + 3 ≤ length words.now }
        ensures work { option_map said_work result
            ≡ option_map (sweep (word (word_bytes words.now) own) (word (word_bytes words.now) (own + 1)))
            (step_in (word (word_bytes words.now) (own + 2))) }
        ensures limits { IfSome result (λ work. WorkKeepsLimits (said_work work)) }
    {
        let step = number_in(words[own + 2].as_bytes(), 5, 1, 20_000)?;
        Some(Work::Sweep {
            run: named(words, own),
            step,
        })
    }

    /// The name of the file of `check`, or what notes call standard input.
    pub(crate) fn checked(self) -> &'a str
        ensures { result.now ≡ checked_by (said_work self.entry) }
    {
        match self {
            Work::Check { file } => file,
            _ => "standard input",
        }
    }

    /// The name of the campaign, if one is read.
    pub(crate) fn campaign(self) -> Option<&'a str>
        ensures { option_copied result ≡ campaign_in (said_work self.entry) }
    {
        match self {
            Work::Run { campaign, .. } => Some(campaign),
            Work::Record { run } | Work::Sweep { run, .. } | Work::Couple { run } => {
                Some(run.campaign)
            }
            Work::Check { .. }
            | Work::Bound
            | Work::Limits
            | Work::Coverage
            | Work::Replay
            | Work::Signals => None,
        }
    }
}

/// The run that these words name: a campaign at place `own`, and a run behind it.
fn named(words: &[String], own: usize) -> NamedRun<'_>
    requires least { own ≤ 3 }
    requires words { own + 2 ≤ length words.now }
    ensures campaign { result.campaign.now ≡ word (word_bytes words.now) own }
    ensures name { result.name.now ≡ word (word_bytes words.now) (own + 1) }
{
    NamedRun {
        campaign: words[own].as_str(),
        name: words[own + 1].as_str(),
    }
}
