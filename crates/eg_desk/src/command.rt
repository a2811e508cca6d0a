// The words of the command line.
ghost use Rattle.std.specs.Prelude.{◌≡◌, option_map, IfSome};
ghost use Rattle.std.specs.Option.{option_copied};
ghost use Rattle.eg_desk.specs.Names.{calibration_name, checked_name, own_name, name_in_words};
ghost use Rattle.eg_desk.specs.Words.{word_bytes, by, soak_form, command_of, said, said_work, KeepsLimits, WorkKeepsLimits};
ghost use Rattle.eg_outcome.specs.Roles.{role_in};

use crate::forms::{is_on_file, is_soak, names_calibration};
use crate::number::number_in;
use crate::work::Work;
use eg_outcome::{Outcome, Role};

/// What the words of the command line ask for (docs/FORMATS.md, "Commands").
#[derive(Clone, Copy)]
pub enum Command<'a> {
    /// Work by the calibration in the file behind `--cal`, or by the reference calibration where there is
    /// none.
    By {
        calibration: Option<&'a str>,
        work: Work<'a>,
    },
    /// `soak SEED RUNS`: this many runs, 1 to 500, that are drawn from the seed.
    Soak {
        seed: u32,
        runs: u32,
    },
    /// `answers FILE`.
    Answers {
        file: &'a str,
    },
    /// `asm FILE`.
    Asm {
        file: &'a str,
    },
    /// `dis FILE`.
    Dis {
        file: &'a str,
    },
}

impl<'a> Command<'a> {
    /// What the words ask for, or None where they have no form of a command.
    #[tactic(auto, unfolding(crate::specs::Words::command_of))]
    pub fn of(words: &'a [String]) -> Option<Command<'a>>
        ensures command { option_map said result ≡ command_of (word_bytes words.now) }
        ensures limits { IfSome result (λ command. KeepsLimits (said command)) }
    {
        if is_soak(words) {
            return Command::of_soak(words);
        }
        if is_on_file("answers", words, 1) {
            return Some(Command::Answers {
                file: words[1].as_str(),
            });
        }
        if is_on_file("asm", words, 1) {
            return Some(Command::Asm {
                file: words[1].as_str(),
            });
        }
        if is_on_file("dis", words, 1) {
            return Some(Command::Dis {
                file: words[1].as_str(),
            });
        }
        if names_calibration(words) {
            return Command::by(Some(words[2].as_str()), Work::of(words, 3));
        }
        Command::by(None, Work::of(words, 1))
    }

    /// What the words ask for, the first of which is `soak`.
    fn of_soak(words: &'a [String]) -> Option<Command<'a>>
        ensures command { option_map said result ≡ soak_form (word_bytes words.now) }
        ensures limits { IfSome result (λ command. KeepsLimits (said command)) }
    {
        if words.len() != 3 {
            return None;
        }
        let seed = number_in(words[1].as_bytes(), 10, 0, u32::MAX)?;
        let runs = number_in(words[2].as_bytes(), 10, 1, 500)?;
        Some(Command::Soak { seed, runs })
    }

    /// This work, if there is any, by this calibration.
    fn by(calibration: Option<&'a str>, work: Option<Work<'a>>) -> Option<Command<'a>>
        requires { IfSome work (λ one. WorkKeepsLimits (said_work one)) }
        ensures command { option_map said result
            ≡ option_map (by (option_copied calibration.entry)) (option_map said_work work.entry) }
        ensures limits { IfSome result (λ command. KeepsLimits (said command)) }
    {
        let work = work?;
        Some(Command::By { calibration, work })
    }

    /// The name that the words have for the file that an outcome speaks of, or nothing where it speaks of
    /// none.
    pub fn file_of(self, outcome: &Outcome) -> &'a str
        ensures { result.now ≡ name_in_words (said self.entry) (role_in outcome.now) }
    {
        match outcome.role() {
            Some(Role::Calibration) => self.calibration(),
            Some(Role::Check) => self.checked(),
            Some(_) => self.own_file(),
            None => "",
        }
    }

    /// The name behind `--cal`, or that of the file of `answers`, or nothing.
    fn calibration(self) -> &'a str
        ensures { result.now ≡ calibration_name (said self.entry) }
    {
        match self {
            Command::By { calibration, .. } => calibration.unwrap_or(""),
            Command::Answers { file } => file,
            _ => "",
        }
    }

    /// The name of the check file, or what notes call standard input.
    fn checked(self) -> &'a str
        ensures { result.now ≡ checked_name (said self.entry) }
    {
        match self {
            Command::By { work, .. } => work.checked(),
            _ => "standard input",
        }
    }

    /// The name of the campaign, source or image that the command reads, or nothing.
    fn own_file(self) -> &'a str
        ensures { result.now ≡ own_name (said self.entry) }
    {
        match self {
            Command::By { work, .. } => work.campaign().unwrap_or(""),
            Command::Asm { file } | Command::Dis { file } => file,
            _ => "",
        }
    }
}
