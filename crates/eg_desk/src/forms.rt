// The forms that the words of a command may have.
ghost use Rattle.std.specs.Prelude.{◌≡◌, ◌≤◌};
ghost use Rattle.eg_desk.specs.Words.{word_bytes, is_name, names_calibration, is_soak, is_alone, is_on_file, is_on_run};

/// Whether `--cal NAME` stands right after the first word.
pub(crate) fn names_calibration(words: &[String]) -> bool
    ensures { result ≡ names_calibration (word_bytes words.now) }
{
    words.len() >= 3 && words[1].as_str() == "--cal" && is_name(words[2].as_str())
}

/// Whether the first word is `soak`.
pub(crate) fn is_soak(words: &[String]) -> bool
    ensures { result ≡ is_soak (word_bytes words.now) }
{
    !words.is_empty() && words[0].as_str() == "soak"
}

/// Whether the word is this one, alone, where the command's own words begin at place `own`.
pub(crate) fn is_alone(command: &str, words: &[String], own: usize) -> bool
    requires least { 1 ≤ own }
    requires most { own ≤ 3 }
    ensures { result ≡ is_alone command.now (word_bytes words.now) own }
{
    words.len() == own && words[0].as_str() == command
}

/// Whether the words are this one and the name of a file, where the command's own words begin at place `own`.
pub(crate) fn is_on_file(command: &str, words: &[String], own: usize) -> bool
    requires least { 1 ≤ own }
    requires most { own ≤ 3 }
    ensures { result ≡ is_on_file command.now (word_bytes words.now) own }
{
    words.len() == own + 1 && words[0].as_str() == command && is_name(words[own].as_str())
}

/// Whether the words are this one and `count` of its own, which begin at place `own` with the names of a
/// campaign and of a run. What a third one says isn't looked at.
pub(crate) fn is_on_run(command: &str, words: &[String], own: usize, count: usize) -> bool
    requires least { 1 ≤ own }
    requires most { own ≤ 3 }
    requires two { 2 ≤ count }
    requires three { count ≤ 3 }
    ensures { result ≡ is_on_run command.now (word_bytes words.now) own count }
{
    words.len() == own + count
        && words[0].as_str() == command
        && is_name(words[own].as_str())
        && is_name(words[own + 1].as_str())
}

/// Whether a word is a name: it isn't empty and doesn't begin with `-`.
fn is_name(word: &str) -> bool
    ensures { result ≡ is_name word.now }
{
    !word.is_empty() && !word.starts_with("-")
}
