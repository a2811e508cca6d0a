// What the faults of files show of themselves: the words of their notes (docs/FORMATS.md, "Notes").
use eg_asm::AsmFault;
use eg_input::{ImageFault, TraceFault};
use std::fmt::Display;
use std::test::Fail;

/// Whether this shows itself in these words.
fn shows<D: Display + Drop>(rt: &HostRuntime, fault: D, words: &str) -> Result<bool, Fail> {
    let shown = format!(in rt.alloc(); "{fault}")?;
    Ok(shown.as_str() == words)
}

#[test]
fn records_that_are_refused_are_told_in_the_words_of_notes(rt: HostRuntime) -> Result<(), Fail> {
    assert!(rt; shows(&rt, TraceFault::Memory, "no memory")?);
    assert!(rt; shows(&rt, TraceFault::Header, "header")?);
    assert!(rt; shows(&rt, TraceFault::Row { line: 7 }, "record 7")?);
    assert!(rt; shows(&rt, TraceFault::Empty, "no records")?);
    assert!(rt; shows(&rt, TraceFault::Long, "more than 20000 records")?);
    Ok(())
}

#[test]
fn code_that_is_refused_is_told_in_the_words_of_notes(rt: HostRuntime) -> Result<(), Fail> {
    assert!(rt; shows(&rt, ImageFault::Memory, "no memory")?);
    assert!(rt; shows(&rt, ImageFault::Line { line: 7 }, "line 7")?);
    assert!(rt; shows(&rt, ImageFault::Long, "more than 1024 lines")?);
    assert!(rt; shows(&rt, AsmFault::Memory, "no memory")?);
    assert!(rt; shows(&rt, AsmFault::Line { line: 7 }, "line 7")?);
    assert!(rt; shows(&rt, AsmFault::Label { line: 7 }, "label in line 7")?);
    assert!(rt; shows(&rt, AsmFault::Long, "more than 1024 words")?);
    Ok(())
}
