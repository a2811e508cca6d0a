// What no clause says of a read, a put or a note that fails.
use crate::calls::{Failing, NOTHING, Shown, call};
use eg_app::{Outcome, Refusal, Role};
use eg_input::TraceFault;
use std::alloc::Global;
use std::test::Fail;

/// The files that a call on both runs of a campaign reads, in their order.
const ALL_RUNS: &[Role] = &[
    Role::Calibration,
    Role::Campaign,
    Role::Trace { run: 1 },
    Role::Image { run: 1 },
    Role::Trace { run: 2 },
    Role::Image { run: 2 },
];

/// Those that a call on its run `b` reads.
const RUN_B: &[Role] = &[
    Role::Calibration,
    Role::Campaign,
    Role::Trace { run: 2 },
    Role::Image { run: 2 },
];

/// Words, and the files that a call with them reads, in their order.
const READS: [(&str, &[Role]); 13] = [
    (
        "check --cal cal.toml in.csv",
        &[Role::Calibration, Role::Check],
    ),
    ("bound --cal cal.toml", &[Role::Calibration]),
    ("limits --cal cal.toml", &[Role::Calibration]),
    ("coverage --cal cal.toml", &[Role::Calibration]),
    ("answers cal.toml", &[Role::Calibration]),
    ("run --cal cal.toml c.toml", ALL_RUNS),
    ("table --cal cal.toml c.toml", ALL_RUNS),
    ("margins --cal cal.toml c.toml", ALL_RUNS),
    ("record --cal cal.toml c.toml b", RUN_B),
    ("sweep --cal cal.toml c.toml b 4", RUN_B),
    ("asm loop.asm", &[Role::Source]),
    ("dis probe.hex", &[Role::Image { run: 0 }]),
    ("soak 1 1", &[]),
];

/// Each file is read once, and none after a read that failed.
#[test]
fn the_read_that_failed_is_told(rt: HostRuntime) -> Result<(), Fail> {
    for (line, roles) in READS {
        for number in 0..=roles.len() {
            let failing = Failing {
                read: Some(number as u32),
                ..NOTHING
            };
            let shown = call(rt.alloc(), line, failing)?;
            let wanted = match roles.get(number) {
                Some(role) => Outcome::ReadFault { file: *role },
                None => Outcome::Done,
            };
            let reads = roles.len().min(number + 1);
            assert!(rt;
                shown.outcome == wanted && shown.reads == reads,
                "{line}, read {number}"
            );
        }
    }
    Ok(())
}

/// The words of a call that writes a record of four ticks, a line as each of them is made.
const RECORD: &str = "record c.toml a";

/// Words of calls that put their output line by line.
const LINES: [&str; 13] = [
    "check in.csv",
    "bound",
    "limits",
    "coverage",
    "answers cal.toml",
    "run c.toml",
    "table c.toml",
    "margins c.toml",
    RECORD,
    "sweep c.toml a 4",
    "asm loop.asm",
    "dis probe.hex",
    "soak 1 1",
];

/// How many ticks a call has made whose put of this number failed: those of a record are made one by one
/// behind the header, and all others before the first put.
fn ticks_at(line: &str, number: u32, whole: &Shown) -> u64 {
    let all = whole.steps.count();
    if line == RECORD {
        all.min(u64::from(number))
    } else {
        all
    }
}

/// Whether a call with these words whose put of this number fails shows the first `length` bytes of what the
/// whole call shows, and has made as many ticks as it may.
fn is_cut(
    alloc: Global,
    line: &str,
    number: u32,
    length: usize,
    whole: &Shown,
) -> Result<bool, Fail> {
    let failing = Failing {
        put: Some(number),
        ..NOTHING
    };
    let shown = call(alloc, line, failing)?;
    let wanted = if length == whole.out.bytes().len() {
        Outcome::Done
    } else {
        Outcome::WriteFault
    };
    Ok(
        shown.outcome == wanted
            && shown.out.bytes().len() == length
            && whole.out.bytes().starts_with(shown.out.bytes())
            && shown.steps.count() == ticks_at(line, number, whole),
    )
}

/// A put that fails leaves the lines before it, and half of its own. Behind the last line no put comes.
#[test]
fn each_put_is_one_whole_line(rt: HostRuntime) -> Result<(), Fail> {
    for line in LINES {
        let whole = call(rt.alloc(), line, NOTHING)?;
        let (mut number, mut before) = (0u32, 0usize);
        for text in whole.out.bytes().split_inclusive(|byte| *byte == b'\n') {
            let length = before.saturating_add(text.len() / 2);
            assert!(rt;
                is_cut(rt.alloc(), line, number, length, &whole)?,
                "{line}, put {number}"
            );
            number = number.saturating_add(1);
            before = before.saturating_add(text.len());
        }
        assert!(rt;
            is_cut(rt.alloc(), line, number, before, &whole)?,
            "{line}, put {number}"
        );
    }
    Ok(())
}

/// Words, and how a call with them ends where the first put to its output fails.
const ENDS: [(&str, Outcome); 5] = [
    ("", Outcome::Usage),
    ("check no.csv", Outcome::ReadFault { file: Role::Check }),
    (
        "check c.toml",
        Outcome::Refused(Refusal::Check(TraceFault::Header)),
    ),
    ("record c.toml c", Outcome::Refused(Refusal::NoRun)),
    ("bound", Outcome::WriteFault),
];

#[test]
fn notes_that_fail_change_no_outcome(rt: HostRuntime) -> Result<(), Fail> {
    for (line, outcome) in ENDS {
        for number in 0..4 {
            let failing = Failing {
                read: None,
                put: Some(0),
                note: Some(number),
            };
            let shown = call(rt.alloc(), line, failing)?;
            assert!(rt; shown.outcome == outcome, "{line}, note {number}");
        }
    }
    Ok(())
}
