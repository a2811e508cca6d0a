//! `egasim` plays drive traces against three-level engine-torque monitoring.
#![tactic(auto)]

use eg_app::egasim_on_lines;
use eg_base::StdSink;
use eg_desk::command_words;
use eg_lines::LateLines;
use eg_outcome::TrustedStore;
use eg_tick::Ticks;
use std::env;
use std::process::ExitCode;

/// The exit status where no memory is found for the words.
const NO_MEMORY: u8 = 6;

fn main(rt: HostRuntime) -> ExitCode {
    let alloc = rt.alloc();
    let Ok(words) = command_words(alloc, env::args(&rt)) else {
        return ExitCode::from(NO_MEMORY);
    };
    let mut store = TrustedStore::new(&rt, &words);
    let mut lines = LateLines::new(alloc, rt.stdin());
    let mut out = StdSink::new(rt.stdout());
    let mut notes = StdSink::new(rt.stderr());
    let mut steps = Ticks::new();
    let outcome = egasim_on_lines(
        alloc, &words, &mut store, &mut lines, &mut out, &mut notes, &mut steps,
    );
    ExitCode::from(outcome.status())
}
