//! Level 2 alone, over readings that were recorded: what it would have found on them, what is told of each
//! tick and of all together, and the texts of both (docs/CONCEPT.md, "`replay` and `signals`").
#![tactic(auto)]

mod findings;
mod law;
mod modules;
mod replay;
mod replay_lines;
mod signals_line;
mod tally;
mod tick_signals;

pub use eg_num::Watches;
pub use findings::Findings;
pub use law::open_loop_agrees;
pub use replay::Replay;
pub use replay_lines::replay_text;
pub use signals_line::{push_signals, signals_header};
pub use tally::Tally;
pub use tick_signals::{Counters, TickSignals};
