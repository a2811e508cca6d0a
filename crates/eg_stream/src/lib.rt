//! The commands over lines that come one by one: `replay` and `signals` over recorded readings, and `couple`,
//! the unit of a run around an engine that a partner has.
#![tactic(auto)]

mod coupling;
mod laws;
mod line;
mod measuring;
mod order;
mod partner;
mod recording;
mod ticking;

pub use coupling::couple_lines;
pub use laws::{commands_are_used, coupled_runs_keep_the_headline};
pub use measuring::{replay_lines, signals_lines};
pub use order::{bytes_lead_to_bytes, no_line_is_read_ahead};
