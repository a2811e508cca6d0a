//! What level 2 does over its words agrees with what the model of a run says of level 2. Nothing here runs;
//! the functions carry the laws as their contracts.
#![tactic(auto)]

mod agreement;
mod replies;
mod words;

pub use agreement::level_2_agrees;
pub use replies::words_tell_the_flow;
pub use words::words_stand_for_the_model;
