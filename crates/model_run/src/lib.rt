//! Runs of a checked program by its meaning alone, and the text of what they did.
#![tactic(auto)]

mod run;
mod run_writing;
mod start;

pub use run::model_text;
pub use run_writing::legal_text;
pub use start::{Start, start_of};
