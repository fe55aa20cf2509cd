//! Runs of an image on a bare hart, and the text of what they did.
#![tactic(auto)]

mod run;
#[cfg(test)]
mod tests;
mod writing;

pub use run::exec_text;
