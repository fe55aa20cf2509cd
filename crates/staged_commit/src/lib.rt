//! Clearing flags, reading inputs, staging updates, committing them and sending outputs.
#![tactic(auto)]

mod clear;
mod copy;
mod input;
mod output;
mod ports;
mod registers;
mod updates;

pub use clear::clear_unrolled;
pub use copy::commit_unrolled;
pub use input::read_inputs;
pub use output::send_outputs;
pub use registers::{first_register, second_register, zero_register};
pub use updates::stage_update;
