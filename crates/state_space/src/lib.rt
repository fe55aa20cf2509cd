//! The locations of a program, its states, and how words stand for values.
#![tactic(auto)]

mod array;
mod codomain;
mod decode;
mod firing;
mod law;
mod making;
mod number;
mod signature;
mod size;
mod space;
mod state;
#[cfg(test)]
mod tests;
mod update;

pub use array::{Array, padded_place};
pub use decode::{decode_word, padded_size, value_of_word};
pub use law::{
    every_word_has_an_index, padded_numbers_differ, resolved_functions_are_sized,
    values_keep_states_fitting,
};
pub use making::range_of;
pub use number::count;
pub use signature::{Range, Side, Signature};
pub use size::{padded, padded_args, padded_numbers};
pub use space::Space;
pub use state::State;
pub use update::Update;
