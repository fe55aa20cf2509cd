//! The memory map of the machine: what each address is, and which accesses trap. The map and its rules are this
//! project's own.
//!
//! | addresses | what | allowed |
//! |---|---|---|
//! | from 0 on | ROM | fetch of a word, load of any width |
//! | from 0x10000000 on | RAM | load and store of any width |
//! | 0x20000000 + 4 p, p below 256 | input port p | load of a word |
//! | 0x20001000 + 4 p, p below 256 | output port p | store of a word |
//!
//! Every access is at a multiple of its width. Every other access traps.
#![tactic(auto)]

mod map;
mod width;

pub use map::{Loads, MemMap, RAM_BASE, Stores};
pub use width::Width;

#[cfg(test)]
mod tests;
