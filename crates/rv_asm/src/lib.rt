//! RV32I assembly text: assembled to words, and words listed as text that assembles back to them. The form of the text is
//! this project's own; the mnemonics are those of the RISC-V Unprivileged manual.
#![tactic(auto)]

mod assembling;
mod disassembling;
mod fault;
mod turns;

pub use assembling::assemble;
pub use disassembling::{listing, listing_assembles};
pub use fault::{AsmEnd, AsmFault};

#[cfg(test)]
mod tests;
