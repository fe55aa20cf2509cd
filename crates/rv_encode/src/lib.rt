//! The instructions of RV32I as words of 32 bits, and back (RISC-V Unprivileged manual, "RV32/64G Instruction
//! Set Listings").
#![tactic(auto)]

mod b_type;
mod bits;
mod code;
mod fixed;
mod i_type;
mod j_type;
mod r_type;
mod s_type;
mod shift_type;
mod table;
mod u_type;
mod words;

pub use code::{decode, encode};
pub use words::Words;

#[cfg(test)]
mod tests;
