//! The 40 instructions of RV32I (RISC-V Unprivileged manual, "RV32I Base Integer Instruction Set"), with
//! operands that are always in range.
#![tactic(auto)]

mod immediate;
mod instr;
mod reg;

pub use immediate::{Imm12, ImmB, ImmJ, ImmU, Shift};
pub use instr::Instr;
pub use reg::Reg;
