//! The instructions, each with its operands.

use crate::immediate::{Imm12, ImmB, ImmJ, ImmU, Shift};
use crate::reg::Reg;

/// An instruction of RV32I with its operands, as the RISC-V Unprivileged manual names them.
///
/// `rd` is the register that is written; `rs1` and `rs2` are read before it is. `pc` is the program counter,
/// the address of the instruction itself in bytes. Immediates are sign-extended to 32 bits, and sums wrap
/// modulo 2^32. Where no jump is taken, the instruction 4 bytes further on comes next.
#[derive(Clone, Copy)]
pub enum Instr {
    /// `rd` becomes `imm` shifted left by 12 bits.
    Lui { rd: Reg, imm: ImmU },
    /// `rd` becomes pc plus `imm` shifted left by 12 bits.
    Auipc { rd: Reg, imm: ImmU },
    /// `rd` becomes pc + 4, with a jump to pc + `imm`.
    Jal { rd: Reg, imm: ImmJ },
    /// `rd` becomes pc + 4, with a jump to `rs1` + `imm`, bit 0 of that sum cleared.
    Jalr { rd: Reg, rs1: Reg, imm: Imm12 },
    /// A jump to pc + `imm` where `rs1` and `rs2` are equal.
    Beq { rs1: Reg, rs2: Reg, imm: ImmB },
    /// A jump to pc + `imm` where `rs1` and `rs2` differ.
    Bne { rs1: Reg, rs2: Reg, imm: ImmB },
    /// A jump to pc + `imm` where `rs1` is less than `rs2`, both signed.
    Blt { rs1: Reg, rs2: Reg, imm: ImmB },
    /// A jump to pc + `imm` where `rs1` is not less than `rs2`, both signed.
    Bge { rs1: Reg, rs2: Reg, imm: ImmB },
    /// A jump to pc + `imm` where `rs1` is less than `rs2`, both unsigned.
    Bltu { rs1: Reg, rs2: Reg, imm: ImmB },
    /// A jump to pc + `imm` where `rs1` is not less than `rs2`, both unsigned.
    Bgeu { rs1: Reg, rs2: Reg, imm: ImmB },
    /// `rd` becomes the byte at address `rs1` + `imm`, sign-extended.
    Lb { rd: Reg, rs1: Reg, imm: Imm12 },
    /// `rd` becomes the 2 bytes at address `rs1` + `imm`, little-endian, sign-extended.
    Lh { rd: Reg, rs1: Reg, imm: Imm12 },
    /// `rd` becomes the 4 bytes at address `rs1` + `imm`, little-endian.
    Lw { rd: Reg, rs1: Reg, imm: Imm12 },
    /// `rd` becomes the byte at address `rs1` + `imm`, zero-extended.
    Lbu { rd: Reg, rs1: Reg, imm: Imm12 },
    /// `rd` becomes the 2 bytes at address `rs1` + `imm`, little-endian, zero-extended.
    Lhu { rd: Reg, rs1: Reg, imm: Imm12 },
    /// The low byte of `rs2` is stored at address `rs1` + `imm`.
    Sb { rs1: Reg, rs2: Reg, imm: Imm12 },
    /// The low 2 bytes of `rs2` are stored at address `rs1` + `imm`, little-endian.
    Sh { rs1: Reg, rs2: Reg, imm: Imm12 },
    /// The 4 bytes of `rs2` are stored at address `rs1` + `imm`, little-endian.
    Sw { rs1: Reg, rs2: Reg, imm: Imm12 },
    /// `rd` becomes `rs1` + `imm`.
    Addi { rd: Reg, rs1: Reg, imm: Imm12 },
    /// `rd` becomes 1 where `rs1` is less than `imm`, both signed, else 0.
    Slti { rd: Reg, rs1: Reg, imm: Imm12 },
    /// `rd` becomes 1 where `rs1` is less than the sign-extended `imm`, both unsigned, else 0.
    Sltiu { rd: Reg, rs1: Reg, imm: Imm12 },
    /// `rd` becomes the bitwise exclusive or of `rs1` and `imm`.
    Xori { rd: Reg, rs1: Reg, imm: Imm12 },
    /// `rd` becomes the bitwise or of `rs1` and `imm`.
    Ori { rd: Reg, rs1: Reg, imm: Imm12 },
    /// `rd` becomes the bitwise and of `rs1` and `imm`.
    Andi { rd: Reg, rs1: Reg, imm: Imm12 },
    /// `rd` becomes `rs1` shifted left by `shift` bits.
    Slli { rd: Reg, rs1: Reg, shift: Shift },
    /// `rd` becomes `rs1` shifted right by `shift` bits, filled with zeros.
    Srli { rd: Reg, rs1: Reg, shift: Shift },
    /// `rd` becomes `rs1` shifted right by `shift` bits, filled with its sign bit.
    Srai { rd: Reg, rs1: Reg, shift: Shift },
    /// `rd` becomes `rs1` + `rs2`.
    Add { rd: Reg, rs1: Reg, rs2: Reg },
    /// `rd` becomes `rs1` - `rs2`.
    Sub { rd: Reg, rs1: Reg, rs2: Reg },
    /// `rd` becomes `rs1` shifted left by the low 5 bits of `rs2`.
    Sll { rd: Reg, rs1: Reg, rs2: Reg },
    /// `rd` becomes 1 where `rs1` is less than `rs2`, both signed, else 0.
    Slt { rd: Reg, rs1: Reg, rs2: Reg },
    /// `rd` becomes 1 where `rs1` is less than `rs2`, both unsigned, else 0.
    Sltu { rd: Reg, rs1: Reg, rs2: Reg },
    /// `rd` becomes the bitwise exclusive or of `rs1` and `rs2`.
    Xor { rd: Reg, rs1: Reg, rs2: Reg },
    /// `rd` becomes `rs1` shifted right by the low 5 bits of `rs2`, filled with zeros.
    Srl { rd: Reg, rs1: Reg, rs2: Reg },
    /// `rd` becomes `rs1` shifted right by the low 5 bits of `rs2`, filled with its sign bit.
    Sra { rd: Reg, rs1: Reg, rs2: Reg },
    /// `rd` becomes the bitwise or of `rs1` and `rs2`.
    Or { rd: Reg, rs1: Reg, rs2: Reg },
    /// `rd` becomes the bitwise and of `rs1` and `rs2`.
    And { rd: Reg, rs1: Reg, rs2: Reg },
    /// An ordering of memory accesses: no effect on a hart that stands alone. `imm` is made of the manual's
    /// fields fm, pred and succ; `rd` and `rs1` are reserved and neither written nor read.
    Fence { rd: Reg, rs1: Reg, imm: Imm12 },
    /// A request to the execution environment: a trap.
    Ecall,
    /// A request to a debugger: a trap.
    Ebreak,
}
