//! Small sequences of instructions that all code is made of.

ghost use Rattle.std.specs.Prelude.{◌≡◌, ◌<◌, ◌^◌, ◌+◌};
ghost use Rattle.rv_isa.specs.Operand.{IsImm12, IsImmU};
ghost use Rattle.block_code.specs.Sequence as sequence;
ghost use Rattle.trap_model.specs.Map.{ram_base};

use crate::operands::{imm_u, imm12, reg};
use rv_isa::{Imm12, ImmU, Instr, Reg};
use trap_model::{RAM_BASE, Width};

pub(crate) const SCRATCH: u32 = 21;

/// The high 20 bits that with the low part make the word.
pub(crate) fn high_part(value: u32) -> ImmU
    ensures { result ≡ sequence.high_part value }
{
    imm_u(value.wrapping_add(2048) / 4096)
}

/// The low part of a word, from -2048 to 2047.
pub(crate) fn low_part(value: u32) -> Imm12
    ensures { result ≡ sequence.low_part value }
{
    let low = (value % 4096) as i32;
    imm12(if low < 2048 { low } else { low - 4096 })
}

/// The address of a byte of RAM.
pub(crate) fn ram_address(offset: u32) -> u32
    requires { offset < 2 ^ 20 }
    ensures { result ≡ ram_base + offset }
{
    RAM_BASE + offset
}

/// A load of the width, extended by zeros, at the address in a register and a displacement.
pub fn load_by(width: Width, rd: Reg, rs1: Reg, imm: Imm12) -> Instr
    ensures { result ≡ sequence.load_by width rd rs1 imm }
{
    match width {
        Width::Byte => Instr::Lbu { rd, rs1, imm },
        Width::Half => Instr::Lhu { rd, rs1, imm },
        Width::Word => Instr::Lw { rd, rs1, imm },
    }
}

/// A store of the width.
fn store_by(width: Width, rs1: Reg, rs2: Reg, imm: Imm12) -> Instr
    ensures { result ≡ sequence.store_by width rs1 rs2 imm }
{
    match width {
        Width::Byte => Instr::Sb { rs1, rs2, imm },
        Width::Half => Instr::Sh { rs1, rs2, imm },
        Width::Word => Instr::Sw { rs1, rs2, imm },
    }
}

/// A word becomes the value of the register.
pub fn load_immediate(register: Reg, value: u32) -> [Instr; 2]
    ensures { result ≡ sequence.load_immediate register value }
{
    [
        Instr::Lui {
            rd: register,
            imm: high_part(value),
        },
        Instr::Addi {
            rd: register,
            rs1: register,
            imm: low_part(value),
        },
    ]
}

/// The number of the width in RAM at `offset`, in bytes, becomes the value of the register. It traps where RAM does
/// not hold the number or `offset` is no multiple of the width.
pub fn load_fixed(width: Width, register: Reg, offset: u32) -> [Instr; 2]
    requires { offset < 2 ^ 20 }
    ensures { result ≡ sequence.load_fixed width register offset }
{
    let address = ram_address(offset);
    [
        Instr::Lui {
            rd: register,
            imm: high_part(address),
        },
        load_by(width, register, register, low_part(address)),
    ]
}

/// The low bytes of the register's value, as many as the width has, go into RAM at `offset`, in bytes. x21 is lost. It
/// traps where RAM does not hold the number or `offset` is no multiple of the width.
pub fn store_fixed(width: Width, register: Reg, offset: u32) -> [Instr; 2]
    requires { offset < 2 ^ 20 }
    ensures { result ≡ sequence.store_fixed width register offset }
{
    let address = ram_address(offset);
    [
        Instr::Lui {
            rd: reg(SCRATCH),
            imm: high_part(address),
        },
        store_by(width, reg(SCRATCH), register, low_part(address)),
    ]
}
