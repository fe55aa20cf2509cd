//! Words of the I format whose immediate is a fixed field and a shift: the shifts by an immediate.

ghost use Rattle.std.specs.Prelude.{◌<◌, ◌^◌, ℕ};
ghost use Rattle.rv_encode.specs.Format.{bits, IsShiftI};

use crate::bits::{bits, place, register};
use rv_isa::{Reg, Shift};

/// The word with these fields, its opcode in bits 6 to 0, funct3 in bits 14 to 12 and funct7 in bits 31 to 25.
pub fn encode(opcode: u32, funct3: u32, funct7: u32, rd: Reg, rs1: Reg, shift: Shift) -> u32
    requires opcode_fits { opcode < 2 ^ 7 }
    requires funct3_fits { funct3 < 2 ^ 3 }
    requires funct7_fits { funct7 < 2 ^ 7 }
    ensures { IsShiftI result opcode funct3 funct7 rd rs1 shift }
{
    let word = place(opcode, 7, rd.number());
    let word = place(word, 12, funct3);
    let word = place(word, 15, rs1.number());
    let word = place(word, 20, shift.value());
    place(word, 25, funct7)
}

/// The operands that stand in a word, whatever its opcode, funct3 and funct7.
pub fn operands(word: u32) -> (Reg, Reg, Shift)
    ensures { IsShiftI word (bits word 6 0) (bits word 14 12) (bits word 31 25) result.0 result.1 result.2 }
{
    let shift = Shift::new(bits(word, 24, 20)).unwrap();
    (register(word, 7), register(word, 15), shift)
}
