//! Words of the I format: the loads, the operations with an immediate, `jalr` and `fence`.

ghost use Rattle.std.specs.Prelude.{◌<◌, ◌^◌, ℕ, ℤ};
ghost use Rattle.rv_encode.specs.Format.{bits, IsI};

use crate::bits::{bits, place, register, sign_extend};
use rv_isa::{Imm12, Reg};

/// The word with these fields, its opcode in bits 6 to 0 and funct3 in bits 14 to 12.
pub fn encode(opcode: u32, funct3: u32, rd: Reg, rs1: Reg, imm: Imm12) -> u32
    requires opcode_fits { opcode < 2 ^ 7 }
    requires funct3_fits { funct3 < 2 ^ 3 }
    ensures { IsI result opcode funct3 rd rs1 imm }
{
    let imm = imm.value().cast_unsigned();
    let word = place(opcode, 7, rd.number());
    let word = place(word, 12, funct3);
    let word = place(word, 15, rs1.number());
    place(word, 20, bits(imm, 11, 0))
}

/// The operands that stand in a word, whatever its opcode and funct3.
pub fn operands(word: u32) -> (Reg, Reg, Imm12)
    ensures { IsI word (bits word 6 0) (bits word 14 12) result.0 result.1 result.2 }
{
    let imm = Imm12::new(sign_extend(bits(word, 31, 20), 12)).unwrap();
    (register(word, 7), register(word, 15), imm)
}
