//! Words of the S format: the stores.

ghost use Rattle.std.specs.Prelude.{◌<◌, ◌^◌, ℕ, ℤ};
ghost use Rattle.rv_encode.specs.Format.{bits, IsS};

use crate::bits::{bits, place, register, sign_extend};
use rv_isa::{Imm12, Reg};

/// The word with these fields, its opcode in bits 6 to 0 and funct3 in bits 14 to 12.
pub fn encode(opcode: u32, funct3: u32, rs1: Reg, rs2: Reg, imm: Imm12) -> u32
    requires opcode_fits { opcode < 2 ^ 7 }
    requires funct3_fits { funct3 < 2 ^ 3 }
    ensures { IsS result opcode funct3 rs1 rs2 imm }
{
    let imm = imm.value().cast_unsigned();
    let word = place(opcode, 7, bits(imm, 4, 0));
    let word = place(word, 12, funct3);
    let word = place(word, 15, rs1.number());
    let word = place(word, 20, rs2.number());
    place(word, 25, bits(imm, 11, 5))
}

/// The operands that stand in a word, whatever its opcode and funct3.
pub fn operands(word: u32) -> (Reg, Reg, Imm12)
    ensures { IsS word (bits word 6 0) (bits word 14 12) result.0 result.1 result.2 }
{
    let field = place(bits(word, 11, 7), 5, bits(word, 31, 25));
    let imm = Imm12::new(sign_extend(field, 12)).unwrap();
    (register(word, 15), register(word, 20), imm)
}
