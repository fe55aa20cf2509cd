//! Words of the J format: `jal`.

ghost use Rattle.std.specs.Prelude.{◌<◌, ◌^◌, ℕ, ℤ};
ghost use Rattle.rv_encode.specs.Format.{bits, IsJ};

use crate::bits::{bits, place, register, sign_extend};
use rv_isa::{ImmJ, Reg};

/// The word with these fields, its opcode in bits 6 to 0.
pub fn encode(opcode: u32, rd: Reg, imm: ImmJ) -> u32
    requires { opcode < 2 ^ 7 }
    ensures { IsJ result opcode rd imm }
{
    let imm = imm.value().cast_unsigned();
    let word = place(opcode, 7, rd.number());
    let word = place(word, 12, bits(imm, 19, 12));
    let word = place(word, 20, bits(imm, 11, 11));
    let word = place(word, 21, bits(imm, 10, 1));
    place(word, 31, bits(imm, 20, 20))
}

/// The operands that stand in a word, whatever its opcode.
pub fn operands(word: u32) -> (Reg, ImmJ)
    ensures { IsJ word (bits word 6 0) result.0 result.1 }
{
    let field = place(0, 1, bits(word, 30, 21));
    let field = place(field, 11, bits(word, 20, 20));
    let field = place(field, 12, bits(word, 19, 12));
    let field = place(field, 20, bits(word, 31, 31));
    let imm = ImmJ::new(sign_extend(field, 21)).unwrap();
    (register(word, 7), imm)
}
