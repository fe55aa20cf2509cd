//! Words of the U format: `lui` and `auipc`.

ghost use Rattle.std.specs.Prelude.{◌<◌, ◌^◌, ℕ};
ghost use Rattle.rv_encode.specs.Format.{bits, IsU};

use crate::bits::{bits, place, register};
use rv_isa::{ImmU, Reg};

/// The word with these fields, its opcode in bits 6 to 0.
pub fn encode(opcode: u32, rd: Reg, imm: ImmU) -> u32
    requires { opcode < 2 ^ 7 }
    ensures { IsU result opcode rd imm }
{
    let word = place(opcode, 7, rd.number());
    place(word, 12, imm.value())
}

/// The operands that stand in a word, whatever its opcode.
pub fn operands(word: u32) -> (Reg, ImmU)
    ensures { IsU word (bits word 6 0) result.0 result.1 }
{
    let imm = ImmU::new(bits(word, 31, 12)).unwrap();
    (register(word, 7), imm)
}
