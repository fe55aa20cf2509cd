//! Words that the GNU assembler gives for each instruction, words that no instruction has, and the round trips.

ghost use Rattle.std.specs.Prelude.{◌≡◌, Some, IfSome};
ghost use Rattle.rv_isa.specs.Operand.{IsReg, IsImm12, IsImmB, IsImmJ, IsImmU, IsShift};

use super::*;
use rv_isa::{Imm12, ImmB, ImmJ, ImmU, Instr, Reg, Shift};
use std::test::Fail;

fn x(number: u32) -> Reg
    requires { IsReg number }
{
    Reg::new(number).unwrap()
}

fn imm(value: i32) -> Imm12
    requires { IsImm12 value }
{
    Imm12::new(value).unwrap()
}

fn branch(value: i32) -> ImmB
    requires { IsImmB value }
{
    ImmB::new(value).unwrap()
}

fn jump(value: i32) -> ImmJ
    requires { IsImmJ value }
{
    ImmJ::new(value).unwrap()
}

fn upper(value: u32) -> ImmU
    requires { IsImmU value }
{
    ImmU::new(value).unwrap()
}

fn shift(value: u32) -> Shift
    requires { IsShift value }
{
    Shift::new(value).unwrap()
}

/// Compares the words of instructions with words that were assembled by binutils 2.40 for rv32i.
macro_rules! assert_words {
    ($rt:ident $($name:ident { $($operand:ident: $value:expr),* } $word:literal;)*) => {
        for (name, instr, word) in [$((stringify!($name), Instr::$name { $($operand: $value),* }, $word)),*] {
            assert_eq!($rt; encode(instr), word, "{name}");
        }
    };
}

#[test]
fn upper_immediates_and_jumps(rt: HostRuntime) {
    assert_words! { rt
        Lui { rd: x(31), imm: upper(0xf_ffff) } 0xffff_ffb7;
        Auipc { rd: x(1), imm: upper(0x8_0001) } 0x8000_1097;
        Jal { rd: x(1), imm: jump(-4) } 0xffdf_f0ef;
        Jal { rd: x(0), imm: jump(703710) } 0x4dfa_b06f;
        Jal { rd: x(5), imm: jump(-1048576) } 0x8000_02ef;
        Jal { rd: x(6), imm: jump(1048574) } 0x7fff_f36f;
        Jalr { rd: x(1), rs1: x(31), imm: imm(-2048) } 0x800f_80e7;
    }
}

#[test]
fn branches(rt: HostRuntime) {
    assert_words! { rt
        Beq { rs1: x(1), rs2: x(2), imm: branch(-4) } 0xfe20_8ee3;
        Bne { rs1: x(3), rs2: x(4), imm: branch(4094) } 0x7e41_9fe3;
        Blt { rs1: x(5), rs2: x(6), imm: branch(-4096) } 0x8062_c063;
        Bge { rs1: x(7), rs2: x(8), imm: branch(2048) } 0x0083_d0e3;
        Bltu { rs1: x(9), rs2: x(10), imm: branch(30) } 0x00a4_ef63;
        Bgeu { rs1: x(31), rs2: x(30), imm: branch(-2) } 0xffef_ffe3;
    }
}

#[test]
fn loads_and_stores(rt: HostRuntime) {
    assert_words! { rt
        Lb { rd: x(1), rs1: x(2), imm: imm(-1) } 0xfff1_0083;
        Lh { rd: x(3), rs1: x(4), imm: imm(2) } 0x0022_1183;
        Lw { rd: x(5), rs1: x(6), imm: imm(2047) } 0x7ff3_2283;
        Lbu { rd: x(7), rs1: x(8), imm: imm(-2048) } 0x8004_4383;
        Lhu { rd: x(9), rs1: x(10), imm: imm(1365) } 0x5555_5483;
        Sb { rs1: x(1), rs2: x(2), imm: imm(-1) } 0xfe20_8fa3;
        Sh { rs1: x(3), rs2: x(4), imm: imm(31) } 0x0041_9fa3;
        Sw { rs1: x(5), rs2: x(6), imm: imm(32) } 0x0262_a023;
    }
}

#[test]
fn operations_with_an_immediate(rt: HostRuntime) {
    assert_words! { rt
        Addi { rd: x(1), rs1: x(2), imm: imm(-1) } 0xfff1_0093;
        Slti { rd: x(3), rs1: x(4), imm: imm(2047) } 0x7ff2_2193;
        Sltiu { rd: x(5), rs1: x(6), imm: imm(-2048) } 0x8003_3293;
        Xori { rd: x(7), rs1: x(8), imm: imm(-1) } 0xfff4_4393;
        Ori { rd: x(9), rs1: x(10), imm: imm(1) } 0x0015_6493;
        Andi { rd: x(11), rs1: x(12), imm: imm(255) } 0x0ff6_7593;
        Slli { rd: x(13), rs1: x(14), shift: shift(31) } 0x01f7_1693;
        Srli { rd: x(15), rs1: x(16), shift: shift(1) } 0x0018_5793;
        Srai { rd: x(1), rs1: x(2), shift: shift(31) } 0x41f1_5093;
    }
}

#[test]
fn operations_on_registers(rt: HostRuntime) {
    assert_words! { rt
        Add { rd: x(3), rs1: x(1), rs2: x(2) } 0x0020_81b3;
        Sub { rd: x(4), rs1: x(5), rs2: x(6) } 0x4062_8233;
        Sll { rd: x(7), rs1: x(8), rs2: x(9) } 0x0094_13b3;
        Slt { rd: x(10), rs1: x(11), rs2: x(12) } 0x00c5_a533;
        Sltu { rd: x(13), rs1: x(14), rs2: x(15) } 0x00f7_36b3;
        Xor { rd: x(16), rs1: x(17), rs2: x(18) } 0x0128_c833;
        Srl { rd: x(19), rs1: x(20), rs2: x(21) } 0x015a_59b3;
        Sra { rd: x(22), rs1: x(23), rs2: x(24) } 0x418b_db33;
        Or { rd: x(25), rs1: x(26), rs2: x(27) } 0x01bd_6cb3;
        And { rd: x(28), rs1: x(29), rs2: x(30) } 0x01ee_fe33;
    }
}

/// `fence iorw, iorw`, `fence rw, w`, `fence.tso`, `ecall` and `ebreak`.
#[test]
fn fences_and_traps(rt: HostRuntime) {
    assert_words! { rt
        Fence { rd: x(0), rs1: x(0), imm: imm(0x0ff) } 0x0ff0_000f;
        Fence { rd: x(0), rs1: x(0), imm: imm(0x031) } 0x0310_000f;
        Fence { rd: x(0), rs1: x(0), imm: imm(0x833 - 0x1000) } 0x8330_000f;
        Ecall {} 0x0000_0073;
        Ebreak {} 0x0010_0073;
    }
}

/// Words of the manual's other instructions and of none at all.
#[test]
fn no_instruction(rt: HostRuntime) {
    for (name, word) in [
        ("all zeros", 0x0000_0000),
        ("all ones", 0xffff_ffff),
        ("fence.i", 0x0000_100f),
        ("uret", 0x0020_0073),
        ("mret", 0x3020_0073),
        ("wfi", 0x1050_0073),
        ("csrrw x0, 0x300, x0", 0x3000_1073),
        ("mul x1, x2, x3", 0x0231_00b3),
        ("ld x1, 0(x2)", 0x0001_3083),
        ("sd x1, 0(x2)", 0x0011_3023),
        ("slli x1, x2, 32", 0x0201_1093),
        ("addiw x1, x2, 0", 0x0001_009b),
    ] {
        assert!(rt; decode(word).is_none(), "{name}");
    }
    assert!(rt; matches!(decode(0x0000_0073), Some(Instr::Ecall)));
    assert!(rt; matches!(decode(0x0010_0073), Some(Instr::Ebreak)));
}

/// The word of an instruction is decoded to that instruction.
fn decoded_again(instr: Instr) -> Option<Instr>
    ensures { result ≡ Some instr }
{
    decode(encode(instr))
}

/// What is decoded from a word has that word.
fn encoded_again(word: u32) -> Option<u32>
    ensures { IfSome result (λ again. again ≡ word) }
{
    Some(encode(decode(word)?))
}

#[test]
fn round_trips(rt: HostRuntime) {
    assert_eq!(rt; encoded_again(0xfe20_8ee3), Some(0xfe20_8ee3));
    assert!(rt; matches!(decoded_again(Instr::Ecall), Some(Instr::Ecall)));
}

#[test]
fn words_are_kept(rt: HostRuntime) -> Result<(), Fail> {
    let mut words = Words::new(rt.alloc());
    words.push(0x73)?;
    words.push(0x13)?;
    assert_eq!(rt; words.list(), [0x73, 0x13].as_slice());
    Ok(())
}
