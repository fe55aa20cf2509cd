//! The instructions of the table, each with its least and its greatest operands, and three apart where all are registers.

use super::short;
use crate::{assemble, listing};
use std::test::Fail;

/// The words are those of LLVM's assembler (14, for riscv32).
#[test]
fn every_instruction_both_ways(rt: HostRuntime) -> Result<(), Fail> {
    let alloc = rt.alloc();
    for (text, word) in [
        ("lui x0, 0", 0x0000_0037),
        ("lui x31, 1048575", 0xffff_ffb7),
        ("auipc x0, 0", 0x0000_0017),
        ("auipc x31, 1048575", 0xffff_ff97),
        ("jal x0, -1048576", 0x8000_006f),
        ("jal x31, 1048574", 0x7fff_ffef),
        ("jalr x0, -2048(x31)", 0x800f_8067),
        ("jalr x31, 2047(x0)", 0x7ff0_0fe7),
        ("beq x0, x31, -4096", 0x81f0_0063),
        ("beq x31, x0, 4094", 0x7e0f_8fe3),
        ("bne x0, x31, -4096", 0x81f0_1063),
        ("bne x31, x0, 4094", 0x7e0f_9fe3),
        ("blt x0, x31, -4096", 0x81f0_4063),
        ("blt x31, x0, 4094", 0x7e0f_cfe3),
        ("bge x0, x31, -4096", 0x81f0_5063),
        ("bge x31, x0, 4094", 0x7e0f_dfe3),
        ("bltu x0, x31, -4096", 0x81f0_6063),
        ("bltu x31, x0, 4094", 0x7e0f_efe3),
        ("bgeu x0, x31, -4096", 0x81f0_7063),
        ("bgeu x31, x0, 4094", 0x7e0f_ffe3),
        ("lb x0, -2048(x31)", 0x800f_8003),
        ("lb x31, 2047(x0)", 0x7ff0_0f83),
        ("lh x0, -2048(x31)", 0x800f_9003),
        ("lh x31, 2047(x0)", 0x7ff0_1f83),
        ("lw x0, -2048(x31)", 0x800f_a003),
        ("lw x31, 2047(x0)", 0x7ff0_2f83),
        ("lbu x0, -2048(x31)", 0x800f_c003),
        ("lbu x31, 2047(x0)", 0x7ff0_4f83),
        ("lhu x0, -2048(x31)", 0x800f_d003),
        ("lhu x31, 2047(x0)", 0x7ff0_5f83),
        ("sb x0, -2048(x31)", 0x800f_8023),
        ("sb x31, 2047(x0)", 0x7ff0_0fa3),
        ("sh x0, -2048(x31)", 0x800f_9023),
        ("sh x31, 2047(x0)", 0x7ff0_1fa3),
        ("sw x0, -2048(x31)", 0x800f_a023),
        ("sw x31, 2047(x0)", 0x7ff0_2fa3),
        ("addi x0, x31, -2048", 0x800f_8013),
        ("addi x31, x0, 2047", 0x7ff0_0f93),
        ("slti x0, x31, -2048", 0x800f_a013),
        ("slti x31, x0, 2047", 0x7ff0_2f93),
        ("sltiu x0, x31, -2048", 0x800f_b013),
        ("sltiu x31, x0, 2047", 0x7ff0_3f93),
        ("xori x0, x31, -2048", 0x800f_c013),
        ("xori x31, x0, 2047", 0x7ff0_4f93),
        ("ori x0, x31, -2048", 0x800f_e013),
        ("ori x31, x0, 2047", 0x7ff0_6f93),
        ("andi x0, x31, -2048", 0x800f_f013),
        ("andi x31, x0, 2047", 0x7ff0_7f93),
        ("slli x0, x31, 0", 0x000f_9013),
        ("slli x31, x0, 31", 0x01f0_1f93),
        ("srli x0, x31, 0", 0x000f_d013),
        ("srli x31, x0, 31", 0x01f0_5f93),
        ("srai x0, x31, 0", 0x400f_d013),
        ("srai x31, x0, 31", 0x41f0_5f93),
        ("add x0, x0, x0", 0x0000_0033),
        ("add x31, x31, x31", 0x01ff_8fb3),
        ("add x1, x2, x3", 0x0031_00b3),
        ("sub x0, x0, x0", 0x4000_0033),
        ("sub x31, x31, x31", 0x41ff_8fb3),
        ("sub x1, x2, x3", 0x4031_00b3),
        ("sll x0, x0, x0", 0x0000_1033),
        ("sll x31, x31, x31", 0x01ff_9fb3),
        ("sll x1, x2, x3", 0x0031_10b3),
        ("slt x0, x0, x0", 0x0000_2033),
        ("slt x31, x31, x31", 0x01ff_afb3),
        ("slt x1, x2, x3", 0x0031_20b3),
        ("sltu x0, x0, x0", 0x0000_3033),
        ("sltu x31, x31, x31", 0x01ff_bfb3),
        ("sltu x1, x2, x3", 0x0031_30b3),
        ("xor x0, x0, x0", 0x0000_4033),
        ("xor x31, x31, x31", 0x01ff_cfb3),
        ("xor x1, x2, x3", 0x0031_40b3),
        ("srl x0, x0, x0", 0x0000_5033),
        ("srl x31, x31, x31", 0x01ff_dfb3),
        ("srl x1, x2, x3", 0x0031_50b3),
        ("sra x0, x0, x0", 0x4000_5033),
        ("sra x31, x31, x31", 0x41ff_dfb3),
        ("sra x1, x2, x3", 0x4031_50b3),
        ("or x0, x0, x0", 0x0000_6033),
        ("or x31, x31, x31", 0x01ff_efb3),
        ("or x1, x2, x3", 0x0031_60b3),
        ("and x0, x0, x0", 0x0000_7033),
        ("and x31, x31, x31", 0x01ff_ffb3),
        ("and x1, x2, x3", 0x0031_70b3),
        ("fence -2048, x31, x0", 0x800f_800f),
        ("fence 2047, x0, x31", 0x7ff0_0f8f),
        ("fence 255, x0, x0", 0x0ff0_000f),
        ("ecall", 0x0000_0073),
        ("ebreak", 0x0010_0073),
    ] {
        let words = assemble(alloc, short(&rt, text.as_bytes()), 1, 1)
            .ok()
            .expect(&rt, text);
        assert_eq!(rt; words.list(), [word].as_slice(), "{text}");
        let listed = listing(alloc, [word].as_slice())?;
        let want = format!(in alloc; "{text} # 00000000 {word:08x}\n")?;
        assert_eq!(rt; listed.list(), want.as_bytes(), "{text}");
    }
    Ok(())
}
