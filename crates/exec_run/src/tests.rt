//! Runs with their texts, worked out by hand from the RISC-V Unprivileged manual. The comment
//! on an image gives its instructions.

use crate::exec_text;
use rv_encode::Words;
use rv_machine::{Hart, Rom};
use stab_io::Bytes;
use std::test::Fail;

/// ROM and RAM of 256 KiB each.
type SmallRom = Rom<0x4_0000>;

type SmallHart = Hart<0x4_0000, 0x4_0000>;

/// The text of the image's run on this hart.
fn text(
    rt: &HostRuntime,
    image: &[u32],
    hart: &mut SmallHart,
    readings: &[u32],
    ticks: u32,
) -> Result<Bytes, Fail> {
    if image.len() > 0x1_0000 {
        return Err(Fail::from("the image is longer than ROM"));
    }
    let rom = SmallRom::new(rt.alloc(), image)?;
    let mut words = Words::new(rt.alloc());
    for reading in readings {
        words.push(*reading)?;
    }
    Ok(exec_text(rt.alloc(), &rom, hart, words, &[], ticks)?)
}

/// The image, the first program counter, the readings, the ticks and the text. Registers and RAM are 0
/// at the start.
const RUNS: [(&[u32], u32, &[u32], u32, &[u8]); 7] = [
    (
        // no tick: nop
        &[0x0000_0013],
        0x8,
        &[7],
        0,
        b"ticks 0 traps 0 readings 0
pc 00000008
",
    ),
    (
        // bytes of RAM change, in the last word too: lui x1, 0x10000; addi x2, x0, -1; sb x2, 5(x1); sh x2, 10(x1); sw x2, 16(x1); lui x3, 0x10040; sw x2, -4(x3)
        &[
            0x1000_00b7,
            0xfff0_0113,
            0x0020_82a3,
            0x0020_9523,
            0x0020_a823,
            0x1004_01b7,
            0xfe21_ae23,
        ],
        0,
        &[],
        7,
        b"ticks 7 traps 0 readings 0
pc 0000001c
x1 10000000
x2 ffffffff
x3 10040000
ram 10000004 0000ff00
ram 10000008 ffff0000
ram 10000010 ffffffff
ram 1003fffc ffffffff
",
    ),
    (
        // a reading past the end counts: lui x1, 0x20000; lw x2, 0(x1); lw x3, 1020(x1)
        &[0x2000_00b7, 0x0000_a103, 0x3fc0_a183],
        0,
        &[0xff],
        3,
        b"ticks 3 traps 0 readings 2
pc 0000000c
x1 20000000
x2 000000ff
",
    ),
    (
        // words are sent around a trap: lui x1, 0x20001; sw x1, 1020(x1); addi x2, x0, -1; sw x2, 0(x1); ecall
        &[
            0x2000_10b7,
            0x3e10_ae23,
            0xfff0_0113,
            0x0020_a023,
            0x0000_0073,
        ],
        0,
        &[],
        7,
        b"send 2 255 20001000
send 4 0 ffffffff
send 7 255 20001000
ticks 7 traps 1 readings 0
pc 00000008
x1 20001000
x2 ffffffff
",
    ),
    (
        // signs and shifts: addi x1, x0, -1; slti x2, x1, 0; sltiu x3, x1, -1; sltiu x4, x0, -1; lui x5, 0x80000; srai x6, x5, 4; srli x7, x5, 4; sub x8, x0, x5; sub x9, x0, x1; sra x10, x5, x2
        &[
            0xfff0_0093,
            0x0000_a113,
            0xfff0_b193,
            0xfff0_3213,
            0x8000_02b7,
            0x4042_d313,
            0x0042_d393,
            0x4050_0433,
            0x4010_04b3,
            0x4022_d533,
        ],
        0,
        &[],
        10,
        b"ticks 10 traps 0 readings 0
pc 00000028
x1 ffffffff
x2 00000001
x4 00000001
x5 80000000
x6 f8000000
x7 08000000
x8 80000000
x9 00000001
x10 c0000000
",
    ),
    (
        // loads extend signs: lui x1, 0x10000; addi x2, x0, -1920; sw x2, 0(x1); lb x3, 0(x1); lbu x4, 0(x1); lh x5, 0(x1); lhu x6, 0(x1); lb x31, 1(x1)
        &[
            0x1000_00b7,
            0x8800_0113,
            0x0020_a023,
            0x0000_8183,
            0x0000_c203,
            0x0000_9283,
            0x0000_d303,
            0x0010_8f83,
        ],
        0,
        &[],
        8,
        b"ticks 8 traps 0 readings 0
pc 00000020
x1 10000000
x2 fffff880
x3 ffffff80
x4 00000080
x5 fffff880
x6 0000f880
x31 fffffff8
ram 10000000 fffff880
",
    ),
    (
        // branches by sign, and a jump that drops bit 0: addi x1, x0, -1; blt x1, x0, 8; addi x2, x0, 1; bltu x1, x0, 8; addi x3, x0, 1; jalr x4, 29(x0); addi x5, x0, 1; addi x6, x0, 1
        &[
            0xfff0_0093,
            0x0000_c463,
            0x0010_0113,
            0x0000_e463,
            0x0010_0193,
            0x01d0_0267,
            0x0010_0293,
            0x0010_0313,
        ],
        0,
        &[],
        6,
        b"ticks 6 traps 0 readings 0
pc 00000020
x1 ffffffff
x3 00000001
x4 00000018
x6 00000001
",
    ),
];

#[test]
fn runs_have_their_texts(rt: HostRuntime) -> Result<(), Fail> {
    for (image, pc, readings, ticks, expected) in RUNS {
        let mut hart = SmallHart::new(rt.alloc(), pc)?;
        let written = text(&rt, image, &mut hart, readings, ticks)?;
        assert_eq!(rt; written.list(), expected);
    }
    Ok(())
}

/// `lui x1, 0x10000; lw x2, 0(x1); sw x2, 0(x1); sw x0, 4(x1)`: the word of RAM at 0 is written with its old value, and the
/// next one with 0.
const REWRITES: [u32; 4] = [0x1000_00b7, 0x0000_a103, 0x0020_a023, 0x0000_a223];

#[test]
fn ram_is_compared_with_its_start(rt: HostRuntime) -> Result<(), Fail> {
    let mut hart = SmallHart::new(rt.alloc(), 0)?;
    hart.set_word(0, 5);
    hart.set_word(4, 7);
    hart.set_word(8, 9);
    let written = text(&rt, &REWRITES, &mut hart, &[], 4)?;
    let expected = "ticks 4 traps 0 readings 0
pc 00000010
x1 10000000
x2 00000005
ram 10000004 00000000
";
    assert_eq!(rt; written.list(), expected.as_bytes());
    assert_eq!(rt; hart.pc(), 0x10);
    assert_eq!(rt; hart.word(0), 5);
    assert_eq!(rt; hart.word(4), 0);
    Ok(())
}
