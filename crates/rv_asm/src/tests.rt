//! Texts with the words that they come to or their faults, against values worked out by hand or by LLVM's assembler, and
//! that the calls succeed where memory is there.

ghost use Rattle.std.specs.Prelude.{◌<◌, ◌^◌, length};

use crate::{AsmEnd, AsmFault, assemble, listing};
use std::alloc::Global;
use std::process::Abort;
use std::test::Fail;

mod faults;
mod instructions;
mod sizes;

/// A text, which is short enough to be assembled.
fn short<'a>(rt: &impl Abort, text: &'a [u8]) -> &'a [u8]
    ensures { length result.now < 2 ^ 31 }
{
    assert!(rt; text.len() < 2_000_000);
    text
}

/// The fault of a text and its line, of which the first has the number 1.
fn fault(rt: &impl Abort, alloc: Global, text: &[u8], limit: u32) -> Option<(AsmFault, u32)> {
    match assemble(alloc, short(rt, text), 1, limit) {
        Err(AsmEnd::Fault { fault, line }) => Some((fault, line)),
        _ => None,
    }
}

#[test]
fn spellings(rt: HostRuntime) -> Result<(), Fail> {
    let alloc = rt.alloc();
    for (text, words) in [
        // Lines with nothing on them, and their ends.
        ("", [].as_slice()),
        ("\n\n", [].as_slice()),
        (" \t\r\n# if: x99 \n \t# \n#\n##", [].as_slice()),
        ("ecall\nebreak", [0x0000_0073, 0x0010_0073].as_slice()),
        (
            "ecall\r\n\r\nebreak\r\n",
            [0x0000_0073, 0x0010_0073].as_slice(),
        ),
        // Blanks wherever they may stand, and none where none need to.
        (
            "\t lw\t x1 \t,\t -4 \t(\t x2 \t)\t # x3",
            [0xffc1_2083].as_slice(),
        ),
        ("lw x1,-4(x2)# x3", [0xffc1_2083].as_slice()),
        (" at: \tsw x1 , -4 ( x2 )", [0xfe11_2e23].as_slice()),
        ("at:sw x1,-4(x2)#", [0xfe11_2e23].as_slice()),
        ("ecall#x\necall \t", [0x0000_0073, 0x0000_0073].as_slice()),
        (".word\t5#6\n.word 0 # 1", [5, 0].as_slice()),
        // Numbers.
        (
            "addi x1, x0, 0x7fF\naddi x1,x0,0x007Ff",
            [0x7ff0_0093, 0x7ff0_0093].as_slice(),
        ),
        (
            "addi x1, x0, -0\naddi x1, x0, 0x0",
            [0x0000_0093, 0x0000_0093].as_slice(),
        ),
        (
            "jal x0, 0x8\nlui x1, 0xFFFFF",
            [0x0080_006f, 0xffff_f0b7].as_slice(),
        ),
        (
            "jalr x0, 1(x1)\nfence 0xff, x0, x0",
            [0x0010_8067, 0x0ff0_000f].as_slice(),
        ),
        (
            ".word 0xDEADbeef\n.word 4294967295\n.word 0xffffffff",
            [0xdead_beef, 0xffff_ffff, 0xffff_ffff].as_slice(),
        ),
        // Labels before, behind and at the line of what names them.
        (
            "back: addi x1, x1, 1\nbne x1, x2, back\n",
            [0x0010_8093, 0xfe20_9ee3].as_slice(),
        ),
        (
            "back:\n # no word\naddi x1, x1, 1\nbne x1, x2, back",
            [0x0010_8093, 0xfe20_9ee3].as_slice(),
        ),
        (
            "beq x0, x0, on\naddi x1, x1, 1\n\n on: # here\necall",
            [0x0000_0463, 0x0010_8093, 0x0000_0073].as_slice(),
        ),
        (
            "bge x1, x2, on\n.word 7\n.word 8\non:ecall",
            [0x0020_d663, 7, 8, 0x0000_0073].as_slice(),
        ),
        (
            "ecall\na:\nb: ecall\nc: bltu x3, x4, a\nd: jal x0, d",
            [0x0000_0073, 0x0000_0073, 0xfe41_eee3, 0x0000_006f].as_slice(),
        ),
        ("jal x0, last\nlast:", [0x0040_006f].as_slice()),
        // Labels that look like something else.
        (
            "add: add x1, x2, x3\njal x0, add",
            [0x0031_00b3, 0xffdf_f06f].as_slice(),
        ),
        ("x01: jal x0, x01", [0x0000_006f].as_slice()),
        (
            "x: jal x0, x\nX1: jal x0, X1\nx1a: jal x0, x1a",
            [0x0000_006f, 0x0000_006f, 0x0000_006f].as_slice(),
        ),
        (
            "If: jal x0, If\nif_: jal x0, if_",
            [0x0000_006f, 0x0000_006f].as_slice(),
        ),
        (
            "a: jal x0, A\nA: jal x0, a",
            [0x0040_006f, 0xffdf_f06f].as_slice(),
        ),
    ] {
        let found = assemble(alloc, short(&rt, text.as_bytes()), 1, 4)
            .ok()
            .expect(&rt, text);
        assert_eq!(rt; found.list(), words, "{text}");
    }
    Ok(())
}

#[test]
fn listings(rt: HostRuntime) -> Result<(), Fail> {
    let alloc = rt.alloc();
    for (words, text) in [
        ([].as_slice(), ""),
        (
            [
                0x0000_0073,
                0x0000_0000,
                0xffff_ffff,
                0xfe20_9ee3,
                0x0231_00b3,
            ]
            .as_slice(),
            "ecall # 00000000 00000073
.word 0x00000000 # 00000004 00000000
.word 0xffffffff # 00000008 ffffffff
bne x1, x2, -4 # 0000000c fe209ee3
.word 0x023100b3 # 00000010 023100b3
",
        ),
    ] {
        let listed = listing(alloc, words)?;
        assert_eq!(rt; listed.list(), text.as_bytes());
        let again = assemble(alloc, short(&rt, listed.list()), 1, 5)
            .ok()
            .expect(&rt, text);
        assert_eq!(rt; again.list(), words, "{text}");
    }
    Ok(())
}
