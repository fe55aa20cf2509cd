//! The faults of texts with their lines.

use super::{fault, short};
use crate::{AsmEnd, AsmFault, assemble};
use std::alloc::Global;
use std::process::Abort;
use std::test::Fail;

// Each row, behind a line with the label `b`, has this fault; rows that begin with `#` say what follows.
fn all_have(rt: &impl Abort, alloc: Global, rows: &str, want: AsmFault) -> Result<(), Fail> {
    for row in rows.lines() {
        if row.as_bytes().first() != Some(&b'#') {
            let text = format!(in alloc; "b: ecall\n{row}")?;
            let found = fault(rt, alloc, text.as_bytes(), 9);
            assert_eq!(rt; found, Some((want, 2)), "{row}");
        }
    }
    Ok(())
}

const NONE_OF_THE_FORMS: &str = "\
# No labels.
x5:
x99: ecall
if:
end: foo
in: ecall
1a: ecall
_a: ecall
a.b: ecall
: ecall
a: b: ecall
a:b:ecall
a:: ecall
# No mnemonics.
1add
_add
-1
,
(
a: 1
# Mnemonics with something right behind.
add-1
ecall;
.word-1
addi: addi:
# Too few operands, too many, and parted in another way.
addi
addi x1
addi x1, x2
addi x1, x2,
addi x1, x2, 1,
addi x1, x2, 1 2
addi x1 x2, 1
addi x1, x2 1
addi x1,, x2, 1
addi, x1, x2, 1
addi (x1), x2, 1
addi : x1, x2, 1
add x1, x2, 3
add x1, x2, x3, x4
lw x1, 4
lw x1, (x2)
lw x1, 4(x2
lw x1, 4 x2)
lw x1, 4(x2) x3
lw x1, x2, 4
lw x1, x2(4)
lw 4(x1), x2
sw x1, x2, 4
jalr x1, x2, 4
beq x1, x2
beq x1, 8, x2
jal 8
jal x1, x2, 8
lui x1
lui x1, x2
fence x0, x0, 1
fence
ecall x1
ebreak 0
.word
.word 1 2
.word 1, 2
.word x1
.word a
# No registers.
addi x01, x0, 0
addi X1, x0, 0
addi x, x0, 0
addi x-1, x0, 0
addi a, x0, 0
addi 1, x0, 0
lw x1, 4(x02)
# No numbers.
addi x1, x2, -0x1
addi x1, x2, 0X1
addi x1, x2, 0x
addi x1, x2, 0xg
addi x1, x2, 0x000000001
addi x1, x2, 007
addi x1, x2, 00
addi x1, x2, -00
addi x1, x2, --1
addi x1, x2, - 1
addi x1, x2, +1
addi x1, x2, -
addi x1, x2, 1a
addi x1, x2, ff
addi x1, x2, 1000000000000000000
addi x1, x2, -1000000000000000000
# No targets.
jal x1, x5
jal x1, x99
jal x1, if
jal x1, 1a
jal x1, b-4
jal x1, b.c
jal x1, b:
jal x1, b(x2)
beq x1, x2, -b
# The form goes before the range and before the mnemonic.
 addi x1, x99
addi x1, x2, 2048 3
addi x99, x2, 007
beq x99, x2, x3
.word 4294967296, 1
end: mul x1, x2, x3
";

#[test]
fn lines_with_none_of_the_forms(rt: HostRuntime) -> Result<(), Fail> {
    all_have(&rt, rt.alloc(), NONE_OF_THE_FORMS, AsmFault::Form)?;
    let found = fault(&rt, rt.alloc(), b"b: ecall\necall\r", 9);
    assert_eq!(rt; found, Some((AsmFault::Form, 2)));
    Ok(())
}

const UNKNOWN_MNEMONICS: &str = "\
foo x1
foo-bar
foo-bar: ecall
foo,
foo(x1)
foo addi x1, x99
foo_b1.c -
.foo
.
.word1
.Word 1
word 1
mul x1, x2, x3
nop
add.x x1
adds x1, x2, x3
Addi x1, x2, 1
ADD x1, x2, x3
x5
if
back : ecall
a#: ecall
a: x
a: c : ecall
# The mnemonic goes before the label.
b: foo
";

#[test]
fn unknown_mnemonics(rt: HostRuntime) -> Result<(), Fail> {
    all_have(&rt, rt.alloc(), UNKNOWN_MNEMONICS, AsmFault::Mnemonic)
}

const OUT_OF_RANGE: &str = "\
# Registers.
addi x32, x0, 0
addi x0, x99, 0
add x0, x0, x999999999999999999
lw x0, 0(x32)
sw x32, 0(x0)
lui x32, 0
fence 0, x32, x0
beq x0, x32, b
jal x32, nowhere
# Immediates of 12 bits.
addi x1, x2, 2048
addi x1, x2, -2049
andi x1, x2, 0x800
addi x1, x2, 0xffffffff
addi x1, x2, 999999999999999999
addi x1, x2, -999999999999999999
lw x1, 2048(x2)
sb x1, -2049(x2)
jalr x1, 2048(x2)
fence 2048, x0, x0
fence -2049, x0, x0
# Shifts.
slli x1, x2, 32
srli x1, x2, 0x20
srai x1, x2, -1
# Upper immediates.
lui x1, 1048576
lui x1, -1
auipc x1, 0x100000
# Displacements.
beq x1, x2, 1
bne x1, x2, 4095
blt x1, x2, 4096
bge x1, x2, -4097
bltu x1, x2, -4098
bgeu x1, x2, 0xfffffffe
jal x1, 3
jal x1, 1048575
jal x1, 1048576
jal x1, -1048577
jal x1, -1048578
# Words.
.word -1
.word 4294967296
# The range goes before the label.
b: addi x1, x2, 2048
";

#[test]
fn numbers_out_of_range(rt: HostRuntime) -> Result<(), Fail> {
    all_have(&rt, rt.alloc(), OUT_OF_RANGE, AsmFault::Range)
}

#[test]
fn turns_in_their_order(rt: HostRuntime) {
    for (text, limit, want, line) in [
        // The first line with a fault of the first turn, whichever it is.
        ("addi x1, x2, 2048\nfoo\naddi", 9, AsmFault::Range, 1),
        ("foo\naddi\na:\na:", 9, AsmFault::Mnemonic, 1),
        ("a: ecall\na: ecall\nfoo", 9, AsmFault::Repeated, 2),
        (
            "x01:\n# x01:\n\n X01:\nx01:\nx01: foo",
            9,
            AsmFault::Repeated,
            5,
        ),
        ("a:\na: ecall x1", 9, AsmFault::Form, 2),
        // It goes before a word too many and before labels on earlier lines.
        ("ecall\necall\necall\naddi", 2, AsmFault::Form, 4),
        ("ecall\necall\necall\nfoo", 2, AsmFault::Mnemonic, 4),
        ("ecall\necall\necall\nlui x1, -1", 2, AsmFault::Range, 4),
        ("a: ecall\necall\necall\na:", 2, AsmFault::Repeated, 4),
        ("jal x0, nowhere\naddi x1, x2, 2048", 9, AsmFault::Range, 2),
        ("jal x0, nowhere\na:\na:", 9, AsmFault::Repeated, 3),
        // Only lines with a word count, and labels come last.
        (
            "ecall\n# a\na:\n\n.word 1 # 2\nb: ecall\nc:\necall",
            2,
            AsmFault::TooMany,
            6,
        ),
        ("jal x0, nowhere\necall\n\necall", 2, AsmFault::TooMany, 4),
        ("ecall", 0, AsmFault::TooMany, 1),
        ("a:\n#\n.word 0", 0, AsmFault::TooMany, 3),
        // Labels on no line.
        ("jal x0, b", 1, AsmFault::Undefined, 1),
        (
            "b: ecall\n\nbeq x1, x2, a\njal x0, c",
            3,
            AsmFault::Undefined,
            3,
        ),
        ("a: jal x0, A", 9, AsmFault::Undefined, 1),
        ("ab: jal x0, a", 9, AsmFault::Undefined, 1),
        ("a: jal x0, ab", 9, AsmFault::Undefined, 1),
        ("jal x0, x01", 9, AsmFault::Undefined, 1),
        ("jal x0, a # a:", 9, AsmFault::Undefined, 1),
    ] {
        let found = fault(&rt, rt.alloc(), text.as_bytes(), limit);
        assert_eq!(rt; found, Some((want, line)), "{text}");
    }
    let none = assemble(rt.alloc(), short(&rt, b"a:\n#"), 1, 0);
    assert!(rt; none.is_ok_and(|words| words.list().is_empty()));
}

#[test]
fn lines_count_from_the_first(rt: HostRuntime) {
    for (text, limit, first, want, line) in [
        ("\nfoo", 9, 7, AsmFault::Mnemonic, 8),
        ("#\r\n\r\nfoo", 9, 7, AsmFault::Mnemonic, 9),
        ("ecall\necall", 1, 7, AsmFault::TooMany, 8),
        ("ecall\n\njal x0, a", 9, 7, AsmFault::Undefined, 9),
        ("a:\na:", 9, 7, AsmFault::Repeated, 8),
        ("foo", 9, 1_073_741_824, AsmFault::Mnemonic, 1_073_741_824),
    ] {
        assert!(rt; 1 <= first);
        assert!(rt; first <= 1_073_741_824);
        let found = assemble(rt.alloc(), short(&rt, text.as_bytes()), first, limit);
        assert_eq!(rt;
            found.err(),
            Some(AsmEnd::Fault { fault: want, line }),
            "{text}"
        );
    }
}
