//! Labels that are far away, and large texts.

use super::{fault, short};
use crate::{AsmFault, assemble};
use std::alloc::{AllocError, Global};
use std::test::Fail;
use text_core::put_bytes;

/// A text with a piece repeated in its middle.
fn filled(
    alloc: Global,
    front: &str,
    count: u32,
    piece: &str,
    back: &str,
) -> Result<Vec<u8>, AllocError> {
    let mut text = Vec::new(alloc);
    put_bytes(&mut text, front.as_bytes())?;
    for _ in 0..count {
        put_bytes(&mut text, piece.as_bytes())?;
    }
    put_bytes(&mut text, back.as_bytes())?;
    Ok(text)
}

#[test]
fn labels_far_away(rt: HostRuntime) -> Result<(), Fail> {
    let alloc = rt.alloc();
    for (front, count, back, index, word) in [
        ("beq x0, x0, far\n", 1_022, "far:", 0, 0x7e00_0ee3),
        ("far:\n", 1_024, "beq x0, x0, far", 1_024, 0x8000_0063),
        ("far:\n", 262_144, "jal x0, far", 262_144, 0x8000_006f),
    ] {
        let text = filled(alloc, front, count, "ecall\n", back)?;
        let words = assemble(alloc, short(&rt, &text), 1, 300_000)
            .ok()
            .expect(&rt, front);
        assert_eq!(rt;
            words.list().get(index).copied(),
            Some(word),
            "{front}{back}"
        );
    }
    for (front, count, back, want, line) in [
        ("beq x0, x0, far\n", 1_023, "far:", AsmFault::Range, 1),
        ("far:\n", 1_025, "beq x0, x0, far", AsmFault::Range, 1_027),
        ("jal x0, far\n", 262_143, "far:", AsmFault::Range, 1),
        (
            "beq x0, x0, far\n",
            1_023,
            "far: jal x0, a",
            AsmFault::Range,
            1,
        ),
        (
            "jal x0, a\nbeq x0, x0, far\n",
            1_023,
            "far:",
            AsmFault::Undefined,
            1,
        ),
        (
            "beq x0, x0, far\n",
            1_023,
            "far:\nfar:",
            AsmFault::Repeated,
            1_026,
        ),
    ] {
        let text = filled(alloc, front, count, "ecall\n", back)?;
        let found = fault(&rt, alloc, &text, 300_000);
        assert_eq!(rt; found, Some((want, line)), "{front}{back}");
    }
    Ok(())
}

#[test]
fn many_words(rt: HostRuntime) -> Result<(), Fail> {
    let alloc = rt.alloc();
    let text = filled(alloc, "", 65_536, "ecall\n", "")?;
    let words = assemble(alloc, short(&rt, &text), 1, 65_536)
        .ok()
        .expect(&rt, "65,536 words");
    assert_eq!(rt; words.list().len(), 65_536);
    assert!(rt; words.list().iter().all(|word| *word == 0x73));
    let found = fault(&rt, alloc, &text, 65_535);
    assert_eq!(rt; found, Some((AsmFault::TooMany, 65_536)));
    Ok(())
}

#[test]
fn long_lines(rt: HostRuntime) -> Result<(), Fail> {
    let alloc = rt.alloc();
    for (front, piece, back) in [
        ("ecall #", "x", ""),
        ("ecall", " ", ""),
        ("", "\t", "ecall"),
    ] {
        let text = filled(alloc, front, 99_995, piece, back)?;
        let words = assemble(alloc, short(&rt, &text), 1, 1)
            .ok()
            .expect(&rt, "a long line");
        assert_eq!(rt; words.list(), [0x73].as_slice(), "{front}{piece}{back}");
    }
    for (front, piece, back, want) in [
        ("", "a", "", AsmFault::Mnemonic),
        ("", "a", ":", AsmFault::Form),
        ("addi x1, x2, ", "1", "", AsmFault::Form),
        ("ecall ", "(", "", AsmFault::Form),
        ("a:", "a:", "", AsmFault::Form),
    ] {
        let text = filled(alloc, front, 100_000, piece, back)?;
        let found = fault(&rt, alloc, &text, 1);
        assert_eq!(rt; found, Some((want, 1)), "{front}{piece}{back}");
    }
    Ok(())
}

#[test]
fn labels_of_32_bytes(rt: HostRuntime) -> Result<(), Fail> {
    let alloc = rt.alloc();
    let label = "a234567890123456789012345678901_";
    assert_eq!(rt; label.len(), 32);
    let text = format!(in alloc; "{label}: jal x0, {label}")?;
    let words = assemble(alloc, short(&rt, text.as_bytes()), 1, 1)
        .ok()
        .expect(&rt, "a label of 32 bytes");
    assert_eq!(rt; words.list(), [0x6f].as_slice());
    for text in [
        format!(in alloc; "{label}3: ecall")?,
        format!(in alloc; "jal x0, {label}3")?,
    ] {
        let found = fault(&rt, alloc, text.as_bytes(), 1);
        assert_eq!(rt; found, Some((AsmFault::Form, 1)));
    }
    Ok(())
}

#[test]
fn many_labels(rt: HostRuntime) -> Result<(), Fail> {
    let alloc = rt.alloc();
    let mut text = Vec::new(alloc);
    for number in 0..20_000 {
        let line = format!(in alloc; "label_{number}: jal x0, label_{number}\n")?;
        put_bytes(&mut text, line.as_bytes())?;
    }
    let words = assemble(alloc, short(&rt, &text), 1, 20_000)
        .ok()
        .expect(&rt, "20,000 labels");
    assert_eq!(rt; words.list().len(), 20_000);
    assert!(rt; words.list().iter().all(|word| *word == 0x6f));
    put_bytes(&mut text, b"label_0:")?;
    let found = fault(&rt, alloc, &text, 20_000);
    assert_eq!(rt; found, Some((AsmFault::Repeated, 20_001)));
    Ok(())
}
