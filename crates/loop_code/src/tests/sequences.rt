//! Small sequences of instructions on the hart.

ghost use Rattle.std.specs.Prelude.{◌≡◌, ◌<◌, ◌%◌};

use crate::tests::{SmallHart, SmallRom, filled, leaves, x};
use block_code::Instrs;
use block_code::sequence::{load_fixed, load_immediate, store_fixed};
use rv_encode::{Words, encode};
use rv_isa::Instr;
use std::alloc::{AllocError, Global};
use std::test::Fail;
use trap_model::Width;

/// What a register is given, with bits in each byte.
const VALUE: u32 = 0x89ab_cdef;

/// ROM with the instructions from address 0 on.
fn rom_of(alloc: Global, code: &[Instr]) -> Result<SmallRom, AllocError> {
    let mut words = Words::new(alloc);
    for instr in code {
        words.push(encode(*instr))?;
    }
    filled(alloc, &words)
}

/// The value of x5 that is loaded from RAM at the offset, where the four bytes there are VALUE.
fn loaded(alloc: Global, width: Width, offset: u32) -> Result<u32, AllocError>
    requires aligned { offset % 4 ≡ 0 }
    requires range { offset < 0x4_0000 }
{
    let rom = rom_of(alloc, &load_fixed(width, x(5), offset))?;
    let mut hart = SmallHart::new(alloc, 0)?;
    hart.set_word(offset, VALUE);
    leaves(&mut hart, &rom, 8, 2);
    Ok(hart.reg(x(5)))
}

/// The four bytes of RAM at the offset, 0x11223344 before, where the low bytes of VALUE were stored there.
fn stored(alloc: Global, width: Width, offset: u32) -> Result<u32, AllocError>
    requires aligned { offset % 4 ≡ 0 }
    requires range { offset < 0x4_0000 }
{
    let rom = rom_of(alloc, &store_fixed(width, x(5), offset))?;
    let mut hart = SmallHart::new(alloc, 0)?;
    hart.set_word(offset, 0x1122_3344);
    hart.set_reg(x(5), VALUE);
    leaves(&mut hart, &rom, 8, 2);
    Ok(hart.word(offset))
}

#[test]
fn each_word_is_loaded(rt: HostRuntime) -> Result<(), Fail> {
    let alloc = rt.alloc();
    for value in [
        0,
        1,
        0x7ff,
        0x800,
        0xfff,
        0x7fff_ffff,
        0x8000_0000,
        0xffff_f800,
        0xffff_ffff,
    ] {
        let rom = rom_of(alloc, &load_immediate(x(5), value))?;
        let mut hart = SmallHart::new(alloc, 0)?;
        assert_eq!(rt; leaves(&mut hart, &rom, 8, 2), Some(2));
        assert_eq!(rt; hart.reg(x(5)), value);
    }
    Ok(())
}

#[test]
fn each_width_is_loaded_and_stored(rt: HostRuntime) -> Result<(), Fail> {
    let alloc = rt.alloc();
    for (width, number, word) in [
        (Width::Byte, 0xef, 0x1122_33ef),
        (Width::Half, 0xcdef, 0x1122_cdef),
        (Width::Word, VALUE, VALUE),
    ] {
        for offset in [0, 0x7fc, 0x800, 0xffc, 0x3_fffc] {
            assert!(rt; offset % 4 == 0);
            assert!(rt; offset < 0x4_0000);
            assert_eq!(rt; loaded(alloc, width, offset)?, number, "from {offset}");
            assert_eq!(rt; stored(alloc, width, offset)?, word, "at {offset}");
        }
    }
    Ok(())
}

#[test]
fn appended_instructions_run_in_order(rt: HostRuntime) -> Result<(), Fail> {
    let alloc = rt.alloc();
    let mut instrs = Instrs::new(alloc);
    instrs.append(&load_immediate(x(5), 0x1234_5678))?;
    instrs.append(&[])?;
    instrs.append(&store_fixed(Width::Word, x(5), 8))?;
    assert_eq!(rt; instrs.list().len(), 4);
    let rom = rom_of(alloc, instrs.list())?;
    let mut hart = SmallHart::new(alloc, 0)?;
    assert_eq!(rt; leaves(&mut hart, &rom, 16, 4), Some(4));
    assert_eq!(rt; hart.word(8), 0x1234_5678);
    Ok(())
}
