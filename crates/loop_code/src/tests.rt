//! Loops and scans on the hart, entered at each address and with each counter.

ghost use Rattle.std.specs.Prelude.{◌≡◌, ◌<◌, ◌≤◌, ℕ, pos, IfOk};
ghost use Rattle.block_code.specs.Tree.{plan_of};
ghost use Rattle.block_code.specs.Block.{Keeps, Spares};
ghost use Rattle.block_code.specs.Plan as plan;
ghost use Rattle.rv_isa.specs.declared.instr.Instr.TheVariants as instr;

mod sequences;

use crate::{counted, scan};
use block_code::{
    Block, Instrs, Tree, emit, entry, full, len, spared_words_are_kept, storeless_lines_keep,
};
use rv_encode::Words;
use rv_isa::{Imm12, ImmU, Instr, Reg};
use rv_machine::{Hart, Rom};
use std::alloc::{AllocError, Global};
use std::test::Fail;

/// ROM and RAM of 256 KiB each.
type SmallRom = Rom<0x4_0000>;

type SmallHart = Hart<0x4_0000, 0x4_0000>;

/// What a slot may hold: counters below a count of 100, at it and past it.
const COUNTERS: [u32; 6] = [0, 99, 100, 200, 0xffff_fffe, 0xffff_ffff];

fn x(number: u32) -> Reg
    requires { number < 32 }
    ensures { result ≡ number }
{
    Reg::new(number).unwrap()
}

/// A small immediate.
fn imm(value: u32) -> Imm12
    requires { value < 2048 }
    ensures { result ≡ pos value }
{
    Imm12::new(value as i32).unwrap()
}

/// Adds a number to x5.
fn add(number: u32) -> Instr
    requires { number < 2048 }
    ensures { result ≡ instr.Addi 5 5 (pos number) }
{
    Instr::Addi {
        rd: x(5),
        rs1: x(5),
        imm: imm(number),
    }
}

/// Adds a number to x5, so many times.
fn adds(alloc: Global, times: u32, number: u32) -> Result<Block, AllocError>
    requires times { times ≤ 2000 }
    requires number { number < 2048 }
    ensures len { IfOk result (λ block. plan.len (plan_of block) ≡ times) }
    ensures full { IfOk result (λ block. plan.full (plan_of block) ≡ times) }
    ensures entry { IfOk result (λ block. plan.entry (plan_of block) ≡ times) }
    ensures kept { IfOk result (λ block. (slot : ℕ) → Keeps slot (plan_of block)) }
    ensures spared { IfOk result (λ block. (slot : ℕ) → Spares slot (plan_of block)) }
{
    let mut instrs = Instrs::new(alloc);
    for index in 0..times {
        instrs.push(add(number))?;
    }
    storeless_lines_keep();
    Ok(Block::of(Tree::Line(instrs)))
}

/// Adds 1 to x5 for each counter below 100.
fn hundred(alloc: Global) -> Result<Block, AllocError> {
    counted(alloc, 100, 0, adds(alloc, 1, 1)?)
}

/// Adds 1 to x5 for each counter below 7, for each below 10.
fn nested(alloc: Global) -> Result<Block, AllocError> {
    let inner = counted(alloc, 7, 0, adds(alloc, 1, 1)?)?;
    spared_words_are_kept();
    counted(alloc, 10, 4, inner)
}

/// Adds so many times 1 or, where x6 is 0, 2 to x5, for each counter below 3.
fn chosen(alloc: Global, times: u32) -> Result<Block, AllocError>
    requires { times ≤ 2000 }
{
    let then_part = Box::new(alloc, adds(alloc, times, 1)?.into_tree())?;
    let else_part = Box::new(alloc, adds(alloc, times, 2)?.into_tree())?;
    let body = Block::of(Tree::If {
        test: x(6),
        then_part,
        else_part,
    });
    spared_words_are_kept();
    counted(alloc, 3, 0, body)
}

/// Searches the least counter below 10 that is the value of x5, and puts 1 into x9 where there is one, else 2.
fn search(alloc: Global) -> Result<Block, AllocError> {
    let base = Instr::Lui {
        rd: x(7),
        imm: ImmU::new(0x1_0000).unwrap(),
    };
    let counter = Instr::Lw {
        rd: x(7),
        rs1: x(7),
        imm: imm(4),
    };
    let differs = Instr::Xor {
        rd: x(7),
        rs1: x(7),
        rs2: x(5),
    };
    let same = Instr::Sltiu {
        rd: x(6),
        rs1: x(7),
        imm: imm(1),
    };
    storeless_lines_keep();
    let mut instrs = Instrs::new(alloc);
    instrs.append(&[base, counter, differs, same])?;
    let guard = Block::of(Tree::Line(instrs));
    let (found, none) = (answer(alloc, 1)?, answer(alloc, 2)?);
    scan(alloc, 10, 4, guard, x(6), found, none)
}

/// Puts a number into x9.
fn answer(alloc: Global, number: u32) -> Result<Block, AllocError>
    requires { number < 2048 }
    ensures len { IfOk result (λ block. plan.len (plan_of block) ≡ 1) }
    ensures full { IfOk result (λ block. plan.full (plan_of block) ≡ 1) }
    ensures entry { IfOk result (λ block. plan.entry (plan_of block) ≡ 1) }
{
    let mut instrs = Instrs::new(alloc);
    instrs.push(Instr::Addi {
        rd: x(9),
        rs1: x(0),
        imm: imm(number),
    })?;
    Ok(Block::of(Tree::Line(instrs)))
}

/// ROM with the words of the block at address 0.
fn placed(alloc: Global, block: &Block) -> Result<SmallRom, AllocError> {
    let mut words = Words::new(alloc);
    emit(block, &mut words)?;
    filled(alloc, &words)
}

/// ROM with the words from address 0 on, or with none where it can't hold them.
fn filled(alloc: Global, words: &Words) -> Result<SmallRom, AllocError> {
    let list = words.list();
    let written: &[u32] = if list.len() <= 0x1_0000 { list } else { &[] };
    SmallRom::new(alloc, written)
}

/// The hart at the address with these counters in the slots 0 and 4, and a great count in the scratch register.
fn entered(alloc: Global, pc: u32, low: u32, high: u32) -> Result<SmallHart, AllocError> {
    let mut hart = SmallHart::new(alloc, pc)?;
    hart.set_word(0, low);
    hart.set_word(4, high);
    hart.set_reg(x(22), 0xffff_ffff);
    Ok(hart)
}

/// The number of ticks until the hart is at the address or its next tick traps, at most so many.
fn leaves(hart: &mut SmallHart, rom: &SmallRom, end: u32, limit: u64) -> Option<u64> {
    for ticks in 0..limit {
        if hart.pc() == end || hart.tick(rom, 0).trapped {
            return Some(ticks);
        }
    }
    if hart.pc() == end { Some(limit) } else { None }
}

#[test]
fn a_loop_runs_its_body_for_each_counter(rt: HostRuntime) -> Result<(), Fail> {
    let alloc = rt.alloc();
    let block = hundred(alloc)?;
    assert_eq!(rt; len(&block), 14);
    let rom = placed(alloc, &block)?;
    let mut hart = entered(alloc, 0, 7, 7)?;
    assert_eq!(rt; leaves(&mut hart, &rom, 56, full(&block)), Some(1108));
    assert_eq!(rt; hart.reg(x(5)), 100);
    assert_eq!(rt; hart.word(0), 100);
    Ok(())
}

#[test]
fn a_loop_is_left_from_each_place(rt: HostRuntime) -> Result<(), Fail> {
    let alloc = rt.alloc();
    let block = hundred(alloc)?;
    let rom = placed(alloc, &block)?;
    for pc in 0..56 {
        for counter in COUNTERS {
            let mut hart = entered(alloc, pc, counter, 0)?;
            assert!(rt;
                leaves(&mut hart, &rom, 56, entry(&block)).is_some(),
                "at {pc} with {counter}"
            );
        }
    }
    Ok(())
}

#[test]
fn a_loop_in_a_loop_runs_its_body_for_each_pair(rt: HostRuntime) -> Result<(), Fail> {
    let alloc = rt.alloc();
    let block = nested(alloc)?;
    let rom = placed(alloc, &block)?;
    let mut hart = entered(alloc, 0, 9, 9)?;
    assert!(rt; leaves(&mut hart, &rom, 108, full(&block)).is_some());
    assert_eq!(rt; (hart.pc(), hart.reg(x(5))), (108, 70));
    for pc in 0..108 {
        for inner in [0, 6, 7, 8, 0xffff_fffe, 0xffff_ffff] {
            for outer in [0, 9, 10, 11, 0xffff_fffe, 0xffff_ffff] {
                let mut hart = entered(alloc, pc, inner, outer)?;
                assert!(rt;
                    leaves(&mut hart, &rom, 108, entry(&block)).is_some(),
                    "at {pc} with {inner} and {outer}"
                );
            }
        }
    }
    Ok(())
}

/// Whether the address is one of the block's own words near its ends or between 1,100 words and 1,100 more, or one of
/// every 97.
fn is_tried(pc: u32, end: u32) -> bool {
    pc < 48 || (4432..4452).contains(&pc) || end < pc.saturating_add(24) || pc % 97 == 0
}

/// Whether the block is left from each address that is tried, with x6 at this value.
fn is_left(alloc: Global, block: &Block, end: u32, test: u32) -> Result<bool, AllocError> {
    let rom = placed(alloc, block)?;
    for pc in 0..end {
        if !is_tried(pc, end) {
            continue;
        }
        for counter in [0, 2, 3, 200, 0xffff_fffe, 0xffff_ffff] {
            let mut hart = entered(alloc, pc, counter, 0)?;
            hart.set_reg(x(6), test);
            if leaves(&mut hart, &rom, end, entry(block)).is_none() {
                return Ok(false);
            }
        }
    }
    Ok(true)
}

/// The value of x5 where the block, entered at its top, comes to its end in time.
fn sum(alloc: Global, block: &Block, end: u32, test: u32) -> Result<Option<u32>, AllocError> {
    let rom = placed(alloc, block)?;
    let mut hart = entered(alloc, 0, 9, 9)?;
    hart.set_reg(x(6), test);
    let ticks = leaves(&mut hart, &rom, end, full(block));
    Ok(ticks.filter(|_| hart.pc() == end).map(|_| hart.reg(x(5))))
}

#[test]
fn a_loop_reaches_over_a_long_body(rt: HostRuntime) -> Result<(), Fail> {
    let alloc = rt.alloc();
    let block = counted(alloc, 3, 0, adds(alloc, 1100, 1)?)?;
    assert_eq!(rt; sum(alloc, &block, 4452, 0)?, Some(3300));
    assert!(rt; is_left(alloc, &block, 4452, 0)?);
    Ok(())
}

#[test]
fn a_choice_reaches_over_long_parts(rt: HostRuntime) -> Result<(), Fail> {
    let alloc = rt.alloc();
    let block = chosen(alloc, 1100)?;
    for (test, wanted) in [(1, 3300), (0, 6600)] {
        assert_eq!(rt; sum(alloc, &block, 8864, test)?, Some(wanted));
        assert!(rt; is_left(alloc, &block, 8864, test)?);
    }
    Ok(())
}

#[test]
fn a_scan_finds_the_least_counter(rt: HostRuntime) -> Result<(), Fail> {
    let alloc = rt.alloc();
    let block = search(alloc)?;
    let rom = placed(alloc, &block)?;
    for (wanted, answer, counter) in [(0, 1, 0), (3, 1, 3), (9, 1, 9), (10, 2, 10)] {
        let mut hart = SmallHart::new(alloc, 0)?;
        hart.set_reg(x(5), wanted);
        assert!(rt;
            leaves(&mut hart, &rom, 84, full(&block)).is_some(),
            "for {wanted}"
        );
        assert_eq!(rt; hart.pc(), 84);
        assert_eq!(rt; hart.reg(x(9)), answer, "for {wanted}");
        assert_eq!(rt; hart.word(4), counter, "for {wanted}");
    }
    Ok(())
}

#[test]
fn a_scan_is_left_from_each_place(rt: HostRuntime) -> Result<(), Fail> {
    let alloc = rt.alloc();
    let block = search(alloc)?;
    let rom = placed(alloc, &block)?;
    for pc in 0..84 {
        for counter in COUNTERS {
            let mut hart = entered(alloc, pc, 0, counter)?;
            assert!(rt;
                leaves(&mut hart, &rom, 84, entry(&block)).is_some(),
                "at {pc} with {counter}"
            );
        }
    }
    Ok(())
}
