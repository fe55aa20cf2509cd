//! The code that blocks have of their own.

ghost use Rattle.std.specs.Prelude.{◌≡◌, ℕ, ℤ, pos, ◌+◌, ◌<◌, ◌≤◌, ◌^◌, ◌⊎◌, ◌++◌, ◌∷◌, []};
ghost use Rattle.block_code.specs.Plan as plan;

use crate::operands::{imm_b, imm_j, imm12, reg};
use crate::sequence::{
    SCRATCH, high_part, load_fixed, load_immediate, low_part, ram_address, store_fixed,
};
use rv_isa::{Instr, Reg};
use trap_model::Width;

const OTHER_SCRATCH: u32 = 22;

/// A jump over so many words forward.
pub(crate) fn forward(words: u64) -> Instr
    requires { words < 262144 }
    ensures { result ≡ plan.forward words }
{
    Instr::Jal {
        rd: reg(0),
        imm: imm_j(4 * words as i32),
    }
}

/// A jump back over so many words.
pub(crate) fn backward(words: u64) -> Instr
    requires { words ≤ 262144 }
    ensures { result ≡ plan.backward words }
{
    Instr::Jal {
        rd: reg(0),
        imm: imm_j(-(4 * words as i32)),
    }
}

/// A skip of so many bytes where the register is not 0.
fn skip_if_set(test: Reg, offset: u32) -> Instr
    requires even { (offset ≡ 8) ⊎ (offset ≡ 24) }
    ensures { result ≡ plan.skip_if_set test offset }
{
    Instr::Bne {
        rs1: test,
        rs2: reg(0),
        imm: imm_b(offset as i32),
    }
}

/// The code of a choice before its then part, with the jump over so many words to its else part.
pub(crate) fn choice(test: Reg, words: u64) -> [Instr; 2]
    requires { words < 262144 }
    ensures { result ≡ plan.skip_if_set test 8 ∷ plan.forward words ∷ [] }
{
    [skip_if_set(test, 8), forward(words)]
}

/// The counter becomes 0.
fn reset(slot: u32) -> [Instr; 2]
    requires { slot < 2 ^ 20 }
    ensures { result ≡ plan.reset slot }
{
    store_fixed(Width::Word, reg(0), slot)
}

/// The counter and the count are loaded.
fn compared(count: u32, slot: u32) -> [Instr; 4]
    requires { slot < 2 ^ 20 }
    ensures { result ≡ plan.compared count slot }
{
    let [page, counter] = load_fixed(Width::Word, reg(SCRATCH), slot);
    let [high, low] = load_immediate(reg(OTHER_SCRATCH), count);
    [page, counter, high, low]
}

/// A skip over the next word where the counter is below the count.
fn skip_if_below() -> Instr
    ensures { result ≡ plan.skip_below }
{
    Instr::Bltu {
        rs1: reg(SCRATCH),
        rs2: reg(OTHER_SCRATCH),
        imm: imm_b(8),
    }
}

/// The counter becomes one more.
fn raised(slot: u32) -> [Instr; 4]
    requires { slot < 2 ^ 20 }
    ensures { result ≡ plan.raised slot }
{
    let high = high_part(ram_address(slot));
    let low = low_part(ram_address(slot));
    [
        Instr::Lui {
            rd: reg(OTHER_SCRATCH),
            imm: high,
        },
        Instr::Lw {
            rd: reg(SCRATCH),
            rs1: reg(OTHER_SCRATCH),
            imm: low,
        },
        Instr::Addi {
            rd: reg(SCRATCH),
            rs1: reg(SCRATCH),
            imm: imm12(1),
        },
        Instr::Sw {
            rs1: reg(OTHER_SCRATCH),
            rs2: reg(SCRATCH),
            imm: low,
        },
    ]
}

/// The code of a loop or a scan before its body or guard, with the jump over so many words behind it.
pub(crate) fn head(count: u32, slot: u32, words: u64) -> [Instr; 8]
    requires slot { slot < 2 ^ 20 }
    requires words { words < 262144 }
    ensures { result ≡ plan.reset slot ++ (plan.compared count slot ++ plan.skip_below ∷ plan.forward words ∷ []) }
{
    let [enter, store] = reset(slot);
    let [page, counter, high, low] = compared(count, slot);
    [
        enter,
        store,
        page,
        counter,
        high,
        low,
        skip_if_below(),
        forward(words),
    ]
}

/// The code of a loop behind its body, with the jump back over so many words.
pub(crate) fn tail(slot: u32, words: u64) -> [Instr; 5]
    requires slot { slot < 2 ^ 20 }
    requires words { words ≤ 262144 }
    ensures { result ≡ plan.raised slot ++ plan.backward words ∷ [] }
{
    let [page, counter, sum, store] = raised(slot);
    [page, counter, sum, store, backward(words)]
}

/// The code of a scan behind its guard: the tail of a loop, and a skip over it where the test register is not 0.
pub(crate) fn judged_tail(test: Reg, slot: u32, words: u64) -> [Instr; 6]
    requires slot { slot < 2 ^ 20 }
    requires words { words ≤ 262144 }
    ensures { result ≡ plan.skip_if_set test 24 ∷ (plan.raised slot ++ plan.backward words ∷ []) }
{
    let [page, counter, sum, store, back] = tail(slot, words);
    [skip_if_set(test, 24), page, counter, sum, store, back]
}
