//! The operands of instructions, read from the text behind the mnemonic. Each function answers them in the order of the
//! instruction's fields.

ghost use Rattle.std.specs.Prelude.{◌≡◌};
ghost use Rattle.rv_line.specs.Forms as forms;
ghost use Rattle.rv_line.specs.Gives.{Gives};
ghost use Rattle.rv_line.specs.Pieces.{pieces};
ghost use Rattle.rv_line.specs.Words.{formed};

use crate::fault::LineFault;
use crate::labels::Labels;
use crate::scanning::{end, sign, word};
use crate::words::{
    self, imm_b, imm_j, imm_u, imm12, is_number, is_register, is_target, raw_word, register,
};
use rv_isa::{Imm12, ImmB, ImmJ, ImmU, Reg, Shift};

/// Nothing, where the words have their forms.
fn formed(test: bool) -> Result<(), LineFault>
    ensures { result ≡ formed test }
{
    if test { Ok(()) } else { Err(LineFault::Form) }
}

/// Two words with a comma between them.
#[tactic(auto, unfolding(crate::specs::Forms::two))]
fn two(text: &[u8]) -> Result<(&[u8], &[u8]), LineFault>
    ensures { Gives (λ w. (w.0.now, w.1.now)) result (forms.two (pieces text.now)) }
{
    let (first, rest) = word(text)?;
    let rest = sign(rest, b',')?;
    let (second, rest) = word(rest)?;
    end(rest)?;
    Ok((first, second))
}

/// Three words with commas between them.
#[tactic(auto, unfolding(crate::specs::Forms::three))]
fn three(text: &[u8]) -> Result<(&[u8], &[u8], &[u8]), LineFault>
    ensures { Gives (λ w. (w.0.now, w.1.now, w.2.now)) result (forms.three (pieces text.now)) }
{
    let (first, rest) = word(text)?;
    let rest = sign(rest, b',')?;
    let (second, rest) = word(rest)?;
    let rest = sign(rest, b',')?;
    let (third, rest) = word(rest)?;
    end(rest)?;
    Ok((first, second, third))
}

/// A word, a comma, and a word with one in parentheses behind it.
#[tactic(auto, unfolding(crate::specs::Forms::based))]
fn based(text: &[u8]) -> Result<(&[u8], &[u8], &[u8]), LineFault>
    ensures { Gives (λ w. (w.0.now, w.1.now, w.2.now)) result (forms.based (pieces text.now)) }
{
    let (first, rest) = word(text)?;
    let rest = sign(rest, b',')?;
    let (second, rest) = word(rest)?;
    let rest = sign(rest, b'(')?;
    let (third, rest) = word(rest)?;
    let rest = sign(rest, b')')?;
    end(rest)?;
    Ok((first, second, third))
}

/// One word.
#[tactic(auto, unfolding(crate::specs::Forms::one))]
fn one(text: &[u8]) -> Result<&[u8], LineFault>
    ensures { Gives (λ w. w.now) result (forms.one (pieces text.now)) }
{
    let (first, rest) = word(text)?;
    end(rest)?;
    Ok(first)
}

/// `xD, xA, xB`
#[tactic(auto, unfolding(crate::specs::Forms::registers))]
pub fn registers(
    _labels: &Labels,
    _here: Option<u32>,
    text: &[u8],
) -> Result<(Reg, Reg, Reg), LineFault>
    ensures { result ≡ forms.registers (pieces text.now) }
{
    let (first, second, third) = three(text)?;
    formed(is_register(first) && is_register(second) && is_register(third))?;
    let rd = register(first)?;
    let rs1 = register(second)?;
    let rs2 = register(third)?;
    Ok((rd, rs1, rs2))
}

/// `xD, xA, N`
#[tactic(auto, unfolding(crate::specs::Forms::immediate))]
pub fn immediate(
    _labels: &Labels,
    _here: Option<u32>,
    text: &[u8],
) -> Result<(Reg, Reg, Imm12), LineFault>
    ensures { result ≡ forms.immediate (pieces text.now) }
{
    let (first, second, third) = three(text)?;
    formed(is_register(first) && is_register(second) && is_number(third))?;
    let rd = register(first)?;
    let rs1 = register(second)?;
    let imm = imm12(third)?;
    Ok((rd, rs1, imm))
}

/// `xD, xA, N`, the number being that of bits to shift by.
#[tactic(auto, unfolding(crate::specs::Forms::shift_by))]
pub fn shift(
    _labels: &Labels,
    _here: Option<u32>,
    text: &[u8],
) -> Result<(Reg, Reg, Shift), LineFault>
    ensures { result ≡ forms.shift_by (pieces text.now) }
{
    let (first, second, third) = three(text)?;
    formed(is_register(first) && is_register(second) && is_number(third))?;
    let rd = register(first)?;
    let rs1 = register(second)?;
    let bits = words::shift(third)?;
    Ok((rd, rs1, bits))
}

/// `xD, N(xA)`
#[tactic(auto, unfolding(crate::specs::Forms::load))]
pub fn load(
    _labels: &Labels,
    _here: Option<u32>,
    text: &[u8],
) -> Result<(Reg, Reg, Imm12), LineFault>
    ensures { result ≡ forms.load (pieces text.now) }
{
    let (first, second, third) = based(text)?;
    formed(is_register(first) && is_number(second) && is_register(third))?;
    let rd = register(first)?;
    let imm = imm12(second)?;
    let rs1 = register(third)?;
    Ok((rd, rs1, imm))
}

/// `xB, N(xA)`, xB being rs2.
#[tactic(auto, unfolding(crate::specs::Forms::store))]
pub fn store(
    _labels: &Labels,
    _here: Option<u32>,
    text: &[u8],
) -> Result<(Reg, Reg, Imm12), LineFault>
    ensures { result ≡ forms.store (pieces text.now) }
{
    let (first, second, third) = based(text)?;
    formed(is_register(first) && is_number(second) && is_register(third))?;
    let rs2 = register(first)?;
    let imm = imm12(second)?;
    let rs1 = register(third)?;
    Ok((rs1, rs2, imm))
}

/// `N, xA, xD`
#[tactic(auto, unfolding(crate::specs::Forms::fence))]
pub fn fence(
    _labels: &Labels,
    _here: Option<u32>,
    text: &[u8],
) -> Result<(Reg, Reg, Imm12), LineFault>
    ensures { result ≡ forms.fence (pieces text.now) }
{
    let (first, second, third) = three(text)?;
    formed(is_number(first) && is_register(second) && is_register(third))?;
    let imm = imm12(first)?;
    let rs1 = register(second)?;
    let rd = register(third)?;
    Ok((rd, rs1, imm))
}

/// `xD, N`
#[tactic(auto, unfolding(crate::specs::Forms::upper))]
pub fn upper(_labels: &Labels, _here: Option<u32>, text: &[u8]) -> Result<(Reg, ImmU), LineFault>
    ensures { result ≡ forms.upper (pieces text.now) }
{
    let (first, second) = two(text)?;
    formed(is_register(first) && is_number(second))?;
    let rd = register(first)?;
    let imm = imm_u(second)?;
    Ok((rd, imm))
}

/// `xA, xB, T`
#[tactic(auto, unfolding(crate::specs::Forms::branch))]
pub fn branch(
    labels: &Labels,
    here: Option<u32>,
    text: &[u8],
) -> Result<(Reg, Reg, ImmB), LineFault>
    ensures { result ≡ forms.branch labels.now here (pieces text.now) }
{
    let (first, second, third) = three(text)?;
    formed(is_register(first) && is_register(second) && is_target(third))?;
    let rs1 = register(first)?;
    let rs2 = register(second)?;
    let imm = imm_b(labels, here, third)?;
    Ok((rs1, rs2, imm))
}

/// `xD, T`
#[tactic(auto, unfolding(crate::specs::Forms::jump))]
pub fn jump(labels: &Labels, here: Option<u32>, text: &[u8]) -> Result<(Reg, ImmJ), LineFault>
    ensures { result ≡ forms.jump labels.now here (pieces text.now) }
{
    let (first, second) = two(text)?;
    formed(is_register(first) && is_target(second))?;
    let rd = register(first)?;
    let imm = imm_j(labels, here, second)?;
    Ok((rd, imm))
}

/// No operands.
pub fn bare(_labels: &Labels, _here: Option<u32>, text: &[u8]) -> Result<(), LineFault>
    ensures { result ≡ forms.end (pieces text.now) }
{
    end(text)
}

/// `N`, a word.
#[tactic(auto, unfolding(crate::specs::Forms::raw))]
pub fn raw(text: &[u8]) -> Result<u32, LineFault>
    ensures { result ≡ forms.raw (pieces text.now) }
{
    raw_word(one(text)?)
}
