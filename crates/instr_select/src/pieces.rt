//! The code of operators: of the values in two registers, one behind the other, into the first.

ghost use Rattle.std.specs.Prelude.{◌≡◌, ◌<◌, ◌++◌, ◌∷◌, [], ◌⊎◌, pos, suc, OnErr, OnOk, ◌^◌, IfSome};
ghost use Rattle.std.specs.Int.RustNames.{FitsSigned};
ghost use Rattle.std.specs.Int.{w32};
ghost use Rattle.block_code.specs.Sequence as sequence;
ghost use Rattle.mask_guard.specs.Mask.{word_of};
ghost use Rattle.state_space.specs.Sizes.{IsRange};
ghost use Rattle.instr_select.specs.Operators as spec;
ghost use Rattle.instr_select.specs.Terms as terms;

use asm_tree::Op;
use block_code::Instrs;
use block_code::sequence::{load_fixed, load_immediate};
use mask_guard::{decode_value, mask_index};
use rv_isa::{Imm12, ImmB, Instr, Reg};
use state_space::Range;
use std::alloc::AllocError;
use trap_model::Width;

/// The register behind this one.
pub(crate) fn behind(register: Reg) -> Reg
    requires { register < 31 }
    ensures { result ≡ suc register }
{
    let Some(next) = Reg::new(register.number() + 1) else {
        unreachable!()
    };
    next
}

fn none() -> Reg
    ensures { result ≡ 0 }
{
    let Some(reg) = Reg::new(0) else {
        unreachable!()
    };
    reg
}

fn imm12(value: i32) -> Imm12
    requires { (value ≡ pos 0) ⊎ (value ≡ pos 1) }
    ensures { result ≡ value }
{
    let Some(imm) = Imm12::new(value) else {
        unreachable!()
    };
    imm
}

/// A skip over one instruction.
fn over_one() -> ImmB
    ensures { result ≡ pos 8 }
{
    let Some(imm) = ImmB::new(8) else {
        unreachable!()
    };
    imm
}

/// 1 where the register is 0, else 0.
fn clear(register: Reg) -> Instr
    ensures { spec.denied register ≡ result ∷ [] }
{
    Instr::Sltiu {
        rd: register,
        rs1: register,
        imm: imm12(1),
    }
}

/// 1 where the register is not 0, else 0.
fn set(register: Reg) -> Instr
    ensures { result ≡ spec.asserted register }
{
    Instr::Sltu {
        rd: register,
        rs1: none(),
        rs2: register,
    }
}

/// Appends code that makes 1 of 0 and 0 of every other value.
///
/// # Errors
///
/// `AllocError` where there is no memory for it; the list is then unchanged.
pub fn denied(out: &mut Instrs, register: Reg) -> Result<(), AllocError>
    ensures ok { OnOk result (out.new ≡ out.old ++ spec.denied register) }
    ensures err { OnErr result (out.new ≡ out.old) }
{
    out.append(&[clear(register)])
}

/// Appends code that makes of the values on both sides of an operator the value with it.
///
/// # Errors
///
/// `AllocError` where there is no memory for it; the list is then unchanged.
pub fn operated(out: &mut Instrs, op: Op, register: Reg) -> Result<(), AllocError>
    requires { register < 31 }
    ensures ok { OnOk result (out.new ≡ out.old ++ spec.operated op register) }
    ensures err { OnErr result (out.new ≡ out.old) }
{
    let next = behind(register);
    let less = Instr::Slt {
        rd: register,
        rs1: register,
        rs2: next,
    };
    let more = Instr::Slt {
        rd: register,
        rs1: next,
        rs2: register,
    };
    let difference = Instr::Sub {
        rd: register,
        rs1: register,
        rs2: next,
    };
    match op {
        Op::Add => out.append(&[Instr::Add {
            rd: register,
            rs1: register,
            rs2: next,
        }]),
        Op::Sub => out.append(&[difference]),
        Op::Eq => out.append(&[difference, clear(register)]),
        Op::Ne => out.append(&[difference, set(register)]),
        Op::Lt => out.append(&[less]),
        Op::Le => out.append(&[more, clear(register)]),
        Op::Gt => out.append(&[more]),
        Op::Ge => out.append(&[less, clear(register)]),
        Op::And => out.append(&[
            set(register),
            set(next),
            Instr::And {
                rd: register,
                rs1: register,
                rs2: next,
            },
        ]),
        Op::Or => out.append(&[
            set(register),
            set(next),
            Instr::Or {
                rd: register,
                rs1: register,
                rs2: next,
            },
        ]),
    }
}

/// Appends code that makes of two values the lesser.
///
/// # Errors
///
/// `AllocError` where there is no memory for it; the list is then unchanged.
pub fn lesser(out: &mut Instrs, register: Reg) -> Result<(), AllocError>
    requires { register < 31 }
    ensures ok { OnOk result (out.new ≡ out.old ++ spec.lesser register) }
    ensures err { OnErr result (out.new ≡ out.old) }
{
    let next = behind(register);
    out.append(&[
        Instr::Blt {
            rs1: register,
            rs2: next,
            imm: over_one(),
        },
        Instr::Addi {
            rd: register,
            rs1: next,
            imm: imm12(0),
        },
    ])
}

/// Appends code that makes of two values the greater.
///
/// # Errors
///
/// `AllocError` where there is no memory for it; the list is then unchanged.
pub fn greater(out: &mut Instrs, register: Reg) -> Result<(), AllocError>
    requires { register < 31 }
    ensures ok { OnOk result (out.new ≡ out.old ++ spec.greater register) }
    ensures err { OnErr result (out.new ≡ out.old) }
{
    let next = behind(register);
    out.append(&[
        Instr::Blt {
            rs1: next,
            rs2: register,
            imm: over_one(),
        },
        Instr::Addi {
            rd: register,
            rs1: next,
            imm: imm12(0),
        },
    ])
}

/// Appends code that makes a number a register's value.
///
/// # Errors
///
/// `AllocError` where there is no memory for it; the list is then unchanged.
pub fn number(out: &mut Instrs, register: Reg, value: i64) -> Result<(), AllocError>
    requires { FitsSigned w32 value }
    ensures ok { OnOk result (out.new ≡ out.old ++ sequence.load_immediate register (word_of value)) }
    ensures err { OnErr result (out.new ≡ out.old) }
{
    out.append(&load_immediate(register, (value as i32).cast_unsigned()))
}

/// Appends code that makes of an argument's value its index in its domain, whatever the value is. x21 is lost.
///
/// # Errors
///
/// `AllocError` where there is no memory for it; a first part of it may then stand in the list.
pub fn argument(out: &mut Instrs, register: Reg, range: Range) -> Result<(), AllocError>
    requires { IsRange range }
    ensures { OnOk result (out.new ≡ out.old ++ terms.argument_line range register) }
{
    let [high, low] = load_immediate(scratch(), range.lo.cast_unsigned());
    let from_lo = Instr::Sub {
        rd: register,
        rs1: register,
        rs2: scratch(),
    };
    out.append(&[high, low, from_lo])?;
    mask_index(out, register, range.size)
}

/// Appends code that makes the value of the binder with this slot a register's value: a loop's binder is decoded in the
/// loop's domain. x21 is lost.
///
/// # Errors
///
/// `AllocError` where there is no memory for it; a first part of it may then stand in the list.
pub fn binder(
    out: &mut Instrs,
    register: Reg,
    range: Option<Range>,
    slot: u32,
) -> Result<(), AllocError>
    requires low { slot < 2 ^ 20 }
    requires ranges { IfSome range (λ range. IsRange range) }
    ensures { OnOk result (out.new ≡ out.old ++ terms.binder_line range slot register) }
{
    out.append(&load_fixed(Width::Word, register, slot))?;
    match range {
        None => Ok(()),
        Some(range) => decode_value(out, register, range.size, range.lo),
    }
}

/// The register that holds nothing from one small sequence to the next.
fn scratch() -> Reg
    ensures { result ≡ sequence.scratch }
{
    let Some(reg) = Reg::new(21) else {
        unreachable!()
    };
    reg
}
