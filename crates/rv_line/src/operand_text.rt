//! The operands of instructions as text, each text with a space before it: one function for each form. Each call appends
//! the whole text or, where no memory is left, nothing.

ghost use Rattle.std.specs.Prelude.{◌≡◌, ◌∷◌, ◌++◌, IsOk, OnOk, OnErr};
ghost use Rattle.text_core.specs.WrittenPieces.{text_of};
ghost use Rattle.text_core.specs.declared.writing.Piece.TheVariants as pieces;
ghost use Rattle.rv_line.specs.Texts.{branch_text, comma_text, fence_text, immediate_text, jump_text, load_text, register_text, registers_text, shift_text, store_text, upper_text};

use rv_isa::{Imm12, ImmB, ImmJ, ImmU, Reg, Shift};
use std::alloc::AllocError;
use text_core::{Piece, put_pieces};

/// The number of a register.
fn number(reg: Reg) -> Piece<'static>
    ensures { result ≡ pieces.Decimal reg }
{
    Piece::Decimal(u64::from(reg.number()))
}

/// A signed number.
fn signed(number: i32) -> Piece<'static>
    ensures { result ≡ pieces.Signed number }
{
    Piece::Signed(i64::from(number))
}

/// Appends ` xA, N`.
fn put_two(out: &mut Vec<u8>, first: Reg, last: Piece<'_>) -> Result<(), AllocError>
    ensures ok { OnOk result (out.new.items ≡ out.old.items ++ 32 ∷ (register_text first ++ comma_text (text_of last.entry))) }
    ensures err { OnErr result (out.new.items ≡ out.old.items) }
{
    let comma = Piece::Text(b", ");
    put_pieces(out, &[Piece::Text(b" x"), number(first), comma, last])
}

/// Appends ` xA, xB`, and behind that a comma and what else stands before the last number, and that number.
fn put_three<'a>(
    out: &mut Vec<u8>,
    first: Reg,
    second: Reg,
    comma: &'a [u8],
    last: Piece<'a>,
) -> Result<(), AllocError>
    ensures ok { OnOk result (out.new.items ≡ out.old.items ++ 32 ∷ (register_text first ++ comma_text (register_text second ++ (comma.now ++ text_of last.entry)))) }
    ensures err { OnErr result (out.new.items ≡ out.old.items) }
{
    let between = Piece::Text(b", x");
    let (first, second) = (number(first), number(second));
    let comma = Piece::Text(comma);
    put_pieces(
        out,
        &[Piece::Text(b" x"), first, between, second, comma, last],
    )
}

/// Appends ` xD, xA, xB`.
#[tactic(auto, unfolding(crate::specs::Texts::registers_text))]
pub fn registers(out: &mut Vec<u8>, rd: Reg, rs1: Reg, rs2: Reg) -> Result<(), AllocError>
    ensures ok { OnOk result (out.new.items ≡ out.old.items ++ registers_text rd rs1 rs2) }
    ensures err { OnErr result (out.new.items ≡ out.old.items) }
{
    put_three(out, rd, rs1, b", x", number(rs2))
}

/// Appends ` xD, xA, N`.
#[tactic(auto, unfolding(crate::specs::Texts::immediate_text))]
pub fn immediate(out: &mut Vec<u8>, rd: Reg, rs1: Reg, imm: Imm12) -> Result<(), AllocError>
    ensures ok { OnOk result (out.new.items ≡ out.old.items ++ immediate_text rd rs1 imm) }
    ensures err { OnErr result (out.new.items ≡ out.old.items) }
{
    put_three(out, rd, rs1, b", ", signed(imm.value()))
}

/// Appends ` xD, xA, N`, the number being that of bits to shift by.
#[tactic(auto, unfolding(crate::specs::Texts::shift_text))]
pub fn shift(out: &mut Vec<u8>, rd: Reg, rs1: Reg, shift: Shift) -> Result<(), AllocError>
    ensures ok { OnOk result (out.new.items ≡ out.old.items ++ shift_text rd rs1 shift) }
    ensures err { OnErr result (out.new.items ≡ out.old.items) }
{
    let bits = Piece::Decimal(u64::from(shift.value()));
    put_three(out, rd, rs1, b", ", bits)
}

/// Appends ` xD, N(xA)`.
#[tactic(auto, unfolding(crate::specs::Texts::load_text))]
pub fn load(out: &mut Vec<u8>, rd: Reg, rs1: Reg, imm: Imm12) -> Result<(), AllocError>
    ensures ok { OnOk result (out.new.items ≡ out.old.items ++ load_text rd rs1 imm) }
    ensures err { OnErr result (out.new.items ≡ out.old.items) }
{
    put_pieces(
        out,
        &[
            Piece::Text(b" x"),
            number(rd),
            Piece::Text(b", "),
            signed(imm.value()),
            Piece::Text(b"(x"),
            number(rs1),
            Piece::Text(b")"),
        ],
    )
}

/// Appends ` xB, N(xA)`, xB being `rs2`.
#[tactic(auto, unfolding(crate::specs::Texts::store_text))]
pub fn store(out: &mut Vec<u8>, rs1: Reg, rs2: Reg, imm: Imm12) -> Result<(), AllocError>
    ensures ok { OnOk result (out.new.items ≡ out.old.items ++ store_text rs1 rs2 imm) }
    ensures err { OnErr result (out.new.items ≡ out.old.items) }
{
    load(out, rs2, rs1, imm)
}

/// Appends ` xA, xB, N`, the number being a displacement in bytes.
#[tactic(auto, unfolding(crate::specs::Texts::branch_text, crate::specs::Texts::immediate_text))]
pub fn branch(out: &mut Vec<u8>, rs1: Reg, rs2: Reg, imm: ImmB) -> Result<(), AllocError>
    ensures ok { OnOk result (out.new.items ≡ out.old.items ++ branch_text rs1 rs2 imm) }
    ensures err { OnErr result (out.new.items ≡ out.old.items) }
{
    put_three(out, rs1, rs2, b", ", signed(imm.value()))
}

/// Appends ` xD, N`, the number being a displacement in bytes.
#[tactic(auto, unfolding(crate::specs::Texts::jump_text))]
pub fn jump(out: &mut Vec<u8>, rd: Reg, imm: ImmJ) -> Result<(), AllocError>
    ensures ok { OnOk result (out.new.items ≡ out.old.items ++ jump_text rd imm) }
    ensures err { OnErr result (out.new.items ≡ out.old.items) }
{
    put_two(out, rd, signed(imm.value()))
}

/// Appends ` xD, N`, the number being the upper 20 bits.
#[tactic(auto, unfolding(crate::specs::Texts::upper_text))]
pub fn upper(out: &mut Vec<u8>, rd: Reg, imm: ImmU) -> Result<(), AllocError>
    ensures ok { OnOk result (out.new.items ≡ out.old.items ++ upper_text rd imm) }
    ensures err { OnErr result (out.new.items ≡ out.old.items) }
{
    put_two(out, rd, Piece::Decimal(u64::from(imm.value())))
}

/// Appends ` N, xA, xD`.
#[tactic(auto, unfolding(crate::specs::Texts::fence_text))]
pub fn fence(out: &mut Vec<u8>, rd: Reg, rs1: Reg, imm: Imm12) -> Result<(), AllocError>
    ensures ok { OnOk result (out.new.items ≡ out.old.items ++ fence_text rd rs1 imm) }
    ensures err { OnErr result (out.new.items ≡ out.old.items) }
{
    let comma = Piece::Text(b", x");
    let (imm, rs1, rd) = (signed(imm.value()), number(rs1), number(rd));
    put_pieces(out, &[Piece::Text(b" "), imm, comma, rs1, comma, rd])
}

/// Appends nothing, as for an instruction without operands.
pub fn bare(_out: &mut Vec<u8>) -> Result<(), AllocError>
    ensures ok { IsOk result }
    ensures text { _out.new.items ≡ _out.old.items }
{
    Ok(())
}
