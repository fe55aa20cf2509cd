//! The code of reads: the index of arguments, and what is read at it.

ghost use Rattle.std.specs.Prelude.{◌≡◌, ◌≤◌, ◌<◌, ◌++◌, ◌∷◌, [], OnOk, Some, length, slice_get};
ghost use Rattle.state_space.specs.Decoding.{exponent};
ghost use Rattle.state_space.specs.Sizes.{IsRange, IsSized};
ghost use Rattle.rv_isa.specs.declared.instr.Instr.TheVariants.{Slli, Srli};
ghost use Rattle.trap_model.specs.declared.width.Width.TheVariants.{Word};
ghost use Rattle.mask_guard.specs.Mask as mask;
ghost use Rattle.instr_select.specs.Terms as terms;

use crate::pieces::{argument, behind};
use asm_tree::Kind;
use block_code::Instrs;
use mask_guard::{address_of, decode_value, load_cell, mask_bits, shift_of};
use rv_isa::{Instr, Reg, Shift};
use state_layout::Map;
use state_space::{Range, Signature};
use std::alloc::AllocError;
use trap_model::{RAM_BASE, Width};

/// How many bits the index in a domain of so many values takes.
fn index_bits(size: u32) -> u32
    requires some { 1 ≤ size }
    requires few { size ≤ 65536 }
    ensures bits { result ≡ exponent size }
    ensures low { result < 32 }
{
    if size == 1 { 0 } else { mask_bits(size) }
}

/// The distance of a shift.
fn shift(by: u32) -> Shift
    requires { by < 32 }
    ensures { result ≡ by }
{
    let Some(shift) = Shift::new(by) else {
        unreachable!()
    };
    shift
}

/// Appends code that puts the index of one argument more, in the next register, behind that of the arguments before. x21 is
/// lost.
///
/// # Errors
///
/// `AllocError` where there is no memory for it; a first part of it may then stand in the list.
pub(crate) fn joined(out: &mut Instrs, register: Reg, range: Range) -> Result<(), AllocError>
    requires next { register < 31 }
    requires range { IsRange range }
    ensures { OnOk result (out.new ≡ out.old ++ terms.joined_line range register) }
{
    let next = behind(register);
    argument(out, next, range)?;
    out.append(&[
        Instr::Slli {
            rd: register,
            rs1: register,
            shift: shift(index_bits(range.size)),
        },
        Instr::Add {
            rd: register,
            rs1: register,
            rs2: next,
        },
    ])
}

/// Where the table of a static function begins, modulo 2^32.
fn table_start(map: &Map, tables: u32, fun: u32) -> u32
    requires { fun < length map.now.signatures }
    ensures { result ≡ terms.table_start map.now tables fun }
{
    tables.wrapping_add(map.tables_before(fun as usize).wrapping_mul(4))
}

/// Appends code that makes of an index what stands there, in an array of cells of this width that begins at the address.
/// x21 is lost.
///
/// # Errors
///
/// `AllocError` where there is no memory for it; a first part of it may then stand in the list.
fn in_array(out: &mut Instrs, register: Reg, base: u32, access: Width) -> Result<(), AllocError>
    ensures { OnOk result (out.new ≡ out.old ++ (mask.address_of register base (mask.shift_of access) ++ mask.load_cell access register)) }
{
    address_of(out, register, base, shift_of(access))?;
    out.append(&[load_cell(access, register)])
}

/// Appends code that makes of an index in a table the index that its word there holds. x21 is lost.
///
/// # Errors
///
/// `AllocError` where there is no memory for it; a first part of it may then stand in the list.
fn in_table(out: &mut Instrs, register: Reg, base: u32) -> Result<(), AllocError>
    ensures { OnOk result (out.new ≡ out.old ++ (mask.address_of register base 2
        ++ (Slli register register 12 ∷ Srli register register 12 ∷ (mask.load_cell Word register ++ (Srli register register 12 ∷ []))))) }
{
    address_of(out, register, base, 2)?;
    let load = load_cell(Width::Word, register);
    out.append(&[
        far_left(register),
        far_right(register),
        load,
        far_right(register),
    ])
}

/// The register's value moves 12 bits up.
fn far_left(register: Reg) -> Instr
    ensures { result ≡ Slli register register 12 }
{
    Instr::Slli {
        rd: register,
        rs1: register,
        shift: shift(12),
    }
}

/// The register's value moves 12 bits down.
fn far_right(register: Reg) -> Instr
    ensures { result ≡ Srli register register 12 }
{
    Instr::Srli {
        rd: register,
        rs1: register,
        shift: shift(12),
    }
}

/// Appends code that makes of a padded index what is read there. x21 is lost.
///
/// # Errors
///
/// `AllocError` where there is no memory for it; a first part of it may then stand in the list.
fn cell(
    out: &mut Instrs,
    map: &Map,
    tables: u32,
    fun: u32,
    kind: Kind,
    register: Reg,
) -> Result<(), AllocError>
    requires { fun < length map.now.signatures }
    ensures { OnOk result (out.new ≡ out.old ++ terms.cell_line map.now tables fun kind register) }
{
    let number = fun as usize;
    match kind {
        Kind::Controlled | Kind::Output => {
            let start = RAM_BASE + map.array_start(number);
            in_array(out, register, start, map.access_at(number))
        }
        Kind::Input => in_array(
            out,
            register,
            RAM_BASE + map.kept_start(number),
            Width::Word,
        ),
        Kind::Static => in_table(out, register, table_start(map, tables, fun)),
    }
}

/// Appends code that makes of a padded index the function's value there. x21 is lost.
///
/// # Errors
///
/// `AllocError` where there is no memory for it; a first part of it may then stand in the list.
pub(crate) fn read(
    out: &mut Instrs,
    map: &Map,
    tables: u32,
    fun: u32,
    signature: &Signature,
    register: Reg,
) -> Result<(), AllocError>
    requires there { slice_get map.now.signatures fun ≡ Some signature.now }
    requires sized { IsSized signature.now }
    ensures { OnOk result (out.new ≡ out.old ++ terms.read_line map.now tables fun signature.now register) }
{
    cell(out, map, tables, fun, signature.kind, register)?;
    decode_value(
        out,
        register,
        signature.codomain.size,
        signature.codomain.lo,
    )
}
