//! Staging an update.

ghost use Rattle.std.specs.Prelude.{◌≡◌, ◌≤◌, ◌<◌, ◌+◌, ◌^◌, ◌++◌, length, OnOk, IfOk};
ghost use Rattle.rv_isa.specs.Operand.{IsImm12, IsImmB};
ghost use Rattle.block_code.specs.Tree.{plan_of};
ghost use Rattle.block_code.specs.Plan as plan;
ghost use Rattle.block_code.specs.Plan.{full, len};
ghost use Rattle.block_code.specs.Silent.{IsStorelessPlan};
ghost use Rattle.mask_guard.specs.MaskLaw.{IsMaskable};
ghost use Rattle.staged_commit.specs.Code as code;
ghost use Rattle.staged_commit.specs.Law.{HasState, IsCoded, Stages, StagesOnly, StagesThrough};

use crate::registers::{
    first_register, flag_register, one_register, place_register, scratch_register, second_register,
    staged_register, zero_register,
};
use block_code::sequence::{load_by, load_immediate, store_fixed};
use block_code::{Block, Instrs, Tree};
use mask_guard::{address_of, mask_index, shift_of, store_cell};
use rv_isa::{Imm12, ImmB, Instr};
use state_layout::Map;
use std::alloc::{AllocError, Global};
use trap_model::{RAM_BASE, Width};

/// A number that an instruction holds.
fn immediate(value: i32) -> Imm12
    requires { IsImm12 value }
    ensures { result ≡ value }
{
    let Some(imm) = Imm12::new(value) else {
        unreachable!()
    };
    imm
}

/// A skip over so many bytes, those of the skip among them.
fn skip(bytes: i32) -> ImmB
    requires { IsImmB bytes }
    ensures { result ≡ bytes }
{
    let Some(imm) = ImmB::new(bytes) else {
        unreachable!()
    };
    imm
}

/// The value in the second register becomes its index.
fn index_value(map: &Map, fun: usize) -> [Instr; 3]
    requires { fun < length map.now.signatures }
    ensures { result ≡ code.index_value map.now fun }
{
    let [high, low] = load_immediate(scratch_register(), map.range_at(fun).lo.cast_unsigned());
    let less = Instr::Sub {
        rd: second_register(),
        rs1: second_register(),
        rs2: scratch_register(),
    };
    [high, low, less]
}

/// Appends code that makes of the padded index in the first register the addresses of the flag and of the staged value.
/// An error is want of memory.
fn stage_addresses(line: &mut Instrs, map: &Map, fun: usize) -> Result<(), AllocError>
    requires { fun < length map.now.signatures }
    ensures { OnOk result (line.new ≡ line.old ++ code.stage_addresses map.now fun) }
{
    let flags = RAM_BASE + map.flags_start(fun);
    let staged = RAM_BASE + map.staged_start(fun);
    line.push(Instr::Addi {
        rd: place_register(),
        rs1: first_register(),
        imm: immediate(0),
    })?;
    let by = shift_of(map.layout().flag_access());
    address_of(line, place_register(), flags, by)?;
    address_of(line, first_register(), staged, shift_of(map.access_at(fun)))
}

/// The flag and the staged value are loaded, and then stored anew.
fn stage_stores(map: &Map, fun: usize) -> [Instr; 5]
    requires { fun < length map.now.signatures }
    ensures { result ≡ code.stage_stores map.now fun }
{
    let flag = map.layout().flag_access();
    let value = map.access_at(fun);
    [
        load_by(flag, flag_register(), place_register(), immediate(0)),
        load_by(value, staged_register(), first_register(), immediate(0)),
        store_cell(value, first_register(), second_register()),
        Instr::Addi {
            rd: one_register(),
            rs1: zero_register(),
            imm: immediate(1),
        },
        store_cell(flag, place_register(), one_register()),
    ]
}

/// The clash mark is set, unless nothing was staged or the value is the same.
fn stage_mark(map: &Map) -> [Instr; 4]
    requires { IsCoded map.now }
    ensures { result ≡ code.stage_mark map.now }
{
    let unset = Instr::Beq {
        rs1: flag_register(),
        rs2: zero_register(),
        imm: skip(16),
    };
    let same = Instr::Beq {
        rs1: staged_register(),
        rs2: second_register(),
        imm: skip(12),
    };
    let [page, store] = store_fixed(Width::Word, one_register(), map.clash());
    [unset, same, page, store]
}

/// The line that stages a value, for a function with an array of this size. An error is want of memory.
fn stage_line(alloc: Global, map: &Map, fun: usize, size: u32) -> Result<Instrs, AllocError>
    requires coded { IsCoded map.now }
    requires fun { fun < length map.now.signatures }
    requires size { IsMaskable size }
    ensures { IfOk result (λ line. line ≡ code.stage_line map.now fun size) }
{
    let mut line = Instrs::new(alloc);
    mask_index(&mut line, first_register(), size)?;
    line.append(&index_value(map, fun))?;
    stage_addresses(&mut line, map, fun)?;
    line.append(&stage_stores(map, fun))?;
    line.append(&stage_mark(map))?;
    Ok(line)
}

/// One part, then another. An error is want of memory.
fn in_turn(alloc: Global, first: Tree, second: Tree) -> Result<Tree, AllocError>
    ensures { IfOk result (λ tree. plan_of tree ≡ plan.Seq (plan_of first) (plan_of second)) }
{
    let first = Box::new(alloc, first)?;
    let second = Box::new(alloc, second)?;
    Ok(Tree::Seq(first, second))
}

/// How many places the arrays of a function have.
fn padded_at(map: &Map, fun: u32) -> u32
    requires coded { IsCoded map.now }
    requires state { HasState map.now.signatures fun }
    ensures size { result ≡ code.padded_at map.now fun }
    ensures maskable { IsMaskable result }
{
    map.space().array(fun).padded
}

/// The tree of the block. An error is want of memory.
fn stage_tree(
    alloc: Global,
    map: &Map,
    fun: u32,
    address: Tree,
    value: Tree,
) -> Result<Tree, AllocError>
    requires coded { IsCoded map.now }
    requires state { HasState map.now.signatures fun }
    ensures { IfOk result (λ tree. plan_of tree
        ≡ code.stage_update map.now fun (code.padded_at map.now fun) (plan_of address) (plan_of value)) }
{
    let size = padded_at(map, fun);
    let line = stage_line(alloc, map, fun as usize, size)?;
    let staged = in_turn(alloc, value, Tree::Line(line))?;
    in_turn(alloc, address, staged)
}

/// Stages an update of a function: where `address` leaves the padded index of a location in x5, and `value` leaves that
/// as it is and the value in x6, this value is staged for this location. Where another is staged there, the clash mark
/// is set. Whatever else they leave, the block is left behind its last word without a trap if they are, and stores
/// staged values and flags of the function and the mark alone. Neither part stores, or has a loop.
///
/// # Errors
///
/// `AllocError` where there is no memory for it.
pub fn stage_update(
    alloc: Global,
    map: &Map,
    fun: u32,
    address: Block,
    value: Block,
) -> Result<Block, AllocError>
    requires coded { IsCoded map.now }
    requires state { HasState map.now.signatures fun }
    requires address { IsStorelessPlan (plan_of address) }
    requires value { IsStorelessPlan (plan_of value) }
    requires weight { len (plan_of address) + len (plan_of value) + 40 ≤ 262144 }
    ensures plan { IfOk result (λ block. plan_of block
        ≡ code.stage_update map.now fun (code.padded_at map.now fun) (plan_of address) (plan_of value)) }
    ensures stages { IfOk result (λ block. Stages map.now fun (plan_of address) (plan_of value) (plan_of block)) }
    ensures through { IfOk result (λ block. StagesThrough map.now (plan_of address) (plan_of value) (plan_of block)) }
    ensures touches { IfOk result (λ block. StagesOnly map.now fun (plan_of address) (plan_of value) (plan_of block)) }
    ensures len { IfOk result (λ block. len (plan_of block) ≤ len (plan_of address) + len (plan_of value) + 40) }
    ensures full { IfOk result (λ block. full (plan_of block) ≤ full (plan_of address) + full (plan_of value) + 40) }
{
    let tree = stage_tree(alloc, map, fun, address.into_tree(), value.into_tree())?;
    Ok(Block::of(tree))
}
