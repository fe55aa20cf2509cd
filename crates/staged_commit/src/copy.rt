//! Committing what is staged.

ghost use Rattle.std.specs.Prelude.{◌≡◌, ◌≤◌, [], pos, IfOk};
ghost use Rattle.block_code.specs.Tree.{plan_of};
ghost use Rattle.block_code.specs.Footprint.{LinesTouchOnly, only_in};
ghost use Rattle.block_code.specs.Plan as plan;
ghost use Rattle.block_code.specs.Plan.{full, len};
ghost use Rattle.block_code.specs.Sequence as sequence;
ghost use Rattle.state_space.specs.Locations.{is_state};
ghost use Rattle.trap_model.specs.declared.width.Width.TheVariants.{Word};
ghost use Rattle.state_layout.specs.Map.{IsCell, clash, state_cells};
ghost use Rattle.staged_commit.specs.Code as code;
ghost use Rattle.staged_commit.specs.Law.{Commits, GoesThrough, IsCoded};
ghost use Rattle.staged_commit.specs.Regions.{in_commit};
ghost use Rattle.staged_commit.specs.Weight.{unrolled_half};

use crate::registers::{first_register, zero_register};
use block_code::sequence::{load_fixed, store_fixed};
use block_code::{Block, Instrs, Tree};
use rv_isa::{ImmB, Instr};
use state_layout::{Cell, Map};
use std::alloc::{AllocError, Global};
use trap_model::Width;

/// A skip over four words behind it.
fn over_four() -> ImmB
    ensures { result ≡ pos 20 }
{
    let Some(imm) = ImmB::new(20) else {
        unreachable!()
    };
    imm
}

/// The staged value of a cell becomes its value where its flag is not 0.
fn commit_cell(map: &Map, cell: Cell) -> [Instr; 7]
    requires coded { IsCoded map.now }
    requires cell { IsCell is_state map.now.signatures cell }
    ensures { result ≡ code.commit_cell map.now cell }
{
    let value = map.access_at(cell.fun as usize);
    let [flag_page, flag] = load_fixed(
        map.layout().flag_access(),
        first_register(),
        map.flag_offset(cell),
    );
    let [staged_page, staged] = load_fixed(value, first_register(), map.staged_offset(cell));
    let [value_page, store] = store_fixed(value, first_register(), map.value_offset(cell));
    let skip = Instr::Beq {
        rs1: first_register(),
        rs2: zero_register(),
        imm: over_four(),
    };
    [
        flag_page,
        flag,
        skip,
        staged_page,
        staged,
        value_page,
        store,
    ]
}

/// Each cell of the state is copied. An error is want of memory.
fn commit_line(alloc: Global, map: &Map) -> Result<Instrs, AllocError>
    requires { IsCoded map.now }
    ensures { IfOk result (λ line. line ≡ code.commit_cells map.now (state_cells map.now)) }
{
    let mut line = Instrs::new(alloc);
    for place in 0..map.space().count() {
        line.append(&commit_cell(map, map.cell(place)))?;
    }
    Ok(line)
}

/// The clash mark goes to the first register. An error is want of memory.
fn mark_line(alloc: Global, map: &Map) -> Result<Instrs, AllocError>
    requires { IsCoded map.now }
    ensures { IfOk result (λ line. line ≡ sequence.load_fixed Word 5 (clash map.now)) }
{
    let mut line = Instrs::new(alloc);
    line.append(&load_fixed(Width::Word, first_register(), map.clash()))?;
    Ok(line)
}

/// This code runs where the first register is 0. An error is want of memory.
fn unless_set(alloc: Global, copy: Instrs) -> Result<Tree, AllocError>
    ensures { IfOk result (λ tree. plan_of tree ≡ plan.If 5 (plan.Line []) (plan.Line copy)) }
{
    let then_part = Box::new(alloc, Tree::Line(Instrs::new(alloc)))?;
    let else_part = Box::new(alloc, Tree::Line(copy))?;
    Ok(Tree::If {
        test: first_register(),
        then_part,
        else_part,
    })
}

/// The tree of the block. An error is want of memory.
fn commit_tree(alloc: Global, map: &Map) -> Result<Tree, AllocError>
    requires { IsCoded map.now }
    ensures { IfOk result (λ tree. plan_of tree ≡ code.commit_unrolled map.now) }
{
    let mark = mark_line(alloc, map)?;
    let copy = commit_line(alloc, map)?;
    let first = Box::new(alloc, Tree::Line(mark))?;
    let second = Box::new(alloc, unless_set(alloc, copy)?)?;
    Ok(Tree::Seq(first, second))
}

/// What is staged becomes the state, unless the clash mark is set, without a loop. From a RAM in which nothing is staged
/// rightly the block is left behind its last word too, without a trap, and stores in the state alone.
///
/// # Errors
///
/// `AllocError` where there is no memory for it.
pub fn commit_unrolled(alloc: Global, map: &Map) -> Result<Block, AllocError>
    requires coded { IsCoded map.now }
    requires weight { unrolled_half map.now.signatures ≤ 262144 }
    ensures plan { IfOk result (λ block. plan_of block ≡ code.commit_unrolled map.now) }
    ensures commits { IfOk result (λ block. Commits map.now (plan_of block)) }
    ensures through { IfOk result (λ block. GoesThrough map.now (plan_of block)) }
    ensures touches { IfOk result (λ block. LinesTouchOnly (only_in (in_commit map.now)) (plan_of block)) }
    ensures len { IfOk result (λ block. len (plan_of block) ≤ unrolled_half map.now.signatures) }
    ensures full { IfOk result (λ block. full (plan_of block) ≤ unrolled_half map.now.signatures) }
{
    let tree = commit_tree(alloc, map)?;
    Ok(Block::of(tree))
}
