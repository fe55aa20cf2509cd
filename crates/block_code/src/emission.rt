//! The code of a block, and its words.

ghost use Rattle.std.specs.Prelude.{◌≡◌, ◌+◌, ◌≤◌, ◌++◌, OnErr, OnOk, length};
ghost use Rattle.block_code.specs.Emit.{HasBegun, HasGrown, IsEmitted};
ghost use Rattle.block_code.specs.Tree.{plan_of};
ghost use Rattle.block_code.specs.Block.{IsBlock};
ghost use Rattle.block_code.specs.Plan as plan;

use crate::block::{Block, tree_len};
use crate::own::{choice, forward, head, judged_tail, tail};
use crate::tree::Tree;
use rv_encode::{Words, encode};
use rv_isa::Instr;
use std::alloc::AllocError;

/// Appends the words of instructions.
///
/// # Errors
///
/// `AllocError` where there is no memory for a word; those before it were appended.
fn append(out: &mut Words, code: &[Instr]) -> Result<(), AllocError>
    ensures { IsEmitted result code.now out.old out.new }
{
    for instr in code {
        out.push(encode(*instr))?;
    }
    Ok(())
}

/// Appends the words of instructions, and then those of a tree that keeps the rules of blocks.
///
/// # Errors
///
/// `AllocError` where there is no memory; the words of a first part of this code were then appended.
fn emit_behind(before: &[Instr], tree: &Tree, out: &mut Words) -> Result<(), AllocError>
    requires block { IsBlock (plan_of tree.now) }
    requires short { plan.len (plan_of tree.now) ≤ 262144 }
    ensures { IsEmitted result (before.now ++ plan.code (plan_of tree.now)) out.old out.new }
{
    append(out, before)?;
    match tree {
        Tree::Line(instrs) => append(out, instrs.list()),
        Tree::Seq(first, second) => {
            emit_behind(&[], first, out)?;
            emit_behind(&[], second, out)
        }
        Tree::If {
            test,
            then_part,
            else_part,
        } => {
            emit_behind(&choice(*test, tree_len(then_part) + 2), then_part, out)?;
            emit_behind(&[forward(tree_len(else_part) + 1)], else_part, out)
        }
        Tree::Loop { count, slot, body } => {
            emit_behind(&head(*count, *slot, tree_len(body) + 6), body, out)?;
            append(out, &tail(*slot, tree_len(body) + 10))
        }
        Tree::Scan {
            count,
            slot,
            guard,
            test,
            found,
            none,
        } => {
            let words = tree_len(guard) + tree_len(found);
            emit_behind(&head(*count, *slot, words + 8), guard, out)?;
            emit_behind(&judged_tail(*test, *slot, tree_len(guard) + 11), found, out)?;
            emit_behind(&[forward(tree_len(none) + 1)], none, out)
        }
    }
}

/// Appends the words of a block.
///
/// # Errors
///
/// `AllocError` where there is no memory; the words of a first part of the block's code were then appended.
pub fn emit(block: &Block, out: &mut Words) -> Result<(), AllocError>
    ensures ok { OnOk result (HasGrown (plan.code (plan_of block.now)) out.old out.new) }
    ensures len { OnOk result (length out.new ≡ length out.old + plan.len (plan_of block.now)) }
    ensures err { OnErr result (HasBegun (plan.code (plan_of block.now)) out.old out.new) }
{
    emit_behind(&[], block.tree(), out)
}
