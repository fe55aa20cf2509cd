//! Loops and scans of blocks, with the bounds of what they make.
#![tactic(auto)]

ghost use Rattle.std.specs.Prelude.{◌≡◌, ◌≤◌, ◌+◌, ◌*◌, ◌^◌, max, IfOk};
ghost use Rattle.block_code.specs.Block.{IsCount, IsInRange, IsSlot, Keeps};
ghost use Rattle.block_code.specs.Law.{LawOfEffect, LawOfEntry, LawOfNoReturn, LawOfTop};
ghost use Rattle.block_code.specs.Plan as plan;
ghost use Rattle.block_code.specs.Tree.{plan_of};

use block_code::{
    Block, Tree, blocks_do_their_structure, blocks_end_from_anywhere, blocks_end_from_the_top,
    blocks_never_return,
};
use rv_isa::Reg;
use std::alloc::{AllocError, Global};

/// The block of a tree, with the laws of blocks.
fn lawful(tree: Tree) -> Block
    requires { IsInRange (plan_of tree) }
    ensures value { result ≡ tree }
    ensures law { LawOfEntry (plan_of result) }
    ensures effect { LawOfEffect (plan_of result) }
    ensures top { LawOfTop (plan_of result) }
    ensures no_return { LawOfNoReturn (plan_of result) }
{
    blocks_end_from_anywhere();
    blocks_do_their_structure();
    blocks_end_from_the_top();
    blocks_never_return();
    Block::of(tree)
}

/// The block that runs the body once for each counter from 0 to `count` - 1. The counter is the word of RAM at `slot`,
/// an offset in bytes, at which the body, entered at its top, must store nothing. The bounds are in ticks, the length
/// in words.
///
/// # Errors
///
/// `AllocError` where there is no memory for the block.
pub fn counted(alloc: Global, count: u32, slot: u32, body: Block) -> Result<Block, AllocError>
    requires count { IsCount count }
    requires slot { IsSlot slot }
    requires kept { Keeps slot (plan_of body) }
    requires short { plan.len (plan_of body) + 16 ≤ 262144 }
    requires bounded { plan.entry (plan_of body) + (16 + count * (plan.full (plan_of body) + 16)) ≤ 2 ^ 62 }
    ensures value { IfOk result (λ block. plan_of block ≡ plan.Loop count slot (plan_of body)) }
    ensures len { IfOk result (λ block. plan.len (plan_of block) ≤ plan.len (plan_of body) + 16) }
    ensures full { IfOk result (λ block. plan.full (plan_of block) ≤ 16 + count * (plan.full (plan_of body) + 16)) }
    ensures entry { IfOk result (λ block. plan.entry (plan_of block) ≤ plan.entry (plan_of body) + plan.full (plan_of block)) }
    ensures law { IfOk result (λ block. LawOfEntry (plan_of block)) }
    ensures effect { IfOk result (λ block. LawOfEffect (plan_of block)) }
    ensures top { IfOk result (λ block. LawOfTop (plan_of block)) }
    ensures no_return { IfOk result (λ block. LawOfNoReturn (plan_of block)) }
{
    let body = Box::new(alloc, body.into_tree())?;
    Ok(lawful(Tree::Loop { count, slot, body }))
}

/// The block that runs `found` at the least counter below `count` whose guard leaves the register `test` not 0, and
/// `none` where there is no such counter. The counter is the word of RAM at `slot`, an offset in bytes, at which the
/// guard, entered at its top, must store nothing. The bounds are in ticks, the length in words.
///
/// # Errors
///
/// `AllocError` where there is no memory for the block.
pub fn scan(
    alloc: Global,
    count: u32,
    slot: u32,
    guard: Block,
    test: Reg,
    found: Block,
    none: Block,
) -> Result<Block, AllocError>
    requires count { IsCount count }
    requires slot { IsSlot slot }
    requires kept { Keeps slot (plan_of guard) }
    requires short { plan.len (plan_of guard) + plan.len (plan_of found) + plan.len (plan_of none) + 24 ≤ 262144 }
    requires bounded { max (max (plan.entry (plan_of guard)) (plan.entry (plan_of found))) (plan.entry (plan_of none))
        + (24 + count * (plan.full (plan_of guard) + 24) + max (plan.full (plan_of found)) (plan.full (plan_of none))) ≤ 2 ^ 62 }
    ensures value { IfOk result (λ block. plan_of block ≡ plan.Scan count slot (plan_of guard) test (plan_of found) (plan_of none)) }
    ensures len { IfOk result (λ block. plan.len (plan_of block) ≤ plan.len (plan_of guard) + plan.len (plan_of found) + plan.len (plan_of none) + 24) }
    ensures full { IfOk result (λ block. plan.full (plan_of block)
        ≤ 24 + count * (plan.full (plan_of guard) + 24) + max (plan.full (plan_of found)) (plan.full (plan_of none))) }
    ensures entry { IfOk result (λ block. plan.entry (plan_of block)
        ≤ max (max (plan.entry (plan_of guard)) (plan.entry (plan_of found))) (plan.entry (plan_of none)) + plan.full (plan_of block)) }
    ensures law { IfOk result (λ block. LawOfEntry (plan_of block)) }
    ensures effect { IfOk result (λ block. LawOfEffect (plan_of block)) }
    ensures top { IfOk result (λ block. LawOfTop (plan_of block)) }
    ensures no_return { IfOk result (λ block. LawOfNoReturn (plan_of block)) }
{
    let guard = Box::new(alloc, guard.into_tree())?;
    let found = Box::new(alloc, found.into_tree())?;
    let none = Box::new(alloc, none.into_tree())?;
    Ok(lawful(Tree::Scan {
        count,
        slot,
        guard,
        test,
        found,
        none,
    }))
}

#[cfg(test)]
mod tests;
