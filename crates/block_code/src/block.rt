//! Blocks, and their numbers.

ghost use Rattle.std.specs.Prelude.{◌≡◌, ◌≤◌, ◌^◌};
ghost use Rattle.block_code.specs.Block.{IsBlock, IsInRange};
ghost use Rattle.block_code.specs.Law.{LawOfEffect, LawOfEntry, LawOfNest, LawOfNoReturn, LawOfStart, LawOfTop};
ghost use Rattle.block_code.specs.Plan as plan;
ghost use Rattle.block_code.specs.Tree.{plan_of};

use crate::tree::Tree;
use std::marker::Model;

/// A tree that keeps the rules of blocks: lines go forward, the bodies of loops and the guards of scans store nothing at
/// the slots of theirs, the code has at most 262,144 words, and the bounds are at most 2^62 ticks.
#[derive(Drop)]
pub struct Block {
    tree: Tree,
}

impl Model for Block {
    ghost use Rattle.block_code.specs.declared.tree.Tree as the_tree;
    ghost use Rattle.block_code.specs.contracts.tree.Tree as tree_row;
    ghost use Rattle.std.specs.Coded.{codes};
    ghost use Rattle.block_code.specs.Block.{IsInRange};
    ghost use Rattle.block_code.specs.Tree.{plan_of};

    ghost Value = { the_tree.Tree };

    ghost coded = { Prim.hlevel (codes, tree_row.the_row.coded) };

    ghost view = { λ b. b.tree };

    ghost invariant = { λ b. IsInRange (plan_of b.tree) };
}

impl Block {
    /// The block of a tree that keeps the rules of blocks and whose numbers are in range.
    pub fn of(tree: Tree) -> Block
        requires { IsInRange (plan_of tree) }
        ensures { result ≡ tree }
    {
        Block { tree }
    }

    /// The tree of the block.
    pub fn tree(&self) -> &Tree
        ensures value { result.now ≡ self.now }
        ensures in_range { IsInRange (plan_of result.now) }
    {
        &self.tree
    }

    /// The tree of the block, taken out of it.
    pub fn into_tree(self) -> Tree
        ensures value { result ≡ self }
        ensures in_range { IsInRange (plan_of result) }
    {
        self.tree
    }
}

/// How many words the code of a tree has.
pub(crate) fn tree_len(tree: &Tree) -> u64
    requires { plan.len (plan_of tree.now) ≤ 2 ^ 62 }
    ensures { result ≡ plan.len (plan_of tree.now) }
{
    match tree {
        Tree::Line(instrs) => instrs.list().len() as u64,
        Tree::Seq(first, second) => tree_len(first) + tree_len(second),
        Tree::If {
            then_part,
            else_part,
            ..
        } => 3 + tree_len(then_part) + tree_len(else_part),
        Tree::Loop { body, .. } => 13 + tree_len(body),
        Tree::Scan {
            guard,
            found,
            none,
            ..
        } => 15 + tree_len(guard) + tree_len(found) + tree_len(none),
    }
}

/// A bound on the ticks from the top of a tree that keeps the rules of blocks.
fn tree_full(tree: &Tree) -> u64
    requires block { IsBlock (plan_of tree.now) }
    requires range { plan.full (plan_of tree.now) ≤ 2 ^ 62 }
    ensures { result ≡ plan.full (plan_of tree.now) }
{
    match tree {
        Tree::Line(instrs) => instrs.list().len() as u64,
        Tree::Seq(first, second) => tree_full(first) + tree_full(second),
        Tree::If {
            then_part,
            else_part,
            ..
        } => 3 + tree_full(then_part).max(tree_full(else_part)),
        Tree::Loop { count, body, .. } => 16 + u64::from(*count) * (tree_full(body) + 16),
        Tree::Scan {
            count,
            guard,
            found,
            none,
            ..
        } => {
            24 + u64::from(*count) * (tree_full(guard) + 24) + tree_full(found).max(tree_full(none))
        }
    }
}

/// A bound on the ticks from any place inside a tree that keeps the rules of blocks.
fn tree_entry(tree: &Tree) -> u64
    requires block { IsBlock (plan_of tree.now) }
    requires range { plan.entry (plan_of tree.now) ≤ 2 ^ 62 }
    ensures { result ≡ plan.entry (plan_of tree.now) }
{
    match tree {
        Tree::Line(instrs) => instrs.list().len() as u64,
        Tree::Seq(first, second) => {
            (tree_entry(first) + tree_full(second)).max(tree_entry(second))
        }
        Tree::If {
            then_part,
            else_part,
            ..
        } => 3 + tree_entry(then_part).max(tree_entry(else_part)),
        Tree::Loop { body, .. } => tree_entry(body) + tree_full(tree),
        Tree::Scan {
            guard,
            found,
            none,
            ..
        } => {
            tree_entry(guard)
                .max(tree_entry(found))
                .max(tree_entry(none))
                + tree_full(tree)
        }
    }
}

/// How many words the block's code has.
pub fn len(block: &Block) -> u64
    ensures { result ≡ plan.len (plan_of block.now) }
{
    tree_len(&block.tree)
}

/// A bound on the ticks from the block's top until it leaves or traps.
pub fn full(block: &Block) -> u64
    ensures value { result ≡ plan.full (plan_of block.now) }
    ensures law { LawOfTop (plan_of block.now) }
    ensures effect { LawOfEffect (plan_of block.now) }
{
    tree_full(&block.tree)
}

/// A bound on the ticks from any place inside the block until it leaves or traps.
pub fn entry(block: &Block) -> u64
    ensures value { result ≡ plan.entry (plan_of block.now) }
    ensures law { LawOfEntry (plan_of block.now) }
    ensures start { LawOfStart (plan_of block.now) }
    ensures no_return { LawOfNoReturn (plan_of block.now) }
    ensures nest { LawOfNest (plan_of block.now) }
{
    tree_entry(&block.tree)
}
