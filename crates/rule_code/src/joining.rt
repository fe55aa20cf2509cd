//! Lists of trees that become one tree, neighbour by neighbour, so that the tree is no deeper than it must be.

ghost use Rattle.std.specs.Prelude.{◌≡◌, [], IfOk, map, option_map, pos};
ghost use Rattle.block_code.specs.Plan as plan;
ghost use Rattle.block_code.specs.Tree.{plan_of};
ghost use Rattle.rule_code.specs.Code as code;
ghost use Rattle.rule_code.specs.Joining as spec;
ghost use Rattle.staged_commit.specs.Code.{first as first_number};

use block_code::{Instrs, Tree};
use rv_isa::{Imm12, Instr};
use staged_commit::{first_register, zero_register};
use std::alloc::{AllocError, Global};

/// How two trees become one.
#[derive(Clone, Copy)]
pub(crate) enum Joint {
    /// The second stands behind the first.
    Behind,
    /// The second stands behind the first, and is done unless register 5 says that a case was found.
    UnlessFound,
}

/// The first tree, then the second.
pub(crate) fn seq(alloc: Global, first: Tree, second: Tree) -> Result<Tree, AllocError>
    ensures { IfOk result (λ tree. plan_of tree ≡ plan.Seq (plan_of first) (plan_of second)) }
{
    let first = Box::new(alloc, first)?;
    let second = Box::new(alloc, second)?;
    Ok(Tree::Seq(first, second))
}

/// The one tree where register 5 is not 0, else the other.
pub(crate) fn decided(alloc: Global, then_part: Tree, else_part: Tree) -> Result<Tree, AllocError>
    ensures { IfOk result (λ tree. plan_of tree ≡ plan.If first_number (plan_of then_part) (plan_of else_part)) }
{
    let then_part = Box::new(alloc, then_part)?;
    let else_part = Box::new(alloc, else_part)?;
    Ok(Tree::If {
        test: first_register(),
        then_part,
        else_part,
    })
}

/// The tree of no instructions.
pub(crate) fn nothing(alloc: Global) -> Tree
    ensures { plan_of result ≡ plan.Line [] }
{
    Tree::Line(Instrs::new(alloc))
}

/// Two trees, joined.
pub(crate) fn joined(
    alloc: Global,
    joint: Joint,
    first: Tree,
    second: Tree,
) -> Result<Tree, AllocError>
    ensures { IfOk result (λ tree. plan_of tree ≡ spec.joined joint (plan_of first) (plan_of second)) }
{
    match joint {
        Joint::Behind => seq(alloc, first, second),
        Joint::UnlessFound => {
            let other = decided(alloc, nothing(alloc), second)?;
            seq(alloc, first, other)
        }
    }
}

/// A tree joined with the next, where there is one.
fn with_next(
    alloc: Global,
    joint: Joint,
    first: Tree,
    next: Option<Tree>,
) -> Result<Tree, AllocError>
    ensures { IfOk result (λ tree. plan_of tree ≡ spec.with_next (spec.joined joint) (plan_of first) (option_map plan_of next)) }
{
    match next {
        None => Ok(first),
        Some(second) => joined(alloc, joint, first, second),
    }
}

/// Neighbours are joined.
fn paired(alloc: Global, joint: Joint, trees: Vec<Tree>) -> Result<Vec<Tree>, AllocError>
    ensures { IfOk result (λ pairs. map plan_of pairs.items ≡ code.paired (spec.joined joint) (map plan_of trees.items)) }
{
    let mut pairs = Vec::new(alloc);
    let mut rest = trees.into_iter();
    while let Some(first) = rest.next() {
        let next = rest.next();
        let pair = with_next(alloc, joint, first, next)?;
        pairs.push(pair)?;
    }
    Ok(pairs)
}

/// Each tree is joined with all behind it.
fn in_turn(alloc: Global, joint: Joint, mut trees: Vec<Tree>) -> Result<Option<Tree>, AllocError>
    ensures { IfOk result (λ tree. option_map plan_of tree ≡ spec.all_in_turn (spec.joined joint) (map plan_of trees.items)) }
{
    let Some(mut tree) = trees.pop() else {
        return Ok(None);
    };
    while let Some(before) = trees.pop() {
        tree = joined(alloc, joint, before, tree)?;
    }
    Ok(Some(tree))
}

/// The trees of a list, joined by halves: neighbours are joined, and what they become again, until one is left.
pub(crate) fn halved(
    alloc: Global,
    joint: Joint,
    mut trees: Vec<Tree>,
) -> Result<Option<Tree>, AllocError>
    ensures { IfOk result (λ tree. option_map plan_of tree ≡ spec.all_halved (spec.joined joint) code.deepest (map plan_of trees.items)) }
{
    let mut left = 32u32;
    while left > 0 && trees.len() > 1 {
        trees = paired(alloc, joint, trees)?;
        left -= 1;
    }
    in_turn(alloc, joint, trees)
}

/// All trees of a list, in order.
pub(crate) fn all(alloc: Global, trees: Vec<Tree>) -> Result<Tree, AllocError>
    ensures { IfOk result (λ tree. plan_of tree ≡ code.all_plan (map plan_of trees.items)) }
{
    match halved(alloc, Joint::Behind, trees)? {
        None => Ok(nothing(alloc)),
        Some(tree) => Ok(tree),
    }
}

/// The trees of cases, and another for where none of them leaves that it was found.
pub(crate) fn unless_any(alloc: Global, cases: Vec<Tree>, other: Tree) -> Result<Tree, AllocError>
    ensures { IfOk result (λ tree. plan_of tree ≡ spec.unless_any (spec.all_halved code.unless_found code.deepest (map plan_of cases.items)) (plan_of other)) }
{
    match halved(alloc, Joint::UnlessFound, cases)? {
        None => Ok(other),
        Some(tree) => joined(alloc, Joint::UnlessFound, tree, other),
    }
}

/// The number that says in register 5 that a case was found.
fn one() -> Imm12
    ensures { result ≡ pos 1 }
{
    let Some(imm) = Imm12::new(1) else {
        unreachable!()
    };
    imm
}

/// A rule that says in register 5 that its case was found.
fn found(alloc: Global, rule: Tree) -> Result<Tree, AllocError>
    ensures { IfOk result (λ tree. plan_of tree ≡ plan.Seq (plan_of rule) (plan.Line code.found)) }
{
    let mut line = Instrs::new(alloc);
    line.push(Instr::Addi {
        rd: first_register(),
        rs1: zero_register(),
        imm: one(),
    })?;
    seq(alloc, rule, Tree::Line(line))
}

/// A guard, and its rule where it holds; register 5 says whether it does.
pub(crate) fn case(alloc: Global, guard: Tree, rule: Tree) -> Result<Tree, AllocError>
    ensures { IfOk result (λ tree. plan_of tree ≡ code.case_plan (plan_of guard, plan_of rule)) }
{
    let then_part = found(alloc, rule)?;
    let choice = decided(alloc, then_part, nothing(alloc))?;
    seq(alloc, guard, choice)
}
