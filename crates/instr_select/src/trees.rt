//! The trees of terms.

ghost use Rattle.std.specs.Prelude.{◌≡◌, ◌<◌, IfOk, Some, map, slice_get};
ghost use Rattle.std.specs.Int.RustNames.{FitsSigned};
ghost use Rattle.std.specs.Int.{w32};
ghost use Rattle.std.specs.List.{AllByRecursion};
ghost use Rattle.block_code.specs.Tree.{plan_of};
ghost use Rattle.block_code.specs.Plan as plan;
ghost use Rattle.block_code.specs.Sequence as sequence;
ghost use Rattle.state_space.specs.Sizes.{IsRange, IsSized};
ghost use Rattle.state_layout.specs.Map.{slot};
ghost use Rattle.instr_select.specs.Binders as binders;
ghost use Rattle.instr_select.specs.Operators as spec;
ghost use Rattle.instr_select.specs.Terms as terms;
ghost use Rattle.instr_select.specs.Writing.{AreWritable, IsReady, IsWritable};
ghost use Rattle.mask_guard.specs.Mask.{word_of};

use crate::binders::binder_range;
use crate::cells::{joined, read};
use crate::pieces::{argument, behind, binder, denied, greater, lesser, number, operated};
use asm_names::{Resolved, ResolvedTerm};
use asm_tree::Op;
use block_code::sequence::load_immediate;
use block_code::{Instrs, Tree};
use rv_isa::Reg;
use state_layout::Map;
use state_space::{Range, Signature};
use std::alloc::{AllocError, Global};

/// The first tree, then the second.
fn seq(alloc: Global, first: Tree, second: Tree) -> Result<Tree, AllocError>
    ensures { IfOk result (λ tree. plan_of tree ≡ plan.Seq (plan_of first) (plan_of second)) }
{
    let first = Box::new(alloc, first)?;
    let second = Box::new(alloc, second)?;
    Ok(Tree::Seq(first, second))
}

/// The first three trees, one after another.
fn in_turn(alloc: Global, first: Tree, second: Tree, third: Tree) -> Result<Tree, AllocError>
    ensures { IfOk result (λ tree. plan_of tree ≡ plan.Seq (plan_of first) (plan.Seq (plan_of second) (plan_of third))) }
{
    let behind_first = seq(alloc, second, third)?;
    seq(alloc, first, behind_first)
}

/// The one tree where the register is not 0, else the other.
fn decided(alloc: Global, test: Reg, then_part: Tree, else_part: Tree) -> Result<Tree, AllocError>
    ensures { IfOk result (λ tree. plan_of tree ≡ plan.If test (plan_of then_part) (plan_of else_part)) }
{
    let then_part = Box::new(alloc, then_part)?;
    let else_part = Box::new(alloc, else_part)?;
    Ok(Tree::If {
        test,
        then_part,
        else_part,
    })
}

/// A number becomes the register's value.
fn number_line(alloc: Global, register: Reg, value: i64) -> Result<Tree, AllocError>
    requires { FitsSigned w32 value }
    ensures { IfOk result (λ tree. plan_of tree ≡ plan.Line (sequence.load_immediate register (word_of value))) }
{
    let mut line = Instrs::new(alloc);
    number(&mut line, register, value)?;
    Ok(Tree::Line(line))
}

/// The index of no arguments, 0, becomes the register's value.
fn no_index(alloc: Global, register: Reg) -> Result<Tree, AllocError>
    ensures { IfOk result (λ tree. plan_of tree ≡ plan.Line (sequence.load_immediate register 0)) }
{
    let mut line = Instrs::new(alloc);
    line.append(&load_immediate(register, 0))?;
    Ok(Tree::Line(line))
}

/// An argument's value becomes its index.
fn argument_tree(alloc: Global, register: Reg, range: Range) -> Result<Tree, AllocError>
    requires { IsRange range }
    ensures { IfOk result (λ tree. plan_of tree ≡ plan.Line (terms.argument_line range register)) }
{
    let mut line = Instrs::new(alloc);
    argument(&mut line, register, range)?;
    Ok(Tree::Line(line))
}

/// The index of one argument more goes behind that of those before.
fn joined_tree(alloc: Global, register: Reg, range: Range) -> Result<Tree, AllocError>
    requires next { register < 31 }
    requires range { IsRange range }
    ensures { IfOk result (λ tree. plan_of tree ≡ plan.Line (terms.joined_line range register)) }
{
    let mut line = Instrs::new(alloc);
    joined(&mut line, register, range)?;
    Ok(Tree::Line(line))
}

/// An operator's value of two values.
fn operated_tree(alloc: Global, op: Op, register: Reg) -> Result<Tree, AllocError>
    requires { register < 31 }
    ensures { IfOk result (λ tree. plan_of tree ≡ plan.Line (spec.operated op register)) }
{
    let mut line = Instrs::new(alloc);
    operated(&mut line, op, register)?;
    Ok(Tree::Line(line))
}

/// The other truth value.
fn denied_tree(alloc: Global, register: Reg) -> Result<Tree, AllocError>
    ensures { IfOk result (λ tree. plan_of tree ≡ plan.Line (spec.denied register)) }
{
    let mut line = Instrs::new(alloc);
    denied(&mut line, register)?;
    Ok(Tree::Line(line))
}

/// The lesser of two values.
fn lesser_tree(alloc: Global, register: Reg) -> Result<Tree, AllocError>
    requires { register < 31 }
    ensures { IfOk result (λ tree. plan_of tree ≡ plan.Line (spec.lesser register)) }
{
    let mut line = Instrs::new(alloc);
    lesser(&mut line, register)?;
    Ok(Tree::Line(line))
}

/// The greater of two values.
fn greater_tree(alloc: Global, register: Reg) -> Result<Tree, AllocError>
    requires { register < 31 }
    ensures { IfOk result (λ tree. plan_of tree ≡ plan.Line (spec.greater register)) }
{
    let mut line = Instrs::new(alloc);
    greater(&mut line, register)?;
    Ok(Tree::Line(line))
}

/// Writes the code of terms.
#[derive(Clone, Copy)]
pub(crate) struct Selection<'a> {
    pub(crate) alloc: Global,
    pub(crate) program: &'a Resolved,
    pub(crate) map: &'a Map,
    pub(crate) tables: u32,
}

impl Selection<'_> {
    // The value of a binder.
    fn var(self, register: Reg, var: u32) -> Result<Tree, AllocError>
        requires ready { IsReady self.program.now self.map.now }
        requires known { var < self.program.now.binders }
        ensures { IfOk result (λ tree. plan_of tree ≡ plan.Line (terms.binder_line (binders.binder_range self.entry.program.now var) (slot self.entry.map.now var) register)) }
    {
        let mut line = Instrs::new(self.alloc);
        binder(
            &mut line,
            register,
            binder_range(self.program, var),
            self.map.slot(var),
        )?;
        Ok(Tree::Line(line))
    }

    // What is read of a function at an index.
    fn cell(self, register: Reg, fun: u32, signature: &Signature) -> Result<Tree, AllocError>
        requires ready { IsReady self.program.now self.map.now }
        requires there { slice_get self.map.now.signatures fun ≡ Some signature.now }
        requires sized { IsSized signature.now }
        ensures { IfOk result (λ tree. plan_of tree ≡ plan.Line (terms.read_line self.entry.map.now self.entry.tables fun signature.now register)) }
    {
        let mut line = Instrs::new(self.alloc);
        read(&mut line, self.map, self.tables, fun, signature, register)?;
        Ok(Tree::Line(line))
    }

    // The arguments behind the first.
    #[cycle(tree)]
    fn further(
        self,
        args: &[ResolvedTerm],
        ranges: &[Range],
        register: Reg,
    ) -> Result<Tree, AllocError>
        requires ready { IsReady self.program.now self.map.now }
        requires ranges { AllByRecursion IsRange ranges.now }
        requires writable { AreWritable self.program.now args.now 1 register }
        ensures { IfOk result (λ tree. plan_of tree ≡ terms.further_plan ranges.now
            (map (terms.term_plan self.entry.program.now self.entry.map.now self.entry.tables) args.now) register) }
    {
        let Some((range, later)) = ranges.split_first() else {
            return Ok(Tree::Line(Instrs::new(self.alloc)));
        };
        let Some((arg, others)) = args.split_first() else {
            return Ok(Tree::Line(Instrs::new(self.alloc)));
        };
        let value = self.tree(arg, behind(register))?;
        let index = joined_tree(self.alloc, register, *range)?;
        let rest = self.further(others, later, register)?;
        in_turn(self.alloc, value, index, rest)
    }

    // The padded index of arguments.
    #[cycle(tree)]
    pub(crate) fn index(
        self,
        args: &[ResolvedTerm],
        ranges: &[Range],
        register: Reg,
    ) -> Result<Tree, AllocError>
        requires ready { IsReady self.program.now self.map.now }
        requires ranges { AllByRecursion IsRange ranges.now }
        requires writable { AreWritable self.program.now args.now 0 register }
        ensures { IfOk result (λ tree. plan_of tree ≡ terms.arguments_plan self.entry.program.now self.entry.map.now self.entry.tables ranges.now args.now register) }
    {
        let Some((range, later)) = ranges.split_first() else {
            return no_index(self.alloc, register);
        };
        let Some((arg, others)) = args.split_first() else {
            return no_index(self.alloc, register);
        };
        let value = self.tree(arg, register)?;
        let index = argument_tree(self.alloc, register, *range)?;
        let rest = self.further(others, later, register)?;
        in_turn(self.alloc, value, index, rest)
    }

    // The value of a function at arguments.
    #[cycle(tree)]
    fn reading(self, args: &[ResolvedTerm], fun: u32, register: Reg) -> Result<Tree, AllocError>
        requires ready { IsReady self.program.now self.map.now }
        requires writable { AreWritable self.program.now args.now 0 register }
        ensures { IfOk result (λ tree. plan_of tree ≡ terms.read_plan self.entry.map.now self.entry.tables fun (slice_get self.entry.map.now.signatures fun)
            (map (terms.term_plan self.entry.program.now self.entry.map.now self.entry.tables) args.now) register) }
    {
        match self.map.space().signatures().get(fun as usize) {
            None => Ok(Tree::Line(Instrs::new(self.alloc))),
            Some(signature) => {
                let index = self.index(args, signature.args.as_slice(), register)?;
                let cell = self.cell(register, fun, signature)?;
                seq(self.alloc, index, cell)
            }
        }
    }

    // The value of a term.
    #[cycle(tree)]
    pub(crate) fn tree(self, term: &ResolvedTerm, register: Reg) -> Result<Tree, AllocError>
        requires ready { IsReady self.program.now self.map.now }
        requires writable { IsWritable self.program.now term.now register }
        ensures { IfOk result (λ tree. plan_of tree ≡ terms.term_plan self.entry.program.now self.entry.map.now self.entry.tables term.now register) }
    {
        match term {
            ResolvedTerm::Number(value) => number_line(self.alloc, register, *value),
            ResolvedTerm::Var(var) => self.var(register, *var),
            ResolvedTerm::Read { fun, args } => self.reading(args.as_slice(), *fun, register),
            ResolvedTerm::Binary { op, left, right } => {
                let first = self.tree(left.get(), register)?;
                let second = self.tree(right.get(), behind(register))?;
                let line = operated_tree(self.alloc, *op, register)?;
                in_turn(self.alloc, first, second, line)
            }
            ResolvedTerm::Not(inner) => {
                let first = self.tree(inner.get(), register)?;
                let line = denied_tree(self.alloc, register)?;
                seq(self.alloc, first, line)
            }
            ResolvedTerm::Min(left, right) => {
                let first = self.tree(left.get(), register)?;
                let second = self.tree(right.get(), behind(register))?;
                let line = lesser_tree(self.alloc, register)?;
                in_turn(self.alloc, first, second, line)
            }
            ResolvedTerm::Max(left, right) => {
                let first = self.tree(left.get(), register)?;
                let second = self.tree(right.get(), behind(register))?;
                let line = greater_tree(self.alloc, register)?;
                in_turn(self.alloc, first, second, line)
            }
            ResolvedTerm::Cond(guard, left, right) => {
                let test = self.tree(guard.get(), register)?;
                let first = self.tree(left.get(), register)?;
                let second = self.tree(right.get(), register)?;
                let choice = decided(self.alloc, register, first, second)?;
                seq(self.alloc, test, choice)
            }
        }
    }
}
