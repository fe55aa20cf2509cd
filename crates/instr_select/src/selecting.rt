//! Blocks that leave the value of a term, or the index of a location, in a register.

ghost use Rattle.std.specs.Prelude.{◌≡◌, ◌≤◌, ◌<◌, ℕ, false, length, slice_get, IfOk, Some};
ghost use Rattle.std.specs.List.{AllByRecursion};
ghost use Rattle.block_code.specs.Tree.{plan_of};
ghost use Rattle.block_code.specs.Effect.{Holds};
ghost use Rattle.block_code.specs.Leads.{KeepsRegs};
ghost use Rattle.block_code.specs.Plan as plan;
ghost use Rattle.block_code.specs.Silent.{IsSilent, IsStorelessPlan, Respects};
ghost use Rattle.state_space.specs.Sizes.{IsRange, padded_count};
ghost use Rattle.state_space.specs.declared.signature.Signature.{Signature};
ghost use Rattle.bound_count.specs.TermWeights.{term_weight};
ghost use Rattle.instr_select.specs.Terms as terms;
ghost use Rattle.instr_select.specs.Writing.{AreWritable, IsReady, IsWritable, LeavesBelow, LeavesIndex, LeavesValue, index_weight};

use crate::trees::Selection;
use asm_names::ResolvedTerm;
use asm_ranges::Checked;
use block_code::{Block, Tree};
use rv_isa::Reg;
use state_layout::Map;
use state_space::Range;
use std::alloc::{AllocError, Global};

/// The code that leaves the value of a term in a register. An error is want of memory.
fn select_tree(
    alloc: Global,
    checked: &Checked,
    map: &Map,
    term: &ResolvedTerm,
    register: Reg,
    tables: u32,
) -> Result<Tree, AllocError>
    requires ready { IsReady checked.now map.now }
    requires writable { IsWritable checked.now term.now register }
    ensures { IfOk result (λ tree. plan_of tree ≡ terms.term_plan checked.now map.now tables term.now register) }
{
    let selection = Selection {
        alloc,
        program: checked.resolved(),
        map,
        tables,
    };
    selection.tree(term, register)
}

/// The block that leaves the value of a term in a register, on the state that RAM holds. Registers from x5 below that one
/// stay as they were, and nothing is stored, read or sent. The tables of static functions begin at the address `tables`.
///
/// # Errors
///
/// `AllocError` where there is no memory for it.
pub fn select(
    alloc: Global,
    checked: &Checked,
    map: &Map,
    term: &ResolvedTerm,
    register: Reg,
    tables: u32,
) -> Result<Block, AllocError>
    requires ready { IsReady checked.now map.now }
    requires writable { IsWritable checked.now term.now register }
    requires register { 5 ≤ register }
    requires weight { term_weight term.now ≤ 262144 }
    ensures plan { IfOk result (λ block. plan_of block ≡ terms.term_plan checked.now map.now tables term.now register) }
    ensures value { IfOk result (λ block. LeavesValue checked.now map.now tables term.now register (plan_of block)) }
    ensures storeless { IfOk result (λ block. IsStorelessPlan (plan_of block)) }
    ensures silent { IfOk result (λ block. IsSilent (plan_of block)) }
    ensures kept { IfOk result (λ block. Respects (KeepsRegs 5 register) (plan_of block)) }
    ensures slots { IfOk result (λ block. (size : ℕ) → Holds size (plan_of block)) }
    ensures len { IfOk result (λ block. plan.len (plan_of block) ≤ term_weight term.now) }
    ensures full { IfOk result (λ block. plan.full (plan_of block) ≤ term_weight term.now) }
{
    let tree = select_tree(alloc, checked, map, term, register, tables)?;
    Ok(Block::of(tree))
}

/// The code that leaves the index of arguments from these domains in a register. An error is want of memory.
fn index_tree(
    alloc: Global,
    checked: &Checked,
    map: &Map,
    ranges: &[Range],
    args: &[ResolvedTerm],
    register: Reg,
    tables: u32,
) -> Result<Tree, AllocError>
    requires ready { IsReady checked.now map.now }
    requires ranges { AllByRecursion IsRange ranges.now }
    requires writable { AreWritable checked.now args.now 0 register }
    ensures { IfOk result (λ tree. plan_of tree ≡ terms.arguments_plan checked.now map.now tables ranges.now args.now register) }
{
    let selection = Selection {
        alloc,
        program: checked.resolved(),
        map,
        tables,
    };
    selection.index(args, ranges, register)
}

/// The block that leaves in a register the index of a location, that of a function at arguments, among the function's values
/// in RAM. The index is below the function's padded size, whatever RAM holds and the arguments are. Registers from x5 below that one stay as they
/// were, and nothing is stored, read or sent. The tables of static functions begin at the address `tables`.
///
/// # Errors
///
/// `AllocError` where there is no memory for it.
pub fn select_index(
    alloc: Global,
    checked: &Checked,
    map: &Map,
    fun: u32,
    args: &[ResolvedTerm],
    register: Reg,
    tables: u32,
) -> Result<Block, AllocError>
    requires ready { IsReady checked.now map.now }
    requires there { fun < length map.now.signatures }
    requires writable { AreWritable checked.now args.now 0 register }
    requires register { 5 ≤ register }
    requires weight { index_weight args.now ≤ 262144 }
    ensures plan { IfOk result (λ block. (signature : Signature) → slice_get map.now.signatures fun ≡ Some signature
        → plan_of block ≡ terms.arguments_plan checked.now map.now tables signature.args args.now register) }
    ensures value { IfOk result (λ block. (signature : Signature) → slice_get map.now.signatures fun ≡ Some signature
        → LeavesIndex checked.now map.now tables signature.args args.now register (plan_of block)) }
    ensures inside { IfOk result (λ block. (signature : Signature) → slice_get map.now.signatures fun ≡ Some signature → terms.is_static signature.kind ≡ false
        → LeavesBelow register (padded_count signature.args) (plan_of block)) }
    ensures storeless { IfOk result (λ block. IsStorelessPlan (plan_of block)) }
    ensures silent { IfOk result (λ block. IsSilent (plan_of block)) }
    ensures kept { IfOk result (λ block. Respects (KeepsRegs 5 register) (plan_of block)) }
    ensures slots { IfOk result (λ block. (size : ℕ) → Holds size (plan_of block)) }
    ensures len { IfOk result (λ block. plan.len (plan_of block) ≤ index_weight args.now) }
    ensures full { IfOk result (λ block. plan.full (plan_of block) ≤ index_weight args.now) }
{
    let signature = &map.space().signatures()[fun as usize];
    let ranges = signature.args.as_slice();
    let tree = index_tree(alloc, checked, map, ranges, args, register, tables)?;
    Ok(Block::of(tree))
}
