//! The code of a round.

ghost use Rattle.std.specs.Prelude.{◌≡◌, ◌≤◌, IfOk, length};
ghost use Rattle.block_code.specs.Tree.{plan_of};
ghost use Rattle.state_space.specs.Locations.{input_locations, output_locations};
ghost use Rattle.staged_commit.specs.Law.{IsCoded};
ghost use Rattle.staged_commit.specs.Weight.{unrolled_half};
ghost use Rattle.rule_code.specs.Body.{IsWritable};
ghost use Rattle.rule_code.specs.Code as code;
ghost use Rattle.rule_code.specs.Codable.{IsPrepared, body_weight};

use crate::joining::seq;
use crate::rules::RuleWriter;
use asm_ranges::Checked;
use block_code::{Block, Tree};
use rule_expand::Flat;
use staged_commit::{clear_unrolled, commit_unrolled, read_inputs, send_outputs};
use state_layout::Map;
use std::alloc::{AllocError, Global};

/// The code of a rule between that which begins a round and that which ends it. An error is want of memory.
fn around(alloc: Global, map: &Map, rule: Tree) -> Result<Tree, AllocError>
    requires coded { IsCoded map.now }
    requires inputs { length (input_locations map.now.signatures) ≤ 256 }
    requires outputs { length (output_locations map.now.signatures) ≤ 256 }
    requires weight { unrolled_half map.now.signatures ≤ 262144 }
    ensures { IfOk result (λ tree. plan_of tree ≡ code.around map.now (plan_of rule)) }
{
    let inputs = read_inputs(alloc, map)?;
    let clear = clear_unrolled(alloc, map)?;
    let commit = commit_unrolled(alloc, map)?;
    let outputs = send_outputs(alloc, map)?;
    let ends = seq(alloc, commit.into_tree(), outputs.into_tree())?;
    let staged = seq(alloc, rule, ends)?;
    let cleared = seq(alloc, clear.into_tree(), staged)?;
    seq(alloc, inputs.into_tree(), cleared)
}

/// The code of a round of a program, for its rule written out without loops: the inputs are read, the updates of the rule are
/// staged and fired, and the outputs are sent. The tables of static functions begin at the address `tables`.
///
/// # Errors
///
/// `AllocError` where there is no memory for it.
pub fn body(
    alloc: Global,
    checked: &Checked,
    map: &Map,
    flat: &Flat,
    tables: u32,
) -> Result<Block, AllocError>
    requires prepared { IsPrepared checked.now map.now }
    requires writable { IsWritable checked.now map.now flat.now }
    requires weight { body_weight map.now flat.now ≤ 262144 }
    ensures plan { IfOk result (λ block. plan_of block ≡ code.body_plan checked.now map.now tables flat.now) }
{
    let writer = RuleWriter {
        alloc,
        checked,
        map,
        tables,
    };
    let rule = writer.rule(flat)?;
    let tree = around(alloc, map, rule)?;
    Ok(Block::of(tree))
}
