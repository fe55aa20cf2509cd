//! Clearing what is staged.

ghost use Rattle.std.specs.Prelude.{◌≡◌, ◌≤◌, ◌++◌, IfOk};
ghost use Rattle.block_code.specs.Tree.{plan_of};
ghost use Rattle.block_code.specs.Footprint.{LinesTouchOnly, only_in};
ghost use Rattle.block_code.specs.Plan.{full, len};
ghost use Rattle.state_layout.specs.Map.{state_cells};
ghost use Rattle.staged_commit.specs.Code as code;
ghost use Rattle.staged_commit.specs.Law.{Clears, IsCoded};
ghost use Rattle.staged_commit.specs.Regions.{in_clear};
ghost use Rattle.staged_commit.specs.Weight.{unrolled_half};

use crate::registers::zero_register;
use block_code::sequence::store_fixed;
use block_code::{Block, Instrs, Tree};
use state_layout::Map;
use std::alloc::{AllocError, Global};
use trap_model::Width;

/// The clash mark and then the flag of each location become 0. An error is want of memory.
fn clear_line(alloc: Global, map: &Map) -> Result<Instrs, AllocError>
    requires { IsCoded map.now }
    ensures { IfOk result (λ line. line ≡ code.clear_mark map.now ++ code.clear_cells map.now (state_cells map.now)) }
{
    let flag = map.layout().flag_access();
    let mut line = Instrs::new(alloc);
    line.append(&store_fixed(Width::Word, zero_register(), map.clash()))?;
    for place in 0..map.space().count() {
        line.append(&store_fixed(flag, zero_register(), map.flag_offset(map.cell(place))))?;
    }
    Ok(line)
}

/// From every hart nothing is staged behind this block: the clash mark and all flags become 0, without a loop.
///
/// # Errors
///
/// `AllocError` where there is no memory for it.
pub fn clear_unrolled(alloc: Global, map: &Map) -> Result<Block, AllocError>
    requires coded { IsCoded map.now }
    requires weight { unrolled_half map.now.signatures ≤ 262144 }
    ensures plan { IfOk result (λ block. plan_of block ≡ code.clear_unrolled map.now) }
    ensures clears { IfOk result (λ block. Clears map.now (plan_of block)) }
    ensures touches { IfOk result (λ block. LinesTouchOnly (only_in (in_clear map.now)) (plan_of block)) }
    ensures len { IfOk result (λ block. len (plan_of block) ≤ unrolled_half map.now.signatures) }
    ensures full { IfOk result (λ block. full (plan_of block) ≤ unrolled_half map.now.signatures) }
{
    let line = clear_line(alloc, map)?;
    Ok(Block::of(Tree::Line(line)))
}
