//! Reading the inputs.

ghost use Rattle.std.specs.Prelude.{◌≡◌, ◌≤◌, ◌<◌, ◌*◌, length, IfOk};
ghost use Rattle.block_code.specs.Tree.{plan_of};
ghost use Rattle.block_code.specs.Footprint.{LinesTouchOnly};
ghost use Rattle.block_code.specs.Plan.{full, len};
ghost use Rattle.state_space.specs.Locations.{input_locations, is_input};
ghost use Rattle.state_layout.specs.Map.{IsCell, input_cells};
ghost use Rattle.staged_commit.specs.Code as code;
ghost use Rattle.staged_commit.specs.Law.{IsCoded, ReadsInputs};
ghost use Rattle.staged_commit.specs.Ports.{reading};

use crate::ports::{inputs_page, port_offset};
use crate::registers::first_register;
use block_code::sequence::store_fixed;
use block_code::{Block, Instrs, Tree};
use rv_isa::Instr;
use state_layout::{Cell, Map};
use std::alloc::{AllocError, Global};
use trap_model::Width;

/// The word of an input location is read at a port, and kept.
fn read_cell(map: &Map, port: u32, cell: Cell) -> [Instr; 4]
    requires coded { IsCoded map.now }
    requires cell { IsCell is_input map.now.signatures cell }
    requires port { port < 256 }
    ensures { result ≡ code.read_cell map.now port cell }
{
    let page = Instr::Lui {
        rd: first_register(),
        imm: inputs_page(),
    };
    let read = Instr::Lw {
        rd: first_register(),
        rs1: first_register(),
        imm: port_offset(port),
    };
    let [kept_page, keep] = store_fixed(Width::Word, first_register(), map.kept_offset(cell));
    [page, read, kept_page, keep]
}

/// Each input is read. An error is want of memory.
fn read_line(alloc: Global, map: &Map) -> Result<Instrs, AllocError>
    requires coded { IsCoded map.now }
    requires few { length (input_locations map.now.signatures) ≤ 256 }
    ensures { IfOk result (λ line. line ≡ code.read_cells map.now 0 (input_cells map.now)) }
{
    let mut line = Instrs::new(alloc);
    for port in 0..map.space().inputs() {
        line.append(&read_cell(map, port, map.input_cell(port)))?;
    }
    Ok(line)
}

/// Each input port is read once, in order, and its word kept.
///
/// # Errors
///
/// `AllocError` where there is no memory for it.
pub fn read_inputs(alloc: Global, map: &Map) -> Result<Block, AllocError>
    requires coded { IsCoded map.now }
    requires few { length (input_locations map.now.signatures) ≤ 256 }
    ensures plan { IfOk result (λ block. plan_of block ≡ code.read_inputs map.now) }
    ensures reads { IfOk result (λ block. ReadsInputs map.now (plan_of block)) }
    ensures touches { IfOk result (λ block. LinesTouchOnly (reading map.now) (plan_of block)) }
    ensures len { IfOk result (λ block. len (plan_of block) ≤ 16 * length (input_locations map.now.signatures)) }
    ensures full { IfOk result (λ block. full (plan_of block) ≤ 16 * length (input_locations map.now.signatures)) }
{
    let line = read_line(alloc, map)?;
    Ok(Block::of(Tree::Line(line)))
}
