//! Sending the outputs.

ghost use Rattle.std.specs.Prelude.{◌≡◌, ◌≤◌, ◌<◌, ◌*◌, ◌++◌, length, OnOk, IfOk};
ghost use Rattle.block_code.specs.Tree.{plan_of};
ghost use Rattle.block_code.specs.Footprint.{LinesTouchOnly};
ghost use Rattle.block_code.specs.Plan.{full, len};
ghost use Rattle.state_space.specs.Locations.{is_state, output_locations};
ghost use Rattle.state_layout.specs.Map.{IsCell};
ghost use Rattle.staged_commit.specs.Code as code;
ghost use Rattle.staged_commit.specs.Law.{IsCoded, SendsOutputs};
ghost use Rattle.staged_commit.specs.Ports.{sending};

use crate::ports::{outputs_page, port_offset};
use crate::registers::{first_register, scratch_register};
use block_code::sequence::load_fixed;
use block_code::{Block, Instrs, Tree};
use mask_guard::decode_value;
use rv_isa::Instr;
use state_layout::{Cell, Map, cells_of};
use state_space::Side;
use std::alloc::{AllocError, Global};

/// The first register's word goes to a port.
fn sent(port: u32) -> [Instr; 2]
    requires { port < 256 }
    ensures { result ≡ code.send_word port }
{
    let page = Instr::Lui {
        rd: scratch_register(),
        imm: outputs_page(),
    };
    let send = Instr::Sw {
        rs1: scratch_register(),
        rs2: first_register(),
        imm: port_offset(port),
    };
    [page, send]
}

/// Appends code that sends the value at a cell to a port. An error is want of memory.
fn send_cell(line: &mut Instrs, map: &Map, port: u32, cell: Cell) -> Result<(), AllocError>
    requires coded { IsCoded map.now }
    requires cell { IsCell is_state map.now.signatures cell }
    requires port { port < 256 }
    ensures { OnOk result (line.new ≡ line.old ++ code.send_cell map.now port cell) }
{
    let range = map.range_at(cell.fun);
    let value = map.access_at(cell.fun);
    line.append(&load_fixed(value, first_register(), map.value_offset(cell)))?;
    decode_value(line, first_register(), range.size, range.lo)?;
    line.append(&sent(port))
}

/// Each output is sent. An error is want of memory.
fn send_line(alloc: Global, map: &Map) -> Result<Instrs, AllocError>
    requires coded { IsCoded map.now }
    requires few { length (output_locations map.now.signatures) ≤ 256 }
    ensures { IfOk result (λ line. line ≡ code.send_cells map.now 0 (code.output_cells map.now.signatures)) }
{
    let cells = cells_of(alloc, Side::Output, map.space().signatures())?;
    let mut line = Instrs::new(alloc);
    for port in 0..cells.len() {
        send_cell(&mut line, map, port as u32, cells.as_slice()[port])?;
    }
    Ok(line)
}

/// The value of each output location is sent to its port, once and in order.
///
/// # Errors
///
/// `AllocError` where there is no memory for it.
pub fn send_outputs(alloc: Global, map: &Map) -> Result<Block, AllocError>
    requires coded { IsCoded map.now }
    requires few { length (output_locations map.now.signatures) ≤ 256 }
    ensures plan { IfOk result (λ block. plan_of block ≡ code.send_outputs map.now) }
    ensures sends { IfOk result (λ block. SendsOutputs map.now (plan_of block)) }
    ensures touches { IfOk result (λ block. LinesTouchOnly sending (plan_of block)) }
    ensures len { IfOk result (λ block. len (plan_of block) ≤ 20 * length (output_locations map.now.signatures)) }
    ensures full { IfOk result (λ block. full (plan_of block) ≤ 20 * length (output_locations map.now.signatures)) }
{
    let line = send_line(alloc, map)?;
    Ok(Block::of(Tree::Line(line)))
}
