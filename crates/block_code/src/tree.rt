//! Code by its structure.

use crate::instrs::Instrs;
use rv_isa::Reg;

/// Code by its structure. A slot is the offset in bytes of a word of RAM, which holds a counter.
#[derive(Drop)]
pub enum Tree {
    /// Instructions one after another, with skips forward.
    Line(Instrs),
    /// The first part, then the second.
    Seq(Box<Tree>, Box<Tree>),
    /// The then part where the test register is not 0, else the else part.
    If {
        test: Reg,
        then_part: Box<Tree>,
        else_part: Box<Tree>,
    },
    /// The body for each counter from 0 up to the count. The counter stands in RAM at the slot.
    Loop {
        count: u32,
        slot: u32,
        body: Box<Tree>,
    },
    /// `found` at the least counter whose guard leaves the test register not 0, else `none`.
    Scan {
        count: u32,
        slot: u32,
        guard: Box<Tree>,
        test: Reg,
        found: Box<Tree>,
        none: Box<Tree>,
    },
}
