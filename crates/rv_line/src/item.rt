//! What a line of assembly text says.

use rv_isa::Instr;

/// What a line says that takes a word: an instruction, or the word itself.
#[derive(Clone, Copy)]
pub enum Item {
    /// An instruction of the table.
    Coded(Instr),
    /// The word of a `.word` line.
    Raw(u32),
}
