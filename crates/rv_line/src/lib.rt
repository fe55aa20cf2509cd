//! One line of RV32I assembly text, read and written. The form of the text is this project's own; the mnemonics are those
//! of the RISC-V Unprivileged manual.
#![tactic(auto)]

mod fault;
mod item;
mod labels;
mod laws;
mod operand_text;
mod operands;
mod reading;
mod scanning;
mod words;
mod writing;

pub use fault::LineFault;
pub use item::Item;
pub use labels::Labels;
pub use laws::{listing_is_line, listing_reads};
pub use reading::{read_item, read_label};
pub use writing::put_line;
