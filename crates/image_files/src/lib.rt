//! Files for a ROM image: Intel HEX and a subset of ELF for 32 bits, read and written.
#![tactic(auto)]

mod digits;
mod elf;
mod fault;
mod hex_reading;
mod hex_state;
mod hex_writing;
mod places;
mod record;
mod words;

pub use elf::{elf_reads_back, read_elf, write_elf};
pub use fault::{ElfEnd, HexEnd, HexFault};
pub use hex_reading::read_hex_file;
pub use hex_writing::{hex_reads_back, write_hex};
