//! Numbers, lines and fields of text, read from bytes, and pieces of text appended to bytes.
#![tactic(auto)]

mod field_reading;
mod line_reading;
mod reading;
#[cfg(test)]
mod tests;
mod writing;

pub use field_reading::{begins, fields, is_blank, is_passed, next_field};
pub use line_reading::{Lines, next_line};
pub use reading::{read_dec, read_hex};
pub use writing::{Piece, put_bytes, put_dec, put_dec_unsigned, put_hex8, put_line, put_pieces};
