//! Lines of a listing.

ghost use Rattle.std.specs.Prelude.{◌≡◌, ◌++◌, OnOk, OnErr};
ghost use Rattle.std.specs.Io.{StartsWith};
ghost use Rattle.rv_encode.specs.Decoded.{decoded};
ghost use Rattle.rv_line.specs.Texts.{instr_text, line_text, said_text};

use crate::operand_text;
use rv_encode::{decode, instruction_table};
use rv_isa::Instr;
use std::alloc::AllocError;
use text_core::{Piece, put_bytes, put_pieces};

/// Appends the mnemonic of an instruction and its operands, by the rows of the table of instructions.
macro_rules! put_row {
    (($out:expr, $instr:expr) $($name:ident $mnemonic:ident { $($operand:ident),* } $format:ident($($field:literal),*) $form:ident;)*) => {
        match $instr {
            $(Instr::$name { $($operand),* } => {
                put_bytes($out, stringify!($mnemonic).as_bytes())?;
                operand_text::$form($out, $($operand),*)
            })*
        }
    };
}

/// Appends the text of an instruction.
#[tactic(auto, unfolding(crate::specs::Texts::instr_text))]
fn put_instr(out: &mut Vec<u8>, instr: Instr) -> Result<(), AllocError>
    ensures ok { OnOk result (out.new.items ≡ out.old.items ++ instr_text instr) }
    ensures err { OnErr result (StartsWith out.new.items out.old.items) }
{
    instruction_table!(put_row(out, instr))
}

/// Appends what a word says: the text of its instruction or, where it is none's, `.word 0x` and eight digits.
fn put_said(out: &mut Vec<u8>, word: u32) -> Result<(), AllocError>
    ensures ok { OnOk result (out.new.items ≡ out.old.items ++ said_text word (decoded word)) }
    ensures err { OnErr result (StartsWith out.new.items out.old.items) }
{
    match decode(word) {
        Some(instr) => put_instr(out, instr),
        None => put_pieces(out, &[Piece::Text(b".word 0x"), Piece::Hex8(word)]),
    }
}

/// Appends the line of a listing for a word at an address in bytes, without its line feed: what the word says and,
/// behind a number sign, the address and the word, each in eight hexadecimal digits.
///
/// # Errors
///
/// `AllocError` where no memory is left; `out` then begins with what it held.
#[tactic(auto, unfolding(crate::specs::Texts::line_text))]
pub fn put_line(out: &mut Vec<u8>, address: u32, word: u32) -> Result<(), AllocError>
    ensures ok { OnOk result (out.new.items ≡ out.old.items ++ line_text address word) }
    ensures err { OnErr result (StartsWith out.new.items out.old.items) }
{
    let comment = [
        Piece::Text(b" # "),
        Piece::Hex8(address),
        Piece::Text(b" "),
        Piece::Hex8(word),
    ];
    put_said(out, word)?;
    put_pieces(out, &comment)
}
