//! The table of the instructions, read both ways.

ghost use Rattle.std.specs.Prelude.{◌≡◌, ℕ, IfSome, IfNone, Some};
ghost use Rattle.rv_isa.specs.declared.instr.Instr.{Instr};
ghost use Rattle.rv_encode.specs.Decoded.{decoded};
ghost use Rattle.rv_encode.specs.Table.{Row};

use crate::bits::bits;
use crate::{b_type, fixed, i_type, instruction_table, j_type, r_type, s_type, shift_type, u_type};
use rv_isa::Instr;

/// The word of the row that an instruction is an instance of.
macro_rules! word_of {
    (($instr:expr) $($name:ident $mnemonic:ident { $($operand:ident),* } $format:ident($($field:literal),*) $form:ident;)*) => {
        match $instr {
            $(Instr::$name { $($operand),* } => $format::encode($($field,)* $($operand),*),)*
        }
    };
}

/// The instruction of the row whose fixed fields a word has, with the operands that stand in the word.
macro_rules! row_of {
    (($word:expr) $($name:ident $mnemonic:ident { $($operand:ident),* } $format:ident($($field:literal),*) $form:ident;)*) => {
        match ($word, bits($word, 6, 0), bits($word, 14, 12), bits($word, 31, 25)) {
            $(fixed_fields!($format $($field)*) => {
                let ($($operand),*) = $format::operands($word);
                Some(Instr::$name { $($operand),* })
            })*
            _ => None,
        }
    };
}

/// The word, opcode, funct3 and funct7 of a row, as far as the row fixes them.
macro_rules! fixed_fields {
    (fixed $word:literal) => {
        ($word, _, _, _)
    };
    ($format:ident $opcode:literal) => {
        (_, $opcode, _, _)
    };
    ($format:ident $opcode:literal $funct3:literal) => {
        (_, $opcode, $funct3, _)
    };
    ($format:ident $opcode:literal $funct3:literal $funct7:literal) => {
        (_, $opcode, $funct3, $funct7)
    };
}

/// The word of an instruction, by the table of the RISC-V Unprivileged manual: each instruction has just one.
#[tactic(auto, unfolding(crate::specs::Table::Row))]
pub fn encode(instr: Instr) -> u32
    ensures row { Row result instr }
    ensures only { (word : ℕ) → Row word instr → word ≡ result }
{
    instruction_table!(word_of(instr))
}

/// The instruction of a row of the table that has the word, or `None` where no row has it.
#[tactic(auto, unfolding(crate::specs::Table::Row))]
fn find_row(word: u32) -> Option<Instr>
    ensures found { IfSome result (λ instr. Row word instr) }
    ensures none { IfNone result ((instr : Instr) → ¬ Row word instr) }
{
    instruction_table!(row_of(word))
}

/// The one instruction whose word this is, by the table of the RISC-V Unprivileged manual: `None` exactly where
/// no instruction has the word, as at 0 and at 2^32 - 1. What `encode` makes of an instruction is decoded to that
/// instruction again.
#[tactic(auto, using(crate::proofs::Rows::one_instruction, crate::proofs::Decoding::found, crate::proofs::Decoding::not_found))]
pub fn decode(word: u32) -> Option<Instr>
    ensures found { IfSome result (λ instr. Row word instr) }
    ensures none { IfNone result ((instr : Instr) → ¬ Row word instr) }
    ensures only { (instr : Instr) → Row word instr → result ≡ Some instr }
    ensures value { result ≡ decoded word }
{
    find_row(word)
}
