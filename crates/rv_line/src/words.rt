//! The words of a line: registers, numbers, labels and targets.

ghost use Rattle.std.specs.Prelude.{◌≡◌, ◌&&◌, ◌||◌, ℕ, ℤ, ◌<◌, ◌≤ℤ◌, ◌^◌, pos, negsuc, IfSome, is_some, is_none, neg_ℤ};
ghost use Rattle.rv_line.specs.Words.{displacement, imm12, imm_b, imm_j, imm_u, is_even, is_label, is_number, is_register, is_target, number, prefixed, raw_word, register, register_number, shift, signed_number, target};

use crate::fault::LineFault;
use crate::labels::Labels;
use asm_tree::is_name;
use rv_isa::{Imm12, ImmB, ImmJ, ImmU, Reg, Shift};
use text_core::{read_dec, read_hex};

/// The number of a register that is written so, whether or not there is such a register.
fn register_number(word: &[u8]) -> Option<u64>
    ensures { result ≡ register_number word.now }
{
    match word {
        [b'x', digits @ ..] => read_dec(digits),
        _ => None,
    }
}

/// The number of a decimal with or without `-` before it.
fn signed_number(word: &[u8]) -> Option<i64>
    ensures value { result ≡ signed_number word.now }
{
    match word {
        [b'-', digits @ ..] => match read_dec(digits) {
            Some(number) => Some(-(number as i64)),
            None => None,
        },
        _ => match read_dec(word) {
            Some(number) => Some(number as i64),
            None => None,
        },
    }
}

/// The hexadecimal number behind `0x`.
fn prefixed(word: &[u8]) -> Option<u32>
    ensures { result ≡ prefixed word.now }
{
    match word {
        [b'0', b'x', digits @ ..] => read_hex(digits),
        _ => None,
    }
}

/// The number of a decimal or of a hexadecimal number behind `0x`.
#[tactic(auto, unfolding(crate::specs::Words::number))]
fn number(word: &[u8]) -> Option<i64>
    ensures { result ≡ number word.now }
{
    match signed_number(word) {
        Some(number) => Some(number),
        None => match prefixed(word) {
            Some(number) => Some(i64::from(number)),
            None => None,
        },
    }
}

/// Whether a word is written as a register, whether or not there is such a register.
pub fn is_register(word: &[u8]) -> bool
    ensures { result ≡ is_register word.now }
{
    register_number(word).is_some()
}

/// Whether a word is written as a number.
pub fn is_number(word: &[u8]) -> bool
    ensures { result ≡ is_number word.now }
{
    number(word).is_some()
}

/// Whether a word is a label: a name that isn't written as a register.
pub fn is_label(word: &[u8]) -> bool
    ensures { result ≡ is_label word.now }
{
    is_name(word) && register_number(word).is_none()
}

/// Whether a word is written as a target: a number or a label.
pub fn is_target(word: &[u8]) -> bool
    ensures { result ≡ is_target word.now }
{
    is_number(word) || is_label(word)
}

/// The register that a word names.
#[tactic(auto, unfolding(crate::specs::Words::register))]
pub fn register(word: &[u8]) -> Result<Reg, LineFault>
    ensures { result ≡ register word.now }
{
    match register_number(word) {
        None => Err(LineFault::Form),
        Some(number) => {
            if number < 32 {
                Ok(Reg::new(number as u32).unwrap())
            } else {
                Err(LineFault::Range)
            }
        }
    }
}

/// The immediate of 12 bits that a word is.
#[tactic(auto, unfolding(crate::specs::Words::imm12))]
pub fn imm12(word: &[u8]) -> Result<Imm12, LineFault>
    ensures { result ≡ imm12 word.now }
{
    match number(word) {
        None => Err(LineFault::Form),
        Some(value) => {
            if -2048 <= value && value <= 2047 {
                Ok(Imm12::new(value as i32).unwrap())
            } else {
                Err(LineFault::Range)
            }
        }
    }
}

/// The number of bits to shift by that a word is.
#[tactic(auto, unfolding(crate::specs::Words::shift))]
pub fn shift(word: &[u8]) -> Result<Shift, LineFault>
    ensures { result ≡ shift word.now }
{
    match number(word) {
        None => Err(LineFault::Form),
        Some(value) => {
            if 0 <= value && value <= 31 {
                Ok(Shift::new(value as u32).unwrap())
            } else {
                Err(LineFault::Range)
            }
        }
    }
}

/// The upper 20 bits of a word, that a word of text is.
#[tactic(auto, unfolding(crate::specs::Words::imm_u))]
pub fn imm_u(word: &[u8]) -> Result<ImmU, LineFault>
    ensures { result ≡ imm_u word.now }
{
    match number(word) {
        None => Err(LineFault::Form),
        Some(value) => {
            if 0 <= value && value <= 1_048_575 {
                Ok(ImmU::new(value as u32).unwrap())
            } else {
                Err(LineFault::Range)
            }
        }
    }
}

/// The number of 32 bits that a word is.
#[tactic(auto, unfolding(crate::specs::Words::raw_word))]
pub fn raw_word(word: &[u8]) -> Result<u32, LineFault>
    ensures { result ≡ raw_word word.now }
{
    match number(word) {
        None => Err(LineFault::Form),
        Some(value) => {
            if 0 <= value && value <= 4_294_967_295 {
                Ok(value as u32)
            } else {
                Err(LineFault::Range)
            }
        }
    }
}

/// The displacement in bytes that a target stands for, from the instruction that is the word with the number `here`: a
/// label's is 0 where no number is given.
#[tactic(auto, unfolding(crate::specs::Words::target))]
fn target(labels: &Labels, here: Option<u32>, word: &[u8]) -> Result<i64, LineFault>
    ensures { result ≡ target labels.now here word.now }
{
    match number(word) {
        Some(value) => Ok(value),
        None => {
            if !is_label(word) {
                return Err(LineFault::Form);
            }
            match labels.displacement(here, word) {
                Some(value) => Ok(value),
                None => Err(LineFault::Undefined),
            }
        }
    }
}

/// The displacement of a branch that a target stands for.
#[tactic(auto, unfolding(crate::specs::Words::imm_b))]
pub fn imm_b(labels: &Labels, here: Option<u32>, word: &[u8]) -> Result<ImmB, LineFault>
    ensures { result ≡ imm_b labels.now here word.now }
{
    let value = target(labels, here, word)?;
    if -4096 <= value && value <= 4094 && value % 2 == 0 {
        Ok(ImmB::new(value as i32).unwrap())
    } else {
        Err(LineFault::Range)
    }
}

/// The displacement of a jump that a target stands for.
#[tactic(auto, unfolding(crate::specs::Words::imm_j))]
pub fn imm_j(labels: &Labels, here: Option<u32>, word: &[u8]) -> Result<ImmJ, LineFault>
    ensures { result ≡ imm_j labels.now here word.now }
{
    let value = target(labels, here, word)?;
    if -1048576 <= value && value <= 1048574 && value % 2 == 0 {
        Ok(ImmJ::new(value as i32).unwrap())
    } else {
        Err(LineFault::Range)
    }
}
