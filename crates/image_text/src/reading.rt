//! An image read from text.

ghost use Rattle.std.specs.Prelude.{◌≡◌, ◌≢◌, ℕ, ◌^◌, ◌<◌, ◌≤◌, Ok, Err, length, IfOk, IfErr, IfSome};
ghost use Rattle.text_core.specs.Lines.{lines};
ghost use Rattle.rv_machine.specs.Hart.{AreWords};
ghost use Rattle.image_text.specs.ImageLines.{image_of, word_of_line};
ghost use Rattle.image_text.specs.declared.reading.ImageEnd.TheVariants.{NoMemory};

use rv_encode::Words;
use std::alloc::{AllocError, Global};
use text_core::{Lines, is_passed, next_field, read_hex};
use thiserror::Error;

/// Why a text is no image.
#[derive(Clone, Copy, Debug, PartialEq, Eq, Error)]
pub enum ImageEnd {
    /// A line is neither a word of 1 to 8 hexadecimal digits, nor blank, nor a remark.
    #[error("line {line} is no word of 1 to 8 hexadecimal digits")]
    BadLine {
        /// The line's number.
        line: u32,
    },
    /// A line has one word more than the limit allows.
    #[error("line {line} has one word too many")]
    TooMany {
        /// The line's number.
        line: u32,
    },
    /// No memory was left for the words.
    #[error("out of memory")]
    NoMemory,
}

impl From<AllocError> for ImageEnd {
    ghost from_gives = { λ _ end. end ≡ NoMemory };

    fn from(_: AllocError) -> Self {
        ImageEnd::NoMemory
    }
}

/// The word of a line: its one field as a hexadecimal number.
fn word_of_line(line: &[u8]) -> Option<u32>
    ensures value { result ≡ word_of_line line.now }
    ensures small { IfSome result (λ word. word < 2 ^ 32) }
{
    match next_field(line) {
        Some((field, rest)) => match next_field(rest) {
            Some(_) => None,
            None => read_hex(field),
        },
        None => None,
    }
}

/// The words of an image of at most `limit` words that is written as text: each word on a line of its own, as 1 to 8
/// hexadecimal digits of either case, with spaces and tabs around them or not. Blank lines and lines that begin with
/// `#` are passed over. The text has fewer than 2^31 bytes, and its first line has number `first_line`, of 1 to 2^30.
///
/// # Errors
///
/// The first line that is wrong, with its number: `BadLine` where it has another form, else `TooMany` where it has one
/// word more than `limit`. `NoMemory` where no memory is left for the words.
pub fn read_image(
    alloc: Global,
    text: &[u8],
    first_line: u32,
    limit: u32,
) -> Result<Words, ImageEnd>
    requires short { length text.now < 2 ^ 31 }
    requires some { 1 ≤ first_line }
    requires few { first_line ≤ 2 ^ 30 }
    ensures ok { IfOk result (λ words. image_of limit first_line (lines text.now) ≡ Ok words) }
    ensures err { IfErr result (λ end. end ≢ NoMemory → image_of limit first_line (lines text.now) ≡ Err end) }
    ensures words { IfOk result AreWords }
    ensures count { IfOk result (λ words. length words ≤ limit) }
{
    let mut words = Words::new(alloc);
    let mut room = limit;
    let mut cursor = Lines::starting_at(text, first_line);
    while let Some((number, line)) = cursor.next() {
        if is_passed(line) {
            continue;
        }
        match word_of_line(line) {
            None => return Err(ImageEnd::BadLine { line: number }),
            Some(_) if room == 0 => return Err(ImageEnd::TooMany { line: number }),
            Some(word) => words.push(word)?,
        }
        room -= 1;
    }
    Ok(words)
}
