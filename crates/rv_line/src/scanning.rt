//! The pieces of a line: words, and the signs between them.

ghost use Rattle.std.specs.Prelude.{◌≡◌, true, ℕ, ◌==◌, ◌≤◌, ◌<◌, List, [], ◌∷◌, length, take, drop, not};
ghost use Rattle.rv_line.specs.Forms.{based, end, one, sign, three, two, word};
ghost use Rattle.rv_line.specs.Gives.{Gives};
ghost use Rattle.rv_line.specs.Pieces.{ends_word, is_sign, pieces, without_comment, is_empty, unblanked, word_len};

use crate::fault::LineFault;
use text_core::is_blank;

/// Whether a byte is a comma or a parenthesis.
fn is_sign(byte: u8) -> bool
    ensures { result ≡ is_sign byte }
{
    byte == b',' || byte == b'(' || byte == b')'
}

/// The text behind the blanks that it begins with.
fn unblanked(text: &[u8]) -> &[u8]
    ensures { result.now ≡ unblanked text.now }
{
    let mut rest = text;
    'blanks: while let [byte, after @ ..] = rest {
        if !is_blank(*byte) {
            break;
        }
        rest = after;
    }
    rest
}

/// Where the word ends that a text begins with: before a blank or a sign, or behind a colon.
fn word_len(text: &[u8]) -> usize
    ensures length { result ≡ word_len text.now }
    ensures within { result ≤ length text.now }
{
    for (index, byte) in text.iter().enumerate() {
        if is_blank(*byte) || is_sign(*byte) {
            return index;
        }
        if *byte == b':' {
            return index + 1;
        }
    }
    text.len()
}

/// The word that is the first piece, and the text behind it.
pub fn word(text: &[u8]) -> Result<(&[u8], &[u8]), LineFault>
    ensures { Gives (λ found. (found.0.now, pieces found.1.now)) result (word (pieces text.now)) }
{
    let text = unblanked(text);
    let len = word_len(text);
    if len == 0 {
        return Err(LineFault::Form);
    }
    Ok(text.split_at(len))
}

/// The text behind a sign that is the first piece.
pub fn sign(text: &[u8], wanted: u8) -> Result<&[u8], LineFault>
    requires { is_sign wanted ≡ true }
    ensures { Gives (λ rest. pieces rest.now) result (sign wanted (pieces text.now)) }
{
    match unblanked(text) {
        [byte, rest @ ..] => {
            if *byte == wanted {
                Ok(rest)
            } else {
                Err(LineFault::Form)
            }
        }
        [] => Err(LineFault::Form),
    }
}

/// Whether no piece is left.
pub fn is_end(text: &[u8]) -> bool
    ensures { result ≡ is_empty (pieces text.now) }
{
    unblanked(text).is_empty()
}

/// Nothing, where no piece is left.
pub fn end(text: &[u8]) -> Result<(), LineFault>
    ensures { result ≡ end (pieces text.now) }
{
    if is_end(text) {
        Ok(())
    } else {
        Err(LineFault::Form)
    }
}
