//! The lines of a text, one after another, in the text's own memory.

ghost use Rattle.std.specs.Prelude.{◌≡◌, ◌≢◌, ℕ, ◌+◌, ◌-◌, ◌^◌, ◌<◌, ◌≤◌, ◌==◌, ◌&&◌, [], ◌∷◌, length, take, if◌then◌else◌, not, IfNone, IfSome, OnSome};
ghost use Rattle.std.specs.Io.BufRead.{drop_through};
ghost use Rattle.std.specs.List.{prefix_len};
ghost use Rattle.text_core.specs.Lines.{Cursor, ends_return, lines, without_return};

use std::marker::Model;

/// Where the first line feed stands, or the text's length where there is none.
fn feed_at(text: &[u8]) -> usize
    ensures value { result ≡ prefix_len (λ byte. not (byte == 10)) text.now }
    ensures within { result ≤ length text.now }
{
    for (index, byte) in text.iter().enumerate() {
        if *byte == b'\n' {
            return index;
        }
    }
    text.len()
}

/// Whether the last byte is a carriage return.
fn ends_return(text: &[u8]) -> bool
    ensures { result ≡ ends_return text.now }
{
    !text.is_empty() && text[text.len() - 1] == b'\r'
}

/// The text without the carriage return at its end, where one is.
fn without_return(text: &[u8]) -> &[u8]
    ensures { result.now ≡ without_return text.now }
{
    if ends_return(text) {
        return &text[..text.len() - 1];
    }
    text
}

/// The first line, without the line feed at its end and the one carriage return before it, and what follows the line
/// feed, which is nothing where there is none. None where the text is at its end. A last line needs no line feed. Takes no memory.
pub fn next_line(text: &[u8]) -> Option<(&[u8], &[u8])>
    ensures none { IfNone result (text.now ≡ []) }
    ensures line { IfSome result (λ found. lines text.now ≡ found.0.now ∷ lines found.1.now) }
    ensures rest { IfSome result (λ found. found.1.now ≡ drop_through 10 text.now) }
    ensures fewer { IfSome result (λ found. length found.1.now < length text.now) }
    ensures short { IfSome result (λ found. length found.0.now ≤ length text.now) }
{
    if text.is_empty() {
        return None;
    }
    let end = feed_at(text);
    if end == text.len() {
        return Some((text, &[]));
    }
    Some((without_return(&text[..end]), &text[end + 1..]))
}

/// The lines of a text with their numbers, taken one by one. Contracts see it as the bytes that are left and the
/// number of the line that comes next.
#[derive(Drop)]
pub struct Lines<'a> {
    left: &'a [u8],
    number: u32,
}

impl<'a> Model for Lines<'a> {
    ghost use Rattle.std.specs.Prelude.{◌+◌, ◌^◌, ◌<◌, length};
    ghost use Rattle.text_core.specs.Lines.{Cursor};

    ghost Value = { Cursor };

    ghost view = { λ cursor. record { left = cursor.left.now; number = cursor.number } };

    ghost invariant = { λ cursor. cursor.number + length cursor.left.now < 2 ^ 32 };
}

impl<'a> Lines<'a> {
    /// The lines of a text of fewer than 2^31 bytes, the first of which has number 1.
    pub fn new(text: &'a [u8]) -> Lines<'a>
        requires { length text.now < 2 ^ 31 }
        ensures left { result.left ≡ text.now }
        ensures number { result.number ≡ 1 }
    {
        Lines {
            left: text,
            number: 1,
        }
    }

    /// The lines of a text of fewer than 2^31 bytes that stands behind other lines: its first line has number `first`,
    /// of 1 to 2^30.
    pub fn starting_at(text: &'a [u8], first: u32) -> Lines<'a>
        requires short { length text.now < 2 ^ 31 }
        requires some { 1 ≤ first }
        requires few { first ≤ 2 ^ 30 }
        ensures left { result.left ≡ text.now }
        ensures number { result.number ≡ first }
    {
        Lines {
            left: text,
            number: first,
        }
    }

    /// The next line with its number, as `next_line` takes it, or None where no line is left. Takes no memory.
    pub fn next(&mut self) -> Option<(u32, &'a [u8])>
        ensures none { IfNone result (self.old.left ≡ []) }
        ensures kept { IfNone result (self.new ≡ self.old) }
        ensures line { IfSome result (λ found. lines self.old.left ≡ found.1.now ∷ lines self.new.left) }
        ensures rest { OnSome result (self.new.left ≡ drop_through 10 self.old.left) }
        ensures number { IfSome result (λ found. found.0 ≡ self.old.number) }
        ensures counted { OnSome result (self.new.number ≡ self.old.number + 1) }
        ensures fewer { OnSome result (length self.new.left < length self.old.left) }
        ensures short { IfSome result (λ found. length found.1.now ≤ length self.old.left) }
    {
        let (line, left) = next_line(self.left)?;
        let number = self.number;
        self.left = left;
        self.number += 1;
        Some((number, line))
    }
}
