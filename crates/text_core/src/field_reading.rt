//! The fields of a line, which spaces and tabs part, in the line's own memory.

ghost use Rattle.std.specs.Prelude.{◌≡◌, ℕ, ◌+◌, ◌-◌, ◌<◌, ◌≤◌, List, [], ◌∷◌, length, take, drop, map, All, not, IfNone, IfSome, IfOk};
ghost use Rattle.std.specs.List.{prefix_len};
ghost use Rattle.text_core.specs.Fields.{AreInOrder, IsWithin, begins, fields, first_end, is_blank, is_passed, piece};

use std::alloc::{AllocError, Global};

/// Whether a byte is a space or a tab.
pub fn is_blank(byte: u8) -> bool
    ensures { result ≡ is_blank byte }
{
    byte == b' ' || byte == b'\t'
}

/// How many blanks a line begins with.
fn blanks(line: &[u8]) -> usize
    ensures value { result ≡ prefix_len is_blank line.now }
    ensures within { result ≤ length line.now }
{
    for (index, byte) in line.iter().enumerate() {
        if !is_blank(*byte) {
            return index;
        }
    }
    line.len()
}

/// How many bytes stand before the first blank.
fn field_len(line: &[u8]) -> usize
    ensures value { result ≡ prefix_len (λ byte. not (is_blank byte)) line.now }
    ensures within { result ≤ length line.now }
{
    for (index, byte) in line.iter().enumerate() {
        if is_blank(*byte) {
            return index;
        }
    }
    line.len()
}

/// The start and the end of the first field. None where there is no field.
fn field_place(line: &[u8]) -> Option<(usize, usize)>
    ensures none { IfNone result (fields line.now ≡ []) }
    ensures field { IfSome result (λ place. fields line.now ≡ piece line.now place ∷ fields (drop place.1 line.now)) }
    ensures end { IfSome result (λ place. place.1 ≡ first_end line.now) }
    ensures some { IfSome result (λ place. place.0 < place.1) }
    ensures inside { IfSome result (λ place. place.1 ≤ length line.now) }
{
    let start = blanks(line);
    if start == line.len() {
        return None;
    }
    Some((start, start + field_len(&line[start..])))
}

/// The first field and what follows it. None where there is no field. Takes no memory.
pub fn next_field(line: &[u8]) -> Option<(&[u8], &[u8])>
    ensures none { IfNone result (fields line.now ≡ []) }
    ensures field { IfSome result (λ found. fields line.now ≡ found.0.now ∷ fields found.1.now) }
    ensures rest { IfSome result (λ found. found.1.now ≡ drop (first_end line.now) line.now) }
    ensures fewer { IfSome result (λ found. length found.1.now < length line.now) }
    ensures some { IfSome result (λ found. 1 ≤ length found.0.now) }
{
    let (start, end) = field_place(line)?;
    Some((&line[start..end], &line[end..]))
}

/// The start and the end of each field, first to last. The only error is that no memory is left.
pub fn fields(alloc: Global, line: &[u8]) -> Result<Vec<(usize, usize)>, AllocError>
    ensures fields { IfOk result (λ places. map (piece line.now) places.items ≡ fields line.now) }
    ensures inside { IfOk result (λ places. All (IsWithin line.now) places.items) }
    ensures order { IfOk result (λ places. AreInOrder 0 places.items) }
{
    let mut places = Vec::new(alloc);
    let mut at = 0;
    while let Some((start, end)) = field_place(&line[at..]) {
        places.push((at + start, at + end))?;
        at += end;
    }
    Ok(places)
}

/// Whether the first byte of a line is this one. Takes no memory.
pub fn begins(line: &[u8], byte: u8) -> bool
    ensures { result ≡ begins byte line.now }
{
    match line {
        [] => false,
        [first, ..] => *first == byte,
    }
}

/// Whether a line is passed over: it is one of blanks alone, or its first byte is `#`. Takes no memory.
pub fn is_passed(line: &[u8]) -> bool
    ensures { result ≡ is_passed line.now }
{
    begins(line, b'#') || next_field(line).is_none()
}
