//! Text appended to a list of bytes. Each call appends the whole text or, where no memory is left, nothing. A call for
//! whose text the list has room takes no memory, and so does not fail.

ghost use Rattle.std.specs.Prelude.{◌≡◌, ◌+◌, ◌<◌, ◌≤◌, [], ◌++◌, length, map, codes, IsOk, OnOk, OnErr};
ghost use Rattle.std.specs.Fmt.{decimal, signed_decimal};
ghost use Rattle.text_core.specs.Hexadecimal.{glyph, hex8};
ghost use Rattle.text_core.specs.Room.{room_of};
ghost use Rattle.text_core.specs.WrittenLines.{parted};
ghost use Rattle.text_core.specs.WrittenPieces.{line_of, text_of, whole_of};
ghost use Rattle.std.specs.Io.{StartsWith};

use itoa::Buffer;
use std::alloc::AllocError;

/// Appends a piece of text.
pub fn put_bytes(out: &mut Vec<u8>, piece: &[u8]) -> Result<(), AllocError>
    ensures ok { OnOk result (out.new.items ≡ out.old.items ++ piece.now) }
    ensures err { OnErr result (out.new.items ≡ out.old.items) }
    ensures fits { length piece.now ≤ room_of out.old → IsOk result }
    ensures room { room_of out.old ≤ room_of out.new + length piece.now }
{
    out.extend_from_slice(piece)
}

/// Appends a number in decimal, with `-` before it where it is negative.
pub fn put_dec(out: &mut Vec<u8>, value: i64) -> Result<(), AllocError>
    ensures ok { OnOk result (out.new.items ≡ out.old.items ++ signed_decimal value) }
    ensures err { OnErr result (out.new.items ≡ out.old.items) }
    ensures fits { length (signed_decimal value) ≤ room_of out.old → IsOk result }
    ensures room { room_of out.old ≤ room_of out.new + length (signed_decimal value) }
{
    put_bytes(out, Buffer::new().format(value).as_bytes())
}

/// Appends a number in decimal, also one too great for `put_dec`.
pub fn put_dec_unsigned(out: &mut Vec<u8>, value: u64) -> Result<(), AllocError>
    ensures ok { OnOk result (out.new.items ≡ out.old.items ++ decimal value) }
    ensures err { OnErr result (out.new.items ≡ out.old.items) }
    ensures fits { length (decimal value) ≤ room_of out.old → IsOk result }
    ensures room { room_of out.old ≤ room_of out.new + length (decimal value) }
{
    put_bytes(out, Buffer::new().format(value).as_bytes())
}

fn glyph(digit: u32) -> u8
    requires { digit < 16 }
    ensures { result ≡ glyph digit }
{
    match digit {
        0..=9 => b'0' + digit as u8,
        _ => b'a' + (digit - 10) as u8,
    }
}

/// Appends a number in hexadecimal: eight digits in lower case.
#[tactic(auto, unfolding(crate::specs::Hexadecimal::hex8))]
pub fn put_hex8(out: &mut Vec<u8>, value: u32) -> Result<(), AllocError>
    ensures ok { OnOk result (out.new.items ≡ out.old.items ++ hex8 value) }
    ensures err { OnErr result (out.new.items ≡ out.old.items) }
    ensures fits { 8 ≤ room_of out.old → IsOk result }
    ensures room { room_of out.old ≤ room_of out.new + 8 }
{
    let digits = [
        glyph(value / 0x1000_0000 % 16),
        glyph(value / 0x100_0000 % 16),
        glyph(value / 0x10_0000 % 16),
        glyph(value / 0x1_0000 % 16),
        glyph(value / 0x1000 % 16),
        glyph(value / 0x100 % 16),
        glyph(value / 0x10 % 16),
        glyph(value % 16),
    ];
    put_bytes(out, &digits)
}

/// A piece of text: bytes, or a number in one of the forms in which it is written.
#[derive(Clone, Copy)]
pub enum Piece<'a> {
    /// Bytes as they are.
    Text(&'a [u8]),
    /// A number in decimal.
    Decimal(u64),
    /// A number in decimal, with `-` before it where it is negative.
    Signed(i64),
    /// Eight hexadecimal digits in lower case.
    Hex8(u32),
}

/// Appends a piece.
#[tactic(auto, unfolding(crate::specs::Hexadecimal::hex8))]
fn put_piece(out: &mut Vec<u8>, piece: &Piece<'_>) -> Result<(), AllocError>
    ensures ok { OnOk result (out.new.items ≡ out.old.items ++ text_of piece.now) }
    ensures err { OnErr result (out.new.items ≡ out.old.items) }
    ensures fits { length (text_of piece.now) ≤ room_of out.old → IsOk result }
    ensures room { room_of out.old ≤ room_of out.new + length (text_of piece.now) }
{
    match *piece {
        Piece::Text(text) => put_bytes(out, text),
        Piece::Decimal(number) => put_dec_unsigned(out, number),
        Piece::Signed(number) => put_dec(out, number),
        Piece::Hex8(word) => put_hex8(out, word),
    }
}

/// Appends pieces with a separator between them, and `end` behind the last one. Where no memory is left, a front of
/// that is appended.
fn put_parted(
    out: &mut Vec<u8>,
    pieces: &[Piece<'_>],
    separator: &[u8],
    end: &[u8],
) -> Result<(), AllocError>
    ensures ok { OnOk result (out.new.items ≡ out.old.items ++ (parted separator.now (map text_of pieces.now) ++ end.now)) }
    ensures err { OnErr result (StartsWith out.new.items out.old.items) }
    ensures fits { length (parted separator.now (map text_of pieces.now) ++ end.now) ≤ room_of out.old → IsOk result }
    ensures room { room_of out.old ≤ room_of out.new + length (parted separator.now (map text_of pieces.now) ++ end.now) }
{
    for (index, piece) in pieces.iter().enumerate() {
        if index > 0 {
            put_bytes(out, separator)?;
        }
        put_piece(out, piece)?;
    }
    put_bytes(out, end)
}

/// Appends pieces with a separator between them, and `end` behind the last one: all of that or nothing.
fn put_whole(
    out: &mut Vec<u8>,
    pieces: &[Piece<'_>],
    separator: &[u8],
    end: &[u8],
) -> Result<(), AllocError>
    ensures ok { OnOk result (out.new.items ≡ out.old.items ++ (parted separator.now (map text_of pieces.now) ++ end.now)) }
    ensures err { OnErr result (out.new.items ≡ out.old.items) }
    ensures fits { length (parted separator.now (map text_of pieces.now) ++ end.now) ≤ room_of out.old → IsOk result }
    ensures room { room_of out.old ≤ room_of out.new + length (parted separator.now (map text_of pieces.now) ++ end.now) }
{
    let start = out.len();
    let written = put_parted(out, pieces, separator, end);
    if written.is_err() {
        out.truncate(start);
    }
    written
}

/// Appends pieces, one behind the other.
pub fn put_pieces(out: &mut Vec<u8>, pieces: &[Piece<'_>]) -> Result<(), AllocError>
    ensures ok { OnOk result (out.new.items ≡ out.old.items ++ whole_of pieces.now) }
    ensures err { OnErr result (out.new.items ≡ out.old.items) }
    ensures fits { length (whole_of pieces.now) ≤ room_of out.old → IsOk result }
    ensures room { room_of out.old ≤ room_of out.new + length (whole_of pieces.now) }
{
    put_whole(out, pieces, b"", b"")
}

/// Appends a line of fields, with a space between them and a line feed at the end.
pub fn put_line(out: &mut Vec<u8>, fields: &[Piece<'_>]) -> Result<(), AllocError>
    ensures ok { OnOk result (out.new.items ≡ out.old.items ++ line_of fields.now) }
    ensures err { OnErr result (out.new.items ≡ out.old.items) }
    ensures fits { length (line_of fields.now) ≤ room_of out.old → IsOk result }
    ensures room { room_of out.old ≤ room_of out.new + length (line_of fields.now) }
{
    put_whole(out, fields, b" ", b"\n")
}
