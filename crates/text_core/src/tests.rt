//! The texts of numbers, lines and fields, and that the calls succeed where memory is there.
use crate::{
    Lines, Piece, fields, next_field, put_bytes, put_dec, put_dec_unsigned, put_hex8, put_line,
    put_pieces, read_dec, read_hex,
};
use std::test::Fail;

#[test]
fn numbers_have_their_texts(rt: HostRuntime) -> Result<(), Fail> {
    let alloc = rt.alloc();
    for (value, text) in [
        (0, "0"),
        (7, "7"),
        (-1, "-1"),
        (1_048_576, "1048576"),
        (i64::MAX, "9223372036854775807"),
        (i64::MIN, "-9223372036854775808"),
    ] {
        let mut out = Vec::new(alloc);
        put_dec(&mut out, value)?;
        assert_eq!(rt; out.as_slice(), text.as_bytes(), "{value}");
    }
    for (value, text) in [
        (0, "0"),
        (10, "10"),
        (1_099_511_627_776, "1099511627776"),
        (u64::MAX, "18446744073709551615"),
    ] {
        let mut out = Vec::new(alloc);
        put_dec_unsigned(&mut out, value)?;
        assert_eq!(rt; out.as_slice(), text.as_bytes(), "{value}");
    }
    for (value, text) in [
        (0, "00000000"),
        (0x1000, "00001000"),
        (0x804c_006f, "804c006f"),
        (0x89ab_cdef, "89abcdef"),
        (u32::MAX, "ffffffff"),
    ] {
        let mut out = Vec::new(alloc);
        put_hex8(&mut out, value)?;
        assert_eq!(rt; out.as_slice(), text.as_bytes(), "{value}");
    }
    Ok(())
}

#[test]
fn texts_have_their_numbers(rt: HostRuntime) {
    for (text, value) in [
        ("0", Some(0)),
        ("7", Some(7)),
        ("999999999999999999", Some(999_999_999_999_999_999)),
        ("1000000000000000000", None),
        ("07", None),
        ("", None),
        ("-1", None),
        ("1 ", None),
    ] {
        assert_eq!(rt; read_dec(text.as_bytes()), value, "{text}");
    }
}

#[test]
fn hexadecimal_digits_have_their_numbers(rt: HostRuntime) {
    for (text, value) in [
        ("6", Some(6)),
        ("00000000", Some(0)),
        ("DeadBeef", Some(0xdead_beef)),
        ("ffffffff", Some(u32::MAX)),
        ("09afAF", Some(0x09_afaf)),
        ("000000001", None),
        ("", None),
        ("0x13", None),
        ("0000006g", None),
        ("`", None),
        ("G", None),
        ("@", None),
        ("/", None),
        (":", None),
        ("-1", None),
    ] {
        assert_eq!(rt; read_hex(text.as_bytes()), value, "{text}");
    }
}

#[test]
fn texts_part_into_lines(rt: HostRuntime) -> Result<(), Fail> {
    for (text, first, lines) in [
        ("", 1, ""),
        ("a", 1, "1<a>"),
        ("a\n", 1, "1<a>"),
        ("a\r\nb c\r\n", 7, "7<a>8<b c>"),
        ("\n\r\n\nz", 1, "1<>2<>3<>4<z>"),
        ("a\rb\n", 1, "1<a\rb>"),
        ("a\r\r\n", 1, "1<a\r>"),
        ("a\r", 1_073_741_824, "1073741824<a\r>"),
    ] {
        assert!(rt; text.len() < 100);
        assert!(rt; 1 <= first);
        assert!(rt; first <= 1_073_741_824);
        let mut out = Vec::new(rt.alloc());
        let mut cursor = match first {
            1 => Lines::new(text.as_bytes()),
            _ => Lines::starting_at(text.as_bytes(), first),
        };
        for _ in 0..9 {
            let Some((number, line)) = cursor.next() else {
                break;
            };
            put_dec_unsigned(&mut out, u64::from(number))?;
            put_bytes(&mut out, b"<")?;
            put_bytes(&mut out, line)?;
            put_bytes(&mut out, b">")?;
        }
        assert_eq!(rt; out.as_slice(), lines.as_bytes(), "{text}");
    }
    Ok(())
}

#[test]
fn lines_part_into_fields(rt: HostRuntime) -> Result<(), Fail> {
    let alloc = rt.alloc();
    for (line, parts) in [
        ("", ""),
        (" \t ", ""),
        ("ab", "<ab>"),
        ("\tab  c\t", "<ab><c>"),
        ("a b\tc\rd", "<a><b><c\rd>"),
    ] {
        let mut out = Vec::new(alloc);
        let mut left = line.as_bytes();
        for _ in 0..9 {
            let Some((field, rest)) = next_field(left) else {
                break;
            };
            put_bytes(&mut out, b"<")?;
            put_bytes(&mut out, field)?;
            put_bytes(&mut out, b">")?;
            left = rest;
        }
        assert_eq!(rt; out.as_slice(), parts.as_bytes(), "{line}");
        let mut placed = Vec::new(alloc);
        for (start, end) in fields(alloc, line.as_bytes())? {
            put_bytes(&mut placed, b"<")?;
            put_bytes(&mut placed, line.as_bytes().get(start..end).unwrap_or(b"?"))?;
            put_bytes(&mut placed, b">")?;
        }
        assert_eq!(rt; placed.as_slice(), parts.as_bytes(), "{line}");
    }
    Ok(())
}

#[test]
fn pieces_follow_one_another(rt: HostRuntime) -> Result<(), Fail> {
    let mut out = Vec::new(rt.alloc());
    put_line(&mut out, &[])?;
    put_line(
        &mut out,
        &[
            Piece::Text(b"place"),
            Piece::Hex8(0x1000_0000),
            Piece::Signed(-5),
        ],
    )?;
    put_pieces(&mut out, &[Piece::Text(b"x"), Piece::Decimal(7)])?;
    assert_eq!(rt; out.as_slice(), b"\nplace 10000000 -5\nx7".as_slice());
    Ok(())
}
