//! The records of an Intel HEX file.

ghost use Rattle.std.specs.Prelude.{◌≡◌, ◌*◌, ◌+◌, ◌<◌, ◌^◌, ◌%◌, ◌∷◌, [], length, sum, IfOk, IfSome, IsTrue, ◌↔◌, option_and_then};
ghost use Rattle.std.specs.Option.{option_map};
ghost use Rattle.image_files.specs.Digits.{IsLongEnough};
ghost use Rattle.image_files.specs.Records.{data_of, is_known, number_of, record_of, record_of_bytes, record_seen};

use crate::digits::{byte_of, bytes_of};
use std::alloc::{AllocError, Global};
use text_core::begins;

/// A record by its fields. Its length is that of its bytes, and its checksum follows from the others.
#[derive(Drop)]
pub struct Fields<'a> {
    /// The address, below 65,536.
    pub address: u32,
    /// The type.
    pub kind: u8,
    /// What stands between the type and the checksum.
    pub bytes: &'a [u8],
}

/// Whether there are as many digits as the length says, which is the first byte.
fn is_long_enough(digits: &[u8]) -> bool
    ensures { IsTrue result ↔ IsLongEnough digits.now }
{
    match digits {
        [high, low, ..] => match byte_of(*high, *low) {
            Some(size) => digits.len() == 2 * (usize::from(size) + 5),
            None => false,
        },
        _ => false,
    }
}

/// The sum of bytes modulo 256.
pub fn sum_of(bytes: &[u8]) -> u32
    ensures { result ≡ sum bytes.now % 256 }
{
    let mut sum = 0u32;
    for byte in bytes {
        sum = (sum + u32::from(*byte)) % 256;
    }
    sum
}

/// The record of these bytes.
pub fn record_of_bytes(bytes: &[u8]) -> Option<Fields<'_>>
    ensures { option_map record_seen result ≡ record_of_bytes bytes.now }
{
    match bytes {
        [size, high, low, kind, rest @ ..] => {
            let size = usize::from(*size);
            if rest.len() == size + 1 && sum_of(bytes) == 0 {
                Some(Fields {
                    address: u32::from(*high) * 256 + u32::from(*low),
                    kind: *kind,
                    bytes: &rest[..size],
                })
            } else {
                None
            }
        }
        _ => None,
    }
}

/// The bytes of a record's line, where it may be one. Err where memory runs out.
pub fn record_bytes(alloc: Global, line: &[u8]) -> Result<Option<Vec<u8>>, AllocError>
    ensures { IfOk result (λ found. record_of line.now ≡ option_and_then record_of_bytes (option_map (λ bytes. bytes.items) found)) }
{
    if !begins(line, b':') {
        return Ok(None);
    }
    let digits = &line[1..];
    if is_long_enough(digits) {
        bytes_of(alloc, digits)
    } else {
        Ok(None)
    }
}

/// Whether the type is known and the length is that of the type.
pub fn is_known(given: &Fields) -> bool
    ensures { result ≡ is_known (record_seen given.now) }
{
    match given.kind {
        0 => true,
        1 => given.bytes.is_empty(),
        2 | 4 => given.bytes.len() == 2,
        3 | 5 => given.bytes.len() == 4,
        _ => false,
    }
}

/// The data that a record gives.
pub fn data_of<'a>(given: &Fields<'a>) -> &'a [u8]
    ensures { result.now ≡ data_of (record_seen given.now) }
{
    if given.kind == 0 { given.bytes } else { &[] }
}

/// The number of two bytes, the high one first.
pub fn number_of(bytes: &[u8]) -> u32
    ensures value { result ≡ number_of bytes.now }
    ensures small { result < 65536 }
{
    match bytes {
        [high, low] => u32::from(*high) * 256 + u32::from(*low),
        _ => 0,
    }
}
