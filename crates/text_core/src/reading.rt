//! Numbers read from text.

ghost use Rattle.std.specs.Prelude.{◌≡◌, ◌≢◌, ℕ, ◌+◌, ◌*◌, ◌<◌, ◌^◌, IfSome, IfNone, IsTrue};
ghost use Rattle.std.specs.Fmt.{decimal};
ghost use Rattle.text_core.specs.Hexadecimal.{digit_value, hexadecimal};
ghost use Rattle.text_core.specs.Numbers.{all_digits, is_decimal, number_of, value_of};

fn all_digits(text: &[u8]) -> bool
    ensures { result ≡ all_digits text.now }
{
    for byte in text {
        if !byte.is_ascii_digit() {
            return false;
        }
    }
    true
}

fn is_decimal(text: &[u8]) -> bool
    ensures { result ≡ is_decimal text.now }
{
    match text {
        [] => false,
        [b'0'] => true,
        [b'0', ..] => false,
        _ => text.len() <= 18 && all_digits(text),
    }
}

fn value_of(text: &[u8]) -> u64
    requires { IsTrue (is_decimal text.now) }
    ensures { result ≡ value_of text.now }
{
    let mut value = 0u64;
    for byte in text {
        value = value * 10 + u64::from(*byte - b'0');
    }
    value
}

/// The number that 1 to 18 decimal digits spell. None for every other text, and for digits that begin with a zero
/// but are not `0` alone.
pub fn read_dec(text: &[u8]) -> Option<u64>
    ensures value { result ≡ number_of text.now }
    ensures found { IfSome result (λ n. n < 10 ^ 18 × (text.now ≡ decimal n)) }
    ensures none { IfNone result ((n : ℕ) → n < 10 ^ 18 → text.now ≢ decimal n) }
{
    if !is_decimal(text) {
        return None;
    }
    Some(value_of(text))
}

// The value of a hexadecimal digit of either case.
fn digit_value(byte: u8) -> Option<u32>
    ensures value { result ≡ digit_value byte }
    ensures small { IfSome result (λ digit. digit < 16) }
{
    match byte {
        b'0'..=b'9' => Some(u32::from(byte - b'0')),
        b'a'..=b'f' => Some(u32::from(byte - b'a' + 10)),
        b'A'..=b'F' => Some(u32::from(byte - b'A' + 10)),
        _ => None,
    }
}

/// The number that 1 to 8 hexadecimal digits of either case spell, zeros before it included. None for every other
/// text, also for one with a sign or `0x` before the digits.
pub fn read_hex(text: &[u8]) -> Option<u32>
    ensures value { result ≡ hexadecimal text.now }
    ensures small { IfSome result (λ n. n < 2 ^ 32) }
{
    if text.is_empty() || text.len() > 8 {
        return None;
    }
    let mut value = 0u32;
    for byte in text {
        match digit_value(*byte) {
            Some(digit) => value = value * 16 + digit,
            None => return None,
        }
    }
    Some(value)
}
