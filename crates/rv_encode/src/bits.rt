//! Runs of bits in a word: taken out, put in, and read as a signed number.

ghost use Rattle.std.specs.Prelude.{◌≡◌, suc, ◌+◌, ◌-◌, ◌*◌, ◌^◌, ◌<◌, ◌≤◌, pos, negsuc};
ghost use Rattle.rv_encode.specs.Format.{bits};

use rv_isa::Reg;

/// The bits of a word from `high` down to `low`, both included, as a number. Bit 0 is the lowest.
pub fn bits(word: u32, high: u32, low: u32) -> u32
    requires order { low ≤ high }
    requires width { high < low + 31 }
    requires high_in_word { high < 32 }
    ensures { result ≡ bits word high low }
{
    word >> low & ((1 << (high + 1 - low)) - 1)
}

/// A word of `low` bits with a field put above them, its lowest bit at `low`.
pub fn place(word: u32, low: u32, field: u32) -> u32
    requires low_in_word { low < 32 }
    requires word_fits { word < 2 ^ low }
    requires field_fits { field * 2 ^ low < 2 ^ 32 }
    ensures { result ≡ field * 2 ^ low + word }
{
    field << low | word
}

/// The register whose number stands in the five bits from `low` on.
pub fn register(word: u32, low: u32) -> Reg
    requires { low < 28 }
    ensures { result ≡ bits word (low + 4) low }
{
    Reg::new(bits(word, low + 4, low)).unwrap()
}

/// The signed number that `width` bits stand for in two's complement.
pub fn sign_extend(field: u32, width: u32) -> i32
    requires positive_width { 0 < width }
    requires width_in_range { width < 31 }
    requires field_fits { field < 2 ^ width }
    ensures positive { field < 2 ^ (width - 1) → result ≡ pos field }
    ensures negative { 2 ^ (width - 1) ≤ field → result ≡ negsuc (2 ^ width - suc field) }
{
    let modulus: u32 = 1 << width;
    if field < modulus / 2 {
        field as i32
    } else {
        field as i32 - modulus as i32
    }
}
