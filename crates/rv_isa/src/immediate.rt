//! The immediates of instructions, each with the range that its field of the word can hold.

ghost use Rattle.std.specs.Prelude.{◌≡◌, ℕ, ℤ, ◌↔◌, IsSome, IfSome};
ghost use Rattle.rv_isa.specs.Operand.{IsImm12, IsImmB, IsImmJ, IsImmU, IsShift};

use std::marker::Model;

/// The immediate of the I and S formats: a signed number of 12 bits, from -2048 to 2047 (RISC-V Unprivileged
/// manual, "Immediate Encoding Variants"). Contracts see it as that number.
#[derive(Clone, Copy, Debug, PartialEq, Eq)]
pub struct Imm12 {
    value: i32,
}

impl Model for Imm12 {
    ghost Value = { ℤ };

    ghost view = { λ i. i.value };

    ghost invariant = { λ i. IsImm12 i.value };

    ghost inverse = { λ z. record { value = z } };
}

impl Imm12 {
    /// The immediate with this value: `None` exactly below -2048 and above 2047.
    pub fn new(value: i32) -> Option<Imm12>
        ensures valid { IsSome result ↔ IsImm12 value }
        ensures value { IfSome result (λ i. i ≡ value) }
    {
        if -2048 <= value && value <= 2047 {
            Some(Imm12 { value })
        } else {
            None
        }
    }

    /// The value, from -2048 to 2047.
    pub fn value(self) -> i32
        ensures value { result ≡ self }
        ensures in_range { IsImm12 result }
    {
        self.value
    }
}

/// The immediate of the B format, the displacement of a branch in bytes from its own address: an even number
/// from -4096 to 4094 (RISC-V Unprivileged manual, "Conditional Branches"). Contracts see it as that number.
#[derive(Clone, Copy, Debug, PartialEq, Eq)]
pub struct ImmB {
    value: i32,
}

impl Model for ImmB {
    ghost Value = { ℤ };

    ghost view = { λ i. i.value };

    ghost invariant = { λ i. IsImmB i.value };

    ghost inverse = { λ z. record { value = z } };
}

impl ImmB {
    /// The displacement of this many bytes: `None` exactly below -4096, above 4094 and where it is odd.
    pub fn new(value: i32) -> Option<ImmB>
        ensures valid { IsSome result ↔ IsImmB value }
        ensures value { IfSome result (λ i. i ≡ value) }
    {
        if -4096 <= value && value <= 4094 && value % 2 == 0 {
            Some(ImmB { value })
        } else {
            None
        }
    }

    /// The displacement in bytes, an even number from -4096 to 4094.
    pub fn value(self) -> i32
        ensures value { result ≡ self }
        ensures in_range { IsImmB result }
    {
        self.value
    }
}

/// The immediate of the J format, the displacement of a jump in bytes from its own address: an even number
/// from -1048576 to 1048574 (RISC-V Unprivileged manual, "Unconditional Jumps"). Contracts see it as that
/// number.
#[derive(Clone, Copy, Debug, PartialEq, Eq)]
pub struct ImmJ {
    value: i32,
}

impl Model for ImmJ {
    ghost Value = { ℤ };

    ghost view = { λ i. i.value };

    ghost invariant = { λ i. IsImmJ i.value };

    ghost inverse = { λ z. record { value = z } };
}

impl ImmJ {
    /// The displacement of this many bytes: `None` exactly below -1048576, above 1048574 and where it is odd.
    pub fn new(value: i32) -> Option<ImmJ>
        ensures valid { IsSome result ↔ IsImmJ value }
        ensures value { IfSome result (λ i. i ≡ value) }
    {
        if -1048576 <= value && value <= 1048574 && value % 2 == 0 {
            Some(ImmJ { value })
        } else {
            None
        }
    }

    /// The displacement in bytes, an even number from -1048576 to 1048574.
    pub fn value(self) -> i32
        ensures value { result ≡ self }
        ensures in_range { IsImmJ result }
    {
        self.value
    }
}

/// The immediate of the U format, the upper 20 bits of a word: a number from 0 to 1048575 (RISC-V
/// Unprivileged manual, "Integer Register-Immediate Instructions"). Contracts see it as that number, not
/// shifted left.
#[derive(Clone, Copy, Debug, PartialEq, Eq)]
pub struct ImmU {
    value: u32,
}

impl Model for ImmU {
    ghost Value = { ℕ };

    ghost view = { λ i. i.value };

    ghost invariant = { λ i. IsImmU i.value };

    ghost inverse = { λ n. record { value = n } };
}

impl ImmU {
    /// The immediate with this value: `None` exactly above 1048575.
    pub fn new(value: u32) -> Option<ImmU>
        ensures valid { IsSome result ↔ IsImmU value }
        ensures value { IfSome result (λ i. i ≡ value) }
    {
        if value < 1 << 20 {
            Some(ImmU { value })
        } else {
            None
        }
    }

    /// The value, from 0 to 1048575.
    pub fn value(self) -> u32
        ensures value { result ≡ self }
        ensures in_range { IsImmU result }
    {
        self.value
    }
}

/// How many bits a word is shifted by: a number from 0 to 31 (RISC-V Unprivileged manual, "Integer
/// Register-Immediate Instructions"). Contracts see it as that number.
#[derive(Clone, Copy, Debug, PartialEq, Eq)]
pub struct Shift {
    value: u32,
}

impl Model for Shift {
    ghost Value = { ℕ };

    ghost view = { λ s. s.value };

    ghost invariant = { λ s. IsShift s.value };

    ghost inverse = { λ n. record { value = n } };
}

impl Shift {
    /// The shift by this many bits: `None` exactly above 31.
    pub fn new(value: u32) -> Option<Shift>
        ensures valid { IsSome result ↔ IsShift value }
        ensures value { IfSome result (λ s. s ≡ value) }
    {
        if value < 32 {
            Some(Shift { value })
        } else {
            None
        }
    }

    /// The number of bits, from 0 to 31.
    pub fn value(self) -> u32
        ensures value { result ≡ self }
        ensures in_range { IsShift result }
    {
        self.value
    }
}
