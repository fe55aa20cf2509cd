//! The integer registers.

ghost use Rattle.std.specs.Prelude.{◌≡◌, ℕ, ◌↔◌, IsSome, IfSome};
ghost use Rattle.rv_isa.specs.Operand.{IsReg};

use std::marker::Model;

/// One of the 32 integer registers, x0 to x31, of 32 bits each (RISC-V Unprivileged manual, "Programmers'
/// Model for Base Integer ISA"). x0 always reads as 0. Contracts see a register as its number.
#[derive(Clone, Copy, Debug, PartialEq, Eq)]
pub struct Reg {
    number: u32,
}

impl Model for Reg {
    ghost Value = { ℕ };

    ghost view = { λ r. r.number };

    ghost invariant = { λ r. IsReg r.number };

    ghost inverse = { λ n. record { number = n } };
}

impl Reg {
    /// The register with this number: `None` exactly where the number is above 31.
    pub fn new(number: u32) -> Option<Reg>
        ensures valid { IsSome result ↔ IsReg number }
        ensures value { IfSome result (λ r. r ≡ number) }
    {
        if number < 32 {
            Some(Reg { number })
        } else {
            None
        }
    }

    /// The number of the register, from 0 to 31.
    pub fn number(self) -> u32
        ensures value { result ≡ self }
        ensures in_range { IsReg result }
    {
        self.number
    }
}
