//! The registers of the code.

ghost use Rattle.std.specs.Prelude.{◌≡◌};
ghost use Rattle.rv_isa.specs.Operand.{IsReg};
ghost use Rattle.block_code.specs.Sequence as sequence;
ghost use Rattle.staged_commit.specs.Code as code;

use rv_isa::Reg;

fn register(number: u32) -> Reg
    requires { IsReg number }
    ensures { result ≡ number }
{
    let Some(reg) = Reg::new(number) else {
        unreachable!()
    };
    reg
}

/// The register that is 0.
pub fn zero_register() -> Reg
    ensures { result ≡ 0 }
{
    register(0)
}

/// The register of a value, and of the padded index of an update.
pub fn first_register() -> Reg
    ensures { result ≡ code.first }
{
    register(5)
}

/// The register of an update's value.
pub fn second_register() -> Reg
    ensures { result ≡ code.second }
{
    register(6)
}

/// The register of the address of an update's flag.
pub fn place_register() -> Reg
    ensures { result ≡ 7 }
{
    register(7)
}

/// The register of that flag as it was.
pub fn flag_register() -> Reg
    ensures { result ≡ 8 }
{
    register(8)
}

/// The register of the staged value as it was.
pub fn staged_register() -> Reg
    ensures { result ≡ 9 }
{
    register(9)
}

/// The register of the number 1.
pub fn one_register() -> Reg
    ensures { result ≡ 10 }
{
    register(10)
}

/// The register that holds nothing from one small sequence to the next.
pub fn scratch_register() -> Reg
    ensures { result ≡ sequence.scratch }
{
    register(21)
}
