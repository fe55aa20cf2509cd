//! Operands that are known to be in range.

ghost use Rattle.std.specs.Prelude.{◌≡◌, ◌<◌, ◌^◌, ℤ};
ghost use Rattle.rv_isa.specs.Operand.{IsImm12, IsImmB, IsImmJ, IsImmU, IsReg};

use rv_isa::{Imm12, ImmB, ImmJ, ImmU, Reg};

pub(crate) fn reg(number: u32) -> Reg
    requires { IsReg number }
    ensures { result ≡ number }
{
    let Some(reg) = Reg::new(number) else {
        unreachable!()
    };
    reg
}

pub(crate) fn imm_u(value: u32) -> ImmU
    requires { IsImmU value }
    ensures { result ≡ value }
{
    let Some(imm) = ImmU::new(value) else {
        unreachable!()
    };
    imm
}

pub(crate) fn imm12(value: i32) -> Imm12
    requires { IsImm12 value }
    ensures { result ≡ value }
{
    let Some(imm) = Imm12::new(value) else {
        unreachable!()
    };
    imm
}

pub(crate) fn imm_b(value: i32) -> ImmB
    requires { IsImmB value }
    ensures { result ≡ value }
{
    let Some(imm) = ImmB::new(value) else {
        unreachable!()
    };
    imm
}

pub(crate) fn imm_j(value: i32) -> ImmJ
    requires { IsImmJ value }
    ensures { result ≡ value }
{
    let Some(imm) = ImmJ::new(value) else {
        unreachable!()
    };
    imm
}
