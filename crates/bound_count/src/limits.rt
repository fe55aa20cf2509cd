//! What the code of a program needs, and whether a machine has as much.

ghost use Rattle.std.specs.Prelude.{◌≡◌, ◌≤◌, true, IfOk};
ghost use Rattle.state_space.specs.Locations.{signatures_of};
ghost use Rattle.state_space.specs.Sizes.{fits};
ghost use Rattle.bound_count.specs.Refusals.{FitsMachine, IsWithin, judged, needs_of, ram_need_of, refusals};

use crate::counts::{Group, location_total};
use crate::numbers::{NeedEnd, Numbers};
use crate::shape::Shape;
use crate::totals::{numbers, ram_number};
use asm_ranges::Checked;
use state_layout::Layout;

/// The greatest number of registers.
const REGISTERS: u64 = 16;

/// The greatest number of input locations, and of output locations.
const PORTS: u64 = 256;

/// The greatest number of ticks before a round begins.
const TICKS: u64 = 1 << 40;

// The numbers, or the first of them that passes its limit.
fn within<const ROM: u32, const RAM: u32>(
    numbers: Numbers,
    inputs: u64,
    outputs: u64,
) -> Result<Numbers, NeedEnd>
    ensures decided { result ≡ judged (refusals ROM RAM numbers inputs outputs) numbers }
    ensures same { IfOk result (λ found. found ≡ numbers) }
    ensures limits { IfOk result (λ found. IsWithin ROM RAM numbers inputs outputs) }
{
    if REGISTERS < numbers.regs {
        return Err(NeedEnd::Registers(numbers.regs));
    }
    if PORTS < inputs {
        return Err(NeedEnd::Ports(inputs));
    }
    if PORTS < outputs {
        return Err(NeedEnd::Ports(outputs));
    }
    if u64::from(RAM) < numbers.ram {
        return Err(NeedEnd::Ram(numbers.ram));
    }
    if u64::from(ROM / 4) < numbers.rom {
        return Err(NeedEnd::Rom(numbers.rom));
    }
    if TICKS < numbers.anchor {
        return Err(NeedEnd::Bound(numbers.anchor));
    }
    Ok(numbers)
}

/// What the code of a program needs in a machine with so many bytes of ROM and of RAM, or the first number that is too
/// great: more than 16 registers, more than 256 input or output locations, more bytes than RAM, more words than ROM, or
/// more than 2^40 ticks before a round. Takes no memory; its recursion is as deep as the rule.
pub fn needs<const ROM: u32, const RAM: u32>(
    checked: &Checked,
    shape: Shape,
    layout: Layout,
) -> Result<Numbers, NeedEnd>
    ensures decided { result ≡ needs_of ROM RAM shape layout checked.now }
    ensures fits { IfOk result (λ numbers. FitsMachine ROM RAM shape layout checked.now numbers) }
    ensures small { RAM ≤ 1048576 → IfOk result (λ numbers. fits (signatures_of checked.now) ≡ true) }
{
    let program = checked.resolved();
    let inputs = location_total(Group::Input, program);
    let outputs = location_total(Group::Output, program);
    within::<ROM, RAM>(numbers(program, shape, layout), inputs, outputs)
}

/// How many bytes of RAM the code of a program needs, or that they are more than a machine with so many has. Takes no
/// memory.
pub fn ram_need<const ROM: u32, const RAM: u32>(
    checked: &Checked,
    layout: Layout,
) -> Result<u64, NeedEnd>
    ensures decided { result ≡ ram_need_of RAM layout checked.now }
    ensures small { RAM ≤ 1048576 → IfOk result (λ need. fits (signatures_of checked.now) ≡ true) }
{
    let need = ram_number(checked.resolved(), layout);
    if u64::from(RAM) < need {
        return Err(NeedEnd::Ram(need));
    }
    Ok(need)
}
