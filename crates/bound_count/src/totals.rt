//! The numbers of a program, from its functions and its rule.

ghost use Rattle.std.specs.Prelude.{◌≡◌};
ghost use Rattle.state_space.specs.Locations.{signatures_of};
ghost use Rattle.bound_count.specs.{Amounts.{kept}, RuleNeeds.{RuleNeeds}};
ghost use Rattle.bound_count.specs.Numbers as spec;

use crate::amount::{product, sum};
use crate::counts::{Group, function_total, location_total, padded_total};
use crate::numbers::Numbers;
use crate::packing::{arrays_end, raised};
use crate::rules::{RuleNeed, rule_need};
use crate::shape::Shape;
use asm_names::Resolved;
use state_layout::Layout;

// The words of a round beside its rule and its ports.
fn frame_words(program: &Resolved, shape: Shape) -> u64
    ensures { result ≡ kept (spec.frame_words shape (signatures_of program.now)) }
{
    match shape {
        Shape::Unrolled => sum(64, product(24, padded_total(Group::State, program))),
        Shape::Looped => sum(64, product(96, function_total(Group::State, program))),
    }
}

// Its ticks.
fn frame_ticks(program: &Resolved, shape: Shape) -> u64
    ensures { result ≡ kept (spec.frame_ticks shape (signatures_of program.now)) }
{
    let locations = padded_total(Group::State, program);
    match shape {
        Shape::Unrolled => sum(64, product(24, locations)),
        Shape::Looped => {
            let functions = function_total(Group::State, program);
            sum(64, product(96, sum(locations, functions)))
        }
    }
}

// The words of reading each input and sending each output.
fn ports_weight(program: &Resolved) -> u64
    ensures { result ≡ kept (spec.ports_weight (signatures_of program.now)) }
{
    let inputs = product(16, location_total(Group::Input, program));
    let outputs = product(20, location_total(Group::Output, program));
    sum(inputs, outputs)
}

// How many loops enclose one another at most.
fn loop_depth(program: &Resolved, shape: Shape, rule: RuleNeed) -> u64
    requires { RuleNeeds shape program.now.domains program.now.rule rule }
    ensures { result ≡ kept (spec.loop_depth shape program.now.rule) }
{
    match shape {
        Shape::Unrolled => 0,
        Shape::Looped => rule.nesting.max(1),
    }
}

// How many ticks a round takes at most.
fn round_number(program: &Resolved, shape: Shape, rule: RuleNeed) -> u64
    requires { RuleNeeds shape program.now.domains program.now.rule rule }
    ensures { result ≡ kept (spec.round_number shape program.now) }
{
    let code = sum(frame_ticks(program, shape), rule.ticks);
    sum(code, ports_weight(program))
}

// How many ticks pass at most before a round begins.
fn anchor_number(program: &Resolved, shape: Shape, rule: RuleNeed) -> u64
    requires { RuleNeeds shape program.now.domains program.now.rule rule }
    ensures { result ≡ kept (spec.anchor_number shape program.now) }
{
    let rounds = sum(loop_depth(program, shape, rule), 2);
    let tables = sum(padded_total(Group::Static, program), 2);
    sum(product(rounds, round_number(program, shape, rule)), tables)
}

// How many words of ROM the code and the tables take.
fn rom_number(program: &Resolved, shape: Shape, rule: RuleNeed) -> u64
    requires { RuleNeeds shape program.now.domains program.now.rule rule }
    ensures { result ≡ kept (spec.rom_number shape program.now) }
{
    let code = sum(frame_words(program, shape), rule.words);
    let all = sum(code, ports_weight(program));
    sum(all, padded_total(Group::Static, program))
}

// The bytes of kept inputs, of binders, and of four more words.
fn private_bytes(program: &Resolved) -> u64
    ensures { result ≡ kept (spec.private_bytes program.now) }
{
    let words = sum(
        padded_total(Group::Input, program),
        u64::from(program.binders),
    );
    product(4, sum(words, 4))
}

/// How many bytes of RAM.
pub(crate) fn ram_number(program: &Resolved, layout: Layout) -> u64
    ensures { result ≡ kept (spec.ram_number layout program.now) }
{
    let locations = padded_total(Group::State, program);
    let private = private_bytes(program);
    match layout {
        Layout::Words => sum(product(12, locations), private),
        Layout::Packed => {
            let values = product(2, raised(4, arrays_end(program)));
            sum(sum(values, raised(4, locations)), private)
        }
    }
}

/// The numbers of a program.
pub(crate) fn numbers(program: &Resolved, shape: Shape, layout: Layout) -> Numbers
    ensures { result ≡ spec.numbers_of shape layout program.now }
{
    let rule = rule_need(shape, program.domains.as_slice(), program.rule.get());
    Numbers {
        ram: ram_number(program, layout),
        rom: rom_number(program, shape, rule),
        anchor: anchor_number(program, shape, rule),
        round: round_number(program, shape, rule),
        regs: rule.registers.max(1),
    }
}
