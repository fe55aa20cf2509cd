//! Where the packed arrays of a program end.

ghost use Rattle.std.specs.Prelude.{◌≡◌, map};
ghost use Rattle.std.specs.List.{AllByRecursion};
ghost use Rattle.state_space.specs.Locations.{signature_of, signatures_of};
ghost use Rattle.state_space.specs.Sizes.{IsSized};
ghost use Rattle.state_layout.specs.Map as widths;
ghost use Rattle.state_layout.specs.declared.layout.Layout.TheVariants as layouts;
ghost use Rattle.trap_model.specs.Width.{IsWidth};
ghost use Rattle.bound_count.specs.Amounts.{kept};

use crate::amount::{product, sum};
use crate::counts::Group;
use asm_names::{Domain, Fun, Resolved};
use state_layout::Layout;
use state_space::{Range, padded_numbers, range_of, resolved_functions_are_sized};

/// The next multiple of a width from an offset on.
pub(crate) fn raised(width: u64, offset: u64) -> u64
    requires { IsWidth width }
    ensures { result ≡ kept (widths.raised width offset) }
{
    sum(offset, width - 1) / width * width
}

// How many bytes a value of a codomain takes.
fn value_width(codomain: Range) -> u64
    ensures value { result ≡ widths.value_width layouts.Packed codomain }
    ensures width { IsWidth result }
{
    u64::from(Layout::Packed.value_access(codomain).bytes())
}

// Where a function's array ends, when the arrays before it end here.
fn array_behind(end: u64, domains: &[Domain], function: &Fun) -> u64
    requires { IsSized (signature_of domains.now function.now) }
    ensures { result ≡ kept (widths.array_behind layouts.Packed end (signature_of domains.now function.now)) }
{
    if Group::State.holds(function.kind) {
        let width = value_width(range_of(domains, function.codomain));
        sum(
            raised(width, end),
            product(width, padded_numbers(domains, function.args.as_slice())),
        )
    } else {
        sum(end, 0)
    }
}

// Where the arrays of functions end.
fn arrays_end_in(domains: &[Domain], functions: &[Fun]) -> u64
    requires { AllByRecursion IsSized (map (signature_of domains.now) functions.now) }
    ensures { result ≡ kept (widths.arrays_end layouts.Packed (map (signature_of domains.now) functions.now)) }
{
    let mut end = 0;
    for function in functions {
        end = array_behind(end, domains, function);
    }
    end
}

/// Where the packed arrays of a program end.
pub(crate) fn arrays_end(program: &Resolved) -> u64
    ensures { result ≡ kept (widths.arrays_end layouts.Packed (signatures_of program.now)) }
{
    resolved_functions_are_sized(program);
    arrays_end_in(program.domains.as_slice(), program.funs.as_slice())
}
