//! How many functions and locations a program has, and how much room they take.

ghost use Rattle.std.specs.Prelude.{◌≡◌, ◌≤◌, ◌^◌, length, map};
ghost use Rattle.std.specs.List.{AllByRecursion};
ghost use Rattle.state_space.specs.Locations.{signature_of, signatures_of, range_of as range_spec, tuples, own_count};
ghost use Rattle.state_space.specs.Sizes.{IsRange, IsSized, padded_own as padded_spec, padded_sum};
ghost use Rattle.bound_count.specs.{Amounts.{kept}, Groups.{of_group}};
ghost use Rattle.bound_count.specs.Counts as spec;

use crate::amount::sum;
use asm_names::{Domain, Fun, Resolved};
use asm_tree::Kind;
use state_space::{padded_numbers, range_of, resolved_functions_are_sized};

/// The functions that are counted together.
#[derive(Clone, Copy, Debug)]
pub(crate) enum Group {
    /// Those whose values are in the state.
    State,
    /// Those that are read from outside.
    Input,
    /// Those that are sent outside.
    Output,
    /// Those that never change.
    Static,
}

impl Group {
    /// Whether a function of this kind is one of them.
    pub(crate) fn holds(self, kind: Kind) -> bool
        ensures { result ≡ of_group self kind }
    {
        match self {
            Group::State => matches!(kind, Kind::Controlled | Kind::Output),
            Group::Input => matches!(kind, Kind::Input),
            Group::Output => matches!(kind, Kind::Output),
            Group::Static => matches!(kind, Kind::Static),
        }
    }
}

// How many tuples of values there are.
fn tuple_count(domains: &[Domain], numbers: &[u32]) -> u64
    requires few { length numbers.now ≤ 3 }
    requires domains { AllByRecursion IsRange (map (range_spec domains.now) numbers.now) }
    ensures { result ≡ length (tuples (map (range_spec domains.now) numbers.now)) }
{
    let Some((number, rest)) = numbers.split_first() else {
        return 1;
    };
    u64::from(range_of(domains, *number).size) * tuple_count(domains, rest)
}

// ---- of one function

// The padded size of a function, if it is of the group.
fn padded_own(group: Group, domains: &[Domain], function: &Fun) -> u64
    requires { IsSized (signature_of domains.now function.now) }
    ensures { result ≡ padded_spec (of_group group) (signature_of domains.now function.now) }
{
    if group.holds(function.kind) {
        padded_numbers(domains, function.args.as_slice())
    } else {
        0
    }
}

// How many locations a function has, if it is of the group.
fn locations_own(group: Group, domains: &[Domain], function: &Fun) -> u64
    requires { IsSized (signature_of domains.now function.now) }
    ensures { result ≡ own_count (of_group group) (signature_of domains.now function.now) }
{
    if group.holds(function.kind) {
        tuple_count(domains, function.args.as_slice())
    } else {
        0
    }
}

// ---- of all functions

// The padded sizes of the group's functions.
fn padded_in(group: Group, domains: &[Domain], functions: &[Fun]) -> u64
    requires { AllByRecursion IsSized (map (signature_of domains.now) functions.now) }
    ensures { result ≡ kept (padded_sum (of_group group) (map (signature_of domains.now) functions.now)) }
{
    let mut total = 0;
    for function in functions {
        total = sum(total, padded_own(group, domains, function));
    }
    total
}

// The locations of the group's functions.
fn locations_in(group: Group, domains: &[Domain], functions: &[Fun]) -> u64
    requires { AllByRecursion IsSized (map (signature_of domains.now) functions.now) }
    ensures { result ≡ kept (spec.location_count (of_group group) (map (signature_of domains.now) functions.now)) }
{
    let mut total = 0;
    for function in functions {
        total = sum(total, locations_own(group, domains, function));
    }
    total
}

// The functions of the group.
fn functions_in(group: Group, domains: &[Domain], functions: &[Fun]) -> u64
    ensures { result ≡ kept (spec.function_count (of_group group) (map (signature_of domains.now) functions.now)) }
{
    let mut total = 0;
    for function in functions {
        total = sum(total, if group.holds(function.kind) { 1 } else { 0 });
    }
    total
}

/// The padded sizes of the group's functions in a program.
pub(crate) fn padded_total(group: Group, program: &Resolved) -> u64
    ensures { result ≡ kept (padded_sum (of_group group) (signatures_of program.now)) }
{
    resolved_functions_are_sized(program);
    padded_in(group, program.domains.as_slice(), program.funs.as_slice())
}

/// How many locations the group's functions have in a program.
pub(crate) fn location_total(group: Group, program: &Resolved) -> u64
    ensures { result ≡ kept (spec.location_count (of_group group) (signatures_of program.now)) }
{
    resolved_functions_are_sized(program);
    locations_in(group, program.domains.as_slice(), program.funs.as_slice())
}

/// How many functions of the group a program has.
pub(crate) fn function_total(group: Group, program: &Resolved) -> u64
    ensures { result ≡ kept (spec.function_count (of_group group) (signatures_of program.now)) }
{
    functions_in(group, program.domains.as_slice(), program.funs.as_slice())
}
