//! The texts of values and of locations.

ghost use Rattle.std.specs.Prelude.{◌≡◌, ◌<◌, ◌≤◌, ◌+◌, ◌++◌, [], drop, length, slice_index_or, option_copied, OnOk, OnErr, IsOk};
ghost use Rattle.std.specs.Io.{StartsWith};
ghost use Rattle.std.specs.List.{AllByRecursion};
ghost use Rattle.asm_ranges.specs.Values.{fun_of};
ghost use Rattle.state_space.specs.Locations.{location_at, signatures_of, state_locations, tuples};
ghost use Rattle.state_space.specs.Sizes.{IsRange};
ghost use Rattle.text_core.specs.Room.{room_of};
ghost use Rattle.fault_script.specs.Putting.{IsPut};
ghost use Rattle.fault_script.specs.StateText as spec;
ghost use Rattle.fault_script.specs.StateText.{location_name};

use asm_names::{Domain, Fun, Resolved};
use asm_tree::Name;
use sqlite_items::at;
use state_space::{Range, Space, count};
use std::alloc::AllocError;
use text_core::{put_bytes, put_dec};

/// The enumerator that a value stands for in the domain with a number, where it has enumerators.
fn enumerator(domains: &[Domain], number: u32, value: i64) -> Option<&Name>
    ensures { option_copied result ≡ spec.enumerator (spec.domain_of domains.now number).items value }
{
    if value < 0 {
        return None;
    }
    match at(domains, number as usize) {
        Some(domain) => at(domain.items.as_slice(), value as usize),
        None => None,
    }
}

/// Appends a value of the domain with a number: its enumerator, and in decimal where the domain has none.
pub(crate) fn put_value(
    out: &mut Vec<u8>,
    domains: &[Domain],
    number: u32,
    value: i64,
) -> Result<(), AllocError>
    ensures { IsPut result (spec.value_text (spec.domain_of domains.now number) value) out.old out.new }
{
    match enumerator(domains, number, value) {
        Some(name) => put_bytes(out, name.bytes()),
        None => put_dec(out, value),
    }
}

/// Appends the arguments of the tuple with a number: the first behind `opening`, each other behind a comma.
fn put_arguments(
    out: &mut Vec<u8>,
    domains: &[Domain],
    numbers: &[u32],
    ranges: &[Range],
    opening: u8,
    tuple: u64,
) -> Result<(), AllocError>
    requires few { length ranges.now ≤ 3 }
    requires domains { AllByRecursion IsRange ranges.now }
    requires within { tuple < length (tuples ranges.now) }
    ensures { IsPut result (spec.parted opening (spec.argument_texts domains.now numbers.now (slice_index_or (tuples ranges.now) tuple []))) out.old out.new }
{
    let Some((first, others)) = numbers.split_first() else {
        return put_bytes(out, b"");
    };
    let Some((range, rest)) = ranges.split_first() else {
        return put_bytes(out, b"");
    };
    let each = count(rest);
    put_bytes(out, &[opening])?;
    put_value(out, domains, *first, range.value((tuple / each) as u32))?;
    put_arguments(out, domains, others, rest, b',', tuple % each)
}

/// Appends the closing parenthesis, where a function has arguments.
fn put_closing(out: &mut Vec<u8>, function: &Fun) -> Result<(), AllocError>
    ensures { IsPut result (spec.closing function.now.args) out.old out.new }
{
    if function.args.as_slice().is_empty() {
        put_bytes(out, b"")
    } else {
        put_bytes(out, b")")
    }
}

/// Appends a location of a function, or a beginning of it, as [`put_function_location`] spells it.
fn put_spelled(
    out: &mut Vec<u8>,
    domains: &[Domain],
    function: &Fun,
    ranges: &[Range],
    tuple: u64,
) -> Result<(), AllocError>
    requires few { length ranges.now ≤ 3 }
    requires domains { AllByRecursion IsRange ranges.now }
    requires within { tuple < length (tuples ranges.now) }
    ensures { IsPut result (spec.location_text domains.now function.now (slice_index_or (tuples ranges.now) tuple [])) out.old out.new }
{
    put_bytes(out, function.name.bytes())?;
    put_arguments(out, domains, function.args.as_slice(), ranges, b'(', tuple)?;
    put_closing(out, function)
}

/// Appends a location of a function as it is spelled: the function's name, followed by the arguments in parentheses where
/// it has any. `ranges` are the domains of the arguments, and the location is that of the tuple with a number, in the order
/// of tuples.
///
/// # Errors
///
/// `AllocError` where there is no memory for the text. `out` then begins with what it held.
pub fn put_function_location(
    out: &mut Vec<u8>,
    domains: &[Domain],
    function: &Fun,
    ranges: &[Range],
    tuple: u64,
) -> Result<(), AllocError>
    requires few { length ranges.now ≤ 3 }
    requires domains { AllByRecursion IsRange ranges.now }
    requires within { tuple < length (tuples ranges.now) }
    ensures ok { OnOk result (out.new.items ≡ out.old.items ++ spec.location_text domains.now function.now (slice_index_or (tuples ranges.now) tuple [])) }
    ensures err { OnErr result (StartsWith out.new.items out.old.items) }
{
    put_spelled(out, domains, function, ranges, tuple)
}

/// The function of the state location with a number.
pub(crate) fn function_at<'a>(resolved: &'a Resolved, space: &Space, place: u32) -> &'a Fun
    requires spaces { space.now ≡ signatures_of resolved.now }
    requires within { place < length (state_locations space.now) }
    ensures function { result.now ≡ fun_of resolved.now (location_at space.now place).fun }
    ensures few { length result.now.args ≤ 3 }
{
    resolved.comes_from_faultless();
    &resolved.funs.as_slice()[space.function_at(place)]
}

/// Appends the arguments of a state location from the one with the number `index` on, whose domains have these numbers: the
/// first behind `opening`, each other behind a comma.
fn put_arguments_at(
    out: &mut Vec<u8>,
    domains: &[Domain],
    numbers: &[u32],
    space: &Space,
    place: u32,
    index: usize,
    opening: u8,
) -> Result<(), AllocError>
    requires within { place < length (state_locations space.now) }
    requires few { index + length numbers.now ≤ 3 }
    ensures { IsPut result (spec.parted opening (spec.argument_texts domains.now numbers.now (drop index (location_at space.now place).args))) out.old out.new }
{
    let Some((first, others)) = numbers.split_first() else {
        return put_bytes(out, b"");
    };
    let Some(value) = space.argument_at(place, index) else {
        return put_bytes(out, b"");
    };
    put_bytes(out, &[opening])?;
    put_value(out, domains, *first, value)?;
    put_arguments_at(out, domains, others, space, place, index + 1, b',')
}

/// Appends a state location, or a beginning of it.
pub(crate) fn put_place(
    resolved: &Resolved,
    space: &Space,
    place: u32,
    out: &mut Vec<u8>,
) -> Result<(), AllocError>
    requires spaces { space.now ≡ signatures_of resolved.now }
    requires within { place < length (state_locations space.now) }
    ensures { IsPut result (location_name resolved.now (location_at space.now place)) out.old out.new }
{
    let domains = resolved.domains.as_slice();
    let function = function_at(resolved, space, place);
    put_bytes(out, function.name.bytes())?;
    put_arguments_at(
        out,
        domains,
        function.args.as_slice(),
        space,
        place,
        0,
        b'(',
    )?;
    put_closing(out, function)
}

/// Appends the state location with a number: its function's name, and its arguments in parentheses where it has any. Takes
/// no memory but for the text.
///
/// # Errors
///
/// `AllocError` where there is no memory for the text, of which then nothing is appended.
pub fn put_location(
    resolved: &Resolved,
    space: &Space,
    place: u32,
    out: &mut Vec<u8>,
) -> Result<(), AllocError>
    requires spaces { space.now ≡ signatures_of resolved.now }
    requires within { place < length (state_locations space.now) }
    ensures ok { OnOk result (out.new.items ≡ out.old.items ++ location_name resolved.now (location_at space.now place)) }
    ensures err { OnErr result (out.new.items ≡ out.old.items) }
    ensures fits { length (location_name resolved.now (location_at space.now place)) ≤ room_of out.old → IsOk result }
    ensures room { room_of out.old ≤ room_of out.new + length (location_name resolved.now (location_at space.now place)) }
{
    let start = out.len();
    match put_place(resolved, space, place, out) {
        Ok(()) => Ok(()),
        Err(error) => {
            out.truncate(start);
            Err(error)
        }
    }
}
