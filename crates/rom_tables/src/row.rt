//! The table of one function, with a power of two for each argument.

ghost use Rattle.std.specs.Prelude.{◌≡◌, ◌≤◌, ◌<◌, ◌^◌, ◌++◌, length, map, slice_get, slice_index_or, pos, IfSome, IsSomeAnd, OnOk};
ghost use Rattle.std.specs.List.{AllByRecursion};
ghost use Rattle.state_space.specs.Codomains.{In, whole};
ghost use Rattle.state_space.specs.Locations.{range_of as range_spec, signature_of, tuples};
ghost use Rattle.state_space.specs.Sizes.{IsRange, IsSized};
ghost use Rattle.asm_ranges.specs.Ranges.{TableFits};
ghost use Rattle.rom_tables.specs.Tables.{EachHolds, fun_row, index_at, index_in, place_at, table_number};

use crate::word::table_word;
use asm_names::{Domain, Fun};
use rv_encode::Words;
use state_space::{Range, padded_numbers, range_of};
use std::alloc::AllocError;

/// How many tuples of arguments from the domains with these numbers there are.
fn tuple_count(domains: &[Domain], numbers: &[u32]) -> u64
    requires few { length numbers.now ≤ 3 }
    requires ranges { AllByRecursion IsRange (map (range_spec domains.now) numbers.now) }
    ensures { result ≡ length (tuples (map (range_spec domains.now) numbers.now)) }
{
    let Some((number, rest)) = numbers.split_first() else {
        return 1;
    };
    u64::from(range_of(domains, *number).size) * tuple_count(domains, rest)
}

/// The number of the tuple of arguments that stands at a padded index, where one stands there.
fn tuple_at(domains: &[Domain], numbers: &[u32], place: u64) -> Option<u64>
    requires few { length numbers.now ≤ 3 }
    requires ranges { AllByRecursion IsRange (map (range_spec domains.now) numbers.now) }
    ensures value { result ≡ place_at (map (range_spec domains.now) numbers.now) place }
    ensures below { IfSome result (λ number. number < length (tuples (map (range_spec domains.now) numbers.now))) }
{
    let Some((number, rest)) = numbers.split_first() else {
        return Some(0);
    };
    let each = padded_numbers(domains, rest);
    let index = place / each;
    if u64::from(range_of(domains, *number).size) <= index {
        return None;
    }
    match tuple_at(domains, rest, place % each) {
        None => None,
        Some(inner) => Some(index * tuple_count(domains, rest) + inner),
    }
}

/// The index of a value of the table in the domain of the values.
fn entry(range: Range, table: &[i64], number: u64) -> u32
    requires few { IsRange range }
    requires holds { IsSomeAnd (slice_get table.now number) (In (whole range)) }
    ensures value { result ≡ index_in range (slice_index_or table.now number (pos 0)) }
    ensures small { result < 65536 }
{
    value_index(range, table[number as usize])
}

/// The index of a value of a domain.
fn value_index(range: Range, value: i64) -> u32
    requires few { IsRange range }
    requires holds { In (whole range) value }
    ensures value { result ≡ index_in range value }
    ensures small { result < 65536 }
{
    match range.index_of(value) {
        Some(index) => index,
        None => 0,
    }
}

/// What the table has at a padded index: the index of a value, or 0 in a gap.
fn cell(domains: &[Domain], fun: &Fun, range: Range, place: u64) -> u32
    requires few { length fun.now.args ≤ 3 }
    requires ranges { AllByRecursion IsRange (map (range_spec domains.now) fun.now.args) }
    requires range { IsRange range }
    requires holds { EachHolds range fun.now.table (length (tuples (map (range_spec domains.now) fun.now.args))) }
    ensures value { result ≡ index_at range fun.now.table (place_at (map (range_spec domains.now) fun.now.args) place) }
    ensures small { result < 65536 }
{
    match tuple_at(domains, fun.args.as_slice(), place) {
        None => 0,
        Some(number) => entry(range, fun.table.as_slice(), number),
    }
}

/// Appends the words of a function's table. An error is want of memory; a first part of them was then appended.
pub(crate) fn row(domains: &[Domain], fun: &Fun, out: &mut Words) -> Result<(), AllocError>
    requires sized { IsSized (signature_of domains.now fun.now) }
    requires fits { TableFits (signature_of domains.now fun.now) fun.now.table }
    ensures { OnOk result (out.new ≡ out.old ++ map table_number (fun_row domains.now fun.now)) }
{
    let range = range_of(domains, fun.codomain);
    for place in 0..padded_numbers(domains, fun.args.as_slice()) {
        out.push(table_word(cell(domains, fun, range, place)))?;
    }
    Ok(())
}
