//! The first values of a model's locations.

ghost use Rattle.std.specs.Prelude.{◌≡◌, ◌<◌, ◌≤◌, ◌^◌, ◌≢◌, length, slice_get, None, Ok, IfOk, IsErrOf, OnOk, IfErr};
ghost use Rattle.asm_ranges.specs.Values.{fun_of};
ghost use Rattle.state_space.specs.Codomains.{In, LocationsFit, codomain_range, whole};
ghost use Rattle.state_space.specs.Locations.{location_at, range_of, signatures_of, state_locations};
ghost use Rattle.text_core.specs.Fields.{fields};
ghost use Rattle.text_core.specs.Lines.{lines};
ghost use Rattle.fault_script.specs.Glossaries.{Explains};
ghost use Rattle.fault_script.specs.Judging.{IsBad};
ghost use Rattle.fault_script.specs.Listing.{Lists};
ghost use Rattle.fault_script.specs.StartValues as spec;
ghost use Rattle.fault_script.specs.Stopping.{IsStopped};
ghost use Rattle.fault_script.specs.declared.script_end.ScriptEnd.TheVariants.{NoMemory};

use crate::glossary::Glossary;
use crate::positions::Positions;
use crate::script_end::{ScriptEnd, ScriptFault};
use crate::script_reading::behind_word;
use asm_names::{Domain, Resolved};
use asm_tree::is_name;
use state_space::{Space, State, values_keep_states_fitting};
use std::alloc::Global;
use text_core::{Lines, next_field, read_dec};

/// A location by its number, and its value.
#[derive(Clone, Copy)]
pub struct Given {
    pub place: u32,
    pub value: i64,
}

/// The number that a text spells in decimal, with a sign before it where it is negative.
fn number_spelled(text: &[u8]) -> Option<i64>
    ensures { result ≡ spec.number_spelled text.now }
{
    let Some((first, digits)) = text.split_first() else {
        return None;
    };
    if *first != b'-' {
        return match read_dec(text) {
            Some(number) => Some(number as i64),
            None => None,
        };
    }
    match read_dec(digits) {
        Some(0) => None,
        Some(number) => Some(-(number as i64)),
        None => None,
    }
}

/// The number of the enumerator with this name, or the fault that there is none.
fn named(table: &Positions, domain: &Domain, text: &[u8]) -> Result<i64, ScriptFault>
    requires { Lists table.now domain.now.items }
    ensures { result ≡ spec.named domain.now.items text.now }
{
    match table.find(text) {
        Some(index) => Ok(i64::from(index)),
        None => Err(ScriptFault::Range),
    }
}

/// Whether a value is one of the numbers of a domain.
fn is_number(domain: &Domain, value: i64) -> bool
    ensures { result ≡ spec.is_number domain.now value }
{
    let low = i64::from(domain.lo);
    domain.items.as_slice().is_empty() && low <= value && value < low + i64::from(domain.size)
}

/// The value of a domain that a text spells, or the fault that says why there is none. The table has the domain's
/// enumerators.
fn value_given(domain: &Domain, table: &Positions, text: &[u8]) -> Result<i64, ScriptFault>
    requires { Lists table.now domain.now.items }
    ensures { result ≡ spec.value_given domain.now text.now }
{
    if is_name(text) {
        return named(table, domain, text);
    }
    match number_spelled(text) {
        Some(value) => {
            if is_number(domain, value) {
                Ok(value)
            } else {
                Err(ScriptFault::Range)
            }
        }
        None => Err(ScriptFault::Form),
    }
}

/// The number of the codomain of the state location with a number.
fn codomain(resolved: &Resolved, space: &Space, place: u32) -> usize
    requires spaces { space.now ≡ signatures_of resolved.now }
    requires within { place < length (state_locations space.now) }
    ensures number { result ≡ (fun_of resolved.now (location_at space.now place).fun).codomain }
    ensures within { result < length resolved.now.domains }
    ensures range { codomain_range (slice_get space.now (location_at space.now place).fun) ≡ whole (range_of resolved.now.domains result) }
{
    resolved.comes_from_faultless();
    resolved.funs.as_slice()[space.function_at(place)].codomain as usize
}

/// The value of a location that a text spells, or the fault that says why there is none.
fn value_at(
    resolved: &Resolved,
    space: &Space,
    glossary: &Glossary,
    place: u32,
    text: &[u8],
) -> Result<i64, ScriptFault>
    requires spaces { space.now ≡ signatures_of resolved.now }
    requires explained { Explains resolved.now glossary.now }
    requires within { place < length (state_locations space.now) }
    ensures value { result ≡ spec.value_given (spec.codomain_at resolved.now place) text.now }
    ensures fits { IfOk result (λ value. In (codomain_range (slice_get space.now (location_at space.now place).fun)) value) }
{
    let number = codomain(resolved, space, place);
    resolved.comes_from_faultless();
    value_given(
        &resolved.domains.as_slice()[number],
        &glossary.enumerators[number],
        text,
    )
}

/// What a line with this number says behind the word `value`.
fn line_given(
    resolved: &Resolved,
    space: &Space,
    glossary: &Glossary,
    line: u32,
    text: &[u8],
) -> Result<Given, ScriptEnd>
    requires spaces { space.now ≡ signatures_of resolved.now }
    requires explained { Explains resolved.now glossary.now }
    ensures ok { IfOk result (λ it. spec.given resolved.now line (fields text.now) ≡ Ok it) }
    ensures within { IfOk result (λ it. it.place < length (state_locations space.now)) }
    ensures fits { IfOk result (λ it. In (codomain_range (slice_get space.now (location_at space.now it.place).fun)) it.value) }
    ensures bad { IfErr result (λ end. IsBad (spec.given resolved.now line (fields text.now)) end) }
    ensures memory { IfErr result (λ end. end ≢ NoMemory) }
{
    let other_form = ScriptEnd::Fault {
        fault: ScriptFault::Form,
        line,
    };
    let Some((location, rest)) = next_field(text) else {
        return Err(other_form);
    };
    let Some((value, rest)) = next_field(rest) else {
        return Err(other_form);
    };
    if next_field(rest).is_some() {
        return Err(other_form);
    }
    let Some(place) = glossary.locations.find(location) else {
        return Err(other_form);
    };
    match value_at(resolved, space, glossary, place, value) {
        Ok(value) => Ok(Given { place, value }),
        Err(fault) => Err(ScriptEnd::Fault { fault, line }),
    }
}

/// Gives the locations of a state the values of the `value` lines of a text, the first line of which has this number. A
/// later line wins. Other lines, and lines that are passed over, say nothing. Takes time as long as the text, and as the
/// texts of all locations and enumerators.
///
/// # Errors
///
/// `Fault` for the first bad line: 411 for another form or where there is no such location, 412 for a value that the
/// location's codomain lacks. The lines before it are set then. `NoMemory` where there is no memory for the locations'
/// texts; nothing is set then.
pub fn read_values(
    alloc: Global,
    text: &[u8],
    first_line: u32,
    resolved: &Resolved,
    space: &Space,
    state: &mut State,
) -> Result<(), ScriptEnd>
    requires short { length text.now < 2 ^ 31 }
    requires some { 1 ≤ first_line }
    requires few { first_line ≤ 2 ^ 30 }
    requires spaces { space.now ≡ signatures_of resolved.now }
    requires long { length state.old ≡ length (state_locations space.now) }
    ensures ok { OnOk result (spec.values_from resolved.now first_line (lines text.now) state.old ≡ record { state = state.new; fault = None }) }
    ensures bad { IfErr result (λ end. IsStopped (spec.values_from resolved.now first_line (lines text.now) state.old) state.new end) }
    ensures memory { IsErrOf result NoMemory → state.new ≡ state.old }
    ensures long { length state.new ≡ length state.old }
    ensures fits { LocationsFit space.now (state_locations space.now) state.old → LocationsFit space.now (state_locations space.now) state.new }
{
    let glossary = Glossary::of(alloc, resolved, space)?;
    let mut left = Lines::starting_at(text, first_line);
    values_keep_states_fitting();
    'reading: while let Some((number, line)) = left.next() {
        if let Some(rest) = behind_word(line, b"value") {
            let it = line_given(resolved, space, &glossary, number, rest)?;
            state.set(it.place, it.value);
        }
    }
    Ok(())
}
