//! The lines of a script.

ghost use Rattle.std.specs.Prelude.{◌≡◌, ◌+◌, ◌<◌, ◌≤◌, ◌^◌, ◌&&◌, [], length, codes, bytes_eq, if◌then◌else◌, option_map, Some, None, Ok, Err, IsTrue, IfOk, OnOk, IfErr};
ghost use Rattle.text_core.specs.Fields.{fields};
ghost use Rattle.text_core.specs.Lines.{lines};
ghost use Rattle.trap_model.specs.Map.{lies_in, ram_base};
ghost use Rattle.fault_script.specs.declared.event.Event.TheVariants.{Ram, SetRam};
ghost use Rattle.fault_script.specs.declared.event.Event.TheVariants as events;
ghost use Rattle.fault_script.specs.Faults.{AreFaults};
ghost use Rattle.fault_script.specs.Judging.{behind, event_of, in_order, IsBad, judged_as, refused};
ghost use Rattle.fault_script.specs.Script as spec;

use crate::event::{Event, Timed};
use crate::script_end::{ScriptEnd, ScriptFault};
use rv_isa::Reg;
use sqlite_items::Items;
use std::alloc::Global;
use text_core::{Lines, is_passed, next_field, read_dec, read_hex};
use trap_model::RAM_BASE;

/// The greatest time that a script may name.
const GREATEST_TIME: u64 = 10_000_000;

/// The event, where all numbers of a line are in range.
fn ranged(fits: bool, event: Event) -> Result<Event, ScriptFault>
    ensures { result ≡ event_of fits event }
{
    if fits {
        Ok(event)
    } else {
        Err(ScriptFault::Range)
    }
}

/// What `pc H` says.
#[tactic(auto, unfolding(crate::specs::Script::said_pc))]
fn said_pc(time: u64, mask: &[u8]) -> Result<Event, ScriptFault>
    ensures early { IfOk result (λ it. time ≤ 10000000) }
    ensures said { result ≡ judged_as (spec.said_pc time mask.now) }
{
    match read_hex(mask) {
        Some(mask) => ranged(time <= GREATEST_TIME, Event::Pc { mask }),
        None => Err(ScriptFault::Form),
    }
}

/// What `reg R H` says, by its numbers.
fn register(time: u64, number: u64, mask: u32) -> Result<Event, ScriptFault>
    ensures early { IfOk result (λ it. time ≤ 10000000) }
    ensures said { result ≡ judged_as (Some (record { time = time; event = events.Reg number mask; fits = spec.is_time time && spec.is_register number })) }
{
    if GREATEST_TIME < time || number < 1 || 31 < number {
        return Err(ScriptFault::Range);
    }
    match Reg::new(number as u32) {
        Some(reg) => Ok(Event::Reg { reg, mask }),
        None => Err(ScriptFault::Range),
    }
}

/// What `reg R H` says.
#[tactic(auto, unfolding(crate::specs::Script::said_register))]
fn said_register(time: u64, number: &[u8], mask: &[u8]) -> Result<Event, ScriptFault>
    ensures early { IfOk result (λ it. time ≤ 10000000) }
    ensures said { result ≡ judged_as (spec.said_register time number.now mask.now) }
{
    match read_dec(number) {
        Some(number) => match read_hex(mask) {
            Some(mask) => register(time, number, mask),
            None => Err(ScriptFault::Form),
        },
        None => Err(ScriptFault::Form),
    }
}

/// Whether a word of RAM of so many bytes has this address.
#[tactic(auto, unfolding(trap_model::specs::Map::lies_in))]
fn is_place(ram: u32, address: u32) -> bool
    ensures value { result ≡ spec.is_place ram address }
    ensures behind { IsTrue result → ram_base ≤ address }
{
    address % 4 == 0 && RAM_BASE <= address && address - RAM_BASE < ram
}

/// What `ram H H` says.
#[tactic(auto, unfolding(crate::specs::Script::said_word))]
fn said_ram(ram: u32, time: u64, address: &[u8], mask: &[u8]) -> Result<Event, ScriptFault>
    ensures early { IfOk result (λ it. time ≤ 10000000) }
    ensures said { result ≡ judged_as (spec.said_word ram time (λ o m. Ram o m) address.now mask.now) }
{
    match read_hex(address) {
        Some(address) => match read_hex(mask) {
            Some(mask) => {
                if GREATEST_TIME < time || !is_place(ram, address) {
                    return Err(ScriptFault::Range);
                }
                Ok(Event::Ram {
                    offset: address - RAM_BASE,
                    mask,
                })
            }
            None => Err(ScriptFault::Form),
        },
        None => Err(ScriptFault::Form),
    }
}

/// What `set H H` says.
#[tactic(auto, unfolding(crate::specs::Script::said_word))]
fn said_set(ram: u32, time: u64, address: &[u8], word: &[u8]) -> Result<Event, ScriptFault>
    ensures early { IfOk result (λ it. time ≤ 10000000) }
    ensures said { result ≡ judged_as (spec.said_word ram time (λ o w. SetRam o w) address.now word.now) }
{
    match read_hex(address) {
        Some(address) => match read_hex(word) {
            Some(word) => {
                if GREATEST_TIME < time || !is_place(ram, address) {
                    return Err(ScriptFault::Range);
                }
                Ok(Event::SetRam {
                    offset: address - RAM_BASE,
                    word,
                })
            }
            None => Err(ScriptFault::Form),
        },
        None => Err(ScriptFault::Form),
    }
}

/// What a word, a place and a number say.
#[tactic(auto, unfolding(crate::specs::Script::said_place))]
fn said_place(
    ram: u32,
    time: u64,
    key: &[u8],
    place: &[u8],
    number: &[u8],
) -> Result<Event, ScriptFault>
    ensures early { IfOk result (λ it. time ≤ 10000000) }
    ensures said { result ≡ judged_as (spec.said_place ram time key.now place.now number.now) }
{
    if key == b"reg".as_slice() {
        said_register(time, place, number)
    } else if key == b"ram".as_slice() {
        said_ram(ram, time, place, number)
    } else if key == b"set".as_slice() {
        said_set(ram, time, place, number)
    } else {
        Err(ScriptFault::Form)
    }
}

/// What a word and a number say.
fn said_number(time: u64, key: &[u8], number: &[u8]) -> Result<Event, ScriptFault>
    ensures early { IfOk result (λ it. time ≤ 10000000) }
    ensures said { result ≡ judged_as (if bytes_eq key.now (codes "pc") then spec.said_pc time number.now else None) }
{
    if key == b"pc".as_slice() {
        said_pc(time, number)
    } else {
        Err(ScriptFault::Form)
    }
}

/// What follows the time of a line.
fn said_at(ram: u32, time: u64, text: &[u8]) -> Result<Event, ScriptFault>
    ensures early { IfOk result (λ it. time ≤ 10000000) }
    ensures said { result ≡ judged_as (spec.said_at ram time (fields text.now)) }
{
    let Some((key, rest)) = next_field(text) else {
        return Err(ScriptFault::Form);
    };
    let Some((place, rest)) = next_field(rest) else {
        return Err(ScriptFault::Form);
    };
    let Some((number, rest)) = next_field(rest) else {
        return said_number(time, key, place);
    };
    match next_field(rest) {
        None => said_place(ram, time, key, place, number),
        Some(_) => Err(ScriptFault::Form),
    }
}

/// An event with its time, behind a line with the time `last`.
fn in_order(last: u32, time: u64, event: Result<Event, ScriptFault>) -> Result<Timed, ScriptFault>
    requires { IfOk event (λ it. time ≤ 10000000) }
    ensures { result ≡ in_order last time event }
{
    let event = event?;
    if time < u64::from(last) {
        return Err(ScriptFault::Order);
    }
    Ok(Timed {
        time: time as u32,
        event,
    })
}

/// What follows the word `at` of a line, behind a line with the time `last`.
fn judged(ram: u32, last: u32, text: &[u8]) -> Result<Timed, ScriptFault>
    ensures { result ≡ refused (spec.judged last 0 (spec.said ram (fields text.now))) }
{
    let Some((time, rest)) = next_field(text) else {
        return Err(ScriptFault::Form);
    };
    match read_dec(time) {
        Some(time) => in_order(last, time, said_at(ram, time, rest)),
        None => Err(ScriptFault::Form),
    }
}

/// What stands behind a word that begins a line, unless the line is passed over.
#[tactic(auto, unfolding(crate::specs::Script::script_fields))]
pub(crate) fn behind_word<'a>(line: &'a [u8], first: &[u8]) -> Option<&'a [u8]>
    ensures { option_map (λ rest. fields rest.now) result ≡ spec.script_fields first.now line.now }
{
    if is_passed(line) {
        return None;
    }
    let (word, rest) = next_field(line)?;
    if word == first { Some(rest) } else { None }
}

/// Adds the faults of the lines that are left, behind a line with the time `last`.
fn read_lines(
    ram: u32,
    text: &[u8],
    first_line: u32,
    script: &mut Vec<Timed>,
) -> Result<(), ScriptEnd>
    requires short { length text.now < 2 ^ 31 }
    requires some { 1 ≤ first_line }
    requires few { first_line ≤ 2 ^ 30 }
    requires empty { script.old.items ≡ [] }
    ensures script { OnOk result (spec.script_of ram first_line (lines text.now) ≡ Ok script.new.items) }
    ensures bad { IfErr result (λ end. IsBad (spec.script_of ram first_line (lines text.now)) end) }
{
    let mut last = 0;
    let mut left = Lines::starting_at(text, first_line);
    'reading: while let Some((number, line)) = left.next() {
        if let Some(rest) = behind_word(line, b"at") {
            match judged(ram, last, rest) {
                Ok(Timed { time, event }) => {
                    last = time;
                    if script.push(Timed { time, event }).is_err() {
                        return Err(ScriptEnd::NoMemory);
                    }
                }
                Err(fault) => {
                    return Err(ScriptEnd::Fault {
                        fault,
                        line: number,
                    });
                }
            }
        }
    }
    Ok(())
}

/// The faults of the lines of a script, the first of which has this number, in a machine with so many bytes of RAM. Lines
/// whose first word is not `at`, and lines that are passed over, say nothing. The faults are in the order of their times.
///
/// # Errors
///
/// `Fault` for the first bad line: 411 for another form, 412 for a number out of range, 413 for a time below that of the
/// line before, and on one line the least of these. `NoMemory` where there is no memory for the faults.
pub fn read_script(
    alloc: Global,
    text: &[u8],
    first_line: u32,
    ram: u32,
) -> Result<Items<Timed>, ScriptEnd>
    requires short { length text.now < 2 ^ 31 }
    requires some { 1 ≤ first_line }
    requires few { first_line ≤ 2 ^ 30 }
    ensures script { IfOk result (λ script. spec.script_of ram first_line (lines text.now) ≡ Ok script) }
    ensures faults { IfOk result (λ script. AreFaults ram script) }
    ensures bad { IfErr result (λ end. IsBad (spec.script_of ram first_line (lines text.now)) end) }
{
    let mut script = Vec::new(alloc);
    read_lines(ram, text, first_line, &mut script)?;
    Ok(Items::from_vec(script))
}
