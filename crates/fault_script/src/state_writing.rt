//! The text of a state.

ghost use Rattle.std.specs.Prelude.{◌≡◌, ◌<◌, ◌≤◌, ◌+◌, ◌++◌, ◌∷◌, length, OnOk, OnErr, IsOk};
ghost use Rattle.asm_ranges.specs.Values.{fun_of};
ghost use Rattle.state_space.specs.Locations.{location_at, signatures_of, state_locations};
ghost use Rattle.text_core.specs.Room.{room_of};
ghost use Rattle.fault_script.specs.Putting.{IsPut};
ghost use Rattle.fault_script.specs.StateText as spec;
ghost use Rattle.fault_script.specs.StateText.{state_text};

use crate::location_writing::{function_at, put_place, put_value};
use asm_names::Resolved;
use state_space::{Space, State};
use std::alloc::AllocError;
use text_core::put_bytes;

/// Appends a space, a state location, and its value.
fn put_entry(
    resolved: &Resolved,
    space: &Space,
    place: u32,
    value: i64,
    out: &mut Vec<u8>,
) -> Result<(), AllocError>
    requires spaces { space.now ≡ signatures_of resolved.now }
    requires within { place < length (state_locations space.now) }
    ensures { IsPut result (32 ∷ spec.entry_text resolved.now.domains (fun_of resolved.now (location_at space.now place).fun) (location_at space.now place).args value) out.old out.new }
{
    let function = function_at(resolved, space, place);
    put_bytes(out, b" ")?;
    put_place(resolved, space, place, out)?;
    put_bytes(out, b"=")?;
    put_value(out, resolved.domains.as_slice(), function.codomain, value)
}

/// Appends the entries of a state, or a beginning of them.
fn put_entries(
    resolved: &Resolved,
    space: &Space,
    values: &[i64],
    out: &mut Vec<u8>,
) -> Result<(), AllocError>
    requires { space.now ≡ signatures_of resolved.now }
    ensures { IsPut result (state_text resolved.now values.now) out.old out.new }
{
    for place in 0..space.count() {
        if values.len() <= place as usize {
            return Ok(());
        }
        put_entry(resolved, space, place, values[place as usize], out)?;
    }
    Ok(())
}

/// Appends, for each location of a state in order, a space and `LOCATION=VALUE`, where a value is an enumerator's name where
/// its domain is a list, and else decimal. Takes no memory but for the text.
///
/// # Errors
///
/// `AllocError` where there is no memory for the text, of which then nothing is appended.
pub fn state_line(
    resolved: &Resolved,
    space: &Space,
    state: &State,
    out: &mut Vec<u8>,
) -> Result<(), AllocError>
    requires { space.now ≡ signatures_of resolved.now }
    ensures ok { OnOk result (out.new.items ≡ out.old.items ++ state_text resolved.now state.now) }
    ensures err { OnErr result (out.new.items ≡ out.old.items) }
    ensures fits { length (state_text resolved.now state.now) ≤ room_of out.old → IsOk result }
    ensures room { room_of out.old ≤ room_of out.new + length (state_text resolved.now state.now) }
{
    let start = out.len();
    match put_entries(resolved, space, state.values(), out) {
        Ok(()) => Ok(()),
        Err(error) => {
            out.truncate(start);
            Err(error)
        }
    }
}
