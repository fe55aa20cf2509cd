//! The state that RAM holds.

ghost use Rattle.std.specs.Prelude.{◌≡◌, ◌≤◌, ◌<◌, Some, length, slice_get, IfOk};
ghost use Rattle.state_space.specs.Locations.{state_locations};
ghost use Rattle.state_layout.specs.Map as spec;

use crate::map::Map;
use rv_machine::Hart;
use state_space::{State, decode_word};
use std::alloc::{AllocError, Global};

/// The value that RAM holds of a location.
fn value_at<const ROM: u32, const RAM: u32>(map: &Map, hart: &Hart<ROM, RAM>, place: u32) -> i64
    requires inside { spec.state_end map.now ≤ RAM }
    requires exists { place < length (state_locations map.now.signatures) }
    ensures { slice_get (spec.decoded map.now hart.now.ram) place ≡ Some result }
{
    let cell = map.cell(place);
    let range = map.range_at(cell.fun);
    let number = hart.number(map.access_at(cell.fun), map.value_offset(cell));
    range.value(decode_word(range.size, number))
}

/// Makes a state the one that RAM holds.
pub fn decode_into<const ROM: u32, const RAM: u32>(
    map: &Map,
    hart: &Hart<ROM, RAM>,
    state: &mut State,
)
    requires inside { spec.state_end map.now ≤ RAM }
    requires long { length state.old ≡ length (state_locations map.now.signatures) }
    ensures { state.new ≡ spec.decoded map.now hart.now.ram }
{
    for place in 0..map.space().count() {
        state.set(place, value_at(map, hart, place));
    }
}

/// The state that RAM holds.
pub fn decoded<const ROM: u32, const RAM: u32>(
    alloc: Global,
    map: &Map,
    hart: &Hart<ROM, RAM>,
) -> Result<State, AllocError>
    requires { spec.state_end map.now ≤ RAM }
    ensures { IfOk result (λ state. state ≡ spec.decoded map.now hart.now.ram) }
{
    let mut state = State::lowest(alloc, map.space())?;
    decode_into(map, hart, &mut state);
    Ok(state)
}
