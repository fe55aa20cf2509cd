//! Room for the texts of states.

ghost use Rattle.std.specs.Prelude.{◌≡◌, ◌≤◌, ◌<◌, ◌+◌, ◌^◌, [], length, IfOk, vec_capacity};
ghost use Rattle.asm_ranges.specs.Values as values;
ghost use Rattle.state_space.specs.Codomains.{LocationsFit};
ghost use Rattle.state_space.specs.Locations.{signatures_of, state_locations};
ghost use Rattle.fault_script.specs.StateText.{state_text};
ghost use Rattle.fault_script.specs.Widths.{longest, widest};

use crate::state_writing::state_line;
use asm_names::{Domain, Resolved};
use asm_tree::Name;
use state_space::{Space, State, resolved_functions_are_sized};
use std::alloc::{AllocError, Global};

/// How many bytes the longest value that is a number takes: one sign and seven digits.
const NUMBER_WIDTH: usize = 8;

/// How many bytes the longest of these names takes, and `least` where it is shorter.
fn longest_name(names: &[Name], least: usize) -> usize
    requires { least ≤ 32 }
    ensures longest { result ≡ longest least names.now }
    ensures short { result ≤ 32 }
{
    let mut longest = least;
    for name in names {
        longest = longest.max(name.bytes().len());
    }
    longest
}

/// How many bytes the text of a value takes at most.
fn widest_value(domains: &[Domain]) -> usize
    ensures widest { result ≡ widest 8 domains.now }
    ensures short { result ≤ 32 }
{
    let mut widest = NUMBER_WIDTH;
    for domain in domains {
        widest = longest_name(domain.items.as_slice(), widest);
    }
    widest
}

/// An empty list that has room for the text of each state of the program, of which `state` is one, and for `more` bytes.
///
/// # Errors
///
/// `AllocError` where there is no memory for that room.
pub fn room_for_states(
    alloc: Global,
    resolved: &Resolved,
    space: &Space,
    state: &State,
    more: usize,
) -> Result<Vec<u8>, AllocError>
    requires spaces { space.now ≡ signatures_of resolved.now }
    requires fits { LocationsFit (signatures_of resolved.now) (state_locations (signatures_of resolved.now)) state.now }
    requires few { more < 2 ^ 32 }
    ensures empty { IfOk result (λ line. line.items ≡ []) }
    ensures room { IfOk result (λ line. (other : values.State) → LocationsFit (signatures_of resolved.now) (state_locations (signatures_of resolved.now)) other → length (state_text resolved.now other) + more ≤ vec_capacity line) }
{
    resolved_functions_are_sized(resolved);
    let values = space.count() as usize * widest_value(resolved.domains.as_slice());
    let mut line = Vec::new(alloc);
    state_line(resolved, space, state, &mut line)?;
    line.reserve(values + more)?;
    line.clear();
    Ok(line)
}
