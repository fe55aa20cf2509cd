//! The state from which a program runs.

ghost use Rattle.std.specs.Prelude.{◌≡◌, ◌<◌, ◌≤◌, ◌^◌, length, true, None, IfErr, IfOk};
ghost use Rattle.text_core.specs.Lines.{lines};
ghost use Rattle.fault_script.specs.StartValues.{first_state};
ghost use Rattle.model_run.specs.Running.{IsFirstFault, StateFits};
ghost use Rattle.state_space.specs.Locations.{signatures_of};
ghost use Rattle.state_space.specs.Sizes.{fits};

use asm_ranges::Checked;
use fault_script::{ScriptEnd, read_values};
use state_space::{Space, State};
use std::alloc::Global;

/// The locations of a program, and the state from which it runs.
#[derive(Drop)]
pub struct Start {
    pub space: Space,
    pub state: State,
}

/// The state from which a program runs: the least one, where the `value` lines of a text, the first line of which has this
/// number, have put their values in order. Other lines say nothing.
///
/// # Errors
///
/// `Fault` for the first bad line, as of [`read_values`]. `NoMemory` where there is no memory for the state, or for the texts
/// of its locations.
pub fn start_of(
    alloc: Global,
    checked: &Checked,
    text: &[u8],
    first_line: u32,
) -> Result<Start, ScriptEnd>
    requires room { fits (signatures_of checked.now) ≡ true }
    requires short { length text.now < 2 ^ 31 }
    requires some { 1 ≤ first_line }
    requires few { first_line ≤ 2 ^ 30 }
    ensures ok { IfOk result (λ start. first_state checked.now first_line (lines text.now) ≡ record { state = start.state; fault = None }) }
    ensures spaces { IfOk result (λ start. start.space ≡ signatures_of checked.now) }
    ensures fits { IfOk result (λ start. StateFits checked.now start.state) }
    ensures bad { IfErr result (λ end. IsFirstFault (first_state checked.now first_line (lines text.now)) end) }
{
    let resolved = checked.resolved();
    let space = Space::of(alloc, resolved)?;
    let mut state = State::lowest(alloc, &space)?;
    read_values(alloc, text, first_line, resolved, &space, &mut state)?;
    Ok(Start { space, state })
}
