//! The faults of a script: what they do to a hart, how they are read and written.
#![tactic(auto)]

mod event;
mod fault;
mod glossary;
mod laws;
mod location_writing;
mod positions;
mod script_end;
mod script_reading;
mod state_room;
mod state_writing;
mod value_reading;

pub use event::{Event, Timed};
pub use fault::apply;
pub use laws::faults_keep_harts_valid;
pub use location_writing::{put_function_location, put_location};
pub use script_end::{ScriptEnd, ScriptFault};
pub use script_reading::read_script;
pub use state_room::room_for_states;
pub use state_writing::state_line;
pub use value_reading::read_values;
