//! What the lines of a trace are written with.

use sqlite_items::Items;
use state_space::State;

/// What lines are written with: the line itself, with room for each, the state that RAM holds, and the least values of the
/// inputs.
#[derive(Drop)]
pub(crate) struct Desk {
    pub line: Vec<u8>,
    pub state: State,
    pub lowest: Items<i64>,
}

/// How far a play is: the ticks made so far, and the head lines since the start and since the last fault.
#[derive(Clone, Copy)]
pub(crate) struct Progress {
    pub time: u64,
    pub heads: u64,
}
