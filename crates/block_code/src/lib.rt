//! Blocks: code in lines, sequences, choices, loops and scans that may be entered anywhere, with bounds on the ticks
//! until it is left or traps. Each law of blocks is the contract of a function that does nothing.
#![tactic(auto)]

mod block;
mod emission;
mod instrs;
mod laws;
mod operands;
mod own;
pub mod sequence;
mod tree;

pub use block::{Block, entry, full, len};
pub use emission::emit;
pub use instrs::Instrs;
pub use laws::{
    blocks_do_their_structure, blocks_end_from_anywhere, blocks_end_from_the_top,
    blocks_end_in_ticks, blocks_never_return, blocks_start_forward, bounds_keep_step,
    closed_blocks_stabilize, entered_blocks_come_out, footprints_are_kept,
    footprints_bound_effects, footprints_keep_slots, frames_are_kept, led_blocks_go_round,
    lines_append, lines_keep_harts_valid, lines_lead_one_way, lines_touch_as_done,
    moments_are_runs, parts_are_done_in_order, parts_touch_only, registers_are_kept,
    sequences_are_done, spared_words_are_kept, storeless_lines_keep, table_words_fall_through,
    written_blocks_are_closed, written_code_stands,
};
pub use tree::Tree;
