//! Code for terms: the blocks that leave a term's value in a register, and the laws that they keep.
#![tactic(auto)]

mod binders;
mod cells;
mod laws;
mod pieces;
mod selecting;
mod trees;

pub use binders::{binder_domain, binder_range};
pub use laws::{
    fitting_terms_are_short, held_values_fit, indices_stay_inside, terms_are_blocks,
    terms_are_silent, terms_leave_values,
};
pub use pieces::{argument, binder, denied, greater, lesser, number, operated};
pub use selecting::{select, select_index};
