//! Names of a parsed program. [`resolve`] replaces the names of its domains, functions, enumerators and binders by
//! numbers, or finds the first fault of its names and sorts.
#![tactic(auto)]

mod binders;
mod declarations;
mod fault;
mod law;
mod program;
mod resolution;
mod resolved_rule;
mod resolved_term;
mod rule;
mod sort;
mod table;
mod term;
mod tokens;

pub use binders::Binder;
pub use fault::{NameEnd, NameFault, PlacedFault};
pub use law::{resolved_programs_are_well_formed, tokens_are_kept};
pub use program::{Domain, Fun, Interval, Resolved};
pub use resolution::resolve;
pub use resolved_rule::{ResolvedRule, ResolvedRules};
pub use resolved_term::{ResolvedTerm, ResolvedTerms};
pub use sort::{Need, Sort};
pub use tokens::decl_tokens;
