//! The syntax tree of abstract state machines: names, keywords, terms, rules, declarations and
//! programs. A [`Program`] is a tree that some text has.
#![tactic(auto)]

mod decl;
mod key;
mod name;
mod program;
mod rule;
mod term;

pub use decl::{Const, Consts, Decl, Decls, Kind, Names};
pub use key::{Key, key_of, key_text};
pub use name::{Name, is_name, is_word};
pub use program::{MAX_DEPTH, Program};
pub use rule::{Rule, Rules};
pub use term::{Op, Term, Terms};

#[cfg(test)]
mod tests;
