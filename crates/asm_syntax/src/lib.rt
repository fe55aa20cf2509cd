//! The concrete syntax of abstract state machines. `tokens` is the list of tokens of a text, `parse` the one program
//! of a list of tokens, and `print` the canonical text of a program, whose tokens parse to it again.
#![tactic(auto)]

mod decl;
mod parsing;
mod print_decl;
mod print_rule;
mod printing;

pub use asm_tokens::{Sign, Token, TokenEnd, TokenKind, TokenList, tokens};
pub use parsing::{ParseEnd, parse};
pub use printing::print;

#[cfg(test)]
mod tests;
