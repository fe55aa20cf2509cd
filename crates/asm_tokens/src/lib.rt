//! The tokens of a text: words, keywords, numbers and signs, with the lines on which they stand.
//!
//! - Spaces, tabs, carriage returns and line feeds part tokens, and so does a comment: `//` and all
//!   bytes up to the next line feed or the end of the text.
//! - A word is a run of ASCII letters, digits and `_` that no further such byte follows or precedes.
//!   One that begins with a digit is a number, in decimal, without leading zeros and at most
//!   2147483647. One that begins with a letter is a keyword, or else a name of at most 32 bytes. Any
//!   other word is a bad word.
//! - At any other byte stands the longest sign that fits: `:=` before `:`, `<=` before `<`. A byte
//!   at which none does is a bad byte.
#![tactic(auto)]

mod lexer;
mod token;

pub use lexer::{TokenEnd, sign_text, tokens};
pub use token::{Sign, Token, TokenKind, TokenList, same_key, same_sign};

#[cfg(test)]
mod tests;
