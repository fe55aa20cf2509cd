//! Tokens, their kinds and the signs.

ghost use Rattle.std.specs.Prelude.{◌≡◌};
ghost use Rattle.asm_tokens.specs.Tokens as spec;

use asm_tree::{Key, Name};
use sqlite_items::Items;

/// The signs of the language.
#[derive(Clone, Copy, Debug, PartialEq, Eq)]
pub enum Sign {
    /// `:=`
    Assign,
    /// `!=`
    Ne,
    /// `<=`
    Le,
    /// `>=`
    Ge,
    /// `(`
    LeftParen,
    /// `)`
    RightParen,
    /// `{`
    LeftBrace,
    /// `}`
    RightBrace,
    /// `[`
    LeftBracket,
    /// `]`
    RightBracket,
    /// `,`
    Comma,
    /// `;`
    Semicolon,
    /// `:`
    Colon,
    /// `=`
    Eq,
    /// `<`
    Lt,
    /// `>`
    Gt,
    /// `+`
    Plus,
    /// `-`
    Minus,
}

/// What a token is, whatever its place.
#[derive(Debug, Drop)]
pub enum TokenKind {
    /// A name.
    Word(Name),
    /// A keyword.
    Key(Key),
    /// A number. One that a text gives is at most 2147483647.
    Number(u32),
    /// A sign.
    Sign(Sign),
}

/// A token and its place.
#[derive(Debug, Drop)]
pub struct Token {
    /// The line on which the token stands.
    pub line: u32,
    /// What the token is.
    pub kind: TokenKind,
}

/// A list of tokens, in the order of the text.
pub type TokenList = Items<Token>;

/// Whether two signs are the same.
#[tactic(auto, unfolding(crate::specs::Tokens::same_sign))]
pub fn same_sign(a: Sign, b: Sign) -> bool
    ensures { result ≡ spec.same_sign a b }
{
    a == b
}

/// Whether two keywords are the same.
#[tactic(auto, unfolding(crate::specs::Tokens::same_key))]
pub fn same_key(a: Key, b: Key) -> bool
    ensures { result ≡ spec.same_key a b }
{
    a == b
}
