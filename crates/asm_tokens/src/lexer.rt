//! The lexer: from the bytes of a text to its tokens, or to the first place where none stands.

ghost use Rattle.std.specs.Prelude.{◌≡◌, ◌≢◌, ℕ, ◌<◌, ◌≤◌, ◌+◌, ◌^◌, ◌∷◌, ◌++◌, List, true, false, length, take, drop, IfOk, IfErr, IfSome, IfNone, MatchOption, slice_index};
ghost use Rattle.std.specs.Option.{option_map};
ghost use Rattle.std.specs.Fmt.{decimal};
ghost use Rattle.asm_tokens.specs.declared.token.Token.{Token};
ghost use Rattle.asm_tokens.specs.Lexing as spec;
ghost use Rattle.asm_tokens.specs.Lexing.{all_word, begins_word, key_bytes, sign_bytes, spelling, IsToken, goes_on, sign_goes_on, skip, Lexes, LexesTo, IsBadByte, IsBadWord, StopsAt};
ghost use Rattle.asm_tokens.specs.LexingEnds.{IsWordKind, IsNoToken, FrontIs, BadAt, EndsAt, end_of, AnswersTokens, EndsWith};

use crate::token::{Sign, Token, TokenKind, TokenList};
use asm_tree::{Name, is_word, key_of};
use std::alloc::{AllocError, Global};
use text_core::read_dec;
use thiserror::Error;

/// Why a text is no list of tokens. `line` is the line of the first place where no token stands,
/// and `token` the number of tokens before it plus 1.
#[derive(Clone, Copy, Debug, PartialEq, Eq, Error)]
pub enum TokenEnd {
    /// A byte begins no token, and no comment or gap.
    #[error("line {line}, token {token}: no token begins with this byte")]
    BadByte { line: u32, token: u32 },
    /// A word is no keyword, no name and no number.
    #[error("line {line}, token {token}: this word is no token")]
    BadWord { line: u32, token: u32 },
    /// No memory was left for the tokens.
    #[error("out of memory")]
    NoMemory,
}

// Why no token stands at a place.
#[derive(Clone, Copy)]
enum Bad {
    Byte,
    Word,
    NoMemory,
}

impl From<AllocError> for TokenEnd {
    ghost use Rattle.std.specs.Prelude.{◌≡◌};
    ghost use Rattle.asm_tokens.specs.declared.lexer.TokenEnd.TheVariants.{NoMemory};

    ghost from_gives = { λ _ e. e ≡ NoMemory };

    fn from(_: AllocError) -> TokenEnd {
        TokenEnd::NoMemory
    }
}

// The sign at the front of two bytes. The second is 0 where there is none.
fn sign(first: u8, second: u8) -> Option<Sign>
    ensures { result ≡ spec.sign_at first second }
{
    match (first, second) {
        (b':', b'=') => Some(Sign::Assign),
        (b'!', b'=') => Some(Sign::Ne),
        (b'<', b'=') => Some(Sign::Le),
        (b'>', b'=') => Some(Sign::Ge),
        (b'(', _) => Some(Sign::LeftParen),
        (b')', _) => Some(Sign::RightParen),
        (b'{', _) => Some(Sign::LeftBrace),
        (b'}', _) => Some(Sign::RightBrace),
        (b'[', _) => Some(Sign::LeftBracket),
        (b']', _) => Some(Sign::RightBracket),
        (b',', _) => Some(Sign::Comma),
        (b';', _) => Some(Sign::Semicolon),
        (b':', _) => Some(Sign::Colon),
        (b'=', _) => Some(Sign::Eq),
        (b'<', _) => Some(Sign::Lt),
        (b'>', _) => Some(Sign::Gt),
        (b'+', _) => Some(Sign::Plus),
        (b'-', _) => Some(Sign::Minus),
        _ => None,
    }
}

// Whether a byte parts tokens and ends no line.
fn is_blank(byte: u8) -> bool
    ensures { result ≡ spec.is_blank byte }
{
    byte == b' ' || byte == b'\t' || byte == b'\r'
}

// Where the word at the front ends.
fn word_len(text: &[u8]) -> usize
    ensures within { result ≤ length text.now }
    ensures word { all_word (take result text.now) ≡ true }
    ensures whole { begins_word (drop result text.now) ≡ false }
{
    let mut len = 0;
    while len < text.len() && is_word(text[len]) {
        len += 1;
    }
    len
}

// The line and the text after blanks and comments.
fn skip(line: u32, text: &[u8]) -> (u32, &[u8])
    requires { line + length text.now < 2 ^ 32 }
    ensures gap { skip false line text.now ≡ (result.0, result.1.now) }
    ensures room { result.0 + length result.1.now ≤ line + length text.now }
    ensures shrinks { length result.1.now ≤ length text.now }
{
    let mut line = line;
    let mut rest = text;
    let mut inside = false;
    'gap: while let [byte, after @ ..] = rest {
        if *byte == b'\n' {
            line += 1;
            inside = false;
        } else if !inside {
            if *byte == b'/' && after.first() == Some(&b'/') {
                inside = true;
            } else if !is_blank(*byte) {
                break;
            }
        }
        rest = after;
    }
    (line, rest)
}

// The number of a token that is spelled so.
fn number(word: &[u8]) -> Option<u32>
    ensures found { IfSome result (λ n. (n ≤ 2147483647) × (word.now ≡ decimal n)) }
    ensures none { IfNone result ((n : ℕ) → n ≤ 2147483647 → decimal n ≢ word.now) }
{
    let value = read_dec(word)?;
    if value > 2147483647 {
        return None;
    }
    Some(value as u32)
}

// The token that is this whole word.
fn word_kind(alloc: Global, word: &[u8]) -> Result<TokenKind, Bad>
    requires some { 0 < length word.now }
    requires bytes { all_word word.now ≡ true }
    ensures ok { IfOk result (λ k. IsWordKind k × IsToken k × (spelling k ≡ word.now)) }
    ensures err { IfErr result (λ bad. IsNoToken bad word.now) }
{
    if word[0].is_ascii_digit() {
        return match number(word) {
            Some(value) => Ok(TokenKind::Number(value)),
            None => Err(Bad::Word),
        };
    }
    if let Some(key) = key_of(word) {
        return Ok(TokenKind::Key(key));
    }
    match Name::of(alloc, word) {
        Ok(Some(name)) => Ok(TokenKind::Word(name)),
        Ok(None) => Err(Bad::Word),
        Err(_) => Err(Bad::NoMemory),
    }
}

/// The spelling of a sign, in bytes. Takes no memory.
pub fn sign_text(sign: Sign) -> &'static [u8]
    ensures { result.now ≡ sign_bytes sign }
{
    match sign {
        Sign::Assign => b":=",
        Sign::Ne => b"!=",
        Sign::Le => b"<=",
        Sign::Ge => b">=",
        Sign::LeftParen => b"(",
        Sign::RightParen => b")",
        Sign::LeftBrace => b"{",
        Sign::RightBrace => b"}",
        Sign::LeftBracket => b"[",
        Sign::RightBracket => b"]",
        Sign::Comma => b",",
        Sign::Semicolon => b";",
        Sign::Colon => b":",
        Sign::Eq => b"=",
        Sign::Lt => b"<",
        Sign::Gt => b">",
        Sign::Plus => b"+",
        Sign::Minus => b"-",
    }
}

// The sign at the front, and what follows it.
fn sign_front(text: &[u8]) -> Option<(Sign, &[u8])>
    requires { 0 < length text.now }
    ensures sign { option_map (λ x. x.0) result ≡ spec.sign_at (slice_index text.now 0) (slice_index text.now 1) }
    ensures found { IfSome result (λ x. (text.now ≡ sign_bytes x.0 ++ x.1.now) × (sign_goes_on x.0 x.1.now ≡ false)) }
{
    let second = if text.len() > 1 { text[1] } else { 0 };
    let found = sign(text[0], second)?;
    Some((found, &text[sign_text(found).len()..]))
}

// The token at the front, and what follows it.
fn front(alloc: Global, text: &[u8]) -> Result<(TokenKind, &[u8]), Bad>
    requires { 0 < length text.now }
    ensures ok { IfOk result (λ x. FrontIs text.now x.0 x.1.now) }
    ensures err { IfErr result (λ bad. BadAt bad text.now) }
{
    if is_word(text[0]) {
        let (word, after) = text.split_at(word_len(text));
        return Ok((word_kind(alloc, word)?, after));
    }
    match sign_front(text) {
        Some((sign, after)) => Ok((TokenKind::Sign(sign), after)),
        None => Err(Bad::Byte),
    }
}

// The refusal at a place.
fn end(bad: Bad, line: u32, token: u32) -> TokenEnd
    ensures { result ≡ end_of bad line token }
{
    match bad {
        Bad::Byte => TokenEnd::BadByte { line, token },
        Bad::Word => TokenEnd::BadWord { line, token },
        Bad::NoMemory => TokenEnd::NoMemory,
    }
}

// The tokens of a text, or its first bad place. Each clause of `tokens` follows from these.
fn lexed(alloc: Global, text: &[u8], first_line: u32) -> Result<TokenList, TokenEnd>
    requires text { length text.now < 2 ^ 31 }
    requires line { first_line ≤ 2 ^ 30 }
    ensures ok { IfOk result (λ list. Lexes first_line text.now list) }
    ensures err { IfErr result (λ end. EndsAt first_line text.now end) }
    ensures count { IfOk result (λ list. length list ≤ length text.now) }
{
    let mut found = TokenList::new(alloc);
    let (mut line, mut rest) = skip(first_line, text);
    'lexing: while !rest.is_empty() {
        let (kind, after) = match front(alloc, rest) {
            Ok(pair) => pair,
            Err(bad) => return Err(end(bad, line, found.len() as u32 + 1)),
        };
        found.push(Token { line, kind })?;
        (line, rest) = skip(line, after);
    }
    Ok(found)
}

/// The tokens of a text whose first line has the number `first_line`, each with its line. A line
/// feed ends a line.
///
/// `BadByte` or `BadWord` comes exactly where the first place at which no token stands is of that
/// kind, and gives its line and its number among the tokens, from 1. `NoMemory` may come in place of
/// any answer.
pub fn tokens(alloc: Global, text: &[u8], first_line: u32) -> Result<TokenList, TokenEnd>
    requires text { length text.now < 2 ^ 31 }
    requires line { first_line ≤ 2 ^ 30 }
    // The tokens that are answered are the text's.
    ensures ok { IfOk result (λ list. Lexes first_line text.now list) }
    // The text's tokens are answered, unless memory runs out.
    ensures only { (list : List Token) → Lexes first_line text.now list → AnswersTokens result list }
    // A refusal stands at the first place where no token does.
    ensures err { IfErr result (λ end. EndsAt first_line text.now end) }
    // The first bad place is answered, unless memory runs out.
    ensures bad_byte { (line token : ℕ) → StopsAt IsBadByte first_line text.now line token → EndsWith result (TokenEnd.BadByte line token) }
    ensures bad_word { (line token : ℕ) → StopsAt IsBadWord first_line text.now line token → EndsWith result (TokenEnd.BadWord line token) }
    ensures count { IfOk result (λ list. length list ≤ length text.now) }
{
    lexed(alloc, text, first_line)
}
