//! Names of domains, enumerators, functions, binders and machines.

ghost use Rattle.std.specs.Prelude.{◌≡◌, ◌↔◌, IfOk, IsTrue, MatchOption};
ghost use Rattle.asm_tree.specs.Names.{IsName, all_word, begins_letter, is_key, is_name, is_word};

use crate::key::key_of;
use std::alloc::{AllocError, Global};
use std::marker::Model;

// The greatest number of bytes of a name.
const MAX_BYTES: usize = 32;

/// A name: a letter, then letters, digits and `_`, at most 32 bytes in all, and no keyword. Letters
/// are those of ASCII. Contracts see a name as the list of its bytes.
#[derive(Debug, Drop)]
pub struct Name {
    text: Vec<u8>,
}

impl Model for Name {
    ghost use Rattle.std.specs.Prelude.{List, ℕ};
    ghost use Rattle.asm_tree.specs.Names.{IsName};

    ghost Value = { List ℕ };

    ghost view = { λ name. name.text.items };

    ghost invariant = { λ name. IsName name.text.items };
}

/// Whether a byte is an ASCII letter, an ASCII digit or `_`.
pub fn is_word(byte: u8) -> bool
    ensures { result ≡ is_word byte }
{
    byte.is_ascii_alphabetic() || byte.is_ascii_digit() || byte == b'_'
}

// Whether each byte is a letter, a digit or `_`.
fn are_word(bytes: &[u8]) -> bool
    ensures { result ≡ all_word bytes.now }
{
    for byte in bytes {
        if !is_word(*byte) {
            return false;
        }
    }
    true
}

// Whether the first byte is a letter.
fn begins_letter(bytes: &[u8]) -> bool
    ensures { result ≡ begins_letter bytes.now }
{
    match bytes {
        [first, ..] => first.is_ascii_alphabetic(),
        [] => false,
    }
}

// Whether a text is the spelling of a keyword.
fn is_key(text: &[u8]) -> bool
    ensures { result ≡ is_key text.now }
{
    key_of(text).is_some()
}

/// Whether a text is a name: one that `Name::of` takes. Takes no memory.
pub fn is_name(text: &[u8]) -> bool
    ensures value { result ≡ is_name text.now }
    ensures name { IsTrue result ↔ IsName text.now }
{
    begins_letter(text) && text.len() <= MAX_BYTES && are_word(text) && !is_key(text)
}

impl Name {
    /// The name of this text, or `None` exactly where the text is no name. `AllocError` where there is
    /// no memory for its bytes.
    pub fn of(alloc: Global, text: &[u8]) -> Result<Option<Name>, AllocError>
        ensures { IfOk result (λ found. MatchOption found (IsName text.now → ⊥) (λ name. (name ≡ text.now) × IsName text.now)) }
    {
        if !is_name(text) {
            return Ok(None);
        }
        let text = Vec::from_slice(alloc, text)?;
        Ok(Some(Name { text }))
    }

    /// The name's text: 1 to 32 bytes. Takes no memory.
    pub fn bytes(&self) -> &[u8]
        ensures text { result.now ≡ self.now }
        ensures name { IsName self.now }
    {
        self.text.as_slice()
    }

    /// An equal name, in memory of its own.
    pub fn copy(&self, alloc: Global) -> Result<Name, AllocError>
        ensures { IfOk result (λ copy. copy ≡ self.now) }
    {
        Ok(Name {
            text: Vec::from_slice(alloc, self.text.as_slice())?,
        })
    }
}
