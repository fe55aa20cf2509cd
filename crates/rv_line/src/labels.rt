//! The labels of a text.

ghost use Rattle.std.specs.Prelude.{◌≡◌, ◌++◌, ◌∷◌, [], ℕ, List, Some, None, OnOk, OnErr, bytes_eq};
ghost use Rattle.std.specs.Map.{lookup};
ghost use Rattle.rv_line.specs.Words.{displacement};

use indexmap::IndexMap;
use std::alloc::{AllocError, Global};
use std::marker::Model;

/// The labels of a text, each with the number of the word that stands behind it, counted from 0. Contracts see the
/// pairs in the order in which they were put in.
#[derive(Drop)]
pub struct Labels {
    words: IndexMap<Vec<u8>, u32>,
}

impl Model for Labels {
    ghost use Rattle.std.specs.Prelude.{List, ℕ, map};

    ghost Value = { List (List ℕ × ℕ) };

    ghost view = { λ labels. map (λ entry. (entry.0.items, entry.1)) labels.words.entries };
}

impl Labels {
    /// No labels. Takes no memory.
    pub fn new(alloc: Global) -> Labels
        ensures { result ≡ [] }
    {
        Labels {
            words: IndexMap::new(alloc),
        }
    }

    /// The number of the word behind a label, none where the label isn't there. Takes no memory.
    pub fn word(&self, label: &[u8]) -> Option<u32>
        ensures { result ≡ lookup (bytes_eq label.now) self.now }
    {
        self.words.get(label).copied()
    }

    /// Puts in a label that isn't there.
    ///
    /// # Errors
    ///
    /// `AllocError` where there is no memory for the label; the labels are then as before.
    pub fn add(&mut self, alloc: Global, label: &[u8], word: u32) -> Result<(), AllocError>
        requires { lookup (bytes_eq label.now) self.old ≡ None }
        ensures ok { OnOk result (self.new ≡ self.old ++ (label.now, word) ∷ []) }
        ensures err { OnErr result (self.new ≡ self.old) }
    {
        let key = Vec::from_slice(alloc, label)?;
        self.words.insert(key, word)?;
        Ok(())
    }

    /// The displacement of a label in bytes from the instruction that is the word with the number `here`, or 0 where no
    /// number is given. None where the label isn't there. Takes no memory.
    pub(crate) fn displacement(&self, here: Option<u32>, label: &[u8]) -> Option<i64>
        ensures { result ≡ displacement self.now here label.now }
    {
        let Some(here) = here else {
            return Some(0);
        };
        match self.word(label) {
            None => None,
            Some(there) => Some(4 * i64::from(there) - 4 * i64::from(here)),
        }
    }
}
