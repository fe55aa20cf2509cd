//! Lists of words.

ghost use Rattle.std.specs.Prelude.{◌≡◌, List, ℕ, [], ◌∷◌, ◌++◌, OnOk, OnErr};

use std::alloc::{AllocError, Global};
use std::marker::Model;

/// A list of words of 32 bits that grows at its end. Contracts see it as the list of its words.
#[derive(Drop)]
pub struct Words {
    items: Vec<u32>,
}

impl Model for Words {
    ghost Value = { List ℕ };

    ghost view = { λ w. w.items.items };
}

impl Words {
    /// The list of no words, which grows in the memory of `alloc`. It takes none yet.
    pub fn new(alloc: Global) -> Words
        ensures { result ≡ [] }
    {
        Words {
            items: Vec::new(alloc),
        }
    }

    /// Puts a word at the end of the list.
    ///
    /// # Errors
    ///
    /// `AllocError` where there is no memory for the word; the list is then unchanged.
    pub fn push(&mut self, word: u32) -> Result<(), AllocError>
        ensures ok { OnOk result (self.new ≡ self.old ++ word ∷ []) }
        ensures err { OnErr result (self.new ≡ self.old) }
    {
        self.items.push(word)?;
        Ok(())
    }

    /// The words, first to last.
    pub fn list(&self) -> &[u32]
        ensures { result.now ≡ self.now }
    {
        &self.items
    }
}
