//! Where texts stand in a list.

ghost use Rattle.std.specs.Prelude.{◌≡◌, ℕ, List, None, Some, OnOk, bytes_eq, if◌then◌else◌};
ghost use Rattle.fault_script.specs.Listing.{position_in};

use indexmap::IndexMap;
use std::alloc::{AllocError, Global};

/// Texts with their positions in a list.
#[derive(Drop)]
pub(crate) struct Positions {
    positions: IndexMap<Vec<u8>, u32>,
}

impl Positions {
    /// No texts. Takes no memory.
    pub(crate) fn new(alloc: Global) -> Positions
        ensures { (text : List ℕ) → position_in result text ≡ None }
    {
        Positions {
            positions: IndexMap::new(alloc),
        }
    }

    /// The position of a text. Takes no memory.
    pub(crate) fn find(&self, text: &[u8]) -> Option<u32>
        ensures { result ≡ position_in self.now text.now }
    {
        self.positions.get(text).copied()
    }

    /// Gives a text a position, in place of the one that it has.
    pub(crate) fn put(&mut self, text: Vec<u8>, position: u32) -> Result<(), AllocError>
        ensures { OnOk result ((other : List ℕ) → position_in self.new other ≡ (if bytes_eq other text.items then Some position else position_in self.old other)) }
    {
        self.positions.insert(text, position)?;
        Ok(())
    }
}
