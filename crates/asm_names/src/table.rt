//! The names that are declared or in scope.

ghost use Rattle.std.specs.Prelude.{◌≡◌, ◌-◌, ◌∷◌, ◌++◌, [], None, Some, OnOk, OnErr, length, take};
ghost use Rattle.asm_names.specs.Faults.{Finds};
ghost use Rattle.asm_names.specs.Meanings.{number_of, sort_of_domain};
ghost use Rattle.asm_names.specs.RuleFaults.{declared_faults, domain_faults};
ghost use Rattle.std.specs.Option.{option_copied, option_map};
ghost use Rattle.asm_names.specs.Meanings.{meaning_of};
ghost use Rattle.asm_names.specs.Table.{scope, known};

use crate::fault::{NameEnd, NameFault, PlacedFault};
use crate::sort::Sort;
use asm_tree::{Kind, Name};
use indexmap::IndexMap;
use sqlite_items::Items;
use std::alloc::Global;

/// What a name is declared as, or bound as.
#[derive(Drop)]
pub enum Entry {
    /// The domain with this number, its count of values, and their sort.
    Domain {
        number: u32,
        size: u32,
        sort: Sort,
    },
    /// An enumerator of the list domain with this number, by its index there.
    Enumerator {
        domain: u32,
        index: u32,
    },
    /// The function with this number, the sorts of its arguments, and that of its values.
    Function {
        number: u32,
        kind: Kind,
        args: Items<Sort>,
        values: Sort,
    },
    /// The binder with this number, and its sort where the term or domain has one.
    Binder {
        number: u32,
        sort: Option<Sort>,
    },
}

/// The names that are declared or in scope, in the order of the text.
#[derive(Drop)]
pub struct Table {
    entries: IndexMap<Vec<u8>, Entry>,
}

impl Table {
    /// No names. Takes no memory.
    pub fn new(alloc: Global) -> Table
        ensures { scope result ≡ [] }
    {
        Table {
            entries: IndexMap::new(alloc),
        }
    }

    /// What the name stands for, where it is known.
    pub fn find(&self, name: &Name) -> Option<&Entry>
        ensures { option_map known (option_copied result) ≡ meaning_of (scope self.now) name.now }
    {
        self.entries.get(name.bytes())
    }

    /// The fault of a name that is declared or bound at this token, and is already known.
    #[tactic(auto, unfolding(crate::specs::Faults::first_end))]
    pub fn check_new(&self, name: &Name, token: u32) -> Result<(), PlacedFault>
        ensures { Finds (declared_faults (scope self.now) name.now token) result (λ _. meaning_of (scope self.now) name.now ≡ None) }
    {
        if self.find(name).is_some() {
            return Err(PlacedFault::at(token, NameFault::Repeated));
        }
        Ok(())
    }

    /// The number and the sort of the domain with this name.
    #[tactic(auto, unfolding(crate::specs::Faults::first_end))]
    pub fn find_domain(&self, name: &Name, token: u32) -> Result<(u32, Sort), PlacedFault>
        ensures { Finds (domain_faults (scope self.now) name.now token) result
            (λ domain. (domain.0 ≡ number_of (meaning_of (scope self.now) name.now))
            × (sort_of_domain (meaning_of (scope self.now) name.now) ≡ Some domain.1)) }
    {
        match self.find(name) {
            Some(Entry::Domain { number, sort, .. }) => Ok((*number, *sort)),
            _ => Err(PlacedFault::at(token, NameFault::Unknown)),
        }
    }

    /// Puts a name that isn't known behind the others. Where there is no memory for it, the names are as before.
    pub fn add(&mut self, alloc: Global, name: &Name, entry: Entry) -> Result<(), NameEnd>
        requires { meaning_of (scope self.old) name.now ≡ None }
        ensures added { OnOk result (scope self.new ≡ scope self.old ++ (name.now, known entry) ∷ []) }
        ensures memory { OnErr result (result ≡ Err NameEnd.NoMemory) }
        ensures refused { OnErr result (scope self.new ≡ scope self.old) }
    {
        let key = Vec::from_slice(alloc, name.bytes())?;
        self.entries.insert(key, entry)?;
        Ok(())
    }

    /// Takes the last name out.
    pub fn pop(&mut self)
        ensures { scope self.new ≡ take (length (scope self.old) - 1) (scope self.old) }
    {
        let _ = self.entries.pop();
    }
}
