//! What the words of lines with first values stand for.

ghost use Rattle.std.specs.Prelude.{◌≡◌, ◌<◌, ◌^◌, length, map, IfOk};
ghost use Rattle.std.specs.List.{AllByRecursion};
ghost use Rattle.asm_names.specs.WellFormed.{IsDomain};
ghost use Rattle.state_space.specs.Locations.{signatures_of, state_locations};
ghost use Rattle.fault_script.specs.Glossaries.{AreEnumerators, Explains};
ghost use Rattle.fault_script.specs.Listing.{Lists};
ghost use Rattle.fault_script.specs.StateText.{location_name};

use crate::location_writing::put_location;
use crate::positions::Positions;
use asm_names::{Domain, Resolved};
use asm_tree::Name;
use state_space::Space;
use std::alloc::{AllocError, Global};

/// What the words of lines with first values stand for: state locations by their texts, and the enumerators of each domain,
/// by the domain's number, by their names.
#[derive(Drop)]
pub(crate) struct Glossary {
    pub locations: Positions,
    pub enumerators: Vec<Positions>,
}

/// The positions of names, the last name first, so that of equal ones the first has the last word.
fn positions_of(alloc: Global, names: &[Name]) -> Result<Positions, AllocError>
    requires { length names.now < 2 ^ 32 }
    ensures { IfOk result (λ table. Lists table names.now) }
{
    let mut table = Positions::new(alloc);
    let mut left = names.len();
    'listing: while 0 < left {
        left -= 1;
        let name = Vec::from_slice(alloc, names[left].bytes())?;
        table.put(name, left as u32)?;
    }
    Ok(table)
}

/// The positions of the enumerators of each domain.
fn enumerators_of(alloc: Global, domains: &[Domain]) -> Result<Vec<Positions>, AllocError>
    requires { AllByRecursion IsDomain domains.now }
    ensures { IfOk result (λ tables. AreEnumerators tables.items domains.now) }
{
    let mut tables = Vec::new(alloc);
    for domain in domains {
        tables.push(positions_of(alloc, domain.items.as_slice())?)?;
    }
    Ok(tables)
}

/// The positions of the texts of state locations, the last location first.
fn locations_of(alloc: Global, resolved: &Resolved, space: &Space) -> Result<Positions, AllocError>
    requires { space.now ≡ signatures_of resolved.now }
    ensures { IfOk result (λ table. Lists table (map (location_name resolved.now) (state_locations (signatures_of resolved.now)))) }
{
    let mut table = Positions::new(alloc);
    let mut left = space.count();
    'listing: while 0 < left {
        left -= 1;
        let mut name = Vec::new(alloc);
        put_location(resolved, space, left, &mut name)?;
        table.put(name, left)?;
    }
    Ok(table)
}

impl Glossary {
    /// The glossary of a program. Takes time as long as the texts of its locations and enumerators.
    pub(crate) fn of(
        alloc: Global,
        resolved: &Resolved,
        space: &Space,
    ) -> Result<Glossary, AllocError>
        requires { space.now ≡ signatures_of resolved.now }
        ensures { IfOk result (λ glossary. Explains resolved.now glossary) }
    {
        resolved.comes_from_faultless();
        Ok(Glossary {
            locations: locations_of(alloc, resolved, space)?,
            enumerators: enumerators_of(alloc, resolved.domains.as_slice())?,
        })
    }
}
