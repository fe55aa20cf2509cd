//! The cells of the arrays that functions have in RAM.

ghost use Rattle.std.specs.Prelude.{◌≡◌, ◌≤◌, ◌++◌, true, length, map, IfOk};
ghost use Rattle.std.specs.List.{AllByRecursion};
ghost use Rattle.state_space.specs.Kinds.{of_side};
ghost use Rattle.state_space.specs.Locations.{tuples};
ghost use Rattle.state_space.specs.Sizes.{IsRange, IsSized, fits, most, padded_count};
ghost use Rattle.state_layout.specs.Map.{cells};
ghost use Rattle.state_layout.specs.Tables.{cell_in};

use sqlite_items::Items;
use state_space::{Range, Side, Signature, count, padded_place};
use std::alloc::{AllocError, Global};

/// A place in the arrays of a function: each of its locations has one.
#[derive(Clone, Copy, Debug, PartialEq, Eq)]
pub struct Cell {
    /// The function's number.
    pub fun: usize,
    /// The number in the array, below the function's padded size.
    pub index: u32,
}

fn add_cells(cells: &mut Items<Cell>, fun: usize, ranges: &[Range]) -> Result<(), AllocError>
    requires few { length ranges.now ≤ 3 }
    requires domains { AllByRecursion IsRange ranges.now }
    requires small { padded_count ranges.now ≤ most }
    ensures { IfOk result (λ _. cells.new ≡ cells.old ++ map (cell_in fun ranges.now) (tuples ranges.now)) }
{
    for number in 0..count(ranges) {
        let index = padded_place(ranges, number) as u32;
        cells.push(Cell { fun, index })?;
    }
    Ok(())
}

/// The cells of the locations on a side, in order.
pub fn cells_of(
    alloc: Global,
    side: Side,
    signatures: &[Signature],
) -> Result<Items<Cell>, AllocError>
    requires sized { AllByRecursion IsSized signatures.now }
    requires room { fits signatures.now ≡ true }
    ensures { IfOk result (λ list. list ≡ cells (of_side side) signatures.now) }
{
    let mut cells = Items::new(alloc);
    for fun in 0..signatures.len() {
        let signature = &signatures[fun];
        if side.holds(signature.kind) {
            add_cells(&mut cells, fun, signature.args.as_slice())?;
        }
    }
    Ok(cells)
}
