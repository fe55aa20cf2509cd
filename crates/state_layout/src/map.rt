//! The map of RAM.

ghost use Rattle.std.specs.Prelude.{◌≡◌, ◌≤◌, ◌<◌, ◌%◌, ◌^◌, Some, length, slice_get, IfOk};
ghost use Rattle.state_space.specs.Locations.{input_locations, is_input, is_state, is_static, state_locations};
ghost use Rattle.state_space.specs.Sizes.{IsRange};
ghost use Rattle.state_layout.specs.Map as spec;
ghost use Rattle.state_layout.specs.Map.{IsCell};
ghost use Rattle.state_layout.specs.MapLaw.{IsPlaced};
ghost use Rattle.state_layout.specs.Tables.{AreLow, ends_at};

use crate::cell::{Cell, cells_of};
use crate::ends::{Ends, ends_of, place_in, raised};
use crate::entry::Entry;
use crate::layout::Layout;
use sqlite_items::Items;
use state_space::{Range, Side, Space};
use std::alloc::{AllocError, Global};
use std::marker::Model;
use trap_model::Width;

/// Where RAM holds the state of a program, and the words that its code keeps for itself. Contracts see the functions with
/// their domains, and the layout.
#[derive(Drop)]
pub struct Map {
    space: Space,
    layout: Layout,
    // where the arrays end that are before those of each function, and where all end
    ends: Items<Ends>,
    // the cell of each state location
    states: Items<Cell>,
    // the cell of each input location
    inputs: Items<Cell>,
}

impl Model for Map {
    ghost use Rattle.state_layout.specs.Map.{Placement};

    ghost Value = { Placement };

    ghost view = { λ map. record { layout = map.layout; signatures = map.space } };

    ghost use Rattle.state_layout.specs.Tables.{IsLaidOut};

    ghost invariant = { λ map. IsLaidOut (record { layout = map.layout; signatures = map.space }) map.ends map.states map.inputs };
}

/// The map of a program's locations.
pub fn lay_out(alloc: Global, space: &Space, layout: Layout) -> Result<Map, AllocError>
    ensures { IfOk result (λ map. map ≡ record { layout = layout; signatures = space.now }) }
{
    let signatures = space.signatures();
    let ends = ends_of(alloc, layout, signatures)?;
    let states = cells_of(alloc, Side::State, signatures)?;
    let inputs = cells_of(alloc, Side::Input, signatures)?;
    Ok(Map {
        space: space.copy(alloc)?,
        layout,
        ends,
        states,
        inputs,
    })
}

impl Map {
    /// A space equal to the one that was laid out.
    pub fn space(&self) -> &Space
        ensures { result.now ≡ self.now.signatures }
    {
        &self.space
    }

    /// The layout.
    pub fn layout(&self) -> Layout
        ensures { result ≡ self.now.layout }
    {
        self.layout
    }

    /// The functions and their arrays are small. The function does nothing; its contract is the law.
    pub fn is_placed(&self)
        ensures { IsPlaced self.now }
    {
        self.space.signatures();
    }

    fn ends_at(&self, fun: usize) -> Ends
        requires { fun ≤ length self.now.signatures }
        ensures ends { result ≡ ends_at self.now fun }
        ensures low { AreLow result }
    {
        self.ends.as_slice()[fun]
    }

    fn all_ends(&self) -> Ends
        ensures ends { result ≡ ends_at self.now (length self.now.signatures) }
        ensures low { AreLow result }
    {
        self.ends_at(self.space.funs())
    }

    /// The domain of a function's values.
    pub fn range_at(&self, fun: usize) -> Range
        requires { fun < length self.now.signatures }
        ensures range { result ≡ spec.range_at self.now fun }
        ensures sized { IsRange result }
    {
        self.space.signatures()[fun].codomain
    }

    /// The access of a function's values.
    pub fn access_at(&self, fun: usize) -> Width
        requires { fun < length self.now.signatures }
        ensures { result ≡ spec.access_at self.now fun }
    {
        self.layout.value_access(self.range_at(fun))
    }

    /// Where the values of a function begin.
    pub fn array_start(&self, fun: usize) -> u32
        requires { fun < length self.now.signatures }
        ensures start { result ≡ spec.array_start self.now fun }
        ensures low { result < 2 ^ 23 }
    {
        raised(self.access_at(fun), self.ends_at(fun).values)
    }

    fn state_end(&self) -> u32
        ensures end { result ≡ spec.state_end self.now }
        ensures low { result < 2 ^ 23 }
    {
        raised(Width::Word, self.all_ends().values)
    }

    fn flags_end(&self) -> u32
        ensures end { result ≡ spec.flags_end self.now }
        ensures low { result < 2 ^ 25 }
    {
        let flags = self.layout.flag_access().bytes() * self.all_ends().flags;
        2 * self.state_end() + raised(Width::Word, flags)
    }

    fn kept_end(&self) -> u32
        ensures end { result ≡ spec.kept_end self.now }
        ensures low { result < 2 ^ 26 }
    {
        self.flags_end() + 4 * self.all_ends().kept
    }

    /// Where the staged values of a function begin.
    pub fn staged_start(&self, fun: usize) -> u32
        requires { fun < length self.now.signatures }
        ensures start { result ≡ spec.staged_start self.now fun }
        ensures low { result < 2 ^ 24 }
    {
        self.state_end() + self.array_start(fun)
    }

    /// Where the flags of a function begin.
    pub fn flags_start(&self, fun: usize) -> u32
        requires { fun < length self.now.signatures }
        ensures start { result ≡ spec.flags_start self.now fun }
        ensures low { result < 2 ^ 25 }
    {
        2 * self.state_end() + self.layout.flag_access().bytes() * self.ends_at(fun).flags
    }

    /// Where the kept words of a function begin.
    pub fn kept_start(&self, fun: usize) -> u32
        requires { fun < length self.now.signatures }
        ensures start { result ≡ spec.kept_start self.now fun }
        ensures low { result < 2 ^ 26 }
    {
        self.flags_end() + 4 * self.ends_at(fun).kept
    }

    /// How many words of ROM the tables of the functions before one have, modulo 2^32.
    pub fn tables_before(&self, fun: usize) -> u32
        requires { fun < length self.now.signatures }
        ensures { result ≡ spec.padded_before is_static self.now fun % 2 ^ 32 }
    {
        self.ends_at(fun).tables
    }

    /// The word that marks that a location was given two values.
    pub fn clash(&self) -> u32
        ensures { result ≡ spec.clash self.now }
    {
        self.kept_end()
    }

    /// The word in which the code's own loops count.
    pub fn counter(&self) -> u32
        ensures { result ≡ spec.counter self.now }
    {
        self.kept_end() + 4
    }

    /// The word of a binder.
    pub fn slot(&self, binder: u32) -> u32
        requires { binder < 2 ^ 28 }
        ensures { result ≡ spec.slot self.now binder }
    {
        self.kept_end() + 8 + 4 * binder
    }

    /// The cell of a state location.
    pub fn cell(&self, place: u32) -> Cell
        requires { place < length (state_locations self.now.signatures) }
        ensures cell { slice_get (spec.state_cells self.now) place ≡ Some result }
        ensures held { IsCell is_state self.now.signatures result }
    {
        self.states.as_slice()[place as usize]
    }

    /// The cell of an input location.
    pub fn input_cell(&self, input: u32) -> Cell
        requires { input < length (input_locations self.now.signatures) }
        ensures cell { slice_get (spec.input_cells self.now) input ≡ Some result }
        ensures held { IsCell is_input self.now.signatures result }
    {
        self.inputs.as_slice()[input as usize]
    }

    /// Where the value at a cell stands.
    pub fn value_offset(&self, cell: Cell) -> u32
        requires { IsCell is_state self.now.signatures cell }
        ensures { result ≡ spec.value_offset self.now cell }
    {
        self.is_placed();
        place_in(
            self.access_at(cell.fun),
            self.array_start(cell.fun),
            cell.index,
        )
    }

    /// Where the staged value at a cell stands.
    pub fn staged_offset(&self, cell: Cell) -> u32
        requires { IsCell is_state self.now.signatures cell }
        ensures { result ≡ spec.staged_offset self.now cell }
    {
        self.is_placed();
        place_in(
            self.access_at(cell.fun),
            self.staged_start(cell.fun),
            cell.index,
        )
    }

    /// Where the flag at a cell stands.
    pub fn flag_offset(&self, cell: Cell) -> u32
        requires { IsCell is_state self.now.signatures cell }
        ensures { result ≡ spec.flag_offset self.now cell }
    {
        self.is_placed();
        place_in(
            self.layout.flag_access(),
            self.flags_start(cell.fun),
            cell.index,
        )
    }

    /// Where the kept word at a cell of an input stands.
    pub fn kept_offset(&self, cell: Cell) -> u32
        requires { IsCell is_input self.now.signatures cell }
        ensures { result ≡ spec.kept_offset self.now cell }
    {
        self.is_placed();
        place_in(Width::Word, self.kept_start(cell.fun), cell.index)
    }

    /// Where RAM holds a state location.
    pub fn entry(&self, place: u32) -> Entry
        requires { place < length (state_locations self.now.signatures) }
        ensures { slice_get (spec.entries self.now) place ≡ Some result }
    {
        let cell = self.cell(place);
        let range = self.range_at(cell.fun);
        Entry {
            offset: self.value_offset(cell),
            width: self.access_at(cell.fun).bytes(),
            size: range.size,
            lo: range.lo,
        }
    }

    /// Where the staged value of a state location stands.
    pub fn staged(&self, place: u32) -> u32
        requires { place < length (state_locations self.now.signatures) }
        ensures { slice_get (spec.staged_offsets self.now) place ≡ Some result }
    {
        self.staged_offset(self.cell(place))
    }

    /// Where the flag of a state location stands.
    pub fn flag(&self, place: u32) -> u32
        requires { place < length (state_locations self.now.signatures) }
        ensures { slice_get (spec.flag_offsets self.now) place ≡ Some result }
    {
        self.flag_offset(self.cell(place))
    }

    /// Where the kept word of an input location stands.
    pub fn kept(&self, input: u32) -> u32
        requires { input < length (input_locations self.now.signatures) }
        ensures { slice_get (spec.kept_offsets self.now) input ≡ Some result }
    {
        self.kept_offset(self.input_cell(input))
    }
}
