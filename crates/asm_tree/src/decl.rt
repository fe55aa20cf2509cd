//! Declarations of domains and functions.

ghost use Rattle.std.specs.Prelude.{◌≡◌, IfOk};
ghost use Rattle.asm_tree.specs.Programs.{bound_fits, const_fits, consts_fit, decl_fits};

use crate::name::Name;
use sqlite_items::Items;
use std::alloc::{AllocError, Global};

// The greatest bound and constant, and the distance of the least from 0.
const MAX_BOUND: u64 = 2147483647;

/// Who may change a function: the roles of functions in the Lipari guide (Gurevich 1995).
#[derive(Clone, Copy, Debug, PartialEq, Eq)]
pub enum Kind {
    /// Changed by the machine's own updates alone.
    Controlled,
    /// Read by the machine, and given by its surroundings at each step.
    Input,
    /// Updated by the machine, for its surroundings.
    Output,
    /// Never changed: its table of values stands in the text.
    Static,
}

/// A constant of a static function's table.
#[derive(Drop)]
pub enum Const {
    /// A number. One that has a text is from -2147483647 to 2147483647.
    Number(i64),
    /// An enumerator of a list domain, by its name.
    Named(Name),
}

/// A list of names.
pub type Names = Items<Name>;
/// A list of constants.
pub type Consts = Items<Const>;
/// A list of declarations, in the order of the text.
pub type Decls = Items<Decl>;

/// A declaration of a domain or of a function.
#[derive(Drop)]
pub enum Decl {
    /// A domain of the whole numbers from `lo` to `hi`.
    Range {
        name: Name,
        lo: i64,
        hi: i64,
    },
    /// A domain of enumerators, of which there is at least one where it has a text.
    Names {
        name: Name,
        items: Names,
    },
    /// A function from the domains `args` to the domain `codomain`. Where it has a text the table
    /// is empty unless the kind is `Static`, and then it isn't.
    Fun {
        kind: Kind,
        name: Name,
        args: Names,
        codomain: Name,
        table: Consts,
    },
}

// Equal names.
fn copy_names(alloc: Global, names: &[Name]) -> Result<Names, AllocError>
    ensures { IfOk result (λ copies. copies ≡ names.now) }
{
    let mut copies = Items::new(alloc);
    for name in names {
        copies.push(name.copy(alloc)?)?;
    }
    Ok(copies)
}

impl Const {
    /// An equal constant, in memory of its own.
    pub fn copy(&self, alloc: Global) -> Result<Const, AllocError>
        ensures { IfOk result (λ copy. copy ≡ self.now) }
    {
        match self {
            Const::Number(value) => Ok(Const::Number(*value)),
            Const::Named(name) => Ok(Const::Named(name.copy(alloc)?)),
        }
    }

    // Whether the constant has a text.
    fn fits(&self) -> bool
        ensures { result ≡ const_fits self.now }
    {
        match self {
            Const::Number(value) => bound_fits(*value),
            Const::Named(_) => true,
        }
    }
}

// Equal constants.
fn copy_consts(alloc: Global, consts: &[Const]) -> Result<Consts, AllocError>
    ensures { IfOk result (λ copies. copies ≡ consts.now) }
{
    let mut copies = Items::new(alloc);
    for constant in consts {
        copies.push(constant.copy(alloc)?)?;
    }
    Ok(copies)
}

// Whether a bound or a constant has a text.
fn bound_fits(value: i64) -> bool
    ensures { result ≡ bound_fits value }
{
    value.unsigned_abs() <= MAX_BOUND
}

// Whether each constant has a text.
fn consts_fit(consts: &[Const]) -> bool
    ensures { result ≡ consts_fit consts.now }
{
    for constant in consts {
        if !constant.fits() {
            return false;
        }
    }
    true
}

impl Decl {
    /// An equal declaration, in memory of its own.
    pub fn copy(&self, alloc: Global) -> Result<Decl, AllocError>
        ensures { IfOk result (λ copy. copy ≡ self.now) }
    {
        match self {
            Decl::Range { name, lo, hi } => Ok(Decl::Range {
                name: name.copy(alloc)?,
                lo: *lo,
                hi: *hi,
            }),
            Decl::Names { name, items } => Ok(Decl::Names {
                name: name.copy(alloc)?,
                items: copy_names(alloc, items.as_slice())?,
            }),
            Decl::Fun {
                kind,
                name,
                args,
                codomain,
                table,
            } => Ok(Decl::Fun {
                kind: *kind,
                name: name.copy(alloc)?,
                args: copy_names(alloc, args.as_slice())?,
                codomain: codomain.copy(alloc)?,
                table: copy_consts(alloc, table.as_slice())?,
            }),
        }
    }

    // Whether the declaration has a text.
    pub(crate) fn fits(&self) -> bool
        ensures { result ≡ decl_fits self.now }
    {
        match self {
            Decl::Range { lo, hi, .. } => bound_fits(*lo) && bound_fits(*hi),
            Decl::Names { items, .. } => items.len() != 0,
            Decl::Fun {
                kind: Kind::Static,
                table,
                ..
            } => table.len() != 0 && consts_fit(table.as_slice()),
            Decl::Fun { table, .. } => table.len() == 0,
        }
    }
}
