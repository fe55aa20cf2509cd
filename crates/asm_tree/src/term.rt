//! Terms: what a machine reads of its state.

ghost use Rattle.std.specs.Prelude.{◌≡◌, IfOk};
ghost use Rattle.asm_tree.specs.Forms.{term_within, terms_within};

use crate::name::Name;
use sqlite_items::{Boxed, Items};
use std::alloc::{AllocError, Global};

/// The greatest number that a text has.
pub const MAX_NUMBER: u32 = 2147483647;

/// The operators between two terms. `Add` and `Sub` give a number, and the others a truth value.
#[derive(Clone, Copy, Debug, PartialEq, Eq)]
pub enum Op {
    Add,
    Sub,
    Eq,
    Ne,
    Lt,
    Le,
    Gt,
    Ge,
    And,
    Or,
}

/// A list of terms.
pub type Terms = Items<Term>;

/// A term, after the Lipari guide (Gurevich 1995). A number and a name alone have depth 1, and every
/// other term 1 more than the deepest of its parts.
#[derive(Drop)]
pub enum Term {
    /// A number. One that has a text is at most 2147483647.
    Number(u32),
    /// A function at its arguments. An enumerator or a binder is a name without arguments.
    Apply {
        name: Name,
        args: Items<Term>,
    },
    /// Two terms and the operator between them.
    Binary {
        op: Op,
        left: Boxed<Term>,
        right: Boxed<Term>,
    },
    /// The other truth value.
    Not(Boxed<Term>),
    /// The lesser of two numbers.
    Min(Boxed<Term>, Boxed<Term>),
    /// The greater of two numbers.
    Max(Boxed<Term>, Boxed<Term>),
    /// The second term where the first holds, and else the third.
    Cond(Boxed<Term>, Boxed<Term>, Boxed<Term>),
}

// An equal term in a box of its own.
#[cycle(copy)]
pub(crate) fn boxed_copy(alloc: Global, term: &Boxed<Term>) -> Result<Boxed<Term>, AllocError>
    ensures { IfOk result (λ copy. copy ≡ term.now) }
{
    Boxed::new(alloc, term.get().copy(alloc)?)
}

impl Term {
    /// An equal term, in memory of its own.
    #[cycle(copy)]
    pub fn copy(&self, alloc: Global) -> Result<Term, AllocError>
        ensures { IfOk result (λ copy. copy ≡ self.now) }
    {
        match self {
            Term::Number(value) => Ok(Term::Number(*value)),
            Term::Apply { name, args } => Ok(Term::Apply {
                name: name.copy(alloc)?,
                args: copy_all(alloc, args.as_slice())?,
            }),
            Term::Binary { op, left, right } => Ok(Term::Binary {
                op: *op,
                left: boxed_copy(alloc, left)?,
                right: boxed_copy(alloc, right)?,
            }),
            Term::Not(inner) => Ok(Term::Not(boxed_copy(alloc, inner)?)),
            Term::Min(first, second) => Ok(Term::Min(
                boxed_copy(alloc, first)?,
                boxed_copy(alloc, second)?,
            )),
            Term::Max(first, second) => Ok(Term::Max(
                boxed_copy(alloc, first)?,
                boxed_copy(alloc, second)?,
            )),
            Term::Cond(guard, first, second) => Ok(Term::Cond(
                boxed_copy(alloc, guard)?,
                boxed_copy(alloc, first)?,
                boxed_copy(alloc, second)?,
            )),
        }
    }
}

// Equal terms.
#[cycle(copy)]
pub(crate) fn copy_all(alloc: Global, terms: &[Term]) -> Result<Terms, AllocError>
    ensures { IfOk result (λ copies. copies ≡ terms.now) }
{
    let mut copies = Items::new(alloc);
    for term in terms {
        copies.push(term.copy(alloc)?)?;
    }
    Ok(copies)
}

impl Term {
    /// Whether the term is no deeper than `depth`, and each number in it is at most 2147483647. It
    /// recurses no deeper than `depth`, and takes no memory.
    #[cycle(within)]
    #[tactic(auto, using(crate::proofs::Within::levels))]
    pub fn is_within(&self, depth: usize) -> bool
        ensures { result ≡ term_within depth self.now }
    {
        if depth == 0 {
            return false;
        }
        let inner = depth - 1;
        match self {
            Term::Number(value) => *value <= MAX_NUMBER,
            Term::Apply { args, .. } => are_within(args.as_slice(), inner),
            Term::Binary { left, right, .. } => {
                left.get().is_within(inner) && right.get().is_within(inner)
            }
            Term::Not(inside) => inside.get().is_within(inner),
            Term::Min(first, second) | Term::Max(first, second) => {
                first.get().is_within(inner) && second.get().is_within(inner)
            }
            Term::Cond(guard, first, second) => {
                guard.get().is_within(inner)
                    && first.get().is_within(inner)
                    && second.get().is_within(inner)
            }
        }
    }
}

// Whether each term has a text within this depth.
#[cycle(within)]
pub(crate) fn are_within(terms: &[Term], depth: usize) -> bool
    ensures { result ≡ terms_within depth terms.now }
{
    for term in terms {
        if !term.is_within(depth) {
            return false;
        }
    }
    true
}
