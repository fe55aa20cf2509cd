//! Terms whose names are replaced by numbers.

use asm_tree::Op;
use sqlite_items::{Boxed, Items};

/// A list of terms.
pub type ResolvedTerms = Items<ResolvedTerm>;

/// A term. Functions and binders are named by their numbers.
#[derive(Drop)]
pub enum ResolvedTerm {
    /// A number, or an enumerator as its index in its domain.
    Number(i64),
    /// The value of the binder with this number.
    Var(u32),
    /// The value of the function with this number at the arguments.
    Read {
        fun: u32,
        args: Items<ResolvedTerm>,
    },
    /// Two terms and the operator between them.
    Binary {
        op: Op,
        left: Boxed<ResolvedTerm>,
        right: Boxed<ResolvedTerm>,
    },
    /// The other truth value.
    Not(Boxed<ResolvedTerm>),
    /// The lesser of two numbers.
    Min(Boxed<ResolvedTerm>, Boxed<ResolvedTerm>),
    /// The greater of two numbers.
    Max(Boxed<ResolvedTerm>, Boxed<ResolvedTerm>),
    /// The second term where the first holds, and else the third.
    Cond(Boxed<ResolvedTerm>, Boxed<ResolvedTerm>, Boxed<ResolvedTerm>),
}
