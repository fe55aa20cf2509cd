//! Rules whose names are replaced by numbers.

use crate::resolved_term::ResolvedTerm;
use sqlite_items::{Boxed, Items};

/// A list of rules.
pub type ResolvedRules = Items<ResolvedRule>;

/// A rule. Functions, domains and binders are named by their numbers. An absent `else` is `Skip`, and an absent guard is
/// the term `(0 = 0)`; `has_else` and `guarded` say whether the text has one, so that a rule has as many tokens as its text.
#[derive(Drop)]
pub enum ResolvedRule {
    /// Changes nothing.
    Skip,
    /// Sets the function at the arguments to the value.
    Update {
        fun: u32,
        args: Items<ResolvedTerm>,
        value: Boxed<ResolvedTerm>,
    },
    /// The one rule where the guard holds, and else the other.
    If {
        guard: Boxed<ResolvedTerm>,
        then_rule: Boxed<ResolvedRule>,
        else_rule: Boxed<ResolvedRule>,
        has_else: bool,
    },
    /// All its parts at once.
    Par(Items<ResolvedRule>),
    /// The body at once for each element of the domain at which the guard holds.
    Forall {
        binder: u32,
        domain: u32,
        guard: Boxed<ResolvedTerm>,
        guarded: bool,
        body: Boxed<ResolvedRule>,
    },
    /// The body for one element of the domain at which the guard holds, and `else_rule` where there is none.
    Choose {
        binder: u32,
        domain: u32,
        guard: Boxed<ResolvedTerm>,
        body: Boxed<ResolvedRule>,
        else_rule: Boxed<ResolvedRule>,
        has_else: bool,
    },
    /// The body, in which the binder is the value that the term has before the step.
    Let {
        binder: u32,
        value: Boxed<ResolvedTerm>,
        body: Boxed<ResolvedRule>,
    },
}
