//! What the guards around a place say of the ranges of atoms: binders, and functions with their terms.

ghost use Rattle.std.specs.Prelude.{◌≡◌, ◌^◌, ◌≤◌, true, if◌then◌else◌};
ghost use Rattle.asm_names.specs.ResolvedPlaces.{resolved_term_tokens};
ghost use Rattle.asm_ranges.specs.Contexts.{IsCut, IsNear, IsReady, context_fits, facts_of, scope_of, signatures_in, small_numbers};
ghost use Rattle.asm_ranges.specs.Facts as spec;

use crate::context::Context;
use crate::finding::{compared, cut_to, mirrored, opposite};
use crate::plain::RangeChecker;
use crate::same::same;
use asm_names::{Interval, ResolvedTerm};
use asm_tree::Op;

impl RangeChecker<'_> {
    // An atom's interval, cut by a comparison whose left side it may be.
    fn cut_left<'a>(
        self,
        context: &'a Context<'a>,
        atom: &'a ResolvedTerm,
        op: Op,
        left: &'a ResolvedTerm,
        right: &'a ResolvedTerm,
        found: Interval,
    ) -> Interval
        requires ready { IsReady self.domains.now self.funs.now }
        requires fits { context_fits context.now ≡ true }
        requires small { small_numbers right.now ≡ true }
        requires room { resolved_term_tokens right.now ≤ 2 ^ 31 }
        requires near { IsNear found (2 ^ 31) }
        ensures { IsCut (spec.cut_left (signatures_in self.entry.domains.now self.entry.funs.now) (scope_of context.now) atom.now op left.now right.now found) found result }
    {
        if same(left, atom) {
            cut_to(found, compared(op, self.plain(context, right), found))
        } else {
            found
        }
    }

    // Both sides of a comparison, the left one first.
    fn cut_sides<'a>(
        self,
        context: &'a Context<'a>,
        atom: &'a ResolvedTerm,
        op: Op,
        left: &'a ResolvedTerm,
        right: &'a ResolvedTerm,
        found: Interval,
    ) -> Interval
        requires ready { IsReady self.domains.now self.funs.now }
        requires fits { context_fits context.now ≡ true }
        requires left { small_numbers left.now ≡ true }
        requires right { small_numbers right.now ≡ true }
        requires left_room { resolved_term_tokens left.now ≤ 2 ^ 31 }
        requires right_room { resolved_term_tokens right.now ≤ 2 ^ 31 }
        requires near { IsNear found (2 ^ 31) }
        ensures { IsCut (spec.cut_sides (signatures_in self.entry.domains.now self.entry.funs.now) (scope_of context.now) atom.now op left.now right.now found) found result }
    {
        let first = self.cut_left(context, atom, op, left, right, found);
        self.cut_left(context, atom, mirrored(op), right, left, first)
    }

    // A comparison that has this truth.
    fn cut_compared<'a>(
        self,
        context: &'a Context<'a>,
        atom: &'a ResolvedTerm,
        op: Op,
        left: &'a ResolvedTerm,
        right: &'a ResolvedTerm,
        truth: bool,
        found: Interval,
    ) -> Interval
        requires ready { IsReady self.domains.now self.funs.now }
        requires fits { context_fits context.now ≡ true }
        requires left { small_numbers left.now ≡ true }
        requires right { small_numbers right.now ≡ true }
        requires left_room { resolved_term_tokens left.now ≤ 2 ^ 31 }
        requires right_room { resolved_term_tokens right.now ≤ 2 ^ 31 }
        requires near { IsNear found (2 ^ 31) }
        ensures { IsCut (spec.cut_sides (signatures_in self.entry.domains.now self.entry.funs.now) (scope_of context.now) atom.now (if truth then op else spec.opposite op) left.now right.now found) found result }
    {
        if truth {
            self.cut_sides(context, atom, op, left, right, found)
        } else {
            self.cut_sides(context, atom, opposite(op), left, right, found)
        }
    }

    // Two guards in turn, each of which has this truth.
    #[cycle(cut)]
    fn cut_both<'a>(
        self,
        context: &'a Context<'a>,
        atom: &'a ResolvedTerm,
        left: &'a ResolvedTerm,
        right: &'a ResolvedTerm,
        truth: bool,
        found: Interval,
    ) -> Interval
        requires ready { IsReady self.domains.now self.funs.now }
        requires fits { context_fits context.now ≡ true }
        requires left { small_numbers left.now ≡ true }
        requires right { small_numbers right.now ≡ true }
        requires left_room { resolved_term_tokens left.now ≤ 2 ^ 31 }
        requires right_room { resolved_term_tokens right.now ≤ 2 ^ 31 }
        requires near { IsNear found (2 ^ 31) }
        ensures { IsCut (spec.cut (signatures_in self.entry.domains.now self.entry.funs.now) (scope_of context.now) atom.now right.now truth
            (spec.cut (signatures_in self.entry.domains.now self.entry.funs.now) (scope_of context.now) atom.now left.now truth found)) found result }
    {
        let first = self.cut(context, atom, left, truth, found);
        self.cut(context, atom, right, truth, first)
    }

    // An atom's interval, cut by a guard that has this truth.
    #[cycle(cut)]
    fn cut<'a>(
        self,
        context: &'a Context<'a>,
        atom: &'a ResolvedTerm,
        guard: &'a ResolvedTerm,
        truth: bool,
        found: Interval,
    ) -> Interval
        requires ready { IsReady self.domains.now self.funs.now }
        requires fits { context_fits context.now ≡ true }
        requires small { small_numbers guard.now ≡ true }
        requires room { resolved_term_tokens guard.now ≤ 2 ^ 31 }
        requires near { IsNear found (2 ^ 31) }
        ensures { IsCut (spec.cut (signatures_in self.entry.domains.now self.entry.funs.now) (scope_of context.now) atom.now guard.now truth found) found result }
    {
        match guard {
            ResolvedTerm::Binary { op, left, right } => match op {
                Op::And => if truth {
                    self.cut_both(context, atom, left.get(), right.get(), true, found)
                } else {
                    found
                },
                Op::Or => if truth {
                    found
                } else {
                    self.cut_both(context, atom, left.get(), right.get(), false, found)
                },
                _ => self.cut_compared(context, atom, *op, left.get(), right.get(), truth, found),
            },
            ResolvedTerm::Not(inner) => self.cut(context, atom, inner.get(), !truth, found),
            _ => found,
        }
    }

    /// An atom's interval, cut by all that `known` says, the outermost first. The plain ranges of other sides are those of
    /// the whole context.
    pub(crate) fn cuts<'a>(
        self,
        context: &'a Context<'a>,
        known: &'a Context<'a>,
        atom: &'a ResolvedTerm,
        found: Interval,
    ) -> Interval
        requires ready { IsReady self.domains.now self.funs.now }
        requires fits { context_fits context.now ≡ true }
        requires known { context_fits known.now ≡ true }
        requires near { IsNear found (2 ^ 31) }
        ensures { IsCut (spec.cut_by_facts (signatures_in self.entry.domains.now self.entry.funs.now) (scope_of context.now) atom.now (facts_of known.now) found) found result }
    {
        match known {
            Context::Outermost(row) => found,
            Context::Over(binder, interval, outer) => self.cuts(context, outer, atom, found),
            Context::Bounded(binder, plain, refined, outer) => self.cuts(
                context, outer, atom, found,
            ),
            Context::Held(guard, outer) => {
                let first = self.cuts(context, outer, atom, found);
                self.cut(context, atom, guard, true, first)
            }
            Context::Failed(guard, outer) => {
                let first = self.cuts(context, outer, atom, found);
                self.cut(context, atom, guard, false, first)
            }
        }
    }
}
