//! The plain ranges of terms.

ghost use Rattle.std.specs.Prelude.{◌≡◌, ◌^◌, ◌≤◌, true, slice_get};
ghost use Rattle.asm_names.specs.ResolvedPlaces.{resolved_term_tokens};
ghost use Rattle.asm_ranges.specs.Contexts.{IsReady, Measures, context_fits, scope_of, signatures_in, small_numbers};
ghost use Rattle.state_space.specs.{Codomains.{codomain_range, whole}, Locations.{range_of}};

use crate::context::{Context, binder_start};
use crate::finding::{binary_range, greater, hull, just, lesser, truths};
use asm_names::{Domain, Fun, Interval, ResolvedTerm};

/// The interval of the domain with a number.
pub(crate) fn domain_interval(domains: &[Domain], domain: u32) -> Interval
    ensures { result ≡ whole (range_of domains.now domain) }
{
    match domains.get(domain as usize) {
        Some(found) => Interval {
            lo: i64::from(found.lo),
            hi: i64::from(found.lo) + i64::from(found.size) - 1,
        },
        None => Interval { lo: 0, hi: -1 },
    }
}

/// The domains and functions that terms speak of.
#[derive(Clone, Copy)]
pub(crate) struct RangeChecker<'a> {
    pub(crate) domains: &'a [Domain],
    pub(crate) funs: &'a [Fun],
}

impl RangeChecker<'_> {
    /// The interval of a function's values.
    pub(crate) fn codomain(self, fun: u32) -> Interval
        ensures { result ≡ codomain_range (slice_get (signatures_in self.entry.domains.now self.entry.funs.now) fun) }
    {
        match self.funs.get(fun as usize) {
            Some(found) => domain_interval(self.domains, found.codomain),
            None => just(0),
        }
    }

    /// The plain range of a term.
    #[cycle(plain)]
    pub(crate) fn plain<'a>(self, context: &'a Context<'a>, term: &'a ResolvedTerm) -> Interval
        requires ready { IsReady self.domains.now self.funs.now }
        requires fits { context_fits context.now ≡ true }
        requires small { small_numbers term.now ≡ true }
        requires room { resolved_term_tokens term.now ≤ 2 ^ 31 }
        ensures { Measures (signatures_in self.entry.domains.now self.entry.funs.now) (scope_of context.now) term.now result }
    {
        match term {
            ResolvedTerm::Number(value) => just(*value),
            ResolvedTerm::Var(binder) => binder_start(context, *binder).plain,
            ResolvedTerm::Read { fun, args } => self.codomain(*fun),
            ResolvedTerm::Binary { op, left, right } => {
                let before = self.plain(context, left.get());
                let after = self.plain(context, right.get());
                binary_range(*op, before, after)
            }
            ResolvedTerm::Not(inner) => truths(),
            ResolvedTerm::Min(first, second) => {
                let before = self.plain(context, first.get());
                let after = self.plain(context, second.get());
                lesser(before, after)
            }
            ResolvedTerm::Max(first, second) => {
                let before = self.plain(context, first.get());
                let after = self.plain(context, second.get());
                greater(before, after)
            }
            ResolvedTerm::Cond(guard, first, second) => {
                let before = self.plain(context, first.get());
                let after = self.plain(context, second.get());
                hull(before, after)
            }
        }
    }
}
