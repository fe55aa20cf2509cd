//! The ranges and faults of terms. `at` is the number of a term's first token.

ghost use Rattle.std.specs.Prelude.{◌≡◌, ◌+◌, ◌<◌, ◌^◌, ◌≤◌, None, true, map};
ghost use Rattle.std.specs.List.{list_all};
ghost use Rattle.asm_names.specs.{Places.{in_parentheses, parted}, ResolvedPlaces.{resolved_term_tokens}};
ghost use Rattle.asm_ranges.specs.{Contexts.{FindsParts, FindsTerm, IsReady, context_fits, facts_of, scope_of, signatures_in, small_numbers}, RangeFaults.{args_faults, domains_of, faulty_term, interval_of}};
ghost use Rattle.std.specs.{Option.{option_map}, Prelude.{slice_get}};
ghost use Rattle.state_space.specs.Locations.{range_of};

use crate::context::{Context, binder_start};
use crate::fault::RangeEnd;
use crate::finding::{
    Found, Parts, binary_range, closed, either, greater, hull, just, lesser, truths, wide,
};
use crate::plain::{RangeChecker, domain_interval};
use asm_names::{Interval, ResolvedTerm};

impl RangeChecker<'_> {
    // The interval of the domain of an argument, if the function has it.
    fn needed(self, domains: &[u32], index: usize) -> Option<Interval>
        ensures { result ≡ option_map (interval_of self.entry.domains.now) (slice_get domains.now index) }
    {
        match domains.get(index) {
            Some(domain) => Some(domain_interval(self.domains, *domain)),
            None => None,
        }
    }

    // Arguments in turn, each with the interval of its domain.
    #[cycle(term)]
    fn args<'a>(
        self,
        context: &'a Context<'a>,
        domains: &[u32],
        args: &'a [ResolvedTerm],
        at: u32,
    ) -> Parts
        requires ready { IsReady self.domains.now self.funs.now }
        requires fits { context_fits context.now ≡ true }
        requires small { list_all small_numbers args.now ≡ true }
        requires room { at + parted (map resolved_term_tokens args.now) ≤ 2 ^ 31 }
        ensures { FindsParts (parted (map resolved_term_tokens args.now))
            (args_faults (map (range_of self.entry.domains.now) domains.now) (map (faulty_term (signatures_in self.entry.domains.now self.entry.funs.now) (scope_of context.now)) args.now) (facts_of context.now) at) at result }
    {
        let mut found = Parts {
            after: at,
            fault: None,
        };
        for (index, arg) in args.iter().enumerate() {
            let need = self.needed(domains, index);
            let next = self.term(context, arg, need, found.after);
            found.after = next.after + 1;
            found.fault = either(found.fault, next.fault);
        }
        found
    }

    /// The arguments of a function in parentheses behind its name, which is the token before `at`, if there are any.
    #[cycle(term)]
    pub(crate) fn arguments<'a>(
        self,
        context: &'a Context<'a>,
        fun: u32,
        args: &'a [ResolvedTerm],
        at: u32,
    ) -> Parts
        requires ready { IsReady self.domains.now self.funs.now }
        requires fits { context_fits context.now ≡ true }
        requires small { list_all small_numbers args.now ≡ true }
        requires room { at + in_parentheses (map resolved_term_tokens args.now) ≤ 2 ^ 31 }
        ensures { FindsParts (in_parentheses (map resolved_term_tokens args.now))
            (args_faults (domains_of (slice_get (signatures_in self.entry.domains.now self.entry.funs.now) fun))
            (map (faulty_term (signatures_in self.entry.domains.now self.entry.funs.now) (scope_of context.now)) args.now) (facts_of context.now) (at + 1)) at result }
    {
        if args.is_empty() {
            return Parts {
                after: at,
                fault: None,
            };
        }
        match self.funs.get(fun as usize) {
            Some(found) => self.args(context, found.args.as_slice(), args, at + 1),
            None => self.args(context, &[], args, at + 1),
        }
    }

    // Two terms with a token before, between and behind them.
    #[cycle(term)]
    fn pair<'a>(
        self,
        context: &'a Context<'a>,
        first: &'a ResolvedTerm,
        second: &'a ResolvedTerm,
        at: u32,
    ) -> (Found, Found)
        requires ready { IsReady self.domains.now self.funs.now }
        requires fits { context_fits context.now ≡ true }
        requires first { small_numbers first.now ≡ true }
        requires second { small_numbers second.now ≡ true }
        requires room { at + resolved_term_tokens first.now + 1 + resolved_term_tokens second.now < 2 ^ 31 }
        ensures first { FindsTerm (signatures_in self.entry.domains.now self.entry.funs.now) context.now first.now None at result.0 }
        ensures second { FindsTerm (signatures_in self.entry.domains.now self.entry.funs.now) context.now second.now None (at + resolved_term_tokens first.now + 1) result.1 }
    {
        let before = self.term(context, first, None, at);
        let after = self.term(context, second, None, before.after + 1);
        (before, after)
    }

    /// The ranges of a term, the place after it, and the first of its faults in a place that needs this interval.
    #[cycle(term)]
    pub(crate) fn term<'a>(
        self,
        context: &'a Context<'a>,
        term: &'a ResolvedTerm,
        need: Option<Interval>,
        at: u32,
    ) -> Found
        requires ready { IsReady self.domains.now self.funs.now }
        requires fits { context_fits context.now ≡ true }
        requires small { small_numbers term.now ≡ true }
        requires room { at + resolved_term_tokens term.now ≤ 2 ^ 31 }
        ensures { FindsTerm (signatures_in self.entry.domains.now self.entry.funs.now) context.now term.now need at result }
    {
        match term {
            ResolvedTerm::Number(value) => {
                let range = just(*value);
                closed(range, range, None, need, at, Parts::after(at + 1))
            }
            ResolvedTerm::Var(binder) => {
                let begun = binder_start(context, *binder);
                let refined = self.cuts(context, context, term, begun.refined);
                closed(begun.plain, refined, None, need, at, Parts::after(at + 1))
            }
            ResolvedTerm::Read { fun, args } => {
                let inner = self.arguments(context, *fun, args.as_slice(), at + 1);
                let plain = self.codomain(*fun);
                let refined = self.cuts(context, context, term, plain);
                closed(plain, refined, None, need, at, inner)
            }
            ResolvedTerm::Binary { op, left, right } => {
                let (before, after) = self.pair(context, left.get(), right.get(), at + 1);
                let plain = binary_range(*op, before.plain, after.plain);
                let refined = binary_range(*op, before.refined, after.refined);
                closed(
                    plain,
                    refined,
                    wide(*op, plain, at),
                    need,
                    at,
                    Parts::of(before, after),
                )
            }
            ResolvedTerm::Not(inner) => {
                let found = self.term(context, inner.get(), None, at + 1);
                let inside = Parts {
                    after: found.after,
                    fault: found.fault,
                };
                closed(truths(), truths(), None, need, at, inside)
            }
            ResolvedTerm::Min(first, second) => {
                let (before, after) = self.pair(context, first.get(), second.get(), at + 2);
                let plain = lesser(before.plain, after.plain);
                let refined = lesser(before.refined, after.refined);
                closed(plain, refined, None, need, at, Parts::of(before, after))
            }
            ResolvedTerm::Max(first, second) => {
                let (before, after) = self.pair(context, first.get(), second.get(), at + 2);
                let plain = greater(before.plain, after.plain);
                let refined = greater(before.refined, after.refined);
                closed(plain, refined, None, need, at, Parts::of(before, after))
            }
            ResolvedTerm::Cond(guard, first, second) => {
                let test = self.term(context, guard.get(), None, at + 2);
                let held = Context::Held(guard.get(), &*context);
                let before = self.term(&held, first.get(), None, test.after + 1);
                let failed = Context::Failed(guard.get(), &*context);
                let after = self.term(&failed, second.get(), None, before.after + 1);
                let parts = Parts::of(before, after);
                let inside = Parts {
                    after: parts.after,
                    fault: either(test.fault, parts.fault),
                };
                let plain = hull(before.plain, after.plain);
                let refined = hull(before.refined, after.refined);
                closed(plain, refined, None, need, at, inside)
            }
        }
    }
}
