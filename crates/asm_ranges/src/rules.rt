//! The faults of rules, and the intervals of their binders. `at` is the number of a rule's first token.

ghost use Rattle.std.specs.{Prelude.{◌≡◌, ◌+◌, ◌^◌, ◌≤◌, ◌<◌, ◌++◌, ◌∷◌, None, true, map, slice_get, slice_set}, List.{list_all}};
ghost use Rattle.asm_names.specs.{declared.resolved_rule.ResolvedRule.{ResolvedRule-F}, Places.{in_parentheses, led}, ResolvedPlaces.{resolved_term_tokens, resolved_rule_tokens, led_if}};
ghost use Rattle.asm_ranges.specs.{Faults.{Judges}, Ranges.{range}, Rows.{after_each, after_else, intervals_after}};
ghost use Rattle.asm_ranges.specs.Contexts.{IsReady, context_fits, facts_of, legible, scope_of, signatures_in, small_numbers};
ghost use Rattle.asm_ranges.specs.FindingRules.{IsAbove, JudgesRule, JudgesRuleLayer, Passes, Settles, all_words, faulty_rule, layer_faults, layer_legible, rule_layer_tokens};
ghost use Rattle.asm_ranges.specs.Facts as known;
ghost use Rattle.asm_ranges.specs.RangeFaults as ranges;

use crate::context::Context;
use crate::fault::RangeEnd;
use crate::finding::{Found, Parts};
use crate::plain::{RangeChecker, domain_interval};
use asm_names::{Interval, ResolvedRule, ResolvedTerm};
use sqlite_items::{Boxed, Items};

// The binder has an interval.
fn bind(row: &mut Items<Interval>, binder: u32, interval: Interval)
    ensures { row.new ≡ slice_set row.old binder interval }
{
    let index = binder as usize;
    if index < row.len() {
        row.set(index, interval);
    }
}

impl RangeChecker<'_> {
    /// The first fault of a term, or its ranges and the place after it.
    pub(crate) fn sound<'a>(
        self,
        context: &'a Context<'a>,
        term: &'a ResolvedTerm,
        need: Option<Interval>,
        at: u32,
    ) -> Result<Found, RangeEnd>
        requires ready { IsReady self.domains.now self.funs.now }
        requires fits { context_fits context.now ≡ true }
        requires small { small_numbers term.now ≡ true }
        requires room { at + resolved_term_tokens term.now ≤ 2 ^ 31 }
        ensures { Judges (ranges.term_faults (signatures_in self.entry.domains.now self.entry.funs.now) (scope_of context.now) term.now (facts_of context.now) need at) result
            (λ found. Settles (range (signatures_in self.entry.domains.now self.entry.funs.now) (scope_of context.now) term.now)
            (known.refined (signatures_in self.entry.domains.now self.entry.funs.now) (scope_of context.now) term.now (facts_of context.now)) (resolved_term_tokens term.now) at found) }
    {
        let found = self.term(context, term, need, at);
        match found.fault {
            Some(end) => Err(end),
            None => Ok(found),
        }
    }

    // `fun ( args ) := value`
    fn update<'a>(
        self,
        context: &'a Context<'a>,
        fun: u32,
        args: &'a Items<ResolvedTerm>,
        value: &'a Boxed<ResolvedTerm>,
        at: u32,
    ) -> Result<u32, RangeEnd>
        requires ready { IsReady self.domains.now self.funs.now }
        requires fits { context_fits context.now ≡ true }
        requires args { list_all small_numbers args.now ≡ true }
        requires value { small_numbers value.now ≡ true }
        requires room { at + rule_layer_tokens (ResolvedRule-F.Update fun args.now value.now) ≤ 2 ^ 31 }
        ensures { Judges (layer_faults self.entry.domains.now (signatures_in self.entry.domains.now self.entry.funs.now) (ResolvedRule-F.Update fun args.now value.now) (scope_of context.now) (facts_of context.now) at) result
            (λ after. after ≡ at + rule_layer_tokens (ResolvedRule-F.Update fun args.now value.now)) }
    {
        let found = self.arguments(context, fun, args.as_slice(), at + 1);
        match found.fault {
            Some(end) => Err(end),
            None => {
                let need = Some(self.codomain(fun));
                let value = self.sound(context, value.get(), need, found.after + 1)?;
                Ok(value.after)
            }
        }
    }

    // A rule behind `else`, if the text has one.
    #[cycle(rule)]
    fn other<'a>(
        self,
        context: &'a Context<'a>,
        row: &mut Items<Interval>,
        has_else: bool,
        rule: &'a ResolvedRule,
        at: u32,
    ) -> Result<u32, RangeEnd>
        requires ready { IsReady self.domains.now self.funs.now }
        requires fits { context_fits context.now ≡ true }
        requires words { all_words row.old ≡ true }
        requires legible { IsAbove context.now (legible self.domains.now rule.now) }
        requires room { at + led_if has_else (resolved_rule_tokens rule.now) ≤ 2 ^ 31 }
        ensures { Judges (ranges.else_faults has_else (faulty_rule self.entry.domains.now (signatures_in self.entry.domains.now self.entry.funs.now) rule.now) (scope_of context.now) (facts_of context.now) at) result
            (λ after. Passes (led_if has_else (resolved_rule_tokens rule.now)) (after_else has_else (intervals_after self.entry.domains.now (signatures_in self.entry.domains.now self.entry.funs.now) rule.now) (scope_of context.now) row.old) at after row.new) }
    {
        if has_else {
            self.rule(context, row, rule, at + 1)
        } else {
            Ok(at)
        }
    }

    // A guard, and a rule where it holds, each with a token before it.
    #[cycle(rule)]
    fn held<'a>(
        self,
        context: &'a Context<'a>,
        row: &mut Items<Interval>,
        guard: &'a ResolvedTerm,
        body: &'a ResolvedRule,
        at: u32,
    ) -> Result<u32, RangeEnd>
        requires ready { IsReady self.domains.now self.funs.now }
        requires fits { context_fits context.now ≡ true }
        requires words { all_words row.old ≡ true }
        requires small { small_numbers guard.now ≡ true }
        requires legible { IsAbove context.now (legible self.domains.now body.now) }
        requires room { at + 1 + resolved_term_tokens guard.now + 1 + resolved_rule_tokens body.now ≤ 2 ^ 31 }
        ensures { Judges (ranges.term_faults (signatures_in self.entry.domains.now self.entry.funs.now) (scope_of context.now) guard.now (facts_of context.now) None (at + 1)
            ++ ranges.rule_faults self.entry.domains.now (signatures_in self.entry.domains.now self.entry.funs.now) body.now (scope_of context.now) (known.Held guard.now ∷ facts_of context.now) (at + 1 + resolved_term_tokens guard.now + 1)) result
            (λ after. Passes (1 + resolved_term_tokens guard.now + 1 + resolved_rule_tokens body.now) (intervals_after self.entry.domains.now (signatures_in self.entry.domains.now self.entry.funs.now) body.now (scope_of context.now) row.old) at after row.new) }
    {
        let test = self.sound(context, guard, None, at + 1)?;
        let held = Context::Held(guard, context);
        self.rule(&held, row, body, test.after + 1)
    }

    // `if guard then rule else rule end`
    #[cycle(rule)]
    fn branch<'a>(
        self,
        context: &'a Context<'a>,
        row: &mut Items<Interval>,
        guard: &'a Boxed<ResolvedTerm>,
        then_rule: &'a Boxed<ResolvedRule>,
        else_rule: &'a Boxed<ResolvedRule>,
        has_else: bool,
        at: u32,
    ) -> Result<u32, RangeEnd>
        requires ready { IsReady self.domains.now self.funs.now }
        requires fits { context_fits context.now ≡ true }
        requires words { all_words row.old ≡ true }
        requires legible { IsAbove context.now (layer_legible self.domains.now (ResolvedRule-F.If guard.now then_rule.now else_rule.now has_else)) }
        requires room { at + rule_layer_tokens (ResolvedRule-F.If guard.now then_rule.now else_rule.now has_else) ≤ 2 ^ 31 }
        ensures { JudgesRuleLayer self.entry.domains.now (signatures_in self.entry.domains.now self.entry.funs.now) context.now (ResolvedRule-F.If guard.now then_rule.now else_rule.now has_else) row.old at result row.new }
    {
        let after = self.held(context, row, guard.get(), then_rule.get(), at)?;
        let failed = Context::Failed(guard.get(), context);
        let after = self.other(&failed, row, has_else, else_rule.get(), after)?;
        Ok(after + 1)
    }

    // Rules in turn, the token before the first of which has the number `at`.
    #[cycle(rule)]
    fn each<'a>(
        self,
        context: &'a Context<'a>,
        row: &mut Items<Interval>,
        rules: &'a [ResolvedRule],
        at: u32,
    ) -> Result<u32, RangeEnd>
        requires ready { IsReady self.domains.now self.funs.now }
        requires fits { context_fits context.now ≡ true }
        requires words { all_words row.old ≡ true }
        requires legible { IsAbove context.now (λ from. list_all (λ rule. legible self.domains.now rule from) rules.now) }
        requires room { at + led (map resolved_rule_tokens rules.now) ≤ 2 ^ 31 }
        ensures { Judges (ranges.each_rule_faults (map (faulty_rule self.entry.domains.now (signatures_in self.entry.domains.now self.entry.funs.now)) rules.now) (scope_of context.now) (facts_of context.now) at) result
            (λ after. Passes (led (map resolved_rule_tokens rules.now)) (after_each (map (intervals_after self.entry.domains.now (signatures_in self.entry.domains.now self.entry.funs.now)) rules.now) (scope_of context.now) row.old) at after row.new) }
    {
        let mut place = at;
        for rule in rules {
            place = self.rule(context, row, rule, place + 1)?;
        }
        Ok(place)
    }

    // `par rule ; .. end`
    #[cycle(rule)]
    fn parallel<'a>(
        self,
        context: &'a Context<'a>,
        row: &mut Items<Interval>,
        rules: &'a [ResolvedRule],
        at: u32,
    ) -> Result<u32, RangeEnd>
        requires ready { IsReady self.domains.now self.funs.now }
        requires fits { context_fits context.now ≡ true }
        requires words { all_words row.old ≡ true }
        requires legible { IsAbove context.now (layer_legible self.domains.now (ResolvedRule-F.Par rules.now)) }
        requires room { at + rule_layer_tokens (ResolvedRule-F.Par rules.now) ≤ 2 ^ 31 }
        ensures { JudgesRuleLayer self.entry.domains.now (signatures_in self.entry.domains.now self.entry.funs.now) context.now (ResolvedRule-F.Par rules.now) row.old at result row.new }
    {
        let after = self.each(context, row, rules, at)?;
        Ok(after + 1)
    }

    // A guard, if the text has one, and a rule, each with a token before it.
    #[cycle(rule)]
    fn guarded<'a>(
        self,
        context: &'a Context<'a>,
        row: &mut Items<Interval>,
        guarded: bool,
        guard: &'a ResolvedTerm,
        body: &'a ResolvedRule,
        at: u32,
    ) -> Result<u32, RangeEnd>
        requires ready { IsReady self.domains.now self.funs.now }
        requires fits { context_fits context.now ≡ true }
        requires words { all_words row.old ≡ true }
        requires small { small_numbers guard.now ≡ true }
        requires legible { IsAbove context.now (legible self.domains.now body.now) }
        requires room { at + led_if guarded (resolved_term_tokens guard.now) + 1 + resolved_rule_tokens body.now ≤ 2 ^ 31 }
        ensures { Judges (ranges.guard_faults guarded (signatures_in self.entry.domains.now self.entry.funs.now) (scope_of context.now) (facts_of context.now) guard.now (at + 1)
            ++ ranges.rule_faults self.entry.domains.now (signatures_in self.entry.domains.now self.entry.funs.now) body.now (scope_of context.now) (ranges.guarded_facts guarded guard.now (facts_of context.now)) (at + led_if guarded (resolved_term_tokens guard.now) + 1)) result
            (λ after. Passes (led_if guarded (resolved_term_tokens guard.now) + 1 + resolved_rule_tokens body.now) (intervals_after self.entry.domains.now (signatures_in self.entry.domains.now self.entry.funs.now) body.now (scope_of context.now) row.old) at after row.new) }
    {
        if guarded {
            self.held(context, row, guard, body, at)
        } else {
            self.rule(context, row, body, at + 1)
        }
    }

    // `forall binder in domain with guard do rule end`
    #[cycle(rule)]
    fn forall<'a>(
        self,
        context: &'a Context<'a>,
        row: &mut Items<Interval>,
        binder: u32,
        domain: u32,
        guard: &'a Boxed<ResolvedTerm>,
        guarded: bool,
        body: &'a Boxed<ResolvedRule>,
        at: u32,
    ) -> Result<u32, RangeEnd>
        requires ready { IsReady self.domains.now self.funs.now }
        requires fits { context_fits context.now ≡ true }
        requires words { all_words row.old ≡ true }
        requires legible { IsAbove context.now (layer_legible self.domains.now (ResolvedRule-F.Forall binder domain guard.now guarded body.now)) }
        requires room { at + rule_layer_tokens (ResolvedRule-F.Forall binder domain guard.now guarded body.now) ≤ 2 ^ 31 }
        ensures { JudgesRuleLayer self.entry.domains.now (signatures_in self.entry.domains.now self.entry.funs.now) context.now (ResolvedRule-F.Forall binder domain guard.now guarded body.now) row.old at result row.new }
    {
        let interval = domain_interval(self.domains, domain);
        bind(row, binder, interval);
        let inner = Context::Over(binder, interval, context);
        let after = self.guarded(&inner, row, guarded, guard.get(), body.get(), at + 4)?;
        Ok(after + 1)
    }

    // `choose binder in domain with guard do rule else rule end`
    #[cycle(rule)]
    fn choose<'a>(
        self,
        context: &'a Context<'a>,
        row: &mut Items<Interval>,
        binder: u32,
        domain: u32,
        guard: &'a Boxed<ResolvedTerm>,
        body: &'a Boxed<ResolvedRule>,
        else_rule: &'a Boxed<ResolvedRule>,
        has_else: bool,
        at: u32,
    ) -> Result<u32, RangeEnd>
        requires ready { IsReady self.domains.now self.funs.now }
        requires fits { context_fits context.now ≡ true }
        requires words { all_words row.old ≡ true }
        requires legible { IsAbove context.now (layer_legible self.domains.now (ResolvedRule-F.Choose binder domain guard.now body.now else_rule.now has_else)) }
        requires room { at + rule_layer_tokens (ResolvedRule-F.Choose binder domain guard.now body.now else_rule.now has_else) ≤ 2 ^ 31 }
        ensures { JudgesRuleLayer self.entry.domains.now (signatures_in self.entry.domains.now self.entry.funs.now) context.now (ResolvedRule-F.Choose binder domain guard.now body.now else_rule.now has_else) row.old at result row.new }
    {
        let interval = domain_interval(self.domains, domain);
        bind(row, binder, interval);
        let inner = Context::Over(binder, interval, context);
        let after = self.held(&inner, row, guard.get(), body.get(), at + 4)?;
        let after = self.other(context, row, has_else, else_rule.get(), after)?;
        Ok(after + 1)
    }

    // `let binder = value in rule end`
    #[cycle(rule)]
    fn local<'a>(
        self,
        context: &'a Context<'a>,
        row: &mut Items<Interval>,
        binder: u32,
        value: &'a Boxed<ResolvedTerm>,
        body: &'a Boxed<ResolvedRule>,
        at: u32,
    ) -> Result<u32, RangeEnd>
        requires ready { IsReady self.domains.now self.funs.now }
        requires fits { context_fits context.now ≡ true }
        requires words { all_words row.old ≡ true }
        requires legible { IsAbove context.now (layer_legible self.domains.now (ResolvedRule-F.Let binder value.now body.now)) }
        requires room { at + rule_layer_tokens (ResolvedRule-F.Let binder value.now body.now) ≤ 2 ^ 31 }
        ensures { JudgesRuleLayer self.entry.domains.now (signatures_in self.entry.domains.now self.entry.funs.now) context.now (ResolvedRule-F.Let binder value.now body.now) row.old at result row.new }
    {
        let found = self.sound(context, value.get(), None, at + 3)?;
        bind(row, binder, found.plain);
        let inner = Context::Bounded(binder, found.plain, found.refined, context);
        let after = self.rule(&inner, row, body.get(), found.after + 1)?;
        Ok(after + 1)
    }

    /// The first fault of a rule, or the place after it. Each of its binders then has its interval in the row.
    #[cycle(rule)]
    pub(crate) fn rule<'a>(
        self,
        context: &'a Context<'a>,
        row: &mut Items<Interval>,
        rule: &'a ResolvedRule,
        at: u32,
    ) -> Result<u32, RangeEnd>
        requires ready { IsReady self.domains.now self.funs.now }
        requires fits { context_fits context.now ≡ true }
        requires words { all_words row.old ≡ true }
        requires legible { IsAbove context.now (legible self.domains.now rule.now) }
        requires room { at + resolved_rule_tokens rule.now ≤ 2 ^ 31 }
        ensures { JudgesRule self.entry.domains.now (signatures_in self.entry.domains.now self.entry.funs.now) context.now rule.now row.old at result row.new }
    {
        match rule {
            ResolvedRule::Skip => Ok(at + 1),
            ResolvedRule::Update { fun, args, value } => {
                self.update(context, *fun, args, value, at)
            }
            ResolvedRule::If {
                guard,
                then_rule,
                else_rule,
                has_else,
            } => self.branch(context, row, guard, then_rule, else_rule, *has_else, at),
            ResolvedRule::Par(rules) => self.parallel(context, row, rules.as_slice(), at),
            ResolvedRule::Forall {
                binder,
                domain,
                guard,
                guarded,
                body,
            } => self.forall(context, row, *binder, *domain, guard, *guarded, body, at),
            ResolvedRule::Choose {
                binder,
                domain,
                guard,
                body,
                else_rule,
                has_else,
            } => {
                self.choose(
                    context, row, *binder, *domain, guard, body, else_rule, *has_else, at,
                )
            }
            ResolvedRule::Let {
                binder,
                value,
                body,
            } => self.local(context, row, *binder, value, body, at),
        }
    }
}
