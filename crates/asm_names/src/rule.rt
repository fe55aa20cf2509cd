//! Rules.

ghost use Rattle.std.specs.Prelude.{◌≡◌, Some, length, map, IfOk};
ghost use Rattle.asm_names.specs.declared.fault.NameFault.TheVariants as causes;
ghost use Rattle.asm_names.specs.declared.sort.Need.TheVariants as needs;
ghost use Rattle.asm_names.specs.Faults.{Finds, fault};
ghost use Rattle.asm_names.specs.Meanings.{meaning_of, number_of};
ghost use Rattle.asm_names.specs.RuleFaults.{is_fixed, target_faults, target_need, target_sorts};
ghost use Rattle.asm_names.specs.Rules as spec;
ghost use Rattle.asm_names.specs.Table.{scope};

use crate::fault::{NameEnd, NameFault, PlacedFault};
use crate::resolved_rule::{ResolvedRule, ResolvedRules};
use crate::resolved_term::ResolvedTerm;
use crate::sort::{Need, Sort};
use crate::table::{Entry, Table};
use crate::term::{boxed, check_count, in_parentheses, sort_of_term, term};
use asm_tree::{Kind, Name, Op, Program, Rule, Rules, Term, Terms};
use sqlite_items::{Boxed, Items};
use std::alloc::{AllocError, Global};

// Only controlled and output functions may be updated.
#[tactic(auto, unfolding(crate::specs::Faults::first_end))]
fn check_kind(kind: Kind, token: u32) -> Result<(), PlacedFault>
    ensures { Finds (fault causes.NotUpdatable token (is_fixed kind)) result (λ _. Unit {0}) }
{
    match kind {
        Kind::Controlled | Kind::Output => Ok(()),
        Kind::Input | Kind::Static => Err(PlacedFault::at(token, NameFault::NotUpdatable)),
    }
}

// The number of an updated function with so many terms behind its name, the sorts of its arguments, and that of its values.
#[tactic(auto, using(crate::proofs::Firsts::apply_rules), unfolding(crate::specs::Faults::first_end))]
fn find_target<'a>(
    table: &'a Table,
    name: &Name,
    count: usize,
    token: u32,
) -> Result<(u32, &'a [Sort], Sort), PlacedFault>
    ensures { Finds (target_faults (meaning_of (scope table.now) name.now) count token) result
        (λ target. (number_of (meaning_of (scope table.now) name.now) ≡ target.0)
        × (target_sorts (meaning_of (scope table.now) name.now) ≡ map Some target.1.now)
        × (target_need (meaning_of (scope table.now) name.now) ≡ needs.Only target.2)
        × (length target.1.now ≡ count)) }
{
    let Some(
        Entry::Function {
            number,
            kind,
            args,
            values,
        },
    ) = table.find(name)
    else {
        return Err(PlacedFault::at(token, NameFault::Unknown));
    };
    check_count(args.len(), count, token)?;
    check_kind(*kind, token)?;
    Ok((*number, args.as_slice(), *values))
}

// The term `(0 = 0)`.
fn always(alloc: Global) -> Result<ResolvedTerm, AllocError>
    ensures { IfOk result (λ n. n ≡ spec.always) }
{
    Ok(ResolvedTerm::Binary {
        op: Op::Eq,
        left: Boxed::new(alloc, ResolvedTerm::Number(0))?,
        right: Boxed::new(alloc, ResolvedTerm::Number(0))?,
    })
}

/// How far a program is read behind its declarations.
#[derive(Drop)]
pub struct Walk {
    /// The names that are declared or in scope.
    pub table: Table,
    /// The number of the next token.
    pub place: u32,
    /// The number of the next binder.
    pub binders: u32,
}

impl Walk {
    ghost use Rattle.std.specs.Prelude.{◌≡◌, ℕ, ◌+◌, ◌-◌, ◌^◌, ◌<◌, ◌++◌, ◌∷◌, [], length, map, sum, take, None, Some, IfOk, OnErr, OnOk};
    ghost use Rattle.std.specs.Option.{option_map};
    ghost use Rattle.asm_tree.specs.declared.rule.Rule.{Rule-F};
    ghost use Rattle.asm_names.specs.Faults.{Judges};
    ghost use Rattle.asm_names.specs.declared.resolved_rule.ResolvedRule.TheVariants as resolved_rules;
    ghost use Rattle.asm_names.specs.JudgingRules.{JudgesRule, JudgesRuleLayer, Passes, faulty, made, rule_layer_binders, rule_layer_tokens};
    ghost use Rattle.asm_names.specs.Meanings.{meaning_of};
    ghost use Rattle.asm_names.specs.Places.{else_tokens, led, legal_tokens, option_sum, rule_binders, rule_tokens, term_tokens, with_tokens};
    ghost use Rattle.asm_names.specs.Programs.{legal_faults};
    ghost use Rattle.asm_names.specs.RuleFaults.{bound, each_rule_faults, else_faults, guard_faults};
    ghost use Rattle.asm_names.specs.Rules.{resolved_each, resolved_else, resolved_guard};
    ghost use Rattle.asm_names.specs.Table.{scope};
    ghost use Rattle.asm_names.specs.TermFaults.{term_faults};
    ghost use Rattle.asm_names.specs.Terms.{resolved_term};

    // A term where the walk stands, which needs this of its sort.
    fn term(
        &mut self,
        alloc: Global,
        term: &Boxed<Term>,
        need: Need,
    ) -> Result<Boxed<ResolvedTerm>, NameEnd>
        requires { self.old.place + term_tokens term.now < 2 ^ 32 }
        ensures { Judges (term_faults (scope self.old.table) term.now need self.old.place) result
            (λ n. (n ≡ resolved_term (scope self.old.table) term.now) × Passes (term_tokens term.now) 0 self.old self.new) }
    {
        boxed(alloc, &self.table, &mut self.place, term, need)
    }

    // Puts a binder in scope, and answers its number.
    fn bind(&mut self, alloc: Global, var: &Name, sort: Option<Sort>) -> Result<u32, NameEnd>
        requires new { meaning_of (scope self.old.table) var.now ≡ None }
        requires room { self.old.binders + 1 < 2 ^ 32 }
        ensures binds { IfOk result (λ number. (number ≡ self.old.binders)
            × (self.new.place ≡ self.old.place) × (self.new.binders ≡ self.old.binders + 1)
            × (scope self.new.table ≡ bound (scope self.old.table) var.now self.old.binders sort)) }
        ensures memory { OnErr result (result ≡ Err NameEnd.NoMemory) }
    {
        let number = self.binders;
        self.table.add(alloc, var, Entry::Binder { number, sort })?;
        self.binders += 1;
        Ok(number)
    }

    // `skip`
    fn skip(&mut self) -> ResolvedRule
        requires { self.old.place + 1 < 2 ^ 32 }
        ensures rule { result ≡ resolved_rules.Skip }
        ensures passes { Passes 1 0 self.old self.new }
    {
        self.place += 1;
        ResolvedRule::Skip
    }

    // `name ( term , term ) := value`
    #[tactic(auto, using(crate::proofs::Firsts::apply_rules), unfolding(crate::specs::Faults::first_end))]
    fn update(
        &mut self,
        alloc: Global,
        name: &Name,
        args: &Terms,
        value: &Boxed<Term>,
    ) -> Result<ResolvedRule, NameEnd>
        requires room { self.old.place + rule_layer_tokens (Rule-F.Update name.now args.now value.now) < 2 ^ 32 }
        requires bound_room { self.old.binders + rule_layer_binders (Rule-F.Update name.now args.now value.now) < 2 ^ 32 }
        ensures { JudgesRuleLayer (Rule-F.Update name.now args.now value.now) self.old result self.new }
    {
        let (fun, sorts, values) = find_target(&self.table, name, args.len(), self.place)?;
        self.place += 1;
        let args = in_parentheses(alloc, &self.table, &mut self.place, sorts, args.as_slice())?;
        self.place += 1;
        let need = Need::Only(values);
        let value = boxed(alloc, &self.table, &mut self.place, value, need)?;
        Ok(ResolvedRule::Update { fun, args, value })
    }

    // The term behind `with`, if there is one.
    #[tactic(auto, using(crate::proofs::Firsts::first_rules))]
    fn guard(
        &mut self,
        alloc: Global,
        guard: &Option<Boxed<Term>>,
    ) -> Result<Boxed<ResolvedTerm>, NameEnd>
        requires { self.old.place + with_tokens guard.now < 2 ^ 32 }
        ensures { Judges (guard_faults (scope self.old.table) guard.now (self.old.place + 1)) result
            (λ n. (n ≡ resolved_guard (scope self.old.table) guard.now) × Passes (with_tokens guard.now) 0 self.old self.new) }
    {
        match guard {
            None => Ok(Boxed::new(alloc, always(alloc)?)?),
            Some(guard) => {
                self.place += 1;
                self.term(alloc, guard, Need::Only(Sort::Truth))
            }
        }
    }

    // A rule in a box of its own.
    #[cycle(rule)]
    #[tactic(auto, using(crate::proofs::Firsts::first_rules))]
    fn boxed(&mut self, alloc: Global, rule: &Boxed<Rule>) -> Result<Boxed<ResolvedRule>, NameEnd>
        requires room { self.old.place + rule_tokens rule.now < 2 ^ 32 }
        requires bound_room { self.old.binders + rule_binders rule.now < 2 ^ 32 }
        ensures { JudgesRule rule.now self.old result self.new }
    {
        Ok(Boxed::new(alloc, self.rule(alloc, rule.get())?)?)
    }

    // The rule behind `else`, if there is one.
    #[cycle(rule)]
    #[tactic(auto, using(crate::proofs::Firsts::first_rules))]
    fn else_part(
        &mut self,
        alloc: Global,
        other: &Option<Boxed<Rule>>,
    ) -> Result<Boxed<ResolvedRule>, NameEnd>
        requires room { self.old.place + else_tokens (option_map rule_tokens other.now) < 2 ^ 32 }
        requires bound_room { self.old.binders + option_sum (option_map rule_binders other.now) < 2 ^ 32 }
        ensures { Judges (else_faults (scope self.old.table) (option_map faulty other.now) self.old.place self.old.binders) result
            (λ n. (n ≡ resolved_else (scope self.old.table) (option_map made other.now) self.old.binders)
            × Passes (else_tokens (option_map rule_tokens other.now)) (option_sum (option_map rule_binders other.now)) self.old self.new) }
    {
        match other {
            None => Ok(Boxed::new(alloc, ResolvedRule::Skip)?),
            Some(other) => {
                self.place += 1;
                self.boxed(alloc, other)
            }
        }
    }

    // Rules in turn, with the token before each.
    #[cycle(rule)]
    #[tactic(auto, using(crate::proofs::Firsts::first_rules))]
    fn each(&mut self, alloc: Global, rules: &[Rule]) -> Result<ResolvedRules, NameEnd>
        requires room { self.old.place + led (map rule_tokens rules.now) < 2 ^ 32 }
        requires bound_room { self.old.binders + sum (map rule_binders rules.now) < 2 ^ 32 }
        ensures { Judges (each_rule_faults (scope self.old.table) (map faulty rules.now) self.old.place self.old.binders) result
            (λ ns. (ns ≡ resolved_each (scope self.old.table) (map made rules.now) self.old.binders)
            × Passes (led (map rule_tokens rules.now)) (sum (map rule_binders rules.now)) self.old self.new) }
    {
        let mut resolved = Items::new(alloc);
        for rule in rules {
            self.place += 1;
            resolved.push(self.rule(alloc, rule)?)?;
        }
        Ok(resolved)
    }

    // `if guard then rule else rule end`
    #[cycle(rule)]
    #[tactic(auto, using(crate::proofs::Firsts::first_rules))]
    fn conditional(
        &mut self,
        alloc: Global,
        guard: &Boxed<Term>,
        then_rule: &Boxed<Rule>,
        else_rule: &Option<Boxed<Rule>>,
    ) -> Result<ResolvedRule, NameEnd>
        requires room { self.old.place + rule_layer_tokens (Rule-F.If guard.now then_rule.now else_rule.now) < 2 ^ 32 }
        requires bound_room { self.old.binders + rule_layer_binders (Rule-F.If guard.now then_rule.now else_rule.now) < 2 ^ 32 }
        ensures { JudgesRuleLayer (Rule-F.If guard.now then_rule.now else_rule.now) self.old result self.new }
    {
        self.place += 1;
        let guard = self.term(alloc, guard, Need::Only(Sort::Truth))?;
        self.place += 1;
        let then_rule = self.boxed(alloc, then_rule)?;
        let has_else = else_rule.is_some();
        let else_rule = self.else_part(alloc, else_rule)?;
        self.place += 1;
        Ok(ResolvedRule::If {
            guard,
            then_rule,
            else_rule,
            has_else,
        })
    }

    // `par rule; rule end`
    #[cycle(rule)]
    #[tactic(auto, using(crate::proofs::Firsts::first_rules))]
    fn parallel(&mut self, alloc: Global, rules: &Rules) -> Result<ResolvedRule, NameEnd>
        requires room { self.old.place + rule_layer_tokens (Rule-F.Par rules.now) < 2 ^ 32 }
        requires bound_room { self.old.binders + rule_layer_binders (Rule-F.Par rules.now) < 2 ^ 32 }
        ensures { JudgesRuleLayer (Rule-F.Par rules.now) self.old result self.new }
    {
        let rules = self.each(alloc, rules.as_slice())?;
        self.place += 1;
        Ok(ResolvedRule::Par(rules))
    }

    // `forall var in domain with guard do rule end`
    #[cycle(rule)]
    #[tactic(auto, using(crate::proofs::Firsts::first_rules))]
    fn forall(
        &mut self,
        alloc: Global,
        var: &Name,
        domain: &Name,
        guard: &Option<Boxed<Term>>,
        body: &Boxed<Rule>,
    ) -> Result<ResolvedRule, NameEnd>
        requires room { self.old.place + rule_layer_tokens (Rule-F.Forall var.now domain.now guard.now body.now) < 2 ^ 32 }
        requires bound_room { self.old.binders + rule_layer_binders (Rule-F.Forall var.now domain.now guard.now body.now) < 2 ^ 32 }
        ensures { JudgesRuleLayer (Rule-F.Forall var.now domain.now guard.now body.now) self.old result self.new }
    {
        self.place += 1;
        self.table.check_new(var, self.place)?;
        self.place += 2;
        let (domain, sort) = self.table.find_domain(domain, self.place)?;
        self.place += 1;
        let binder = self.bind(alloc, var, Some(sort))?;
        let guarded = guard.is_some();
        let guard = self.guard(alloc, guard)?;
        self.place += 1;
        let body = self.boxed(alloc, body)?;
        self.table.pop();
        self.place += 1;
        Ok(ResolvedRule::Forall {
            binder,
            domain,
            guard,
            guarded,
            body,
        })
    }

    // `choose var in domain with guard do rule else rule end`
    #[cycle(rule)]
    #[tactic(auto, using(crate::proofs::Firsts::first_rules))]
    fn choose(
        &mut self,
        alloc: Global,
        var: &Name,
        domain: &Name,
        guard: &Boxed<Term>,
        body: &Boxed<Rule>,
        else_rule: &Option<Boxed<Rule>>,
    ) -> Result<ResolvedRule, NameEnd>
        requires room { self.old.place + rule_layer_tokens (Rule-F.Choose var.now domain.now guard.now body.now else_rule.now) < 2 ^ 32 }
        requires bound_room { self.old.binders + rule_layer_binders (Rule-F.Choose var.now domain.now guard.now body.now else_rule.now) < 2 ^ 32 }
        ensures { JudgesRuleLayer (Rule-F.Choose var.now domain.now guard.now body.now else_rule.now) self.old result self.new }
    {
        self.place += 1;
        self.table.check_new(var, self.place)?;
        self.place += 2;
        let (domain, sort) = self.table.find_domain(domain, self.place)?;
        self.place += 2;
        let binder = self.bind(alloc, var, Some(sort))?;
        let guard = self.term(alloc, guard, Need::Only(Sort::Truth))?;
        self.place += 1;
        let body = self.boxed(alloc, body)?;
        self.table.pop();
        let has_else = else_rule.is_some();
        let else_rule = self.else_part(alloc, else_rule)?;
        self.place += 1;
        Ok(ResolvedRule::Choose {
            binder,
            domain,
            guard,
            body,
            else_rule,
            has_else,
        })
    }

    // `let var = value in rule end`
    #[cycle(rule)]
    #[tactic(auto, using(crate::proofs::Firsts::first_rules))]
    fn local(
        &mut self,
        alloc: Global,
        var: &Name,
        value: &Boxed<Term>,
        body: &Boxed<Rule>,
    ) -> Result<ResolvedRule, NameEnd>
        requires room { self.old.place + rule_layer_tokens (Rule-F.Let var.now value.now body.now) < 2 ^ 32 }
        requires bound_room { self.old.binders + rule_layer_binders (Rule-F.Let var.now value.now body.now) < 2 ^ 32 }
        ensures { JudgesRuleLayer (Rule-F.Let var.now value.now body.now) self.old result self.new }
    {
        self.place += 1;
        self.table.check_new(var, self.place)?;
        self.place += 2;
        let sort = sort_of_term(&self.table, value.get());
        let value = self.term(alloc, value, Need::NotTruth)?;
        self.place += 1;
        let binder = self.bind(alloc, var, sort)?;
        let body = self.boxed(alloc, body)?;
        self.table.pop();
        self.place += 1;
        Ok(ResolvedRule::Let {
            binder,
            value,
            body,
        })
    }

    /// The first fault of a rule, or the rule in numbers.
    #[cycle(rule)]
    pub(crate) fn rule(&mut self, alloc: Global, rule: &Rule) -> Result<ResolvedRule, NameEnd>
        requires room { self.old.place + rule_tokens rule.now < 2 ^ 32 }
        requires bound_room { self.old.binders + rule_binders rule.now < 2 ^ 32 }
        ensures { JudgesRule rule.now self.old result self.new }
    {
        match rule {
            Rule::Skip => Ok(self.skip()),
            Rule::Update { name, args, value } => self.update(alloc, name, args, value),
            Rule::If {
                guard,
                then_rule,
                else_rule,
            } => self.conditional(alloc, guard, then_rule, else_rule),
            Rule::Par(rules) => self.parallel(alloc, rules),
            Rule::Forall {
                var,
                domain,
                guard,
                body,
            } => self.forall(alloc, var, domain, guard, body),
            Rule::Choose {
                var,
                domain,
                guard,
                body,
                else_rule,
            } => self.choose(alloc, var, domain, guard, body, else_rule),
            Rule::Let { var, value, body } => self.local(alloc, var, value, body),
        }
    }

    /// The term behind `legal`, if there is one.
    #[tactic(auto, using(crate::proofs::Firsts::first_rules))]
    pub(crate) fn legal(
        &mut self,
        alloc: Global,
        program: &Program,
    ) -> Result<Option<Boxed<ResolvedTerm>>, NameEnd>
        requires { self.old.place + legal_tokens program.now.legal < 2 ^ 32 }
        ensures { Judges (legal_faults (scope self.old.table) program.now.legal self.old.place) result
            (λ n. (n ≡ option_map (resolved_term (scope self.old.table)) program.now.legal)
            × Passes (legal_tokens program.now.legal) 0 self.old self.new) }
    {
        match program.legal() {
            None => Ok(None),
            Some(legal) => {
                self.place += 1;
                let need = Need::Only(Sort::Truth);
                let legal = term(alloc, &self.table, &mut self.place, legal, need)?;
                Ok(Some(Boxed::new(alloc, legal)?))
            }
        }
    }
}
