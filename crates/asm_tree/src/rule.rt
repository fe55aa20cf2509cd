//! Rules: what a machine does in one step.

ghost use Rattle.std.specs.Prelude.{◌≡◌, IfOk};
ghost use Rattle.asm_tree.specs.Forms.{guard_within, else_within, rule_within, rules_within};

use crate::name::Name;
use crate::term::{Term, Terms, are_within, boxed_copy, copy_all};
use sqlite_items::{Boxed, Items};
use std::alloc::{AllocError, Global};

/// A list of rules.
pub type Rules = Items<Rule>;

/// A rule, after the Lipari guide (Gurevich 1995). `Skip` has depth 1, and every other rule 1 more
/// than the deepest of its terms and rules.
#[derive(Drop)]
pub enum Rule {
    /// Changes nothing.
    Skip,
    /// Sets the function `name` at `args` to `value`.
    Update {
        name: Name,
        args: Terms,
        value: Boxed<Term>,
    },
    /// The one rule where the guard holds, and else the other. Without an `else_rule` nothing.
    If {
        guard: Boxed<Term>,
        then_rule: Boxed<Rule>,
        else_rule: Option<Boxed<Rule>>,
    },
    /// All its parts at once. One that has a text has at least one part.
    Par(Items<Rule>),
    /// The body at once for each element of the domain at which the guard holds.
    Forall {
        var: Name,
        domain: Name,
        guard: Option<Boxed<Term>>,
        body: Boxed<Rule>,
    },
    /// The body for one element of the domain at which the guard holds. Where there is none, the
    /// `else_rule`.
    Choose {
        var: Name,
        domain: Name,
        guard: Boxed<Term>,
        body: Boxed<Rule>,
        else_rule: Option<Boxed<Rule>>,
    },
    /// The body, in which `var` is the value that the term has before the step.
    Let {
        var: Name,
        value: Boxed<Term>,
        body: Boxed<Rule>,
    },
}

// An equal guard.
pub(crate) fn guard_copy(
    alloc: Global,
    guard: &Option<Boxed<Term>>,
) -> Result<Option<Boxed<Term>>, AllocError>
    ensures { IfOk result (λ copy. copy ≡ guard.now) }
{
    match guard {
        None => Ok(None),
        Some(guard) => Ok(Some(boxed_copy(alloc, guard)?)),
    }
}

// An equal rule in a box of its own.
#[cycle(copy)]
pub(crate) fn boxed_rule(alloc: Global, rule: &Boxed<Rule>) -> Result<Boxed<Rule>, AllocError>
    ensures { IfOk result (λ copy. copy ≡ rule.now) }
{
    Boxed::new(alloc, rule.get().copy(alloc)?)
}

// An equal rule, or none.
#[cycle(copy)]
fn else_copy(alloc: Global, rule: &Option<Boxed<Rule>>) -> Result<Option<Boxed<Rule>>, AllocError>
    ensures { IfOk result (λ copy. copy ≡ rule.now) }
{
    match rule {
        None => Ok(None),
        Some(rule) => Ok(Some(Boxed::new(alloc, rule.get().copy(alloc)?)?)),
    }
}

// Equal rules.
#[cycle(copy)]
fn copy_rules(alloc: Global, rules: &[Rule]) -> Result<Rules, AllocError>
    ensures { IfOk result (λ copies. copies ≡ rules.now) }
{
    let mut copies = Items::new(alloc);
    for rule in rules {
        copies.push(rule.copy(alloc)?)?;
    }
    Ok(copies)
}

// An equal `forall`.
#[cycle(copy)]
fn forall_copy(
    alloc: Global,
    var: &Name,
    domain: &Name,
    guard: &Option<Boxed<Term>>,
    body: &Boxed<Rule>,
) -> Result<Rule, AllocError>
    ensures { IfOk result (λ copy. copy ≡ Rule.Forall var.now domain.now guard.now body.now) }
{
    Ok(Rule::Forall {
        var: var.copy(alloc)?,
        domain: domain.copy(alloc)?,
        guard: guard_copy(alloc, guard)?,
        body: Boxed::new(alloc, body.get().copy(alloc)?)?,
    })
}

// An equal `let`. The body comes first: the check measures the recursion by the first tree.
#[cycle(copy)]
fn let_copy(
    alloc: Global,
    body: &Boxed<Rule>,
    var: &Name,
    value: &Boxed<Term>,
) -> Result<Rule, AllocError>
    ensures { IfOk result (λ copy. copy ≡ Rule.Let var.now value.now body.now) }
{
    Ok(Rule::Let {
        var: var.copy(alloc)?,
        value: boxed_copy(alloc, value)?,
        body: Boxed::new(alloc, body.get().copy(alloc)?)?,
    })
}

impl Rule {
    /// An equal rule, in memory of its own.
    #[cycle(copy)]
    pub fn copy(&self, alloc: Global) -> Result<Rule, AllocError>
        ensures { IfOk result (λ copy. copy ≡ self.now) }
    {
        match self {
            Rule::Skip => Ok(Rule::Skip),
            Rule::Update { name, args, value } => Ok(Rule::Update {
                name: name.copy(alloc)?,
                args: copy_all(alloc, args.as_slice())?,
                value: boxed_copy(alloc, value)?,
            }),
            Rule::If {
                guard,
                then_rule,
                else_rule,
            } => Ok(Rule::If {
                guard: boxed_copy(alloc, guard)?,
                then_rule: boxed_rule(alloc, then_rule)?,
                else_rule: else_copy(alloc, else_rule)?,
            }),
            Rule::Par(parts) => Ok(Rule::Par(copy_rules(alloc, parts.as_slice())?)),
            Rule::Forall {
                var,
                domain,
                guard,
                body,
            } => forall_copy(alloc, var, domain, guard, body),
            Rule::Choose {
                var,
                domain,
                guard,
                body,
                else_rule,
            } => Ok(Rule::Choose {
                var: var.copy(alloc)?,
                domain: domain.copy(alloc)?,
                guard: boxed_copy(alloc, guard)?,
                body: boxed_rule(alloc, body)?,
                else_rule: else_copy(alloc, else_rule)?,
            }),
            Rule::Let { var, value, body } => let_copy(alloc, body, var, value),
        }
    }
}

// Whether a guard has a text within this depth. None has one at any depth.
pub(crate) fn guard_within(guard: &Option<Boxed<Term>>, depth: usize) -> bool
    ensures { result ≡ guard_within depth guard.now }
{
    match guard {
        None => true,
        Some(guard) => guard.get().is_within(depth),
    }
}

// Whether a rule has a text within this depth. None has one at any depth.
#[cycle(rule_within)]
fn else_within(rule: &Option<Boxed<Rule>>, depth: usize) -> bool
    ensures { result ≡ else_within depth rule.now }
{
    match rule {
        None => true,
        Some(rule) => rule.get().is_within(depth),
    }
}

// Whether each rule has a text within this depth.
#[cycle(rule_within)]
fn rules_within(rules: &[Rule], depth: usize) -> bool
    ensures { result ≡ rules_within depth rules.now }
{
    for rule in rules {
        if !rule.is_within(depth) {
            return false;
        }
    }
    true
}

impl Rule {
    /// Whether the rule is no deeper than `depth`, each number in it is at most 2147483647, and no
    /// `par` is empty. It recurses no deeper than `depth`, and takes no memory.
    #[cycle(rule_within)]
    #[tactic(auto, using(crate::proofs::WithinRules::levels))]
    pub fn is_within(&self, depth: usize) -> bool
        ensures { result ≡ rule_within depth self.now }
    {
        if depth == 0 {
            return false;
        }
        let inner = depth - 1;
        match self {
            Rule::Skip => true,
            Rule::Update { args, value, .. } => {
                are_within(args.as_slice(), inner) && value.get().is_within(inner)
            }
            Rule::If {
                guard,
                then_rule,
                else_rule,
            } => {
                if !guard.get().is_within(inner) {
                    return false;
                }
                then_rule.get().is_within(inner) && else_within(else_rule, inner)
            }
            Rule::Par(parts) => parts.len() != 0 && rules_within(parts.as_slice(), inner),
            Rule::Forall { guard, body, .. } => {
                guard_within(guard, inner) && body.get().is_within(inner)
            }
            Rule::Choose {
                guard,
                body,
                else_rule,
                ..
            } => {
                if !guard.get().is_within(inner) {
                    return false;
                }
                body.get().is_within(inner) && else_within(else_rule, inner)
            }
            Rule::Let { value, body, .. } => {
                value.get().is_within(inner) && body.get().is_within(inner)
            }
        }
    }
}
