//! The binders of a rule.

ghost use Rattle.std.specs.Prelude.{◌≡◌, ◌++◌, map, IfOk, OnOk};
ghost use Rattle.asm_names.specs.Binders.{joined, kinds_in};

use crate::resolved_rule::ResolvedRule;
use sqlite_items::Items;
use std::alloc::{AllocError, Global};

/// What a binder is.
#[derive(Clone, Copy, Debug, PartialEq, Eq)]
pub enum Binder {
    /// An element of the domain with this number, by a `forall` or a `choose`.
    Element { domain: u32 },
    /// The value of a term, by a `let`.
    Local,
}

// Puts what the binders of rules in turn are behind those before them.
#[cycle(list_binders)]
fn list_each(rules: &[ResolvedRule], found: &mut Items<Binder>) -> Result<(), AllocError>
    ensures { OnOk result (found.new ≡ found.old ++ joined (map kinds_in rules.now)) }
{
    for rule in rules {
        list_binders(rule, found)?;
    }
    Ok(())
}

// Puts what the binders of a rule are behind those before them, in the order of the text.
#[cycle(list_binders)]
fn list_binders(rule: &ResolvedRule, found: &mut Items<Binder>) -> Result<(), AllocError>
    ensures { OnOk result (found.new ≡ found.old ++ kinds_in rule.now) }
{
    match rule {
        ResolvedRule::Skip => {}
        ResolvedRule::Update { .. } => {}
        ResolvedRule::If {
            then_rule,
            else_rule,
            ..
        } => {
            list_binders(then_rule.get(), found)?;
            list_binders(else_rule.get(), found)?;
        }
        ResolvedRule::Par(rules) => list_each(rules.as_slice(), found)?,
        ResolvedRule::Forall { domain, body, .. } => {
            found.push(Binder::Element { domain: *domain })?;
            list_binders(body.get(), found)?;
        }
        ResolvedRule::Choose {
            domain,
            body,
            else_rule,
            ..
        } => {
            found.push(Binder::Element { domain: *domain })?;
            list_binders(body.get(), found)?;
            list_binders(else_rule.get(), found)?;
        }
        ResolvedRule::Let { body, .. } => {
            found.push(Binder::Local)?;
            list_binders(body.get(), found)?;
        }
    }
    Ok(())
}

/// What each binder of a rule is, in the order of the text.
pub(crate) fn binders_of(alloc: Global, rule: &ResolvedRule) -> Result<Items<Binder>, AllocError>
    ensures { IfOk result (λ found. found ≡ kinds_in rule.now) }
{
    let mut found = Items::new(alloc);
    list_binders(rule, &mut found)?;
    Ok(found)
}
