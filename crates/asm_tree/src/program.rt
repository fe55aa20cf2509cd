//! Programs: a name, declarations, a legal term and a rule that together have a text.

ghost use Rattle.std.specs.Prelude.{◌≡◌, ◌&&◌, Option, Some, true, IfOk, MatchOption};
ghost use Rattle.std.specs.Option.{option_copied};
ghost use Rattle.asm_tree.specs.Forms.{guard_within, rule_within};
ghost use Rattle.asm_tree.specs.Programs.{Parts, IsProgram, decls_fit};

use crate::decl::{Decl, Decls};
use crate::name::Name;
use crate::rule::{Rule, boxed_rule, guard_copy, guard_within};
use crate::term::Term;
use sqlite_items::{Boxed, Items};
use std::alloc::{AllocError, Global};
use std::marker::Model;

/// The greatest depth of a program's rule and of its legal term. A term or rule without parts has
/// depth 1.
pub const MAX_DEPTH: usize = 48;

/// A program that some text has. Contracts see it as its parts, a `Parts`.
///
/// So its rule and its legal term have depth at most 48, no `par` is empty, each number in a term is
/// at most 2147483647, each bound and constant is from -2147483647 to 2147483647, each list domain
/// has a name, and the static functions are those with a table.
#[derive(Drop)]
pub struct Program {
    name: Name,
    decls: Decls,
    legal: Option<Boxed<Term>>,
    rule: Boxed<Rule>,
}

impl Model for Program {
    ghost use Rattle.std.specs.Coded.{codes};
    ghost use Rattle.asm_tree.specs.Programs.{Parts, IsProgram};
    ghost use Rattle.asm_tree.specs.contracts.term.Term as term_type;
    ghost use Rattle.asm_tree.specs.contracts.rule.Rule as rule_type;

    ghost Value = { Parts };

    ghost coded = { Prim.hlevel (codes, term_type.the_row.coded, rule_type.the_row.coded) };

    ghost view = { λ p. record { name = p.name; decls = p.decls; legal = p.legal; rule = p.rule } };

    ghost invariant = { λ p. IsProgram (record { name = p.name; decls = p.decls; legal = p.legal; rule = p.rule }) };
}

// Whether each declaration has a text.
fn decls_fit(decls: &[Decl]) -> bool
    ensures { result ≡ decls_fit decls.now }
{
    for decl in decls {
        if !decl.fits() {
            return false;
        }
    }
    true
}

// Whether the parts have a text.
fn parts_fit(decls: &Decls, legal: &Option<Boxed<Term>>, rule: &Boxed<Rule>) -> bool
    ensures { result ≡ (decls_fit decls.now && (guard_within 48 legal.now && rule_within 48 rule.now)) }
{
    if !decls_fit(decls.as_slice()) {
        return false;
    }
    guard_within(legal, MAX_DEPTH) && rule.get().is_within(MAX_DEPTH)
}

// Equal declarations.
fn copy_decls(alloc: Global, decls: &[Decl]) -> Result<Decls, AllocError>
    ensures { IfOk result (λ copies. copies ≡ decls.now) }
{
    let mut copies = Items::new(alloc);
    for decl in decls {
        copies.push(decl.copy(alloc)?)?;
    }
    Ok(copies)
}

impl Program {
    /// The program of these parts, or `None` exactly where no text has them. Takes no memory.
    pub fn new(
        name: Name,
        decls: Decls,
        legal: Option<Boxed<Term>>,
        rule: Boxed<Rule>,
    ) -> Option<Program>
        ensures { let parts : Parts = record { name = name; decls = decls; legal = legal; rule = rule } in
            MatchOption result (IsProgram parts → ⊥) (λ program. program ≡ parts) }
    {
        if !parts_fit(&decls, &legal, &rule) {
            return None;
        }
        Some(Program {
            name,
            decls,
            legal,
            rule,
        })
    }

    /// The machine's name.
    pub fn name(&self) -> &Name
        ensures { result.now ≡ self.now.name }
    {
        &self.name
    }

    /// The declarations, in the order of the text.
    pub fn decls(&self) -> &Decls
        ensures { result.now ≡ self.now.decls }
    {
        &self.decls
    }

    /// The term that says which states are legal, or `None` where the text has none.
    pub fn legal(&self) -> Option<&Term>
        ensures { option_copied result ≡ self.now.legal }
    {
        match &self.legal {
            None => None,
            Some(term) => Some(term.get()),
        }
    }

    /// The rule of one step.
    pub fn rule(&self) -> &Rule
        ensures rule { result.now ≡ self.now.rule }
        ensures program { IsProgram self.now }
    {
        self.rule.get()
    }

    /// An equal program, in memory of its own.
    pub fn copy(&self, alloc: Global) -> Result<Program, AllocError>
        ensures { IfOk result (λ copy. copy ≡ self.now) }
    {
        Ok(Program {
            name: self.name.copy(alloc)?,
            decls: copy_decls(alloc, self.decls.as_slice())?,
            legal: guard_copy(alloc, &self.legal)?,
            rule: boxed_rule(alloc, &self.rule)?,
        })
    }
}
