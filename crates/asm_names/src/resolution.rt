//! The names of whole programs.

ghost use Rattle.std.specs.Prelude.{◌≡◌, [], ℕ, ◌+◌, ◌^◌, ◌<◌, pos, replicate, IfOk};
ghost use Rattle.asm_names.specs.Table.{scope};
ghost use Rattle.asm_names.specs.Places.{decls_tokens, program_tokens, rule_binders};
ghost use Rattle.asm_names.specs.Faults.{Judges};
ghost use Rattle.asm_names.specs.Order.{Ascending};
ghost use Rattle.asm_names.specs.DeclFaults.{decls_faults, names_after};
ghost use Rattle.asm_names.specs.Programs.{program_faults, resolved_domains, resolved_funs};
ghost use Rattle.asm_names.specs.Resolving.{Resolves};

use crate::binders::binders_of;
use crate::declarations::Declarations;
use crate::fault::NameEnd;
use crate::program::{Interval, Resolved};
use crate::rule::Walk;
use crate::table::Table;
use asm_tree::{Decl, Program};
use sqlite_items::{Boxed, Items};
use std::alloc::{AllocError, Global};

// The declarations of a program, the first token of which is its third.
#[tactic(auto, using(crate::proofs::Firsts::first_rules))]
fn declare_all(alloc: Global, decls: &[Decl]) -> Result<Declarations, NameEnd>
    requires { 3 + decls_tokens decls.now < 2 ^ 32 }
    ensures { Judges (decls_faults [] decls.now 3) result
        (λ found. (scope found.table ≡ names_after [] decls.now) × (found.place ≡ 3 + decls_tokens decls.now)
        × (found.domains ≡ resolved_domains decls.now) × (found.funs ≡ resolved_funs [] decls.now)) }
{
    let mut found = Declarations {
        table: Table::new(alloc),
        place: 3,
        domains: Items::new(alloc),
        funs: Items::new(alloc),
    };
    for decl in decls {
        found.declaration(alloc, decl)?;
    }
    Ok(found)
}

// As many intervals from 0 to 0.
fn no_intervals(alloc: Global, count: u32) -> Result<Items<Interval>, AllocError>
    ensures { IfOk result (λ intervals. intervals ≡ replicate count (record { lo = pos 0; hi = pos 0 })) }
{
    let intervals = vec![in alloc; Interval { lo: 0, hi: 0 }; count as usize]?;
    Ok(Items::from_vec(intervals))
}

/// The program with its names replaced by numbers. Err with the first fault of its names and sorts, which has the least
/// token, and there the least code; or where memory runs out. The program has fewer than 2,147,483,648 tokens. The
/// recursion is as deep as the program's terms and rules.
#[tactic(auto, using(crate::proofs::Firsts::first_rules))]
pub fn resolve(alloc: Global, program: &Program) -> Result<Resolved, NameEnd>
    requires { program_tokens program.now < 2 ^ 31 }
    ensures first { Judges (program_faults program.now) result (λ resolved. Resolves program.now resolved
        × (resolved.intervals ≡ replicate (rule_binders program.now.rule) (record { lo = pos 0; hi = pos 0 }))) }

    // The faults are listed by token, and at one token by code, so the first has the least token, and there the least
    // code.
    ensures ordered { Ascending (program_faults program.now) }
{
    let Declarations {
        table,
        place,
        domains,
        funs,
    } = declare_all(alloc, program.decls().as_slice())?;
    let mut walk = Walk {
        table,
        place,
        binders: 0,
    };
    let legal = walk.legal(alloc, program)?;
    walk.place += 1;
    let rule = Boxed::new(alloc, walk.rule(alloc, program.rule())?)?;
    let binder_table = binders_of(alloc, rule.get())?;
    Ok(Resolved {
        source: program.copy(alloc)?,
        name: program.name().copy(alloc)?,
        domains,
        funs,
        binders: walk.binders,
        binder_table,
        intervals: no_intervals(alloc, walk.binders)?,
        legal,
        rule,
    })
}
