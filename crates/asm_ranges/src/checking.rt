//! The ranges of whole programs.

ghost use Rattle.std.specs.{Prelude.{◌≡◌, ◌+◌, ◌^◌, ◌≤◌, ◌<◌, [], true, length, pos, replicate, MatchOption}, List.{AllByRecursion}};
ghost use Rattle.asm_names.specs.{Places.{program_tokens}, ResolvedPlaces.{resolved_rule_tokens}, WellFormed.{IsWellFormed}};
ghost use Rattle.state_space.specs.Locations.{signatures_of};
ghost use Rattle.asm_ranges.specs.{Faults.{Ascending, Judges}, Contexts.{IsReady, legible, small_numbers, signatures_in}, FindingRules.{Passes, all_words}, Keeping.{Keeps}, Rows.{intervals_after}};
ghost use Rattle.asm_ranges.specs.Ranges as intervals;
ghost use Rattle.asm_ranges.specs.RangeFaults as ranges;

use crate::checked::Checked;
use crate::context::Context;
use crate::fault::RangeEnd;
use crate::finding::just;
use crate::plain::RangeChecker;
use crate::tables::tables;
use asm_names::{Domain, Fun, Interval, Resolved, ResolvedRule, ResolvedTerm, tokens_are_kept};
use sqlite_items::{Boxed, Items};

// Each interval is from 0 to 0.
fn clear(row: &mut Items<Interval>)
    ensures { row.new ≡ replicate (length row.old) (intervals.just (pos 0)) }
{
    for index in 0..row.len() {
        row.set(index, just(0));
    }
}

// The first fault of the term behind `legal`, which is the token at this number, or the place after it.
fn legal(
    domains: &[Domain],
    funs: &[Fun],
    term: &Option<Boxed<ResolvedTerm>>,
    at: u32,
) -> Result<u32, RangeEnd>
    requires ready { IsReady domains.now funs.now }
    requires small { MatchOption term.now (Unit {0}) (λ legal. small_numbers legal ≡ true) }
    requires room { at + ranges.legal_tokens term.now ≤ 2 ^ 31 }
    ensures { Judges (ranges.legal_faults (signatures_in domains.now funs.now) term.now at) result (λ after. after ≡ at + ranges.legal_tokens term.now) }
{
    let checker = RangeChecker { domains, funs };
    match term {
        None => Ok(at),
        Some(term) => {
            let found = checker.term(&Context::Outermost(&[]), term.get(), None, at + 1);
            match found.fault {
                Some(end) => Err(end),
                None => Ok(found.after),
            }
        }
    }
}

// The first fault of the rule of a program, or the place after it. Each of its binders then has its interval in the row.
fn outermost(
    domains: &[Domain],
    funs: &[Fun],
    row: &mut Items<Interval>,
    rule: &ResolvedRule,
    at: u32,
) -> Result<u32, RangeEnd>
    requires ready { IsReady domains.now funs.now }
    requires words { all_words row.old ≡ true }
    requires legible { legible domains.now rule.now 0 ≡ true }
    requires room { at + resolved_rule_tokens rule.now ≤ 2 ^ 31 }
    ensures { Judges (ranges.rule_faults domains.now (signatures_in domains.now funs.now) rule.now intervals.unscoped [] at) result
        (λ after. Passes (resolved_rule_tokens rule.now) (intervals_after domains.now (signatures_in domains.now funs.now) rule.now intervals.unscoped row.old) at after row.new) }
{
    let checker = RangeChecker { domains, funs };
    checker.rule(&Context::Outermost(&[]), row, rule, at)
}

// The same program with the intervals of its binders, or the first fault of its rule, whose first token has this number.
fn fill(resolved: Resolved, at: u32) -> Result<Resolved, RangeEnd>
    requires well_formed { IsWellFormed resolved }
    requires room { at + resolved_rule_tokens resolved.rule ≤ 2 ^ 31 }
    ensures { Judges (ranges.rule_faults resolved.domains (signatures_of resolved) resolved.rule intervals.unscoped [] at) result (λ found. Keeps resolved found × (all_words found.intervals ≡ true)) }
{
    let Resolved {
        source,
        name,
        domains,
        funs,
        binders,
        binder_table,
        mut intervals,
        legal,
        rule,
    } = resolved;
    clear(&mut intervals);
    outermost(
        domains.as_slice(),
        funs.as_slice(),
        &mut intervals,
        rule.get(),
        at,
    )?;
    Ok(Resolved {
        source,
        name,
        domains,
        funs,
        binders,
        binder_table,
        intervals,
        legal,
        rule,
    })
}

/// The first fault of a program's ranges, or the same program with the intervals of its binders.
#[tactic(auto, using(crate::proofs::Firsts::first_rules))]
fn judge(resolved: Resolved) -> Result<Resolved, RangeEnd>
    requires well_formed { IsWellFormed resolved }
    requires room { ranges.text_tokens resolved < 2 ^ 31 }
    ensures { Judges (ranges.range_faults resolved) result (λ found. Keeps resolved found × (all_words found.intervals ≡ true)) }
{
    let after = tables(
        resolved.domains.as_slice(),
        resolved.source.decls().as_slice(),
        resolved.funs.as_slice(),
    )?;
    let after = legal(
        resolved.domains.as_slice(),
        resolved.funs.as_slice(),
        &resolved.legal,
        after,
    )?;
    fill(resolved, after + 1)
}

/// The program with the intervals of its binders, if none of its ranges has a fault, and else the first fault. The
/// program's text has fewer than 2,147,483,648 tokens. The call takes no memory, and its recursion is as deep as the
/// program's terms and rules.
pub fn check(resolved: Resolved) -> Result<Checked, RangeEnd>
    requires { program_tokens resolved.source < 2 ^ 31 }
    ensures first { Judges (ranges.range_faults resolved) result (λ checked. Keeps resolved checked) }

    // The faults are listed by token, and at one token a sum too wide before a value outside, so the first has the least
    // token.
    ensures ordered { Ascending (ranges.range_faults resolved) }
{
    tokens_are_kept();
    resolved.comes_from_faultless();
    let found = judge(resolved)?;
    found.comes_from_faultless();
    Ok(Checked::new(found))
}
