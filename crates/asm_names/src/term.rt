//! Terms. `place` is the number of the next token.

ghost use Rattle.std.specs.Prelude.{◌≡◌, ℕ, pos, ◌+◌, ◌++◌, ◌^◌, ◌<◌, cond, length, map, slice_get, Some};
ghost use Rattle.std.specs.Option.{option_copied, option_map};
ghost use Rattle.asm_tree.specs.declared.term.Term.{Term, Term-F};
ghost use Rattle.asm_tree.specs.declared.term.Term.TheFolds.{map-Term};
ghost use Rattle.asm_names.specs.declared.fault.NameFault.TheVariants as causes;
ghost use Rattle.asm_names.specs.declared.resolved_term.ResolvedTerm.TheVariants as resolved_terms;
ghost use Rattle.asm_names.specs.Sorts as sorts;
ghost use Rattle.asm_names.specs.Meanings.{meaning_of, sort_of};
ghost use Rattle.asm_names.specs.Table.{scope, known};
ghost use Rattle.asm_names.specs.Places.{term_tokens, parted, in_parentheses};
ghost use Rattle.asm_names.specs.Faults.{fault, Finds, Judges};
ghost use Rattle.asm_names.specs.TermFaults.{Part, term_sort, count_faults, each_faults, term_faults_by};
ghost use Rattle.asm_names.specs.Terms.{resolved_term};
ghost use Rattle.asm_names.specs.Judging.{JudgesTerm, JudgesLayer, layer_tokens, part};

use crate::fault::{NameEnd, NameFault, PlacedFault};
use crate::resolved_term::{ResolvedTerm, ResolvedTerms};
use crate::sort::{Need, Sort};
use crate::table::{Entry, Table};
use asm_tree::{Name, Op, Term, Terms};
use sqlite_items::{Boxed, Items};
use std::alloc::Global;

// The sort of two terms with this operator between them.
fn sort_of_op(op: Op) -> Sort
    ensures { result ≡ sorts.op_sort op }
{
    match op {
        Op::Add | Op::Sub => Sort::Int,
        Op::Eq | Op::Ne | Op::Lt | Op::Le | Op::Gt | Op::Ge | Op::And | Op::Or => Sort::Truth,
    }
}

// The sort of a name in a term.
fn sort_of_name(entry: Option<&Entry>) -> Option<Sort>
    ensures { result ≡ sort_of (option_map known (option_copied entry.entry)) }
{
    match entry? {
        Entry::Domain { .. } => None,
        Entry::Enumerator { domain, .. } => Some(Sort::List(*domain)),
        Entry::Function { values, .. } => Some(*values),
        Entry::Binder { sort, .. } => *sort,
    }
}

/// The sort of a term, where it has one. At a `cond` it is that of the second part.
#[tactic(auto, using(crate::proofs::Levels::sort_rules))]
pub(crate) fn sort_of_term(table: &Table, term: &Term) -> Option<Sort>
    ensures { result ≡ term_sort (scope table.now) term.now }
{
    match term {
        Term::Number(_) | Term::Min(..) | Term::Max(..) => Some(Sort::Int),
        Term::Apply { name, .. } => sort_of_name(table.find(name)),
        Term::Binary { op, .. } => Some(sort_of_op(*op)),
        Term::Not(_) => Some(Sort::Truth),
        Term::Cond(_, first, _) => sort_of_term(table, first.get()),
    }
}

/// The fault of a term of this sort at this token, where its place refuses the sort.
#[tactic(auto, unfolding(crate::specs::Faults::first_end))]
pub(crate) fn check_sort(need: Need, sort: Option<Sort>, token: u32) -> Result<(), PlacedFault>
    ensures { Finds (fault causes.Sort token (sorts.refuses need sort)) result (λ _. Unit {0}) }
{
    if need.refuses(sort) {
        return Err(PlacedFault::at(token, NameFault::Sort));
    }
    Ok(())
}

/// The fault of a name at this token that has `count` terms behind it and takes `arity`.
#[tactic(auto, unfolding(crate::specs::Faults::first_end))]
pub(crate) fn check_count(arity: usize, count: usize, token: u32) -> Result<(), PlacedFault>
    ensures { Finds (count_faults (Some arity) count token) result (λ _. Unit {0}) }
{
    if arity != count {
        return Err(PlacedFault::at(token, NameFault::Count));
    }
    Ok(())
}

// A number.
#[tactic(auto, unfolding(crate::specs::Faults::first_end))]
fn number(place: &mut u32, value: u32, need: Need) -> Result<ResolvedTerm, PlacedFault>
    requires { place.old + 1 < 2 ^ 32 }
    ensures { Finds (fault causes.Sort place.old (sorts.refuses need (Some Sort.Int))) result
        (λ n. (n ≡ resolved_terms.Number (pos value)) × (place.new ≡ place.old + 1)) }
{
    check_sort(need, Some(Sort::Int), *place)?;
    *place += 1;
    Ok(ResolvedTerm::Number(i64::from(value)))
}

// What the place of the argument at this index needs.
fn need_at(args: &[Sort], index: usize) -> Need
    ensures { result ≡ sorts.same_as (slice_get args.now index) }
{
    match args.get(index) {
        None => Need::Anything,
        Some(sort) => Need::Only(*sort),
    }
}

// One term after another, each with the sort that its place needs.
#[cycle(term)]
#[tactic(auto, using(crate::proofs::Firsts::first_rules))]
fn separated(
    alloc: Global,
    table: &Table,
    place: &mut u32,
    sorts: &[Sort],
    args: &[Term],
) -> Result<ResolvedTerms, NameEnd>
    requires as_many { length sorts.now ≡ length args.now }
    requires room { place.old + parted (map term_tokens args.now) < 2 ^ 32 }
    ensures { Judges (each_faults (map Some sorts.now) (map (part (scope table.now)) args.now) place.old) result
        (λ terms. (terms ≡ map (resolved_term (scope table.now)) args.now) × (place.new ≡ place.old + parted (map term_tokens args.now))) }
{
    let mut resolved = Items::new(alloc);
    for (i, arg) in args.iter().enumerate() {
        resolved.push(term(alloc, table, place, arg, need_at(sorts, i))?)?;
        *place += 1;
    }
    Ok(resolved)
}

/// The terms in parentheses behind a name, if there are any.
#[cycle(term)]
#[tactic(auto, using(crate::proofs::Firsts::first_rules))]
pub(crate) fn in_parentheses(
    alloc: Global,
    table: &Table,
    place: &mut u32,
    sorts: &[Sort],
    args: &[Term],
) -> Result<ResolvedTerms, NameEnd>
    requires as_many { length sorts.now ≡ length args.now }
    requires room { place.old + in_parentheses (map term_tokens args.now) < 2 ^ 32 }
    ensures { Judges (each_faults (map Some sorts.now) (map (part (scope table.now)) args.now) (place.old + 1)) result
        (λ terms. (terms ≡ map (resolved_term (scope table.now)) args.now) × (place.new ≡ place.old + in_parentheses (map term_tokens args.now))) }
{
    if args.is_empty() {
        return Ok(Items::new(alloc));
    }
    *place += 1;
    separated(alloc, table, place, sorts, args)
}

// A name of this arity and sort, at its own token.
#[tactic(auto, using(crate::proofs::Firsts::first_rules))]
fn pass_name(
    place: &mut u32,
    arity: usize,
    count: usize,
    sort: Option<Sort>,
    need: Need,
) -> Result<(), PlacedFault>
    requires { place.old + 1 < 2 ^ 32 }
    ensures { Finds (count_faults (Some arity) count place.old ++ fault causes.Sort place.old (sorts.refuses need sort)) result
        (λ _. place.new ≡ place.old + 1) }
{
    check_count(arity, count, *place)?;
    check_sort(need, sort, *place)?;
    *place += 1;
    Ok(())
}

// A name with the terms behind it.
#[cycle(term)]
#[tactic(auto, using(crate::proofs::Firsts::apply_rules), unfolding(crate::specs::Faults::first_end))]
fn apply(
    alloc: Global,
    table: &Table,
    place: &mut u32,
    name: &Name,
    args: &Terms,
    need: Need,
) -> Result<ResolvedTerm, NameEnd>
    requires { place.old + layer_tokens (Term-F.Apply name.now args.now) < 2 ^ 32 }
    ensures { JudgesLayer (scope table.now) (Term-F.Apply name.now args.now) need place.old result place.new }
{
    match table.find(name) {
        None | Some(Entry::Domain { .. }) => Err(NameEnd::at(*place, NameFault::Unknown)),
        Some(Entry::Enumerator { domain, index }) => {
            pass_name(place, 0, args.len(), Some(Sort::List(*domain)), need)?;
            Ok(ResolvedTerm::Number(i64::from(*index)))
        }
        Some(
            Entry::Function {
                number,
                args: sorts,
                values,
                ..
            },
        ) => {
            pass_name(place, sorts.len(), args.len(), Some(*values), need)?;
            let args = in_parentheses(alloc, table, place, sorts.as_slice(), args.as_slice())?;
            Ok(ResolvedTerm::Read { fun: *number, args })
        }
        Some(Entry::Binder { number, sort }) => {
            pass_name(place, 0, args.len(), *sort, need)?;
            Ok(ResolvedTerm::Var(*number))
        }
    }
}

// What the operator needs of the term before it.
fn left_need(op: Op) -> Need
    ensures { result ≡ sorts.left_need op }
{
    match op {
        Op::Add | Op::Sub | Op::Lt | Op::Le | Op::Gt | Op::Ge => Need::Only(Sort::Int),
        Op::Eq | Op::Ne => Need::NotTruth,
        Op::And | Op::Or => Need::Only(Sort::Truth),
    }
}

// What it needs of the term after it, by the sort of the one before.
fn right_need(op: Op, left: Option<Sort>) -> Need
    ensures { result ≡ sorts.right_need op left }
{
    match op {
        Op::Eq | Op::Ne => Need::same_as(left),
        _ => left_need(op),
    }
}

/// A term in a box of its own.
#[cycle(term)]
#[tactic(auto, using(crate::proofs::Firsts::first_rules))]
pub(crate) fn boxed(
    alloc: Global,
    table: &Table,
    place: &mut u32,
    part: &Boxed<Term>,
    need: Need,
) -> Result<Boxed<ResolvedTerm>, NameEnd>
    requires { place.old + term_tokens part.now < 2 ^ 32 }
    ensures { JudgesTerm (scope table.now) part.now need place.old result place.new }
{
    Ok(Boxed::new(alloc, term(alloc, table, place, part.get(), need)?)?)
}

// `( left op right )`
#[cycle(term)]
#[tactic(auto, using(crate::proofs::Firsts::first_rules))]
fn binary(
    alloc: Global,
    table: &Table,
    place: &mut u32,
    op: Op,
    left: &Boxed<Term>,
    right: &Boxed<Term>,
    need: Need,
) -> Result<ResolvedTerm, NameEnd>
    requires { place.old + layer_tokens (Term-F.Binary op left.now right.now) < 2 ^ 32 }
    ensures { JudgesLayer (scope table.now) (Term-F.Binary op left.now right.now) need place.old result place.new }
{
    check_sort(need, Some(sort_of_op(op)), *place)?;
    *place += 1;
    let before = boxed(alloc, table, place, left, left_need(op))?;
    *place += 1;
    let after = boxed(
        alloc,
        table,
        place,
        right,
        right_need(op, sort_of_term(table, left.get())),
    )?;
    *place += 1;
    Ok(ResolvedTerm::Binary {
        op,
        left: before,
        right: after,
    })
}

// `not inner`
#[cycle(term)]
#[tactic(auto, using(crate::proofs::Firsts::first_rules))]
fn negation(
    alloc: Global,
    table: &Table,
    place: &mut u32,
    inner: &Boxed<Term>,
    need: Need,
) -> Result<ResolvedTerm, NameEnd>
    requires { place.old + layer_tokens (Term-F.Not inner.now) < 2 ^ 32 }
    ensures { JudgesLayer (scope table.now) (Term-F.Not inner.now) need place.old result place.new }
{
    check_sort(need, Some(Sort::Truth), *place)?;
    *place += 1;
    Ok(ResolvedTerm::Not(boxed(alloc, table, place, inner, Need::Only(Sort::Truth))?))
}

// Two terms of sort Int in parentheses, behind `min` where the lesser is wanted, and else behind `max`.
#[cycle(term)]
#[tactic(auto, using(crate::proofs::Firsts::first_rules))]
fn pair(
    alloc: Global,
    table: &Table,
    place: &mut u32,
    first: &Boxed<Term>,
    second: &Boxed<Term>,
    need: Need,
    lesser: bool,
) -> Result<ResolvedTerm, NameEnd>
    requires { place.old + layer_tokens (Term-F.Min first.now second.now) < 2 ^ 32 }
    ensures { Judges (term_faults_by (scope table.now) (map-Term Term Part (part (scope table.now)) (Term-F.Min first.now second.now)) need place.old) result
        (λ n. (n ≡ cond lesser (resolved_terms.Min (resolved_term (scope table.now) first.now) (resolved_term (scope table.now) second.now)) (resolved_terms.Max (resolved_term (scope table.now) first.now) (resolved_term (scope table.now) second.now)))
        × (place.new ≡ place.old + layer_tokens (Term-F.Min first.now second.now))) }
{
    check_sort(need, Some(Sort::Int), *place)?;
    *place += 2;
    let before = boxed(alloc, table, place, first, Need::Only(Sort::Int))?;
    *place += 1;
    let after = boxed(alloc, table, place, second, Need::Only(Sort::Int))?;
    *place += 1;
    if lesser {
        return Ok(ResolvedTerm::Min(before, after));
    }
    Ok(ResolvedTerm::Max(before, after))
}

// `cond ( guard , first , second )`. The sort of the first value is the sort of all, so it is known before the guard is read.
#[cycle(term)]
#[tactic(auto, using(crate::proofs::Firsts::first_rules))]
fn conditional(
    alloc: Global,
    table: &Table,
    place: &mut u32,
    guard: &Boxed<Term>,
    first: &Boxed<Term>,
    second: &Boxed<Term>,
    need: Need,
) -> Result<ResolvedTerm, NameEnd>
    requires { place.old + layer_tokens (Term-F.Cond guard.now first.now second.now) < 2 ^ 32 }
    ensures { JudgesLayer (scope table.now) (Term-F.Cond guard.now first.now second.now) need place.old result place.new }
{
    let sort = sort_of_term(table, first.get());
    check_sort(need, sort, *place)?;
    *place += 2;
    let guard = boxed(alloc, table, place, guard, Need::Only(Sort::Truth))?;
    *place += 1;
    let first = boxed(alloc, table, place, first, Need::NotTruth)?;
    *place += 1;
    let second = boxed(alloc, table, place, second, Need::same_as(sort))?;
    *place += 1;
    Ok(ResolvedTerm::Cond(guard, first, second))
}

/// The first fault of a term at a place that needs this of its sort, or the term in numbers.
#[cycle(term)]
#[tactic(auto, using(crate::proofs::Firsts::first_rules))]
pub(crate) fn term(
    alloc: Global,
    table: &Table,
    place: &mut u32,
    term: &Term,
    need: Need,
) -> Result<ResolvedTerm, NameEnd>
    requires { place.old + term_tokens term.now < 2 ^ 32 }
    ensures { JudgesTerm (scope table.now) term.now need place.old result place.new }
{
    match term {
        Term::Number(value) => Ok(number(place, *value, need)?),
        Term::Apply { name, args } => apply(alloc, table, place, name, args, need),
        Term::Binary { op, left, right } => { binary(alloc, table, place, *op, left, right, need) }
        Term::Not(inner) => negation(alloc, table, place, inner, need),
        Term::Min(first, second) => pair(alloc, table, place, first, second, need, true),
        Term::Max(first, second) => pair(alloc, table, place, first, second, need, false),
        Term::Cond(guard, first, second) => {
            conditional(alloc, table, place, guard, first, second, need)
        }
    }
}
