//! The rule of a program without loops.

ghost use Rattle.std.specs.Prelude.{◌≡◌, ◌≤◌, true, None, replicate, IfOk};
ghost use Rattle.asm_ranges.specs.Ranges.{unscoped};
ghost use Rattle.bound_count.specs.declared.shape.Shape.TheVariants as shapes;
ghost use Rattle.bound_count.specs.RuleWeights.{rule_words, rule_registers};
ghost use Rattle.rule_expand.specs.{Expanding.{expanded}, FlatSums.{flat_sums_fit}, FlatNew.{flat_new}, FlatDefined.{MeetsDefined}, FlatUpdates.{HasLeastUpdates, HasPermittedUpdates}, FlatWeights.{flat_weight, flat_registers}};

use crate::expansion::Expansion;
use crate::flat::Flat;
use asm_names::Resolved;
use asm_ranges::Checked;
use std::alloc::{AllocError, Global};

// The binders before any has a number.
fn unnumbered(alloc: Global, binders: u32) -> Result<Vec<Option<i64>>, AllocError>
    ensures { IfOk result (λ numbers. numbers.items ≡ replicate binders None) }
{
    vec![in alloc; None; binders as usize]
}

// The rule of a program, written out.
fn written_out(alloc: Global, program: &Resolved) -> Result<Flat, AllocError>
    ensures { IfOk result (λ flat. flat ≡ expanded program.now.domains program.now.rule (replicate program.now.binders None)) }
{
    let expansion = Expansion {
        alloc,
        domains: program.domains.as_slice(),
    };
    let mut numbers = unnumbered(alloc, program.binders)?;
    expansion.rule(program.rule.get(), &mut numbers)
}

/// The rule of a program without `forall` and `choose`: a `forall` is all its bodies at once, and a `choose` the first of
/// its bodies whose guard holds, each with an element's number in the place of the binder.
///
/// Its updates are those that the program's rule yields with the least choices. No binder stands in its terms but the `let`
/// binders around them, and no sum passes 32 signed bits where these have their ranges. Each term that is met is defined:
/// its functions are read inside their domains. It weighs no more than the program's rule does unrolled, so that a program
/// that fits a machine unrolled has few rules here.
///
/// # Errors
///
/// `AllocError` where there is no memory for the rule.
pub fn expand(alloc: Global, checked: &Checked) -> Result<Flat, AllocError>
    ensures updates { IfOk result (λ flat. HasLeastUpdates checked.now flat) }
    ensures permitted { IfOk result (λ flat. HasPermittedUpdates checked.now flat) }
    ensures sums { IfOk result (λ flat. flat_sums_fit checked.now flat unscoped ≡ true) }
    ensures new { IfOk result (λ flat. flat_new checked.now flat unscoped ≡ true) }
    ensures met { IfOk result (λ flat. MeetsDefined checked.now flat) }
    ensures weight { IfOk result (λ flat. flat_weight flat ≤ rule_words shapes.Unrolled checked.now.domains checked.now.rule) }
    ensures registers { IfOk result (λ flat. flat_registers flat ≤ rule_registers checked.now.rule) }
{
    written_out(alloc, checked.resolved())
}
