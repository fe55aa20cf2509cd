//! The code of rules without loops.

ghost use Rattle.std.specs.Prelude.{◌≡◌, ◌<◌, IfOk, map, slice_get};
ghost use Rattle.std.specs.List.{All};
ghost use Rattle.block_code.specs.Plan as plan;
ghost use Rattle.block_code.specs.Tree.{plan_of};
ghost use Rattle.state_layout.specs.Map.{args_of};
ghost use Rattle.instr_select.specs.Terms as terms;
ghost use Rattle.staged_commit.specs.Code as staging;
ghost use Rattle.staged_commit.specs.Law.{HasState};
ghost use Rattle.rule_code.specs.Code as code;
ghost use Rattle.rule_code.specs.Codable.{IsCaseCodable, IsCodable, IsPrepared, IsTermCodable, IsUpdateCodable};

use crate::joining::{all, case, nothing, seq, unless_any};
use asm_names::ResolvedTerm;
use asm_ranges::Checked;
use block_code::sequence::store_fixed;
use block_code::{Instrs, Tree};
use instr_select::{select, select_index};
use rule_expand::Flat;
use staged_commit::{first_register, second_register, stage_update};
use state_layout::Map;
use state_space::Side;
use std::alloc::{AllocError, Global};
use trap_model::Width;

/// Writes the code of rules.
#[derive(Clone, Copy)]
pub(crate) struct RuleWriter<'a> {
    pub(crate) alloc: Global,
    pub(crate) checked: &'a Checked,
    pub(crate) map: &'a Map,
    pub(crate) tables: u32,
}

impl RuleWriter<'_> {
    // The value of a term, in the first register.
    fn term(self, term: &ResolvedTerm) -> Result<Tree, AllocError>
        requires prepared { IsPrepared self.checked.now self.map.now }
        requires codable { IsTermCodable self.checked.now term.now }
        ensures { IfOk result (λ tree. plan_of tree ≡ terms.term_plan self.entry.checked.now self.entry.map.now self.entry.tables term.now staging.first) }
    {
        let block = select(
            self.alloc,
            self.checked,
            self.map,
            term,
            first_register(),
            self.tables,
        )?;
        Ok(block.into_tree())
    }

    // The update of a function that has its values in the state.
    fn staged(
        self,
        fun: u32,
        args: &[ResolvedTerm],
        value: &ResolvedTerm,
    ) -> Result<Tree, AllocError>
        requires prepared { IsPrepared self.checked.now self.map.now }
        requires state { HasState self.map.now.signatures fun }
        requires codable { IsUpdateCodable self.checked.now args.now value.now }
        ensures { IfOk result (λ tree. plan_of tree ≡ staging.stage_update self.entry.map.now fun (staging.padded_at self.entry.map.now fun)
            (terms.index_plan (args_of (slice_get self.entry.map.now.signatures fun)) (map (terms.term_plan self.entry.checked.now self.entry.map.now self.entry.tables) args.now) staging.first)
            (terms.term_plan self.entry.checked.now self.entry.map.now self.entry.tables value.now staging.second)) }
    {
        let address = select_index(
            self.alloc,
            self.checked,
            self.map,
            fun,
            args,
            first_register(),
            self.tables,
        )?;
        let index = select(
            self.alloc,
            self.checked,
            self.map,
            value,
            second_register(),
            self.tables,
        )?;
        let block = stage_update(self.alloc, self.map, fun, address, index)?;
        Ok(block.into_tree())
    }

    // An update.
    fn update(
        self,
        fun: u32,
        args: &[ResolvedTerm],
        value: &ResolvedTerm,
    ) -> Result<Tree, AllocError>
        requires prepared { IsPrepared self.checked.now self.map.now }
        requires codable { IsUpdateCodable self.checked.now args.now value.now }
        ensures { IfOk result (λ tree. plan_of tree ≡ code.update_plan self.entry.map.now fun (slice_get self.entry.map.now.signatures fun)
            (map (terms.term_plan self.entry.checked.now self.entry.map.now self.entry.tables) args.now)
            (terms.term_plan self.entry.checked.now self.entry.map.now self.entry.tables value.now)) }
    {
        match self.map.space().signatures().get(fun as usize) {
            None => Ok(nothing(self.alloc)),
            Some(signature) => {
                if Side::State.holds(signature.kind) {
                    self.staged(fun, args, value)
                } else {
                    Ok(nothing(self.alloc))
                }
            }
        }
    }

    // A value becomes a binder's, for what stands behind.
    fn bound(self, binder: u32, value: Tree, body: Tree) -> Result<Tree, AllocError>
        requires prepared { IsPrepared self.checked.now self.map.now }
        requires known { binder < self.checked.now.binders }
        ensures { IfOk result (λ tree. plan_of tree ≡ plan.Seq (plan_of value) (plan.Seq (plan.Line (code.bind_line self.entry.map.now binder)) (plan_of body))) }
    {
        let mut line = Instrs::new(self.alloc);
        line.append(&store_fixed(Width::Word, first_register(), self.map.slot(binder)))?;
        let behind = seq(self.alloc, Tree::Line(line), body)?;
        seq(self.alloc, value, behind)
    }

    // A guard with its rule.
    #[cycle(rule)]
    fn case(self, rule: &Flat, guard: &ResolvedTerm) -> Result<Tree, AllocError>
        requires prepared { IsPrepared self.checked.now self.map.now }
        requires guard { IsTermCodable self.checked.now guard.now }
        requires rule { IsCodable self.checked.now rule.now }
        ensures { IfOk result (λ tree. plan_of tree ≡ code.case_plan (
          terms.term_plan self.entry.checked.now self.entry.map.now self.entry.tables guard.now staging.first,
          code.rule_plan self.entry.checked.now self.entry.map.now self.entry.tables rule.now,
        )) }
    {
        let test = self.term(guard)?;
        let body = self.rule(rule)?;
        case(self.alloc, test, body)
    }

    // The cases of a list.
    #[cycle(rule)]
    fn cases(self, list: &[(ResolvedTerm, Flat)]) -> Result<Vec<Tree>, AllocError>
        requires prepared { IsPrepared self.checked.now self.map.now }
        requires codable { All (IsCaseCodable self.checked.now) list.now }
        ensures { IfOk result (λ trees. map plan_of trees.items ≡ map (code.case_code self.entry.checked.now self.entry.map.now self.entry.tables) list.now) }
    {
        let mut trees = Vec::new(self.alloc);
        for (guard, rule) in list {
            trees.push(self.case(rule, guard)?)?;
        }
        Ok(trees)
    }

    // The rules of a list.
    #[cycle(rule)]
    fn parts(self, parts: &[Flat]) -> Result<Vec<Tree>, AllocError>
        requires prepared { IsPrepared self.checked.now self.map.now }
        requires codable { All (IsCodable self.checked.now) parts.now }
        ensures { IfOk result (λ trees. map plan_of trees.items ≡ map (code.rule_plan self.entry.checked.now self.entry.map.now self.entry.tables) parts.now) }
    {
        let mut trees = Vec::new(self.alloc);
        for part in parts {
            trees.push(self.rule(part)?)?;
        }
        Ok(trees)
    }

    /// The code of a rule.
    #[cycle(rule)]
    pub(crate) fn rule(self, flat: &Flat) -> Result<Tree, AllocError>
        requires prepared { IsPrepared self.checked.now self.map.now }
        requires codable { IsCodable self.checked.now flat.now }
        ensures { IfOk result (λ tree. plan_of tree ≡ code.rule_plan self.entry.checked.now self.entry.map.now self.entry.tables flat.now) }
    {
        match flat {
            Flat::Skip => Ok(nothing(self.alloc)),
            Flat::Update { fun, args, value } => self.update(*fun, args.as_slice(), value.get()),
            Flat::Par(parts) => {
                let trees = self.parts(parts.as_slice())?;
                all(self.alloc, trees)
            }
            Flat::Cases { list, else_rule } => {
                let trees = self.cases(list.as_slice())?;
                let other = self.rule(else_rule.get())?;
                unless_any(self.alloc, trees, other)
            }
            Flat::Let {
                binder,
                value,
                body,
            } => {
                let value = self.term(value.get())?;
                let body = self.rule(body.get())?;
                self.bound(*binder, value, body)
            }
        }
    }
}
