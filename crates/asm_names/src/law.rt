//! Laws of programs: what the resolution of names makes sure of.

ghost use Rattle.std.specs.Prelude.{◌≡◌, ℕ, []};
ghost use Rattle.asm_tree.specs.Programs.{Parts, IsProgram};
ghost use Rattle.asm_tree.specs.declared.term.Term.{Term};
ghost use Rattle.asm_tree.specs.declared.rule.Rule.{Rule};
ghost use Rattle.asm_names.specs.declared.program.Resolved.{Resolved};
ghost use Rattle.asm_names.specs.declared.sort.Need.{Need};
ghost use Rattle.asm_names.specs.Meanings.{Scope};
ghost use Rattle.asm_names.specs.Places.{program_tokens, term_tokens, rule_tokens};
ghost use Rattle.asm_names.specs.Programs.{program_faults};
ghost use Rattle.asm_names.specs.ResolvedPlaces.{resolved_program_tokens, resolved_term_tokens, resolved_rule_tokens};
ghost use Rattle.asm_names.specs.Resolving.{Resolves};
ghost use Rattle.asm_names.specs.RuleFaults.{rule_faults};
ghost use Rattle.asm_names.specs.Rules.{resolved_rule};
ghost use Rattle.asm_names.specs.TermFaults.{term_faults};
ghost use Rattle.asm_names.specs.Terms.{resolved_term};
ghost use Rattle.asm_names.specs.WellFormed.{IsWellFormed};

/// A program without faults of its names and sorts is well formed in numbers. The function does nothing; its contract is
/// the law.
pub fn resolved_programs_are_well_formed()
    ensures { (parts : Parts) (r : Resolved) → IsProgram parts → program_faults parts ≡ [] → Resolves parts r → IsWellFormed r }
{}

/// A term, a rule or a program without faults has as many tokens in numbers as its text. The function does nothing; its
/// contract is the law.
#[tactic(auto, using(crate::proofs::WellFormedTerms::tokens_kept, crate::proofs::WellFormedRules::rule_tokens_kept, crate::proofs::WellFormedPrograms::program_tokens_kept))]
pub fn tokens_are_kept()
    ensures terms { (scope : Scope) (term : Term) (need : Need) (at : ℕ) → term_faults scope term need at ≡ []
        → resolved_term_tokens (resolved_term scope term) ≡ term_tokens term }
    ensures rules { (rule : Rule) (scope : Scope) (at binders : ℕ) → rule_faults rule scope at binders ≡ []
        → resolved_rule_tokens (resolved_rule rule scope binders) ≡ rule_tokens rule }
    ensures programs { (parts : Parts) (r : Resolved) → program_faults parts ≡ [] → Resolves parts r → resolved_program_tokens r ≡ program_tokens parts }
{}
