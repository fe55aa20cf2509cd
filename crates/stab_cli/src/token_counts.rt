//! The law that the tokens which are counted for the places of faults are those of the text.

ghost use Rattle.std.specs.Prelude.{◌≡◌, [], length, true};
ghost use Rattle.asm_tree.specs.Forms.{rule_fits};
ghost use Rattle.asm_tree.specs.Programs.{Parts, IsProgram, decl_fits};
ghost use Rattle.asm_tree.specs.declared.decl.Decl.{Decl};
ghost use Rattle.asm_tree.specs.declared.rule.Rule.{Rule};
ghost use Rattle.asm_tree.specs.declared.term.Term.{Term};
ghost use Rattle.asm_rules.specs.Grammar.{rule_text, term_text};
ghost use Rattle.asm_syntax.specs.Grammar.{decl_text, program_text};
ghost use Rattle.asm_names.specs.declared.program.Resolved.{Resolved};
ghost use Rattle.asm_names.specs.Places.{decl_tokens, program_tokens, rule_tokens, term_tokens};
ghost use Rattle.asm_names.specs.Programs.{program_faults};
ghost use Rattle.asm_names.specs.ResolvedPlaces.{resolved_program_tokens};
ghost use Rattle.asm_names.specs.Resolving.{Resolves};

use asm_names::tokens_are_kept;

/// What has a text has as many tokens as are counted for the places of faults, and so has a program in numbers. The
/// function does nothing; its contract is the law.
#[tactic(auto, using(crate::proofs::TokenCounts::term_count, crate::proofs::TokenCounts::rule_count, crate::proofs::TokenCounts::decl_count, crate::proofs::TokenCounts::program_count))]
pub fn tokens_are_counted()
    ensures terms { (t : Term) → term_tokens t ≡ length (term_text t) }
    ensures rules { (r : Rule) → rule_fits r ≡ true → rule_tokens r ≡ length (rule_text r) }
    ensures declarations { (d : Decl) → decl_fits d ≡ true → decl_tokens d ≡ length (decl_text d) }
    ensures programs { (p : Parts) → IsProgram p → program_tokens p ≡ length (program_text p) }
    ensures numbers { (p : Parts) (r : Resolved) → IsProgram p → program_faults p ≡ [] → Resolves p r → resolved_program_tokens r ≡ length (program_text p) }
{
    tokens_are_kept();
}
