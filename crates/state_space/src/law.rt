//! What a resolved program makes sure of, and what holds of words, padded numbers and states.

ghost use Rattle.std.specs.List.{AllByRecursion};
ghost use Rattle.state_space.specs.DecodingLaw.{EveryWordHasAnIndex};
ghost use Rattle.state_space.specs.Locations.{signatures_of};
ghost use Rattle.state_space.specs.PaddedLaw.{PaddedNumbersDiffer};
ghost use Rattle.state_space.specs.Sizes.{IsSized};
ghost use Rattle.state_space.specs.StateLaw.{ValuesKeepStatesFitting};

use asm_names::Resolved;

/// The functions of a resolved program have at most 3 arguments, and their domains 1 to 65,536 values each. The function
/// does nothing; its contract is the law.
#[tactic(auto, using(crate::proofs::Sized::sized))]
pub fn resolved_functions_are_sized(program: &Resolved)
    ensures { AllByRecursion IsSized (signatures_of program.now) }
{
    program.comes_from_faultless();
}

/// Every word stands for an index, and an index for itself. The function does nothing; its contract is the law.
pub fn every_word_has_an_index()
    ensures { EveryWordHasAnIndex }
{}

/// No two locations of a function have one padded number. The function does nothing; its contract is the law.
pub fn padded_numbers_differ()
    ensures { PaddedNumbersDiffer }
{}

/// A state that fits still fits where one location gets a value of its codomain. The function does nothing; its contract
/// is the law.
pub fn values_keep_states_fitting()
    ensures { ValuesKeepStatesFitting }
{}
