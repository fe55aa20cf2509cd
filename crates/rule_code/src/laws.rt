//! The laws of the code of rounds. Each is the contract of a function that does nothing.

ghost use Rattle.rule_code.specs.CodedLaw.{PlacedMapsAreCoded};
ghost use Rattle.rule_code.specs.Image.{MadeImagesStabilize};
ghost use Rattle.rule_code.specs.Law.{BodiesMakeRounds, RulesStage};
ghost use Rattle.rule_code.specs.MappedLaw.{CheckedProgramsAreMapped, SizedSignaturesAreShort};
ghost use Rattle.rule_code.specs.PortLaw.{OutputsAreSent, PortsAreRead, ReadingsAreInputs};
ghost use Rattle.rule_code.specs.StepLaw.{RoundCodeFits, RoundCodeRunsSteps};
ghost use Rattle.rule_code.specs.TableLaw.{PlacedTablesAreHeld};
ghost use Rattle.rule_code.specs.Unrolled.{UnrolledStabilizes};

/// Each input port is read once, in order, and the readings stand for the inputs of the round.
pub fn readings_are_inputs()
    ensures ports { PortsAreRead }
    ensures inputs { ReadingsAreInputs }
{}

/// The words that are sent are those of the outputs.
pub fn outputs_are_sent()
    ensures { OutputsAreSent }
{}

/// The tables that were placed in ROM hold the values of the static functions.
pub fn placed_tables_are_held()
    ensures { PlacedTablesAreHeld }
{}

/// The pieces of a round can be written for the map of a program that needs no more RAM than there may be.
pub fn placed_maps_are_coded()
    ensures { PlacedMapsAreCoded }
{}

/// Code for the terms of a checked program can be written for its map.
pub fn checked_programs_are_mapped()
    ensures mapped { CheckedProgramsAreMapped }
    ensures short { SizedSignaturesAreShort }
{}

/// The code of a rule without loops stages its updates.
pub fn rules_stage()
    ensures { RulesStage }
{}

/// From every valid hart the code of a round makes a round.
pub fn bodies_make_rounds()
    ensures { BodiesMakeRounds }
{}

/// The unrolled image of a program stabilizes.
pub fn unrolled_stabilizes()
    ensures { UnrolledStabilizes }
{}

/// What is made of a program for the words of its ROM stabilizes, and each of its rounds makes the step of the least choices.
pub fn made_images_stabilize()
    ensures { MadeImagesStabilize }
{}

/// The code of a round is within the words and the ticks of a round; from the head it leaves behind its last word without a trap, and makes
/// the step of the least choices.
pub fn round_code_runs_steps()
    ensures fits { RoundCodeFits }
    ensures steps { RoundCodeRunsSteps }
{}
