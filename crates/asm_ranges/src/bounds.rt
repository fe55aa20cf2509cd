//! The range of a term of a checked program.

ghost use Rattle.std.specs.Prelude.{◌≡◌};
ghost use Rattle.state_space.specs.Locations.{signatures_of};
ghost use Rattle.asm_ranges.specs.{Ranges.{range}, Places.{Place, Stands, StandsTerm}};

use crate::checked::Checked;
use crate::context::Context;
use crate::plain::RangeChecker;
use asm_names::{Interval, ResolvedTerm};

/// The plain range of a term that stands in the program, wherever it stands: 0 to 1 for a truth value. The call takes no memory; its recursion is as deep as the term.
pub fn interval(checked: &Checked, term: &ResolvedTerm) -> Interval
    requires { Stands checked.now term.now }
    ensures { (place : Place) → StandsTerm checked.now term.now place → result ≡ range (signatures_of checked.now) place.scope term.now }
{
    let resolved = checked.resolved();
    let checker = RangeChecker {
        domains: resolved.domains.as_slice(),
        funs: resolved.funs.as_slice(),
    };
    checker.plain(&Context::Outermost(resolved.intervals.as_slice()), term)
}
