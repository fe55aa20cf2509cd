//! What can be wrong with the lines of a script.

ghost use Rattle.std.specs.Prelude.{◌≡◌};
ghost use Rattle.fault_script.specs.declared.script_end.ScriptEnd.TheVariants.{NoMemory};

use std::alloc::AllocError;
use thiserror::Error;

/// What is wrong with a line of a script.
#[derive(Clone, Copy, Debug, PartialEq, Eq, Error)]
pub enum ScriptFault {
    /// The line has none of the forms, or names no location.
    #[error("the line has none of the forms")]
    Form,
    /// A number is out of its range, or the location's codomain lacks the value.
    #[error("a number or a value is out of range")]
    Range,
    /// The time is below that of the line before.
    #[error("the time is before that of the line before")]
    Order,
}

impl ScriptFault {
    ghost use Rattle.fault_script.specs.Script.{code_of};

    /// The number by which the fault is reported: 411 to 413.
    pub fn code(self) -> u32
        ensures { result ≡ code_of self }
    {
        match self {
            ScriptFault::Form => 411,
            ScriptFault::Range => 412,
            ScriptFault::Order => 413,
        }
    }
}

/// Why a script was not read.
#[derive(Clone, Copy, Debug, PartialEq, Eq, Error)]
pub enum ScriptEnd {
    /// The line with this number has this fault.
    #[error("line {line}: {fault}")]
    Fault { fault: ScriptFault, line: u32 },
    /// No memory was left for what is read.
    #[error("out of memory")]
    NoMemory,
}

impl From<AllocError> for ScriptEnd {
    ghost from_gives = { λ _ end. end ≡ NoMemory };

    fn from(_: AllocError) -> Self {
        ScriptEnd::NoMemory
    }
}
