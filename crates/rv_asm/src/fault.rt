//! What can be wrong with an assembly text.

use rv_line::LineFault;
use std::alloc::AllocError;
use thiserror::Error;

/// What is wrong with a line of an assembly text.
#[derive(Clone, Copy, Debug, PartialEq, Eq, Error)]
pub enum AsmFault {
    /// The line takes one word more than there may be.
    #[error("there are too many words")]
    TooMany,
    /// The line has none of the forms.
    #[error("the line has none of the forms")]
    Form,
    /// Where the instruction would begin stands no mnemonic.
    #[error("the mnemonic is unknown")]
    Mnemonic,
    /// A number or the displacement of a label is out of its field's range, or a register is above x31.
    #[error("a number is out of range")]
    Range,
    /// A target is a label that stands on no line.
    #[error("the label stands on no line")]
    Undefined,
    /// The label stands on an earlier line.
    #[error("the label stands on an earlier line")]
    Repeated,
}

impl From<LineFault> for AsmFault {
    ghost use Rattle.std.specs.Prelude.{◌≡◌};
    ghost use Rattle.rv_asm.specs.Assembly.{of_line};

    ghost from_gives = { λ line fault. fault ≡ of_line line };

    fn from(fault: LineFault) -> AsmFault {
        match fault {
            LineFault::Form => AsmFault::Form,
            LineFault::Mnemonic => AsmFault::Mnemonic,
            LineFault::Range => AsmFault::Range,
            LineFault::Undefined => AsmFault::Undefined,
        }
    }
}

/// Why a text wasn't assembled.
#[derive(Clone, Copy, Debug, PartialEq, Eq, Error)]
pub enum AsmEnd {
    /// The text has this fault, on the line with this number.
    #[error("line {line}: {fault}")]
    Fault { fault: AsmFault, line: u32 },
    /// No memory was left.
    #[error("out of memory")]
    NoMemory,
}

impl From<AllocError> for AsmEnd {
    ghost use Rattle.std.specs.Prelude.{◌≡◌};
    ghost use Rattle.rv_asm.specs.declared.fault.AsmEnd.TheVariants.{NoMemory};

    ghost from_gives = { λ _ end. end ≡ NoMemory };

    fn from(_: AllocError) -> AsmEnd {
        AsmEnd::NoMemory
    }
}
