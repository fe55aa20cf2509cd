//! What can be wrong with a line of assembly text.

use thiserror::Error;

/// What is wrong with a line of assembly text.
#[derive(Clone, Copy, Debug, PartialEq, Eq, Error)]
pub enum LineFault {
    /// The line has none of the forms.
    #[error("the line has none of the forms")]
    Form,
    /// Where the instruction would begin stands no mnemonic.
    #[error("the mnemonic is unknown")]
    Mnemonic,
    /// A number is out of its field's range, or odd where the field is even, or a register is above x31.
    #[error("a number is out of range")]
    Range,
    /// A label stands on no line.
    #[error("the label stands on no line")]
    Undefined,
}
