//! Faults of names and sorts.

ghost use Rattle.std.specs.Prelude.{◌≡◌};
ghost use Rattle.asm_names.specs.Faults as spec;
ghost use Rattle.asm_names.specs.declared.fault.NameEnd.TheVariants.{Fault, NoMemory};

use std::alloc::{AllocError, AllocFailed};
use thiserror::Error;

/// What is wrong with a name, a domain, a count or a sort.
#[derive(Clone, Copy, Debug, PartialEq, Eq, Error)]
pub enum NameFault {
    /// The name isn't declared before, or isn't of the kind that its place needs.
    #[error("an unknown name")]
    Unknown,
    /// The name is declared or bound here, and is already declared or in scope.
    #[error("a name that is declared twice")]
    Repeated,
    /// The lower bound of a range is above its upper bound.
    #[error("an empty range")]
    Empty,
    /// A domain has more than 65,536 values, or a bound below -1,048,576 or above 1,048,576.
    #[error("a domain that is too large")]
    TooLarge,
    /// There are fewer or more terms, or constants of a table, than the declaration asks for.
    #[error("a wrong count of arguments or constants")]
    Count,
    /// The sort of a term or of a constant isn't the one that its place needs.
    #[error("a wrong sort")]
    Sort,
    /// An update of a function that is neither controlled nor an output.
    #[error("an update of a function that no rule may update")]
    NotUpdatable,
    /// A function is declared with more than 3 arguments.
    #[error("a function with too many arguments")]
    TooManyArguments,
}

impl NameFault {
    /// The number by which the fault is reported: 201 to 206, 209 or 210.
    pub fn code(self) -> u32
        ensures { result ≡ spec.code_of self }
    {
        match self {
            NameFault::Unknown => 201,
            NameFault::Repeated => 202,
            NameFault::Empty => 203,
            NameFault::TooLarge => 204,
            NameFault::Count => 205,
            NameFault::Sort => 206,
            NameFault::NotUpdatable => 209,
            NameFault::TooManyArguments => 210,
        }
    }
}

/// A fault at the token with this number. Tokens are counted from 1. It is the error of what takes no memory.
#[derive(Clone, Copy, Debug, PartialEq, Eq)]
pub struct PlacedFault {
    /// What is wrong.
    pub fault: NameFault,
    /// Where it is wrong.
    pub token: u32,
}

impl PlacedFault {
    /// The fault at the token with this number.
    pub(crate) fn at(token: u32, fault: NameFault) -> PlacedFault
        ensures { result ≡ record { fault = fault; token = token } }
    {
        PlacedFault { fault, token }
    }
}

/// Why the names of a program aren't resolved.
#[derive(Clone, Copy, Debug, PartialEq, Eq, Error)]
pub enum NameEnd {
    /// The program's first fault, at the token with this number. Tokens are counted from 1.
    #[error("{fault} at token {token}")]
    Fault { fault: NameFault, token: u32 },
    /// No memory was left for the resolved program.
    #[error("out of memory")]
    NoMemory,
}

impl NameEnd {
    /// The fault at the token with this number.
    pub(crate) fn at(token: u32, fault: NameFault) -> NameEnd
        ensures { result ≡ Fault fault token }
    {
        NameEnd::Fault { fault, token }
    }
}

impl From<PlacedFault> for NameEnd {
    ghost from_gives = { λ placed end. end ≡ Fault placed.fault placed.token };

    fn from(placed: PlacedFault) -> NameEnd {
        NameEnd::at(placed.token, placed.fault)
    }
}

impl From<AllocError> for NameEnd {
    ghost from_gives = { λ _ end. end ≡ NoMemory };

    fn from(_: AllocError) -> NameEnd {
        NameEnd::NoMemory
    }
}

impl<T: Drop> From<AllocFailed<T>> for NameEnd {
    ghost from_gives = { λ _ end. end ≡ NoMemory };

    fn from(_: AllocFailed<T>) -> NameEnd {
        NameEnd::NoMemory
    }
}
