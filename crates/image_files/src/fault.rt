//! What can be wrong with a file.

use std::alloc::AllocError;
use thiserror::Error;

/// What is wrong with a line of an Intel HEX file.
#[derive(Clone, Copy, Debug, PartialEq, Eq, Error)]
pub enum HexFault {
    /// The line is no record of a known type and its length, or has a wrong checksum.
    #[error("the line is no record, or its checksum is wrong")]
    BadRecord,
    /// A byte's address is too high.
    #[error("the address of a byte is too high")]
    TooHigh,
    /// A byte was given for the address before.
    #[error("a byte was given before")]
    Repeated,
    /// The record stands behind the end record, or no end record stands.
    #[error("the end record isn't the last one")]
    BadEnd,
}

/// Why an Intel HEX file wasn't read.
#[derive(Clone, Copy, Debug, PartialEq, Eq, Error)]
pub enum HexEnd {
    /// A line has a fault.
    #[error("line {line}: {fault}")]
    Fault {
        /// What is wrong with it.
        fault: HexFault,
        /// Its number, from 1 on.
        line: u32,
    },
    /// No memory was left.
    #[error("out of memory")]
    NoMemory,
}

impl From<AllocError> for HexEnd {
    ghost use Rattle.std.specs.Prelude.{◌≡◌};
    ghost use Rattle.image_files.specs.declared.fault.HexEnd.TheVariants.{NoMemory};

    ghost from_gives = { λ _ end. end ≡ NoMemory };

    fn from(_: AllocError) -> HexEnd {
        HexEnd::NoMemory
    }
}

/// Why a file of the subset of ELF wasn't read.
#[derive(Clone, Copy, Debug, PartialEq, Eq, Error)]
pub enum ElfEnd {
    /// The file is none of the subset.
    #[error("place {offset}: the file isn't one of the subset")]
    Fault {
        /// How many bytes its longest front has that begins one.
        offset: u32,
    },
    /// No memory was left.
    #[error("out of memory")]
    NoMemory,
}

impl From<AllocError> for ElfEnd {
    ghost use Rattle.std.specs.Prelude.{◌≡◌};
    ghost use Rattle.image_files.specs.declared.fault.ElfEnd.TheVariants.{NoMemory};

    ghost from_gives = { λ _ end. end ≡ NoMemory };

    fn from(_: AllocError) -> ElfEnd {
        ElfEnd::NoMemory
    }
}
