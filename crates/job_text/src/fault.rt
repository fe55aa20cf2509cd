//! What can be wrong with a job.

ghost use Rattle.std.specs.Prelude.{◌≡◌};

use std::alloc::AllocError;
use thiserror::Error;

/// What is wrong with a line of a job.
#[derive(Clone, Copy, Debug, PartialEq, Eq, Error)]
pub enum JobFault {
    /// No section begins so here, or the line stands in none; or a section is missing.
    #[error("the sections are not those of the mode")]
    Section,
    /// The line has no form of the mode, or says again what is said once.
    #[error("the line has none of the forms")]
    Form,
    /// A number of the line is out of its range.
    #[error("a number is out of range")]
    Range,
}

impl JobFault {
    ghost use Rattle.job_text.specs.JobFaults.{code_of};

    /// The code of the fault, from 401 to 403.
    pub fn code(self) -> u32
        ensures { result ≡ code_of self }
    {
        match self {
            JobFault::Section => 401,
            JobFault::Form => 402,
            JobFault::Range => 403,
        }
    }
}

/// Why a job isn't read.
#[derive(Clone, Copy, Debug, PartialEq, Eq, Error)]
pub enum JobEnd {
    /// The job has this fault, on the line with this number.
    #[error("line {line}: {fault}")]
    Fault { fault: JobFault, line: u32 },
    /// No memory was left.
    #[error("out of memory")]
    NoMemory,
}

impl From<AllocError> for JobEnd {
    ghost use Rattle.job_text.specs.declared.fault.JobEnd.TheVariants.{NoMemory};

    ghost from_gives = { λ _ end. end ≡ NoMemory };

    fn from(_: AllocError) -> JobEnd {
        JobEnd::NoMemory
    }
}
