//! Why a job gets no text.

use crate::refusal::Refusal;
use std::alloc::AllocError;
use thiserror::Error;

/// Why a job gets no text.
#[derive(Clone, Copy, Debug, PartialEq, Eq, Error)]
pub enum JobEnd {
    /// The job is refused.
    #[error("the job is refused")]
    Refused(Refusal),
    /// Memory ran out.
    #[error("out of memory")]
    NoMemory,
}

impl From<AllocError> for JobEnd {
    ghost use Rattle.std.specs.Prelude.{◌≡◌};
    ghost use Rattle.stab_cli.specs.declared.job_end.JobEnd.TheVariants.{NoMemory};

    ghost from_gives = { λ _ end. end ≡ NoMemory };

    fn from(_: AllocError) -> Self {
        JobEnd::NoMemory
    }
}
