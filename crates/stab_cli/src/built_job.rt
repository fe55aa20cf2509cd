//! The job of a mode, and its sections.

ghost use Rattle.std.specs.Prelude.{◌≡◌, ◌+◌, ◌≤◌, IfOk, length};
ghost use Rattle.job_text.specs.{Jobs.{job_state}, Keys.{runs_hart}};
ghost use Rattle.job_text.specs.Ranges.{HasParts, IsFit, IsInside, IsStartOf};
ghost use Rattle.stab_cli.specs.BuiltJob.{HasPlace, built_job, is_built, is_unrolled, lies_in_words, text_of};
ghost use Rattle.stab_cli.specs.Stages.{Is, SettlesAs};

use crate::job_end::JobEnd;
use crate::machine_sizes::REVISION;
use crate::refusal::Refusal;
use crate::top_call::MAX_INPUT;
use job_text::{Job, Layout, Mode, Part, Shape, read_job};
use std::alloc::Global;

/// A section of a job: the bytes of its lines, and the number of the first of them in the job, from 1.
#[derive(Clone, Copy, Debug)]
pub struct Section<'a> {
    pub text: &'a [u8],
    pub first_line: u32,
}

impl From<job_text::JobEnd> for JobEnd {
    ghost use Rattle.std.specs.Prelude.{◌≡◌};
    ghost use Rattle.stab_cli.specs.BuiltJob.{reading_end};

    ghost from_gives = { λ end given. given ≡ reading_end end };

    fn from(end: job_text::JobEnd) -> Self {
        match end {
            job_text::JobEnd::Fault { fault, line } => {
                JobEnd::Refused(Refusal::BadJob { fault, line })
            }
            job_text::JobEnd::NoMemory => JobEnd::NoMemory,
        }
    }
}

/// The section that is this part of a job.
pub fn section_at(bytes: &[u8], part: Part) -> Section
    requires size { length bytes.now ≤ MAX_INPUT }
    requires inside { IsInside (length bytes.now) part }
    ensures text { result.text.now ≡ text_of bytes.now part }
    ensures line { result.first_line ≡ part.line }
    ensures place { HasPlace MAX_INPUT result.text.now result.first_line }
{
    Section {
        text: &bytes[part.from..part.to],
        first_line: part.line,
    }
}

/// Whether the code of this shape is built.
fn is_unrolled(shape: Shape) -> bool
    ensures { result ≡ is_unrolled shape }
{
    match shape {
        Shape::Unrolled => true,
        Shape::Looped => false,
    }
}

/// Whether code for this layout is built.
fn lies_in_words(layout: Layout) -> bool
    ensures { result ≡ lies_in_words layout }
{
    match layout {
        Layout::Words => true,
        Layout::Packed => false,
    }
}

/// Whether all that a job asks for is built.
fn is_built(job: &Job) -> bool
    ensures { result ≡ is_built (job_state job.now) }
{
    is_unrolled(job.shape) && lies_in_words(job.layout) && job.revision == REVISION
}

/// The job that the bytes are for a mode, where all that it asks for is built. Refused by its first line at fault.
pub fn built_job(alloc: Global, mode: Mode, bytes: &[u8]) -> Result<Job, JobEnd>
    requires { length bytes.now ≤ MAX_INPUT }
    ensures judged { SettlesAs job_state (Is (built_job mode bytes.now)) result }
    ensures start { IfOk result (λ job. IsStartOf (runs_hart mode) REVISION job.start.regs job.start.ram) }
    ensures fits { IfOk result (λ job. IsFit job.revision job.nodes job.states job.rounds job.ticks) }
    ensures inside { IfOk result (λ job. HasParts (length bytes.now) job.source job.rom job.script) }
{
    match read_job(alloc, mode, bytes) {
        Err(end) => Err(JobEnd::from(end)),
        Ok(job) if is_built(&job) => Ok(job),
        Ok(_) => Err(JobEnd::Refused(Refusal::NotBuilt)),
    }
}
