//! The job that a text is.

ghost use Rattle.std.specs.Prelude.{◌≡◌, ◌<◌, ◌^◌, length, IfOk};
ghost use Rattle.std.specs.Option.{unwrap_or};
ghost use Rattle.job_text.specs.Ranges.{HasParts, IsFit, IsStartOf};
ghost use Rattle.job_text.specs.Keys.{runs_hart};
ghost use Rattle.job_text.specs.Jobs.{IsJob, absent, finished, job_of, job_state};

use crate::draft::{Draft, read_draft};
use crate::fault::JobEnd;
use crate::mode::Mode;
use crate::parts::Part;
use crate::said::{Layout, Shape};
use crate::start::{Start, start_of};
use std::alloc::{AllocError, Global};

/// What a job says. A section that isn't there has no bytes, from 0 up to 0, and the line 1; `script` is the section `%run`.
/// In `run` and `exec` the start has 32 registers and the words of RAM of the revision; in other modes it has none.
#[derive(Drop)]
pub struct Job {
    pub shape: Shape,
    pub layout: Layout,
    pub revision: u32,
    pub source: Part,
    pub rom: Part,
    pub script: Part,
    pub start: Start,
    pub rounds: u32,
    pub ticks: u32,
    pub nodes: u32,
    pub states: u32,
    pub seed: u32,
}

/// A section, or its absence.
fn part_or_absent(part: Option<Part>) -> Part
    ensures { result ≡ unwrap_or part absent }
{
    match part {
        Some(part) => part,
        None => Part {
            from: 0,
            to: 0,
            line: 1,
        },
    }
}

/// The job that lines give.
#[tactic(auto, unfolding(crate::specs::Jobs::finished))]
fn finish(alloc: Global, mode: Mode, draft: Draft) -> Result<Job, AllocError>
    ensures value { IfOk result (λ job. job_state job ≡ finished mode draft) }
    ensures fits { IfOk result (λ job. IsFit job.revision job.nodes job.states job.rounds job.ticks) }
    ensures start { IfOk result (λ job. IsStartOf (runs_hart mode) job.revision job.start.regs job.start.ram) }
    ensures inside { IfOk result (λ job. HasParts draft.place job.source job.rom job.script) }
{
    let parts = draft.parts;
    let told = draft.told;
    let shape = told.shape.unwrap_or(Shape::Unrolled);
    let layout = told.layout.unwrap_or(Layout::Words);
    let revision = told.revision.unwrap_or(1);
    let rounds = told.rounds.unwrap_or(1);
    let ticks = told.ticks.unwrap_or(1);
    let nodes = told.nodes;
    let states = told.states.unwrap_or(nodes);
    let seed = told.seed.unwrap_or(0);
    Ok(Job {
        shape,
        layout,
        revision,
        source: part_or_absent(parts.source),
        rom: part_or_absent(parts.rom),
        script: part_or_absent(parts.run),
        start: start_of(alloc, mode, told)?,
        rounds,
        ticks,
        nodes,
        states,
        seed,
    })
}

/// The job that a text is for this mode.
///
/// # Errors
///
/// The first line at fault: where a section that the mode needs is missing and no line is at fault, the line behind the last.
/// `NoMemory` where memory is wanting.
#[tactic(auto, unfolding(crate::specs::Jobs::job_of))]
pub fn read_job(alloc: Global, mode: Mode, bytes: &[u8]) -> Result<Job, JobEnd>
    requires { length bytes.now < 2 ^ 31 }
    ensures answer { IsJob result (job_of mode bytes.now) }
    ensures fits { IfOk result (λ job. IsFit job.revision job.nodes job.states job.rounds job.ticks) }
    ensures start { IfOk result (λ job. IsStartOf (runs_hart mode) job.revision job.start.regs job.start.ram) }
    ensures inside { IfOk result (λ job. HasParts (length bytes.now) job.source job.rom job.script) }
{
    let draft = read_draft(alloc, mode, bytes)?;
    Ok(finish(alloc, mode, draft)?)
}
