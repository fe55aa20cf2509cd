//! The faults that a job tells.

ghost use Rattle.std.specs.Prelude.{◌≤◌, length, IfOk};
ghost use Rattle.fault_script.specs.Faults.{AreFaults};
ghost use Rattle.job_text.specs.{Jobs.{job_state}, Ranges.{HasParts}};
ghost use Rattle.stab_cli.specs.JobFaults.{job_faults};
ghost use Rattle.stab_cli.specs.Stages.{Is, Settles};

use crate::built_job::section_at;
use crate::job_end::JobEnd;
use crate::machine_sizes::RAM_BYTES;
use crate::refusal::Refusal;
use crate::top_call::MAX_INPUT;
use fault_script::{ScriptEnd, Timed, read_script};
use job_text::Job;
use sqlite_items::Items;
use std::alloc::Global;

impl From<ScriptEnd> for JobEnd {
    ghost use Rattle.std.specs.Prelude.{◌≡◌};
    ghost use Rattle.stab_cli.specs.JobFaults.{script_end};

    ghost from_gives = { λ end given. given ≡ script_end end };

    fn from(end: ScriptEnd) -> Self {
        match end {
            ScriptEnd::Fault { fault, line } => {
                JobEnd::Refused(Refusal::BadScript { fault, line })
            }
            ScriptEnd::NoMemory => JobEnd::NoMemory,
        }
    }
}

/// The faults that a job tells, in the order in which they come. Refused at the first bad line of its script.
pub fn faults(alloc: Global, bytes: &[u8], job: &Job) -> Result<Items<Timed>, JobEnd>
    requires size { length bytes.now ≤ MAX_INPUT }
    requires inside { HasParts (length bytes.now) job.now.source job.now.rom job.now.script }
    ensures judged { Settles (Is (job_faults bytes.now (job_state job.now))) result }
    ensures faults { IfOk result (λ faults. AreFaults RAM_BYTES faults) }
{
    let section = section_at(bytes, job.script);
    Ok(read_script(alloc, section.text, section.first_line, RAM_BYTES)?)
}
