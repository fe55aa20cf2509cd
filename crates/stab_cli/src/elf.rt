//! The mode `elf`: from a job to the ELF file of its words.

ghost use Rattle.std.specs.Prelude.{◌≤◌, length};
ghost use Rattle.image_files.specs.Elf.{elf_bytes};
ghost use Rattle.stab_cli.specs.ImageJob.{job_words};
ghost use Rattle.stab_cli.specs.Stages.{IsVerdictOn, Judges};
ghost use Rattle.stab_cli.specs.Verdict.{IsTextOf};

use crate::image_words::job_words;
use crate::job_end::JobEnd;
use crate::top_call::MAX_INPUT;
use image_files::write_elf;
use job_text::Mode;
use stab_io::Bytes;
use std::alloc::Global;

/// What `elf` answers to a job.
pub fn text(alloc: Global, bytes: &[u8]) -> Result<Bytes, JobEnd>
    requires { length bytes.now ≤ MAX_INPUT }
    ensures { Judges (IsVerdictOn (job_words Mode.Elf bytes.now)) (IsTextOf elf_bytes (job_words Mode.Elf bytes.now)) result }
{
    let words = job_words(alloc, Mode::Elf, bytes)?;
    Ok(write_elf(alloc, &words)?)
}
