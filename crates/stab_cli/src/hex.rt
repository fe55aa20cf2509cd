//! The mode `hex`: from a job to the Intel HEX file of its words.

ghost use Rattle.std.specs.Prelude.{◌≤◌, length};
ghost use Rattle.image_files.specs.HexText.{hex_text};
ghost use Rattle.stab_cli.specs.ImageJob.{job_words};
ghost use Rattle.stab_cli.specs.Stages.{IsVerdictOn, Judges};
ghost use Rattle.stab_cli.specs.Verdict.{IsTextOf};

use crate::image_words::job_words;
use crate::job_end::JobEnd;
use crate::top_call::MAX_INPUT;
use image_files::write_hex;
use job_text::Mode;
use stab_io::Bytes;
use std::alloc::Global;

/// What `hex` answers to a job.
pub fn text(alloc: Global, bytes: &[u8]) -> Result<Bytes, JobEnd>
    requires { length bytes.now ≤ MAX_INPUT }
    ensures { Judges (IsVerdictOn (job_words Mode.Hex bytes.now)) (IsTextOf hex_text (job_words Mode.Hex bytes.now)) result }
{
    let words = job_words(alloc, Mode::Hex, bytes)?;
    Ok(write_hex(alloc, &words)?)
}
