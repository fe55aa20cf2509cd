//! The mode `run`: from a job to the image of its source, which is played on the hart under the job's faults.

ghost use Rattle.std.specs.Prelude.{◌≡◌, ◌≤◌, length, IfOk, OnOk, OnErr, IsErrOf};
ghost use Rattle.stab_io.specs.Causes.{Rose};
ghost use Rattle.fault_script.specs.{Faults.{AreFaults}, Standings.{started}};
ghost use Rattle.job_text.specs.{Jobs.{job_state}, Ranges.{HasParts}};
ghost use Rattle.trace_decode.specs.Budget.{budget_of, most};
ghost use Rattle.stab_cli.specs.ImageText.{IsImageOf};
ghost use Rattle.stab_cli.specs.Outcome.{AppendsOneOf, AppendsPartOfOne};
ghost use Rattle.stab_cli.specs.RunJob.{IsRunVerdict, IsTrialOf, IsTriedJob};
ghost use Rattle.stab_cli.specs.RunText.{IsPlayable, IsPlayed, IsRightRun, Recovers};
ghost use Rattle.stab_cli.specs.Stages.{Judges, SettlesAs};
ghost use Rattle.stab_cli.specs.declared.outcome.WriteEnd.TheVariants.{NoMemory, WriteFault};

use crate::built_job::built_job;
use crate::compile::{Image, built_source, image_report};
use crate::faults::faults;
use crate::job_end::JobEnd;
use crate::machine_sizes::{RAM_BYTES, ROM_BYTES};
use crate::outcome::WriteEnd;
use crate::refusal::Refusal;
use crate::top_call::MAX_INPUT;
use asm_ranges::Checked;
use fault_script::Timed;
use job_text::{Job, Mode};
use rv_machine::{Feed, Hart};
use sqlite_items::Items;
use stab_io::{Bytes, Sink, write_all_of};
use state_space::resolved_functions_are_sized;
use std::alloc::Global;
use trace_decode::{
    TooMany, TraceEnd, budget, plays_become_legal, plays_end, plays_keep_bounds, run_trace,
};

/// A hart of the machine.
type Machine = Hart<ROM_BYTES, RAM_BYTES>;

/// The image of a source with its report, and what its play is made of: the hart and the readings from which it starts, the
/// faults that come, and how many rounds follow the first head behind the last of them.
#[derive(Drop)]
pub struct Run {
    report: Bytes,
    program: Checked,
    image: Image,
    hart: Machine,
    readings: Feed,
    faults: Items<Timed>,
    rounds: u32,
}

impl From<TraceEnd> for WriteEnd {
    ghost use Rattle.std.specs.Prelude.{◌≡◌};
    ghost use Rattle.stab_cli.specs.RunJob.{trace_end};

    ghost from_gives = { λ end given. given ≡ trace_end end };

    fn from(end: TraceEnd) -> Self {
        match end {
            TraceEnd::WriteFault => WriteEnd::WriteFault,
            TraceEnd::NoMemory => WriteEnd::NoMemory,
        }
    }
}

/// The play of an image is over within the ticks that a trace may take.
fn within_budget(
    program: &Checked,
    image: &Image,
    faults: &[Timed],
    rounds: u32,
) -> Result<(), JobEnd>
    requires { IsImageOf program.now image.now }
    ensures judged { SettlesAs (λ _. record { program = program.now.source; faults = faults.now }) (IsTrialOf rounds faults.now program.now.source) result }
    ensures budget { OnOk result (budget_of image.now.needs faults.now rounds ≤ most) }
{
    match budget(&image.needs(), faults, rounds) {
        Ok(_) => Ok(()),
        Err(TooMany(ticks)) => Err(JobEnd::Refused(Refusal::TooManyTicks { ticks })),
    }
}

/// The program of a job that was read, its image, and the faults that come while it is played.
fn tried(alloc: Global, bytes: &[u8], job: &Job) -> Result<(Checked, Image, Items<Timed>), JobEnd>
    requires size { length bytes.now ≤ MAX_INPUT }
    requires inside { HasParts (length bytes.now) job.now.source job.now.rom job.now.script }
    ensures judged { SettlesAs (λ found. record { program = found.0.source; faults = found.2 }) (IsTriedJob bytes.now (job_state job.now)) result }
    ensures holds { IfOk result (λ found. IsImageOf found.0 found.1) }
    ensures faults { IfOk result (λ found. AreFaults RAM_BYTES found.2) }
    ensures budget { IfOk result (λ found. budget_of found.1.needs found.2 job.now.rounds ≤ most) }
{
    let (program, image) = built_source(alloc, bytes, job)?;
    let faults = faults(alloc, bytes, job)?;
    within_budget(&program, &image, faults.as_slice(), job.rounds)?;
    Ok((program, image, faults))
}

/// Whatever faults come to a hart that runs the image, it recovers.
fn recovers(program: &Checked, image: &Image, hart: &Machine, readings: &Feed)
    requires { IsImageOf program.now image.now }
    ensures { Recovers program.now image.now (started hart.now readings.now) }
{
    plays_keep_bounds();
    plays_become_legal();
    resolved_functions_are_sized(program.resolved());
    // That the hart is valid and the readings' count has a bound are clauses of these two.
    hart.pc();
    readings.used();
}

/// What `run` answers to a job: the image, its report, and the play that is to be made of it.
pub fn prepared(alloc: Global, bytes: &[u8]) -> Result<Run, JobEnd>
    requires { length bytes.now ≤ MAX_INPUT }
    ensures { Judges (IsRunVerdict bytes.now) (IsRightRun bytes.now) result }
{
    let job = built_job(alloc, Mode::Run, bytes)?;
    let (program, image, faults) = tried(alloc, bytes, &job)?;
    let report = image_report(alloc, &program, &image)?;
    let rounds = job.rounds;
    let hart = job.start.hart(alloc)?;
    let readings = Feed::new(job.start.readings);
    recovers(&program, &image, &hart, &readings);
    Ok(Run {
        report,
        program,
        image,
        hart,
        readings,
        faults,
        rounds,
    })
}

impl Run {
    /// Writes the report, and then the trace line by line while the image is played.
    pub fn write_to<K: Sink>(self, alloc: Global, sink: &mut K) -> Result<(), WriteEnd>
        requires { IsPlayable self }
        ensures whole { OnOk result (AppendsOneOf (IsPlayed self) (K.held sink.old) (K.held sink.new)) }
        ensures part { OnErr result (AppendsPartOfOne (IsPlayed self) (K.held sink.old) (K.held sink.new)) }
        ensures fault { IsErrOf result WriteFault → Rose (K.faults sink.old) (K.faults sink.new) }
        ensures no_fault { OnOk result (K.faults sink.new ≡ K.faults sink.old) }
    {
        let mut hart = self.hart;
        let mut readings = self.readings;
        // That the play ends is this law, and that the hart is valid a clause of the call below it.
        plays_end();
        hart.pc();
        write_all_of(sink, self.report.list())?;
        run_trace(
            alloc,
            &self.program,
            &self.image,
            &mut hart,
            &mut readings,
            self.faults.as_slice(),
            self.rounds,
            sink,
        )?;
        Ok(())
    }
}
