//! Runs of images under faults, with their traces.

use super::run;
use crate::status::Status;
use std::alloc::{AllocError, Global};
use std::process::Abort;
use std::test::Fail;

/// A counter that starts over at 9, its legal states below 6.
const COUNTER: &str = "%source
machine counter
domain D = 0 to 9
controlled x : D
legal (x < 6)
rule x := cond((x = 9), 0, min((x + 1), 9))
%run
";

/// The lines of `%run` behind a bar from the trace: with the counter's word at 5, at its greatest, and under faults.
const TRACES: &str = "\
rounds 3~ram 10000000 5~|anchor 0 x=5 legal~round 83 x=6 illegal~round 166 x=7 illegal~round 249 x=8 illegal~end 249~
fill ffffffff~rounds 2~at 100 pc 00000002~at 300 ram 10000000 00000004~at 300 reg 31 00000001~|anchor 0 x=5 legal~round 85 x=6 illegal~fault 100 pc 00000002~anchor 101 x=6 illegal~round 184 x=7 illegal~round 267 x=8 illegal~fault 300 ram 10000000 00000004~fault 300 reg 31 00000001~anchor 351 x=3 legal~round 434 x=4 legal~round 517 x=5 legal~end 517~
";

/// How many reads of 16 bytes a run of one round takes: one for each 16 bytes of its job, and one at its end.
const READS: u32 = 10;

/// A job on the counter, whose section `%run` has these lines.
fn counter_job(alloc: Global, lines: &str) -> Result<Vec<u8>, AllocError> {
    let mut job = COUNTER.as_bytes().to_vec(alloc)?;
    for byte in lines.bytes() {
        job.push(if byte == b'~' { b'\n' } else { byte })?;
    }
    Ok(job)
}

/// What `run` answers to a job on the counter, and the text.
fn trace(alloc: Global, lines: &str) -> Result<(Status, Vec<u8>), AllocError> {
    let job = counter_job(alloc, lines)?;
    run(alloc, "run", job, 4096, 0, 0)
}

#[test]
fn runs_with_their_traces(rt: HostRuntime) -> Result<(), Fail> {
    let alloc = rt.alloc();
    for row in TRACES.lines() {
        let Some((lines, expected)) = row.split_once("|") else {
            return Err(Fail::from("a row has no bar"));
        };
        let (status, held) = trace(alloc, lines)?;
        assert_eq!(rt; status, Status::Done, "{lines}");
        let mut text: Vec<u8> = b"end\n".to_vec(alloc)?;
        for byte in expected.bytes() {
            text.push(if byte == b'~' { b'\n' } else { byte })?;
        }
        assert!(rt; held.ends_with(&text), "{lines}");
    }
    Ok(())
}

/// Where the write with a number fails, so many bytes of the whole text are out.
fn stops_at(
    rt: &impl Abort,
    alloc: Global,
    lines: &str,
    write: u32,
    out: usize,
    whole: &[u8],
) -> Result<(), Fail> {
    let job = counter_job(alloc, lines)?;
    let (status, held) = run(alloc, "run", job, 100_000, 0, write)?;
    assert_eq!(rt; status, Status::WriteFault, "{lines}");
    assert_eq!(rt; held.len(), out, "{lines}");
    assert!(rt; whole.starts_with(&held), "{lines}");
    Ok(())
}

/// The report is the first write, and each line of the trace is one more.
fn stops_at_each_line(
    rt: &impl Abort,
    alloc: Global,
    lines: &str,
    expected: &str,
) -> Result<(), Fail> {
    let (_, whole) = trace(alloc, lines)?;
    stops_at(rt, alloc, lines, 1, 0, &whole)?;
    let mut out = whole.len().saturating_sub(expected.len());
    let mut write = 2u32;
    for line in expected.split('~') {
        if !line.is_empty() {
            stops_at(rt, alloc, lines, write, out, &whole)?;
            out = out.saturating_add(line.len()).saturating_add(1);
            write = write.saturating_add(1);
        }
    }
    Ok(())
}

#[test]
fn runs_whose_writes_fail(rt: HostRuntime) -> Result<(), Fail> {
    let alloc = rt.alloc();
    for row in TRACES.lines() {
        let (lines, expected) = row.split_once("|").ok_or("a row has a bar")?;
        stops_at_each_line(&rt, alloc, lines, expected)?;
    }
    Ok(())
}

#[test]
fn runs_whose_reads_fail(rt: HostRuntime) -> Result<(), Fail> {
    let alloc = rt.alloc();
    for read in 1..=READS {
        let job = counter_job(alloc, "rounds 1~")?;
        let (status, held) = run(alloc, "run", job, 16, read, 0)?;
        assert_eq!(rt; status, Status::ReadFault, "{read}");
        assert_eq!(rt; held.len(), 0, "{read}");
    }
    let job = counter_job(alloc, "rounds 1~")?;
    let (status, _) = run(alloc, "run", job, 16, READS + 1, 0)?;
    assert_eq!(rt; status, Status::Done);
    Ok(())
}
