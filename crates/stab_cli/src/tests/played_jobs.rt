//! Runs of images under faults, with their whole texts.

use super::hart_jobs::are_written;
use super::{SEVEN_REPORT, answered};
use crate::status::Status;
use std::alloc::Global;
use std::process::Abort;
use std::test::Fail;

/// A source with the image of the first session, whose states other than 7 are illegal.
const SEVEN_LEGAL: &str =
    "%source~machine m~domain D = 0 to 9~controlled x : D~legal (x = 7)~rule x := 7~%run~";

/// The lines of `%run` and the trace: from an illegal state; from noise, with a word of the state and a register hit; a fault that takes the hart from the head before
/// its first tick, and one that puts it there, which is no stand. `~` stands for a line feed.
const TRACES: &str = "\
rounds 2~ram 10000000 ffffffff~ | anchor 0 x=5 illegal~round 43 x=7 legal~round 86 x=7 legal~end 86~
seed 5~at 100 set 10000000 00000003~at 100 reg 5 00000001~ | anchor 1 x=0 illegal~round 44 x=7 legal~round 87 x=7 legal~\
fault 100 set 10000000 00000003~fault 100 reg 5 00000001~anchor 123 x=3 illegal~round 166 x=7 legal~end 166~
at 0 pc 00000004~ | anchor 0 x=0 illegal~fault 0 pc 00000004~anchor 1 x=0 illegal~round 44 x=7 legal~end 44~
pc 4~at 0 pc 00000004~ | fault 0 pc 00000004~anchor 43 x=7 legal~round 86 x=7 legal~end 86~";

#[test]
fn traces_of_the_first_session(rt: HostRuntime) -> Result<(), Fail> {
    are_written(&rt, rt.alloc(), "run", SEVEN_LEGAL, SEVEN_REPORT, TRACES)
}

/// Jobs with their traces: an array of values out of range; domains of one value and of 65,536; program counters in RAM and
/// behind it, and in a table; inputs, read in their order; a counter that a fault takes from the head; names and an output.
/// `~` stands for a line feed, and `@` for `7` with a comma, 299 times.
const JOBS: &str = "\
%source~machine m~domain A = 0 to 3~domain E = 0 to 4~controlled f(A) : E~rule skip~\
%run~ram 10000000 4~ram 10000004 5~ram 10000008 7~ram 1000000c ffffffff~ | \
anchor 0 f(0)=4 f(1)=0 f(2)=2 f(3)=2~round 27 f(0)=4 f(1)=0 f(2)=2 f(3)=2~end 27~
%source~machine m~domain U = 7 to 7~domain W = 0 to 65535~controlled u : U~controlled w : W~rule skip~\
%run~fill ffffffff~ | anchor 0 u=7 w=65535~round 17 u=7 w=65535~end 17~
%source~machine m~domain U = 7 to 7~domain W = 0 to 65535~controlled u : U~controlled w : W~rule skip~\
%run~fill ffffffff~ram 10000004 00010000~ | anchor 0 u=7 w=0~round 17 u=7 w=0~end 17~
%source~machine counter~domain D = 0 to 9~controlled x : D~rule x := cond((x = 9), 0, min((x + 1), 9))~\
%run~rounds 3~ram 10000000 ffffffff~pc 10000000~ | anchor 1 x=5~round 86 x=6~round 169 x=7~round 252 x=8~end 252~
%source~machine counter~domain D = 0 to 9~controlled x : D~rule x := cond((x = 9), 0, min((x + 1), 9))~\
%run~rounds 3~ram 10000000 ffffffff~pc fffffffc~ | anchor 1 x=5~round 86 x=6~round 169 x=7~round 252 x=8~end 252~
%source~machine m~domain D = 0 to 9~domain I = 0 to 299~static s(I) : D = [ @7 ]~controlled x : D~rule x := s(0)~\
%run~pc ae4~ | anchor 2 x=0~round 69 x=7~end 69~
%source~machine m~domain D = 0 to 9~input a : D~input b : D~controlled x : D~controlled y : D~rule par x := a ; y := b end~\
%run~in c~ | anchor 0 x=0 y=0~round 114 x=2 y=0~end 114~
%source~machine counter~domain D = 0 to 9~controlled x : D~legal (x < 6)~rule x := cond((x = 9), 0, min((x + 1), 9))~\
%run~rounds 3~ram 10000000 ffffffff~at 1 pc 00000002~ | anchor 0 x=5 legal~fault 1 pc 00000002~anchor 2 x=5 legal~\
round 87 x=6 illegal~round 170 x=7 illegal~round 253 x=8 illegal~end 253~
%source~machine heater~domain Temp = 0 to 100~domain Mode = { idle, heat, broken }~domain Relay = { off, on }~input t : Temp~\
controlled mode : Mode~output relay : Relay~rule if (t < 40) then par mode := heat ; relay := on end~\
else if (t > 60) then par mode := idle ; relay := off end end end~%run~rounds 3~fill ffffffff~in 14~in 32~in 46~ | \
anchor 0 mode=idle relay=on~round 118 mode=heat relay=on~round 195 mode=heat relay=on~round 335 mode=idle relay=off~end 335~";

/// A job is answered by the report of its source, and behind it the trace.
fn is_played(rt: &impl Abort, alloc: Global, job: &str, trace: &str) -> Result<(), Fail> {
    let (source, _) = job.split_once("%run").ok_or("a job has a run")?;
    let (_, mut text) = answered(alloc, "compile", source)?;
    text.extend_from_slice(trace.as_bytes())?;
    let (status, held) = answered(alloc, "run", job)?;
    assert_eq!(rt; status, Status::Done, "{job}");
    assert_eq!(rt; held.as_slice(), text.as_slice(), "{job}");
    Ok(())
}

#[test]
fn traces_behind_their_reports(rt: HostRuntime) -> Result<(), Fail> {
    let alloc = rt.alloc();
    let entries = "7, ".repeat(alloc, 299)?;
    for row in JOBS.lines() {
        let row = row.replace(alloc, '~', "\n")?;
        let row = row.replace(alloc, '@', entries.as_str())?;
        let (job, trace) = row.split_once(" | ").ok_or("a row has a bar")?;
        is_played(&rt, alloc, job, trace)?;
    }
    Ok(())
}
