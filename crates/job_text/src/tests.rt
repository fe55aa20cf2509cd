//! Jobs of modes that no other test reaches, and the parts and the start of one.

ghost use Rattle.std.specs.Prelude.{◌<◌, ◌^◌, length};

use super::*;
use std::process::Abort;
use std::test::Fail;

/// Jobs for `make` and `run` with `~` for a line feed, behind the code and the line of their first fault, or zeros.
const FIRST_FAULTS: &str = "\
make 0 0: ~
make 0 0: %set~
make 0 0: %set~shape looped~layout packed~revision 2~nodes 64~states 256~seed FFFFFFFF
make 401 1: %run~
make 401 2: %set~%source~
make 402 2: %set~rounds 1~
make 403 2: %set~nodes 2~
make 403 2: %set~nodes 65~
make 402 3: %set~nodes 3~nodes 3~
make 402 3: %set~nodes 3~nodes 2~
make 0 0: %set~states 10~nodes 5~
make 403 2: %set~states 4~nodes 5~
make 403 2: %set~states 10~
make 0 0: %set~states 64~
make 403 3: %set~states 10~nodes 2~nodes 7~
make 403 2: %set~states 257~nodes 2~
make 402 3: %set~nodes 3~states x~
make 402 2: %set~seed 123456789~
run 0 0: %source~%run~
run 401 2: ~
run 401 3: %set~# nothing~
run 402 4: %source~%run~rounds 2~ticks 2~
run 403 3: %source~%run~rounds 1000001~
run 402 4: %source~%run~fill 1~seed 1~
run 402 3: %source~%run~value x 1~
run 0 0: %set~revision 2~%source~%run~at any~ram 100ffffc 1~
run 403 3: %source~%run~ram 10040000 1~";

/// The bytes of a job, short enough to be one.
fn job<'a>(rt: &impl Abort, text: &'a str) -> &'a [u8]
    ensures { length result.now < 2 ^ 31 }
{
    let bytes = text.as_bytes();
    assert!(rt; bytes.len() <= 100_000);
    bytes
}

/// The code and the line of a refusal, two zeros where the job is read.
fn refusal(end: Result<Job, JobEnd>) -> (u32, u32) {
    match end {
        Ok(_) => (0, 0),
        Err(JobEnd::Fault { fault, line }) => (fault.code(), line),
        Err(JobEnd::NoMemory) => (1, 1),
    }
}

#[test]
fn first_faults(rt: HostRuntime) -> Result<(), Fail> {
    let alloc = rt.alloc();
    for row in FIRST_FAULTS.lines() {
        let (head, text) = row.split_once(": ").ok_or("a row has a colon")?;
        let mut words = head.split(' ');
        let mode = Mode::of(words.next().unwrap_or("")).ok_or("a row has a mode")?;
        let code = words.next().unwrap_or("").parse().unwrap_or(9_u32);
        let line = words.next().unwrap_or("").parse().unwrap_or(9_u32);
        let text = text.replace(alloc, '~', "\n")?;
        let found = refusal(read_job(alloc, mode, job(&rt, &text)));
        assert_eq!(rt; found, (code, line), "{row}");
    }
    Ok(())
}

/// The bytes and the line of a part.
fn place(part: Part) -> (usize, usize, u32) {
    (part.from, part.to, part.line)
}

#[test]
fn parts_and_start(rt: HostRuntime) -> Result<(), Fail> {
    let text = "# a\n%rom\n13\n14\n%run\nreg 1 7\nseed 0\npc 8\nram 10000004 5\nin 6\nreg 1 9\n";
    let found = read_job(rt.alloc(), Mode::Exec, job(&rt, text))
        .ok()
        .ok_or("the job is one")?;
    assert_eq!(rt; place(found.rom), (9, 15, 3));
    assert_eq!(rt; place(found.script), (20, text.len(), 6));
    assert_eq!(rt; place(found.source), (0, 0, 1));
    assert_eq!(rt; found.start.pc, 8);
    let ram = found.start.ram.list();
    assert_eq!(rt;
        (ram.len(), ram[0], ram[1], ram[2]),
        (65_536, 0x3c6e_f35f, 5, 0xd1cc_f6e9)
    );
    let regs = found.start.regs.list();
    assert_eq!(rt; (regs.len(), regs[0], regs[1]), (32, 0, 9));
    assert_eq!(rt; found.start.readings.list(), [6].as_slice());
    assert_eq!(rt;
        (found.ticks, found.rounds, found.nodes, found.states),
        (1, 1, 64, 64)
    );
    Ok(())
}
