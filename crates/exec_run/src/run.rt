//! A hart that runs for a number of ticks under faults, and the text of the run.

ghost use Rattle.std.specs.Prelude.{◌≡◌, ◌++◌, length, IfOk, OnOk, OnErr};
ghost use Rattle.std.specs.Io.{StartsWith};
ghost use Rattle.std.specs.List.{AllByRecursion};
ghost use Rattle.fault_script.specs.Faults.{AreFaults, IsFault};
ghost use Rattle.fault_script.specs.declared.event.Timed as timed;
ghost use Rattle.rv_machine.specs.Run.{ports_taken};
ghost use Rattle.exec_run.specs.ExecText.{due, end_of, exec_text, later, run_events, send_lines, shown_by, start_of, traps};
ghost use Rattle.exec_run.specs.Striking.{struck_all};
ghost use Rattle.text_core.specs.WrittenLines.{lines_text};

use crate::writing::{put_pc, put_ram, put_registers, put_send, put_summary};
use fault_script::{Timed, apply};
use rv_encode::Words;
use rv_machine::{Feed, Hart, Rom};
use stab_io::Bytes;
use std::alloc::{AllocError, Global};

/// What a run counts beside its ticks.
#[derive(Clone, Copy)]
struct Counts {
    /// The ticks that trapped.
    traps: u32,
    /// The ticks that took a reading, past the end of the list too.
    readings: u32,
}

/// Makes the faults of a time happen that are next in the script, and answers those behind them.
fn strike_due<'a, const ROM: u32, const RAM: u32>(
    hart: &mut Hart<ROM, RAM>,
    script: &'a [Timed],
    time: u32,
) -> &'a [Timed]
    requires { AllByRecursion (λ (fault : timed.Timed). IsFault RAM fault.event) script.now }
    ensures later { result.now ≡ later time script.now }
    ensures struck { hart.new ≡ struck_all (due time script.now) hart.old }
    ensures faults { AllByRecursion (λ (fault : timed.Timed). IsFault RAM fault.event) result.now }
{
    let mut left = script;
    'striking: while let Some((fault, rest)) = left.split_first() {
        if fault.time != time {
            return left;
        }
        apply(hart, fault.event);
        left = rest;
    }
    left
}

/// Makes the ticks with the faults of the script before them, appends a line for each word that is sent to an output port,
/// and counts.
fn run<const ROM: u32, const RAM: u32>(
    out: &mut Vec<u8>,
    rom: &Rom<ROM>,
    hart: &mut Hart<ROM, RAM>,
    feed: &mut Feed,
    script: &[Timed],
    ticks: u32,
) -> Result<Counts, AllocError>
    requires { AllByRecursion (λ (fault : timed.Timed). IsFault RAM fault.event) script.now }
    ensures lines { OnOk result (out.new.items ≡ out.old.items ++ lines_text (send_lines 1 (shown_by rom.now (run_events ticks 0 script.now) (start_of feed.old.left hart.old)))) }
    ensures traps { IfOk result (λ counts. counts.traps ≡ traps (shown_by rom.now (run_events ticks 0 script.now) (start_of feed.old.left hart.old))) }
    ensures readings { IfOk result (λ counts. counts.readings ≡ length (ports_taken (shown_by rom.now (run_events ticks 0 script.now) (start_of feed.old.left hart.old)))) }
    ensures hart { OnOk result (hart.new ≡ end_of rom.now ticks script.now feed.old.left hart.old) }
    ensures err { OnErr result (StartsWith out.new.items out.old.items) }
{
    let mut traps = 0;
    let mut readings = 0;
    let mut reading = feed.peek();
    let mut left = script;
    for number in 0..ticks {
        left = strike_due(hart, left, number);
        let ticked = hart.tick(rom, reading);
        if ticked.took {
            feed.advance();
            reading = feed.peek();
            readings += 1;
        } else if ticked.trapped {
            traps += 1;
        } else if let Some((port, word)) = ticked.sent {
            put_send(out, number + 1, port, word)?;
        }
    }
    Ok(Counts { traps, readings })
}

/// Runs the ROM on the hart for so many ticks and answers what that did as text, in lines that each end with a
/// line feed. All input ports give the readings in turn, and 0 after the last of them. A fault of the script comes after
/// as many ticks as its time, and before the next one; one whose time is that of the end, or later, does not come.
///
/// For each word that was sent to an output port, in order, the line `send TICK PORT WORD`, where the first tick has
/// the number 1. Then `ticks N traps N readings N`, where the loads from a port after the last reading count too.
/// Then `pc WORD`, `xN WORD` for each register that isn't 0, and `ram ADDRESS WORD` for each word of RAM that
/// isn't what it was at the start. Words and addresses have eight hexadecimal digits, and other numbers are decimal.
///
/// # Errors
///
/// `AllocError` where there is no memory for the text or for the RAM at the start, which is kept to compare. The hart
/// may then have made any number of the ticks.
pub fn exec_text<const ROM: u32, const RAM: u32>(
    alloc: Global,
    rom: &Rom<ROM>,
    hart: &mut Hart<ROM, RAM>,
    readings: Words,
    script: &[Timed],
    ticks: u32,
) -> Result<Bytes, AllocError>
    requires { AreFaults RAM script.now }
    ensures text { IfOk result (λ text. text ≡ exec_text rom.now ticks script.now readings hart.old) }
    ensures hart { OnOk result (hart.new ≡ end_of rom.now ticks script.now readings hart.old) }
{
    let mut out = Vec::new(alloc);
    let mut feed = Feed::new(readings);
    let start = hart.copy()?;
    let counts = run(&mut out, rom, hart, &mut feed, script, ticks)?;
    put_summary(&mut out, ticks, counts.traps, counts.readings)?;
    put_pc(&mut out, hart)?;
    put_registers(&mut out, hart)?;
    put_ram(&mut out, &start, hart)?;
    Ok(Bytes::from_vec(out))
}
