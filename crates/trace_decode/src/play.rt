//! Plays: what happens to a hart, and the lines that are due.

ghost use Rattle.std.specs.Prelude.{◌≡◌, ◌≤◌, ◌<◌, ◌^◌, ◌+◌, ◌*◌, ◌∷◌, [], ◌++◌, OnOk, OnErr, IfOk};
ghost use Rattle.fault_script.specs.Faults.{AreFaults, last_time};
ghost use Rattle.round_spec.specs.Stabilizes.{IsStable};
ghost use Rattle.trace_decode.specs.Play.{started};
ghost use Rattle.trace_decode.specs.Tracing.{IsCutOff, IsTraced};
ghost use Rattle.std.specs.Io.KnownBytes.{Appends};
ghost use Rattle.stab_io.specs.Causes.{HasCause};
ghost use Rattle.text_core.specs.WrittenLines.{ended};
ghost use Rattle.fault_script.specs.Faults.{IsFault};
ghost use Rattle.rv_machine.specs.Memory.{IsMemorySize};
ghost use Rattle.trace_decode.specs.Play.{AtEnd, AtHead, Faulted, faulted, head_marks, ticked};
ghost use Rattle.trace_decode.specs.Ready.{IsMapped, IsReady, standing};
ghost use Rattle.trace_decode.specs.Going.{CutsOut, CutsUpTo, GoesOut, GoesUpTo};
ghost use Rattle.trace_decode.specs.TraceText.{line_of, text_of};
ghost use Rattle.trace_decode.specs.Tracing.{IsPartly};

use crate::desk::{Desk, Progress};
use crate::lines::{put_end, put_fault, put_head};
use asm_ranges::Checked;
use fault_script::{Event, Timed, apply};
use round_spec::Built;
use rv_machine::{Feed, Hart};
use stab_io::{Failed, Sink, write_all_of};
use state_layout::decode_into;

/// Writes the line of the loop head at which the hart stands.
fn show_head<const ROM: u32, const RAM: u32, K: Sink>(
    desk: &mut Desk,
    checked: &Checked,
    built: &Built<ROM, RAM>,
    hart: &Hart<ROM, RAM>,
    feed: &Feed,
    progress: Progress,
    sink: &mut K,
) -> Result<(), Failed>
    requires mapped { IsMapped RAM checked.now built.now }
    requires ready { IsReady checked.now desk.old }
    requires early { progress.time < 2 ^ 63 }
    ensures ready { IsReady checked.now desk.new }
    ensures whole { OnOk result (Appends (K.held sink.old) (K.held sink.new) (text_of checked.now built.now (record { cause = AtHead; at = standing hart.now feed.now progress } ∷ []))) }
    ensures part { OnErr result (IsPartly checked.now built.now (record { cause = AtHead; at = standing hart.now feed.now progress } ∷ []) (K.held sink.old) (K.held sink.new)) }
    ensures cause { HasCause (K.faults sink.old) (K.faults sink.new) result }
{
    let _ = feed.used();
    decode_into(built.map(), hart, &mut desk.state);
    desk.line.clear();
    let put = put_head(
        &mut desk.line,
        checked,
        built.map().space(),
        &desk.state,
        desk.lowest.as_slice(),
        progress.heads,
        progress.time,
    );
    match put {
        Ok(()) => write_all_of(sink, &desk.line),
        Err(_) => unreachable!(),
    }
}

/// Makes a tick, and writes the line of the loop head where the hart stands there then.
fn tick<const ROM: u32, const RAM: u32, K: Sink>(
    desk: &mut Desk,
    checked: &Checked,
    built: &Built<ROM, RAM>,
    hart: &mut Hart<ROM, RAM>,
    feed: &mut Feed,
    progress: &mut Progress,
    sink: &mut K,
) -> Result<(), Failed>
    requires mapped { IsMapped RAM checked.now built.now }
    requires ready { IsReady checked.now desk.old }
    requires early { progress.old.time < 2 ^ 60 }
    requires few { progress.old.heads ≤ progress.old.time + 1 }
    ensures ready { IsReady checked.now desk.new }
    ensures standing { standing hart.new feed.new progress.new ≡ ticked built.now.rom (standing hart.old feed.old progress.old) }
    ensures whole { OnOk result (Appends (K.held sink.old) (K.held sink.new) (text_of checked.now built.now (head_marks (standing hart.new feed.new progress.new)))) }
    ensures part { OnErr result (IsPartly checked.now built.now (head_marks (standing hart.new feed.new progress.new)) (K.held sink.old) (K.held sink.new)) }
    ensures cause { HasCause (K.faults sink.old) (K.faults sink.new) result }
{
    let _ = feed.used();
    if hart.tick(built.rom(), feed.peek()).took {
        feed.advance();
    }
    progress.time += 1;
    if hart.pc() != 0 {
        return Ok(());
    }
    progress.heads += 1;
    show_head(desk, checked, built, hart, feed, *progress, sink)
}

/// Makes a fault happen, and writes its line.
fn strike<const ROM: u32, const RAM: u32, K: Sink>(
    desk: &mut Desk,
    checked: &Checked,
    built: &Built<ROM, RAM>,
    hart: &mut Hart<ROM, RAM>,
    feed: &Feed,
    progress: &mut Progress,
    fault: &Event,
    sink: &mut K,
) -> Result<(), Failed>
    requires size { IsMemorySize RAM }
    requires ready { IsReady checked.now desk.old }
    requires fault { IsFault RAM fault.now }
    requires early { progress.old.time < 2 ^ 60 }
    ensures ready { IsReady checked.now desk.new }
    ensures standing { standing hart.new feed.now progress.new ≡ faulted fault.now (standing hart.old feed.now progress.old) }
    ensures whole { OnOk result (Appends (K.held sink.old) (K.held sink.new) (text_of checked.now built.now (record { cause = Faulted fault.now; at = standing hart.new feed.now progress.new } ∷ []))) }
    ensures part { OnErr result (IsPartly checked.now built.now (record { cause = Faulted fault.now; at = standing hart.new feed.now progress.new } ∷ []) (K.held sink.old) (K.held sink.new)) }
    ensures cause { HasCause (K.faults sink.old) (K.faults sink.new) result }
{
    let _ = feed.used();
    let _ = built.needs();
    apply(hart, *fault);
    progress.heads = 0;
    desk.line.clear();
    match put_fault(&mut desk.line, progress.time, fault) {
        Ok(()) => write_all_of(sink, &desk.line),
        Err(_) => unreachable!(),
    }
}

/// Writes the last line.
fn show_end<const ROM: u32, const RAM: u32, K: Sink>(
    desk: &mut Desk,
    checked: &Checked,
    built: &Built<ROM, RAM>,
    hart: &Hart<ROM, RAM>,
    feed: &Feed,
    progress: Progress,
    sink: &mut K,
) -> Result<(), Failed>
    requires ready { IsReady checked.now desk.old }
    requires early { progress.time < 2 ^ 60 }
    ensures whole { OnOk result (Appends (K.held sink.old) (K.held sink.new) (text_of checked.now built.now (record { cause = AtEnd; at = standing hart.now feed.now progress } ∷ []))) }
    ensures part { OnErr result (IsPartly checked.now built.now (record { cause = AtEnd; at = standing hart.now feed.now progress } ∷ []) (K.held sink.old) (K.held sink.new)) }
    ensures cause { HasCause (K.faults sink.old) (K.faults sink.new) result }
{
    let _ = (hart.pc(), feed.used());
    let _ = built.needs();
    desk.line.clear();
    match put_end(&mut desk.line, progress.time) {
        Ok(()) => write_all_of(sink, &desk.line),
        Err(_) => unreachable!(),
    }
}

/// Makes ticks up to the time of the next fault, and writes the lines that are due.
fn up_to<const ROM: u32, const RAM: u32, K: Sink>(
    desk: &mut Desk,
    checked: &Checked,
    built: &Built<ROM, RAM>,
    hart: &mut Hart<ROM, RAM>,
    feed: &mut Feed,
    progress: &mut Progress,
    time: u64,
    sink: &mut K,
) -> Result<(), Failed>
    requires mapped { IsMapped RAM checked.now built.now }
    requires ready { IsReady checked.now desk.old }
    requires early { time < 2 ^ 60 }
    requires later { progress.old.time ≤ time }
    requires few { progress.old.heads ≤ progress.old.time + 1 }
    ensures ready { IsReady checked.now desk.new }
    ensures there { OnOk result (progress.new.time ≡ time) }
    ensures few { OnOk result (progress.new.heads ≤ time + 1) }
    ensures going { OnOk result (GoesUpTo checked.now built.now time (standing hart.old feed.old progress.old) (K.held sink.old) (standing hart.new feed.new progress.new) (K.held sink.new)) }
    ensures cut { OnErr result (CutsUpTo checked.now built.now time (standing hart.old feed.old progress.old) (K.held sink.old) (standing hart.new feed.new progress.new) (K.held sink.new)) }
    ensures cause { HasCause (K.faults sink.old) (K.faults sink.new) result }
{
    for _made in progress.time..time {
        tick(desk, checked, built, hart, feed, progress, sink)?;
    }
    Ok(())
}

/// Makes ticks until the head lines of the rounds came, and writes the lines that are due. So many ticks are enough.
fn to_end<const ROM: u32, const RAM: u32, K: Sink>(
    desk: &mut Desk,
    checked: &Checked,
    built: &Built<ROM, RAM>,
    hart: &mut Hart<ROM, RAM>,
    feed: &mut Feed,
    progress: &mut Progress,
    rounds: u32,
    limit: u64,
    sink: &mut K,
) -> Result<(), Failed>
    requires mapped { IsMapped RAM checked.now built.now }
    requires ready { IsReady checked.now desk.old }
    requires early { progress.old.time + limit < 2 ^ 60 }
    requires few { progress.old.heads ≤ progress.old.time + 1 }
    ensures ready { IsReady checked.now desk.new }
    ensures soon { OnOk result (progress.new.time ≤ progress.old.time + limit) }
    ensures going { OnOk result (GoesOut checked.now built.now rounds limit (standing hart.old feed.old progress.old) (K.held sink.old) (standing hart.new feed.new progress.new) (K.held sink.new)) }
    ensures cut { OnErr result (CutsOut checked.now built.now rounds limit (standing hart.old feed.old progress.old) (K.held sink.old) (standing hart.new feed.new progress.new) (K.held sink.new)) }
    ensures cause { HasCause (K.faults sink.old) (K.faults sink.new) result }
{
    for _made in 0..limit {
        if progress.heads > u64::from(rounds) {
            return Ok(());
        }
        tick(desk, checked, built, hart, feed, progress, sink)?;
    }
    Ok(())
}

/// Makes the play of the script, and writes its trace. Answers the ticks.
pub(crate) fn play<const ROM: u32, const RAM: u32, K: Sink>(
    desk: &mut Desk,
    checked: &Checked,
    built: &Built<ROM, RAM>,
    hart: &mut Hart<ROM, RAM>,
    feed: &mut Feed,
    script: &[Timed],
    rounds: u32,
    limit: u64,
    sink: &mut K,
) -> Result<u64, Failed>
    requires size { IsMemorySize RAM }
    requires mapped { IsMapped RAM checked.now built.now }
    requires ready { IsReady checked.now desk.old }
    requires stable { IsStable ROM RAM checked.now built.now }
    requires script { AreFaults RAM script.now }
    requires limit { limit ≡ built.now.needs.anchor + rounds * built.now.needs.round }
    requires early { limit < 2 ^ 40 }
    ensures whole { IfOk result (λ ticks. IsTraced checked.now built.now script.now rounds (started hart.old feed.old) (K.held sink.old) (K.held sink.new) hart.new feed.new ticks) }
    ensures soon { IfOk result (λ ticks. ticks ≤ last_time 0 script.now + limit) }
    ensures cut { OnErr result (IsCutOff checked.now built.now script.now rounds (started hart.old feed.old) (K.held sink.old) (K.held sink.new) hart.new feed.new) }
    ensures cause { HasCause (K.faults sink.old) (K.faults sink.new) result }
{
    let _ = (hart.pc(), feed.used());
    let mut progress = start(desk, checked, built, hart, feed, sink)?;
    let mut left = script;
    'striking: while let Some((fault, rest)) = left.split_first() {
        let time = u64::from(fault.time);
        up_to(desk, checked, built, hart, feed, &mut progress, time, sink)?;
        let event = &fault.event;
        strike(desk, checked, built, hart, feed, &mut progress, event, sink)?;
        left = rest;
    }
    to_end(
        desk,
        checked,
        built,
        hart,
        feed,
        &mut progress,
        rounds,
        limit,
        sink,
    )?;
    show_end(desk, checked, built, hart, feed, progress, sink)?;
    Ok(progress.time)
}

/// Writes the line of the loop head where the hart starts there.
fn start<const ROM: u32, const RAM: u32, K: Sink>(
    desk: &mut Desk,
    checked: &Checked,
    built: &Built<ROM, RAM>,
    hart: &Hart<ROM, RAM>,
    feed: &Feed,
    sink: &mut K,
) -> Result<Progress, Failed>
    requires mapped { IsMapped RAM checked.now built.now }
    requires ready { IsReady checked.now desk.old }
    ensures ready { IsReady checked.now desk.new }
    ensures standing { IfOk result (λ progress. standing hart.now feed.now progress ≡ started hart.now feed.now) }
    ensures whole { OnOk result (Appends (K.held sink.old) (K.held sink.new) (text_of checked.now built.now (head_marks (started hart.now feed.now)))) }
    ensures part { OnErr result (IsPartly checked.now built.now (head_marks (started hart.now feed.now)) (K.held sink.old) (K.held sink.new)) }
    ensures cause { HasCause (K.faults sink.old) (K.faults sink.new) result }
{
    if hart.pc() != 0 {
        return Ok(Progress { time: 0, heads: 0 });
    }
    let progress = Progress { time: 0, heads: 1 };
    show_head(desk, checked, built, hart, feed, progress, sink)?;
    Ok(progress)
}
