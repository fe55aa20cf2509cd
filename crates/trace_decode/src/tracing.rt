//! The trace of a script, and how many ticks it takes.

ghost use Rattle.std.specs.Prelude.{◌≡◌, ◌≤◌, ◌<◌, ◌^◌, length, min, IfOk, IfErr, IsErrOf};
ghost use Rattle.stab_io.specs.Causes.{Rose};
ghost use Rattle.fault_script.specs.Faults.{AreFaults, last_time};
ghost use Rattle.round_spec.specs.Stabilizes.{IsStable};
ghost use Rattle.rv_machine.specs.Memory.{IsMemorySize};
ghost use Rattle.state_space.specs.Locations.{signatures_of};
ghost use Rattle.trace_decode.specs.Budget.{budget_of, most};
ghost use Rattle.trace_decode.specs.Convergence.{BecomesLegal};
ghost use Rattle.trace_decode.specs.Play.{started};
ghost use Rattle.trace_decode.specs.Ready.{IsMapped, IsReady};
ghost use Rattle.trace_decode.specs.Stretches.{KeepsBounds};
ghost use Rattle.trace_decode.specs.Tracing.{IsCutOff, IsTraced};
ghost use Rattle.trace_decode.specs.declared.tracing.TraceEnd.TheVariants.{NoMemory, WriteFault};

use crate::desk::Desk;
use crate::play::play;
use asm_ranges::Checked;
use bound_count::Numbers;
use fault_script::{Timed, room_for_states};
use round_spec::Built;
use rv_machine::{Feed, Hart};
use stab_io::Sink;
use state_space::{Space, State, resolved_functions_are_sized};
use std::alloc::{AllocError, Global};
use thiserror::Error;
use update_sets::lowest_inputs;

/// The most ticks that a trace may take.
const MOST_TICKS: u128 = 10_000_000;

/// How many bytes of a line are not of its state: no other line is longer.
const REST: usize = 64;

/// A trace may take too many ticks: this number, or 2^62 where that is less.
#[derive(Clone, Copy, Debug, PartialEq, Eq, Error)]
#[error("the trace may take {0} ticks, which is more than 10000000")]
pub struct TooMany(pub u64);

/// Why a trace wasn't written to its end.
#[derive(Clone, Copy, Debug, PartialEq, Eq, Error)]
pub enum TraceEnd {
    /// A write failed.
    #[error("a write failed")]
    WriteFault,
    /// No memory was left for what lines are written with.
    #[error("out of memory")]
    NoMemory,
}

/// The time of the last fault, and 0 where there is none.
fn last_time(script: &[Timed]) -> u32
    ensures { result ≡ last_time 0 script.now }
{
    let mut last = 0;
    let mut left = script;
    'passing: while let Some((fault, rest)) = left.split_first() {
        last = fault.time;
        left = rest;
    }
    last
}

/// How many ticks a trace takes at most: the time of the last fault, then the anchor bound, then the rounds. Takes no
/// memory.
///
/// # Errors
///
/// `TooMany` exactly where these are more than 10,000,000.
pub fn budget(needs: &Numbers, script: &[Timed], rounds: u32) -> Result<u64, TooMany>
    ensures ticks { IfOk result (λ ticks. ticks ≡ budget_of needs.now script.now rounds) }
    ensures few { IfOk result (λ ticks. ticks ≤ most) }
    ensures many { IfErr result (λ end. most < budget_of needs.now script.now rounds) }
    ensures number { IfErr result (λ end. end.0 ≡ min (budget_of needs.now script.now rounds) (2 ^ 62)) }
{
    let rounds_ticks = u128::from(rounds) * u128::from(needs.round);
    let ticks = u128::from(last_time(script)) + (u128::from(needs.anchor) + rounds_ticks);
    if ticks <= MOST_TICKS {
        Ok(ticks as u64)
    } else {
        Err(TooMany(ticks.min(1 << 62) as u64))
    }
}

/// Makes the play of a script, and writes its trace with what the desk has, so that no memory is taken. `WriteFault` where
/// a write failed, as [`run_trace`] says it.
fn trace<const ROM: u32, const RAM: u32, K: Sink>(
    desk: &mut Desk,
    checked: &Checked,
    built: &Built<ROM, RAM>,
    hart: &mut Hart<ROM, RAM>,
    feed: &mut Feed,
    script: &[Timed],
    rounds: u32,
    sink: &mut K,
) -> Result<u64, TraceEnd>
    requires size { IsMemorySize RAM }
    requires mapped { IsMapped RAM checked.now built.now }
    requires ready { IsReady checked.now desk.old }
    requires stable { IsStable ROM RAM checked.now built.now }
    requires script { AreFaults RAM script.now }
    requires budget { budget_of built.now.needs script.now rounds ≤ most }
    ensures whole { IfOk result (λ ticks. IsTraced checked.now built.now script.now rounds (started hart.old feed.old) (K.held sink.old) (K.held sink.new) hart.new feed.new ticks) }
    ensures soon { IfOk result (λ ticks. ticks ≤ budget_of built.now.needs script.now rounds) }
    ensures no_fault { IfOk result (λ ticks. K.faults sink.new ≡ K.faults sink.old) }
    ensures cut { IfErr result (λ end. IsCutOff checked.now built.now script.now rounds (started hart.old feed.old) (K.held sink.old) (K.held sink.new) hart.new feed.new) }
    ensures fault { IfErr result (λ end. Rose (K.faults sink.old) (K.faults sink.new)) }
    ensures end { IfErr result (λ end. end ≡ WriteFault) }
{
    let _ = (hart.pc(), feed.used());
    let needs = built.needs();
    let limit = needs.anchor + u64::from(rounds) * needs.round;
    match play(
        desk, checked, built, hart, feed, script, rounds, limit, sink,
    ) {
        Ok(ticks) => Ok(ticks),
        Err(_) => Err(TraceEnd::WriteFault),
    }
}

/// What lines are written with, with room for each.
fn desk_of(alloc: Global, checked: &Checked, space: &Space) -> Result<Desk, AllocError>
    requires { space.now ≡ signatures_of checked.now }
    ensures { IfOk result (λ desk. IsReady checked.now desk) }
{
    let state = State::lowest(alloc, space)?;
    let lowest = lowest_inputs(alloc, space)?;
    let line = room_for_states(alloc, checked.resolved(), space, &state, REST)?;
    Ok(Desk {
        line,
        state,
        lowest,
    })
}

/// Makes the play of a script from the hart and the readings on, and writes its trace: a line for each stand at the loop
/// head, with the state that RAM holds there, and for each fault; a line at the end. Answers the ticks. Hart and feed are
/// then those at the play's end. All memory is taken before the first tick: one line, one state and the least inputs.
///
/// Whatever faults come, the loop head is reached and rounds go on within the bounds of the image, and where the program
/// converges its states become legal.
///
/// # Errors
///
/// `NoMemory` where there is no memory for these; then nothing was written, and no tick was made. `WriteFault` where a write
/// failed, and a line did not go out whole. All lines before it are out, and of it a front that is not all of it; hart and
/// feed are those that the play has where this line is due, which for the line of a fault is right after the fault.
pub fn run_trace<const ROM: u32, const RAM: u32, K: Sink>(
    alloc: Global,
    checked: &Checked,
    built: &Built<ROM, RAM>,
    hart: &mut Hart<ROM, RAM>,
    feed: &mut Feed,
    script: &[Timed],
    rounds: u32,
    sink: &mut K,
) -> Result<u64, TraceEnd>
    requires size { IsMemorySize RAM }
    requires stable { IsStable ROM RAM checked.now built.now }
    requires script { AreFaults RAM script.now }
    requires budget { budget_of built.now.needs script.now rounds ≤ most }
    ensures whole { IfOk result (λ ticks. IsTraced checked.now built.now script.now rounds (started hart.old feed.old) (K.held sink.old) (K.held sink.new) hart.new feed.new ticks) }
    ensures soon { IfOk result (λ ticks. ticks ≤ budget_of built.now.needs script.now rounds) }
    ensures no_fault { IfOk result (λ ticks. K.faults sink.new ≡ K.faults sink.old) }
    ensures cut { IsErrOf result TraceEnd.WriteFault → IsCutOff checked.now built.now script.now rounds (started hart.old feed.old) (K.held sink.old) (K.held sink.new) hart.new feed.new }
    ensures fault { IsErrOf result TraceEnd.WriteFault → Rose (K.faults sink.old) (K.faults sink.new) }
    ensures unwritten { IsErrOf result TraceEnd.NoMemory → sink.new ≡ sink.old }
    ensures unmoved { IsErrOf result TraceEnd.NoMemory → hart.new ≡ hart.old }
    ensures unread { IsErrOf result TraceEnd.NoMemory → feed.new ≡ feed.old }
    ensures bounds { KeepsBounds RAM checked.now built.now (started hart.old feed.old) }
    ensures legal { BecomesLegal RAM checked.now built.now (started hart.old feed.old) }
{
    let _ = (hart.pc(), feed.used());
    resolved_functions_are_sized(checked.resolved());
    match desk_of(alloc, checked, built.map().space()) {
        Ok(desk) => {
            let mut desk = desk;
            trace(&mut desk, checked, built, hart, feed, script, rounds, sink)
        }
        Err(_) => Err(TraceEnd::NoMemory),
    }
}
