//! A source and a sink in memory, whose calls fail by a list. Their contracts are exact.
ghost use Rattle.std.specs.Prelude.{◌≡◌, ◌≤◌, [], IfOk};

use crate::{Failed, Sink, Source};
use std::alloc::{AllocError, Global};
use std::marker::Model;

// Which calls fail, by their numbers from 1, and how many have failed.
#[derive(Drop)]
struct Plan {
    fails: Vec<u32>,
    calls: u32,
    faults: u64,
}

impl Plan {
    ghost use Rattle.std.specs.Prelude.{◌≡◌, ◌↔◌, IsErr, OnErr, OnOk, Contains};
    ghost use Rattle.stab_io.specs.Causes.{counted_up};
    ghost use Rattle.stab_io.specs.Memory.{next_call};

    fn new(fails: Vec<u32>) -> Plan
        ensures { result ≡ record { fails = fails; calls = 0; faults = 0 } }
    {
        Plan {
            fails,
            calls: 0,
            faults: 0,
        }
    }

    // Counts a call, which fails where it is listed.
    fn begin(&mut self) -> Result<(), Failed>
        ensures listed { IsErr result ↔ Contains self.old.fails.items self.new.calls }
        ensures calls { self.new.calls ≡ next_call self.old.calls }
        ensures fails { self.new.fails ≡ self.old.fails }
        ensures ok { OnOk result (self.new.faults ≡ self.old.faults) }
        ensures err { OnErr result (self.new.faults ≡ counted_up self.old.faults) }
    {
        self.calls = self.calls.saturating_add(1);
        if self.fails.contains(&self.calls) {
            Err(self.fault())
        } else {
            Ok(())
        }
    }

    // Counts a fault.
    fn fault(&mut self) -> Failed
        ensures { self.new ≡ record self.old { faults = counted_up self.old.faults } }
    {
        self.faults = self.faults.saturating_add(1);
        Failed
    }
}

/// A source over bytes in memory. Contracts see it as an `Input`: the bytes that are left, the
/// greatest number of bytes that a call gives, the numbers of the calls that fail, and the counts of
/// calls and of faults so far.
///
/// Calls are numbered from 1, and the number stays at 4294967295 once it is there.
#[derive(Drop)]
pub struct MemSource {
    bytes: Vec<u8>,
    at: usize,
    step: usize,
    plan: Plan,
}

impl Model for MemSource {
    ghost use Rattle.std.specs.Prelude.{◌≤◌, length, drop};
    ghost use Rattle.stab_io.specs.Memory.{Input};

    ghost Value = { Input };

    ghost view = { λ source. record {
      left = drop source.at source.bytes.items;
      step = source.step;
      fails = source.plan.fails.items;
      calls = source.plan.calls;
      faults = source.plan.faults;
    } };

    ghost invariant = { λ source. (source.at ≤ length source.bytes.items) × (1 ≤ source.step) };
}

impl MemSource {
    /// A source that gives `bytes`, at most `step` of them a call, and whose calls fail whose numbers
    /// are in `fails`. Both counts start at 0. Takes no memory.
    pub fn new(bytes: Vec<u8>, step: usize, fails: Vec<u32>) -> MemSource
        requires { 1 ≤ step }
        ensures { result ≡ record { left = bytes.items; step = step; fails = fails.items; calls = 0; faults = 0 } }
    {
        MemSource {
            bytes,
            at: 0,
            step,
            plan: Plan::new(fails),
        }
    }
}

impl Source for MemSource {
    ghost use Rattle.std.specs.Prelude.{◌↔◌, ◌≡◌, ◌+◌, Some, Contains, IsErr, IfOk, OnOk, OnErr, drop, length, min};
    ghost use Rattle.std.specs.Io.{ReadsAtMost};
    ghost use Rattle.std.specs.Io.KnownBytes.{ReadConsumes};
    ghost use Rattle.stab_io.specs.Causes.{HasCause, counted_up};
    ghost use Rattle.stab_io.specs.Memory.{next_call};

    ghost left = { λ source. Some source.left };

    ghost faults = { λ source. source.faults };

    /// Gives as many bytes as the step, the buffer and what is left allow. It fails at the listed
    /// calls and no others.
    fn read(&mut self, buf: &mut [u8]) -> Result<usize, Failed>
        ensures bound { ReadsAtMost result buf.new }
        ensures bytes { ReadConsumes (Some self.old.left) (Some self.new.left) result buf.new }
        ensures cause { HasCause self.old.faults self.new.faults result }

        ensures listed { IsErr result ↔ Contains self.old.fails (next_call self.old.calls) }
        ensures count { IfOk result (λ count. count ≡ min (min (length self.old.left) (length buf.new)) self.old.step) }
        ensures ok { IfOk result (λ count. self.new
            ≡ record self.old { left = drop count self.old.left; calls = next_call self.old.calls }) }
        ensures err { OnErr result (self.new
            ≡ record self.old { calls = next_call self.old.calls; faults = counted_up self.old.faults }) }
    {
        self.plan.begin()?;
        let rest = &self.bytes[self.at..];
        let count = rest.len().min(buf.len()).min(self.step);
        buf[..count].copy_from_slice(&rest[..count]);
        self.at += count;
        Ok(count)
    }
}

/// A sink in memory with a fixed room. Contracts see it as an `Output`: the bytes held, the greatest
/// number of bytes that it holds, the greatest number that a call takes, the numbers of the calls
/// that fail, and the counts of calls and of faults so far. Calls are numbered as those of a
/// [`MemSource`] are.
#[derive(Drop)]
pub struct MemSink {
    taken: Vec<u8>,
    room: usize,
    step: usize,
    plan: Plan,
}

impl Model for MemSink {
    ghost use Rattle.std.specs.Prelude.{◌≤◌, length, vec_capacity};
    ghost use Rattle.stab_io.specs.Memory.{Output};

    ghost Value = { Output };

    ghost view = { λ sink. record {
      held = sink.taken.items;
      room = sink.room;
      step = sink.step;
      fails = sink.plan.fails.items;
      calls = sink.plan.calls;
      faults = sink.plan.faults;
    } };

    ghost invariant = { λ sink. (length sink.taken.items ≤ sink.room) × (sink.room ≤ vec_capacity sink.taken) × (1 ≤ sink.step) };
}

impl MemSink {
    /// A sink that holds nothing yet and at most `room` bytes, that takes at most `step` bytes a
    /// call, and whose calls fail whose numbers are in `fails`. Both counts start at 0. It is an
    /// error if there is no memory for the room; a write takes none.
    pub fn new(
        alloc: Global,
        room: usize,
        step: usize,
        fails: Vec<u32>,
    ) -> Result<MemSink, AllocError>
        requires { 1 ≤ step }
        ensures { IfOk result (λ sink. sink
            ≡ record { held = []; room = room; step = step; fails = fails.items; calls = 0; faults = 0 }) }
    {
        Ok(MemSink {
            taken: Vec::with_capacity(alloc, room)?,
            room,
            step,
            plan: Plan::new(fails),
        })
    }

    /// The bytes taken so far. Takes no memory.
    pub fn held(&self) -> &[u8]
        ensures { result.now ≡ self.now.held }
    {
        &self.taken
    }
}

impl Sink for MemSink {
    ghost use Rattle.std.specs.Prelude.{◌↔◌, ◌⊎◌, ◌<◌, ◌≡◌, ◌-◌, ◌++◌, Some, Contains, IsErr, IfOk, OnOk, OnErr, take, length, min};
    ghost use Rattle.std.specs.Io.{WritesAtMost};
    ghost use Rattle.std.specs.Io.KnownBytes.{WriteAppends};
    ghost use Rattle.stab_io.specs.Causes.{HasCause, counted_up};
    ghost use Rattle.stab_io.specs.Memory.{next_call, HasNoRoom};

    ghost held = { λ sink. Some sink.held };

    ghost faults = { λ sink. sink.faults };

    /// Takes as many bytes as the step, the room that is left and the piece allow. It fails at the
    /// listed calls, and where there are bytes to write and no room is left.
    fn write(&mut self, piece: &[u8]) -> Result<usize, Failed>
        ensures bound { WritesAtMost result piece.now }
        ensures progress { 0 < length piece.now → IfOk result (λ count. 0 < count) }
        ensures bytes { WriteAppends (Some self.old.held) (Some self.new.held) result piece.now }
        ensures cause { HasCause self.old.faults self.new.faults result }

        ensures fails { IsErr result ↔ (Contains self.old.fails (next_call self.old.calls) ⊎ HasNoRoom self.old piece.now) }
        ensures count { IfOk result (λ count. count ≡ min (min (length piece.now) (self.old.room - length self.old.held)) self.old.step) }
        ensures ok { IfOk result (λ count. self.new
            ≡ record self.old { held = self.old.held ++ take count piece.now; calls = next_call self.old.calls }) }
        ensures err { OnErr result (self.new
            ≡ record self.old { calls = next_call self.old.calls; faults = counted_up self.old.faults }) }
    {
        self.plan.begin()?;
        let free = self.room - self.taken.len();
        if free == 0 && !piece.is_empty() {
            return Err(self.plan.fault());
        }
        let count = piece.len().min(free).min(self.step);
        self.taken.extend_from_slice(&piece[..count]).unwrap();
        Ok(count)
    }
}
