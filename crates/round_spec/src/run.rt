//! A hart that runs to its loop head, the program counter 0.

ghost use Rattle.std.specs.Prelude.{◌≡◌, ◌≢◌, ◌↔◌, ℕ, ◌<◌, ◌≤◌, IfOk, IfErr, OnErr};
ghost use Rattle.rv_machine.specs.Hart.{IsValid};
ghost use Rattle.rv_machine.specs.Run.{RunsTo};
ghost use Rattle.round_spec.specs.Heads.{IsAway, IsFirstHead};
ghost use Rattle.round_spec.specs.Round.{Round};
ghost use Rattle.round_spec.specs.Stabilizes.{IsStable};

use crate::built::Built;
use asm_ranges::Checked;
use rv_machine::{Feed, Hart, Rom};

/// The loop head was not reached within the limit.
#[derive(Clone, Copy, PartialEq, Eq, Debug)]
pub struct Late;

/// Ticks until the program counter is 0, `limit` times at most, and says how many ticks that took: none if it is 0. The
/// feed gives what the ports read.
///
/// # Errors
///
/// `Late` where the program counter is not 0 before, between and after `limit` ticks, which were then all made.
pub fn to_head<const ROM: u32, const RAM: u32>(
    hart: &mut Hart<ROM, RAM>,
    rom: &Rom<ROM>,
    feed: &mut Feed,
    limit: u64,
) -> Result<u64, Late>
    ensures reached { IfOk result (λ t. IsFirstHead rom.now feed.old.left hart.old t) }
    ensures within { IfOk result (λ t. t ≤ limit) }
    ensures runs { IfOk result (λ t. RunsTo rom.now t feed.old feed.new hart.old hart.new) }
    ensures late { IfErr result (λ _. IsAway rom.now feed.old.left hart.old limit) }
    ensures ran { IfErr result (λ _. RunsTo rom.now limit feed.old feed.new hart.old hart.new) }
{
    let _ = feed.used();
    for ticks in 0..limit {
        if hart.pc() == 0 {
            return Ok(ticks);
        }
        tick(hart, rom, feed);
    }
    if hart.pc() == 0 { Ok(limit) } else { Err(Late) }
}

/// One tick, for which the feed gives the reading.
fn tick<const ROM: u32, const RAM: u32>(hart: &mut Hart<ROM, RAM>, rom: &Rom<ROM>, feed: &mut Feed)
    ensures { RunsTo rom.now 1 feed.old feed.new hart.old hart.new }
{
    let _ = feed.used();
    if hart.tick(rom, feed.peek()).took {
        feed.advance();
    }
}

/// Ticks to the loop head for the first time, and says how many ticks that took: no more than the anchor bound, whatever
/// the hart holds and the feed gives.
pub fn anchor<const ROM: u32, const RAM: u32>(
    checked: &Checked,
    built: &Built<ROM, RAM>,
    hart: &mut Hart<ROM, RAM>,
    feed: &mut Feed,
) -> u64
    requires { IsStable ROM RAM checked.now built.now }
    ensures head { IsFirstHead built.now.rom feed.old.left hart.old result }
    ensures within { result ≤ built.now.needs.anchor }
    ensures runs { RunsTo built.now.rom result feed.old feed.new hart.old hart.new }
{
    let _ = hart.pc();
    match to_head(hart, built.rom(), feed, built.needs().anchor) {
        Ok(ticks) => ticks,
        Err(_) => unreachable!(),
    }
}

/// Ticks from the loop head to the loop head, one round, and says how many ticks that took: no more than the round bound.
/// The round makes one step of the program on the state that RAM holds.
pub fn round<const ROM: u32, const RAM: u32>(
    checked: &Checked,
    built: &Built<ROM, RAM>,
    hart: &mut Hart<ROM, RAM>,
    feed: &mut Feed,
) -> u64
    requires stabilizes { IsStable ROM RAM checked.now built.now }
    requires head { hart.old.pc ≡ 0 }
    ensures round { Round checked.now built.now feed.old.left hart.old result hart.new }
    ensures within { result ≤ built.now.needs.round }
    ensures runs { RunsTo built.now.rom result feed.old feed.new hart.old hart.new }
{
    let _ = hart.pc();
    tick(hart, built.rom(), feed);
    match to_head(hart, built.rom(), feed, built.needs().round - 1) {
        Ok(ticks) => ticks + 1,
        Err(_) => unreachable!(),
    }
}
