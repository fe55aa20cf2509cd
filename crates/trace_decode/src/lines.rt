//! The lines of a trace. Each call appends its line, with its line feed. A call for whose line the list has room takes no
//! memory, and so does not fail.

ghost use Rattle.std.specs.Prelude.{◌≡◌, ◌++◌, ◌≤◌, ◌<◌, ◌^◌, ◌+◌, length, OnOk, IsOk};
ghost use Rattle.fault_script.specs.Faults.{IsFault};
ghost use Rattle.fault_script.specs.FaultText.{fault_line};
ghost use Rattle.fault_script.specs.Putting.{IsPut};
ghost use Rattle.text_core.specs.Room.{room_of};
ghost use Rattle.text_core.specs.WrittenLines.{ended};
ghost use Rattle.model_run.specs.Running.{AreLowest, StateFits};
ghost use Rattle.state_space.specs.Locations.{signatures_of};
ghost use Rattle.trace_decode.specs.TraceText.{end_line, head_line, head_word};

use asm_ranges::Checked;
use fault_script::{Event, state_line};
use model_run::legal_text;
use state_space::{Space, State};
use std::alloc::AllocError;
use text_core::{Piece, put_line, put_pieces};
use trap_model::RAM_BASE;
use update_sets::legal_holds;

/// The word of a head line.
fn head_text(heads: u64) -> &'static [u8]
    ensures { result.now ≡ head_word heads }
{
    if heads == 1 { b"anchor" } else { b"round" }
}

/// Appends a head line.
pub(crate) fn put_head(
    out: &mut Vec<u8>,
    checked: &Checked,
    space: &Space,
    state: &State,
    lowest: &[i64],
    heads: u64,
    time: u64,
) -> Result<(), AllocError>
    requires spaces { space.now ≡ signatures_of checked.now }
    requires lowest { AreLowest space.now lowest.now }
    requires fits { StateFits checked.now state.now }
    ensures { IsPut result (ended (head_line checked.now state.now heads time)) out.old out.new }
{
    let word = Piece::Text(head_text(heads));
    let legal = legal_text(legal_holds(checked, space, state, lowest));
    put_pieces(out, &[word, Piece::Text(b" "), Piece::Decimal(time)])?;
    state_line(checked.resolved(), space, state, out)?;
    put_line(out, &[Piece::Text(legal)])
}

/// Appends the last line.
#[tactic(auto, unfolding(crate::specs::TraceText::end_line))]
pub(crate) fn put_end(out: &mut Vec<u8>, time: u64) -> Result<(), AllocError>
    ensures ok { OnOk result (out.new.items ≡ out.old.items ++ ended (end_line time)) }
    ensures fits { length (ended (end_line time)) ≤ room_of out.old → IsOk result }
    ensures room { OnOk result (room_of out.old ≤ room_of out.new + length (ended (end_line time))) }
{
    put_line(out, &[Piece::Text(b"end"), Piece::Decimal(time)])
}

/// Appends the line of a fault.
#[tactic(auto, unfolding(fault_script::specs::FaultText::fault_line))]
pub(crate) fn put_fault(out: &mut Vec<u8>, time: u64, fault: &Event) -> Result<(), AllocError>
    requires { IsFault (2 ^ 20) fault.now }
    ensures ok { OnOk result (out.new.items ≡ out.old.items ++ ended (fault_line time fault.now)) }
    ensures fits { length (ended (fault_line time fault.now)) ≤ room_of out.old → IsOk result }
    ensures room { OnOk result (room_of out.old ≤ room_of out.new + length (ended (fault_line time fault.now))) }
{
    let word = Piece::Text(b"fault");
    let at = Piece::Decimal(time);
    match fault {
        Event::Tick => put_line(out, &[word, at, Piece::Text(b"tick")]),
        Event::Reg { reg, mask } => {
            let number = Piece::Decimal(u64::from(reg.number()));
            put_line(
                out,
                &[word, at, Piece::Text(b"reg"), number, Piece::Hex8(*mask)],
            )
        }
        Event::Pc { mask } => put_line(out, &[word, at, Piece::Text(b"pc"), Piece::Hex8(*mask)]),
        Event::Ram { offset, mask } => {
            let address = Piece::Hex8(RAM_BASE + offset);
            put_line(
                out,
                &[word, at, Piece::Text(b"ram"), address, Piece::Hex8(*mask)],
            )
        }
        Event::SetRam {
            offset,
            word: stored,
        } => {
            let address = Piece::Hex8(RAM_BASE + offset);
            put_line(
                out,
                &[word, at, Piece::Text(b"set"), address, Piece::Hex8(*stored)],
            )
        }
    }
}
