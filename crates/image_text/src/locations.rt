//! The lines of locations. Each call appends its lines; its only error is that no memory is left, and the list then begins
//! with what it held.

ghost use Rattle.std.specs.Prelude.{◌≡◌, ◌+◌, ◌<◌, ◌^◌, ◌++◌, true, length, map, slice_get, IfOk, OnOk, OnErr, Some};
ghost use Rattle.std.specs.Io.{StartsWith};
ghost use Rattle.state_space.specs.Firsts.{before};
ghost use Rattle.state_space.specs.Kinds.{of_side};
ghost use Rattle.state_space.specs.Locations.{located, signatures_of, tuples};
ghost use Rattle.state_space.specs.declared.signature.Signature.{Signature};
ghost use Rattle.text_core.specs.WrittenLines.{ended, lines_text};
ghost use Rattle.image_text.specs.Report.{address_of, in_line, located_line, numbered, out_line, place_line, side_line, side_lines};
ghost use Rattle.image_text.specs.ReportParts.{location_on, own_locations};

use asm_names::Resolved;
use fault_script::put_function_location;
use state_layout::{Entry, Map};
use state_space::{Range, Side, Signature, count};
use std::alloc::AllocError;
use text_core::{Piece, put_line};
use trap_model::RAM_BASE;

/// Appends the line of the place of a location, which is spelled so.
#[tactic(auto, unfolding(crate::specs::Report::place_line))]
fn put_place(out: &mut Vec<u8>, name: &[u8], entry: Entry) -> Result<(), AllocError>
    requires { address_of entry < 2 ^ 32 }
    ensures ok { OnOk result (out.new.items ≡ out.old.items ++ ended (place_line name.now entry)) }
    ensures err { OnErr result (out.new.items ≡ out.old.items) }
{
    put_line(
        out,
        &[
            Piece::Text(b"place"),
            Piece::Text(name),
            Piece::Hex8(RAM_BASE + entry.offset),
            Piece::Decimal(u64::from(entry.width)),
            Piece::Decimal(u64::from(entry.size)),
            Piece::Signed(i64::from(entry.lo)),
        ],
    )
}

/// Appends the line of an input location at its port.
#[tactic(auto, unfolding(crate::specs::Report::in_line))]
fn put_in(out: &mut Vec<u8>, port: u32, name: &[u8], range: Range) -> Result<(), AllocError>
    ensures ok { OnOk result (out.new.items ≡ out.old.items ++ ended (in_line port name.now range)) }
    ensures err { OnErr result (out.new.items ≡ out.old.items) }
{
    put_line(
        out,
        &[
            Piece::Text(b"in"),
            Piece::Decimal(u64::from(port)),
            Piece::Text(name),
            Piece::Decimal(u64::from(range.size)),
            Piece::Signed(i64::from(range.lo)),
        ],
    )
}

/// Appends the line of an output location at its port.
#[tactic(auto, unfolding(crate::specs::Report::out_line))]
fn put_out(out: &mut Vec<u8>, port: u32, name: &[u8]) -> Result<(), AllocError>
    ensures ok { OnOk result (out.new.items ≡ out.old.items ++ ended (out_line port name.now)) }
    ensures err { OnErr result (out.new.items ≡ out.old.items) }
{
    put_line(
        out,
        &[
            Piece::Text(b"out"),
            Piece::Decimal(u64::from(port)),
            Piece::Text(name),
        ],
    )
}

/// Appends the line of the location with a number on a side, which is one of this function and is spelled so.
fn put_located(
    out: &mut Vec<u8>,
    side: Side,
    map: &Map,
    fun: usize,
    number: u32,
    name: &[u8],
) -> Result<(), AllocError>
    requires exists { fun < length map.now.signatures }
    requires within { number < length (located (of_side side) 0 map.now.signatures) }
    requires function { fun ≡ (location_on side map.now.signatures number).fun }
    ensures ok { OnOk result (out.new.items ≡ out.old.items ++ ended (located_line side map.now number (location_on side map.now.signatures number) name.now)) }
    ensures err { OnErr result (out.new.items ≡ out.old.items) }
{
    match side {
        Side::State => {
            map.is_placed();
            put_place(out, name, map.entry(number))
        }
        Side::Input => put_in(out, number, name, map.range_at(fun)),
        Side::Output => put_out(out, number, name),
    }
}

/// Appends the lines of a function's locations on a side, of which the first has this number there. Answers the number
/// behind theirs. `room` is room for a location; what it holds doesn't matter.
fn put_function(
    out: &mut Vec<u8>,
    room: &mut Vec<u8>,
    side: Side,
    program: &Resolved,
    map: &Map,
    fun: usize,
    signature: &Signature,
    first: u32,
) -> Result<u32, AllocError>
    requires same { map.now.signatures ≡ signatures_of program.now }
    requires here { slice_get map.now.signatures fun ≡ Some signature.now }
    requires held { of_side side signature.now.kind ≡ true }
    requires first { first ≡ before (of_side side) map.now.signatures fun }
    ensures next { IfOk result (λ next. next ≡ first + length (tuples signature.now.args)) }
    ensures ok { OnOk result (out.new.items ≡ out.old.items ++ lines_text (numbered (side_line side program.now map.now) first (own_locations fun (tuples signature.now.args)))) }
    ensures err { OnErr result (StartsWith out.new.items out.old.items) }
{
    map.is_placed();
    let function = &program.funs.as_slice()[fun];
    let ranges = signature.args.as_slice();
    let mut number = first;
    for tuple in 0..count(ranges) {
        room.clear();
        put_function_location(room, program.domains.as_slice(), function, ranges, tuple)?;
        put_located(out, side, map, fun, number, room)?;
        number += 1;
    }
    Ok(number)
}

/// Appends the lines of the locations on a side, in order. `room` is room for a location; what it holds doesn't matter.
pub(crate) fn put_side(
    out: &mut Vec<u8>,
    room: &mut Vec<u8>,
    side: Side,
    program: &Resolved,
    map: &Map,
) -> Result<(), AllocError>
    requires { map.now.signatures ≡ signatures_of program.now }
    ensures ok { OnOk result (out.new.items ≡ out.old.items ++ lines_text (side_lines side program.now map.now)) }
    ensures err { OnErr result (StartsWith out.new.items out.old.items) }
{
    let signatures = map.space().signatures();
    let mut first = 0;
    for fun in 0..signatures.len() {
        let signature = &signatures[fun];
        if side.holds(signature.kind) {
            first = put_function(out, room, side, program, map, fun, signature, first)?;
        }
    }
    Ok(())
}
