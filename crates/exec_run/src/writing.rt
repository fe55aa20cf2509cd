//! The lines of a run. Each call appends its lines, each with its line feed. Its only error is that no memory is left:
//! a call for one line then leaves the text as it was, and one for several a text that begins with what was there.

ghost use Rattle.std.specs.Prelude.{◌≡◌, ◌+◌, ◌/◌, ◌<◌, ◌^◌, ◌++◌, length, OnOk, OnErr};
ghost use Rattle.std.specs.Io.{StartsWith};
ghost use Rattle.trap_model.specs.Map.{ram_base};
ghost use Rattle.rv_machine.specs.Memory.{IsMemorySize};
ghost use Rattle.exec_run.specs.ExecText.{pc_line, ram_line, ram_lines, register_line, register_lines, send_line, summary_line};
ghost use Rattle.text_core.specs.WrittenLines.{ended, lines_text};

use rv_isa::Reg;
use rv_machine::Hart;
use std::alloc::AllocError;
use text_core::{Piece, put_line, put_pieces};
use trap_model::RAM_BASE;

/// Appends the line of a word that was sent.
#[tactic(auto, unfolding(crate::specs::ExecText::send_line))]
pub(crate) fn put_send(out: &mut Vec<u8>, tick: u32, port: u32, word: u32) -> Result<(), AllocError>
    ensures ok { OnOk result (out.new.items ≡ out.old.items ++ ended (send_line tick port word)) }
    ensures err { OnErr result (out.new.items ≡ out.old.items) }
{
    let (tick, port) = (u64::from(tick), u64::from(port));
    put_line(
        out,
        &[
            Piece::Text(b"send"),
            Piece::Decimal(tick),
            Piece::Decimal(port),
            Piece::Hex8(word),
        ],
    )
}

/// Appends the line of the counts.
#[tactic(auto, unfolding(crate::specs::ExecText::summary_line))]
pub(crate) fn put_summary(
    out: &mut Vec<u8>,
    ticks: u32,
    traps: u32,
    readings: u32,
) -> Result<(), AllocError>
    ensures ok { OnOk result (out.new.items ≡ out.old.items ++ ended (summary_line ticks traps readings)) }
    ensures err { OnErr result (out.new.items ≡ out.old.items) }
{
    put_line(
        out,
        &[
            Piece::Text(b"ticks"),
            Piece::Decimal(u64::from(ticks)),
            Piece::Text(b"traps"),
            Piece::Decimal(u64::from(traps)),
            Piece::Text(b"readings"),
            Piece::Decimal(u64::from(readings)),
        ],
    )
}

/// Appends the line of the program counter.
#[tactic(auto, unfolding(crate::specs::ExecText::pc_line))]
pub(crate) fn put_pc<const ROM: u32, const RAM: u32>(
    out: &mut Vec<u8>,
    hart: &Hart<ROM, RAM>,
) -> Result<(), AllocError>
    ensures ok { OnOk result (out.new.items ≡ out.old.items ++ ended (pc_line hart.now.pc)) }
    ensures err { OnErr result (out.new.items ≡ out.old.items) }
{
    put_line(out, &[Piece::Text(b"pc"), Piece::Hex8(hart.pc())])
}

/// Appends the line of a register.
#[tactic(auto, unfolding(crate::specs::ExecText::register_line))]
fn put_register(out: &mut Vec<u8>, number: u32, value: u32) -> Result<(), AllocError>
    ensures ok { OnOk result (out.new.items ≡ out.old.items ++ ended (register_line number value)) }
    ensures err { OnErr result (out.new.items ≡ out.old.items) }
{
    put_pieces(
        out,
        &[
            Piece::Text(b"x"),
            Piece::Decimal(u64::from(number)),
            Piece::Text(b" "),
            Piece::Hex8(value),
            Piece::Text(b"\n"),
        ],
    )
}

/// Appends the lines of the registers that aren't 0.
pub(crate) fn put_registers<const ROM: u32, const RAM: u32>(
    out: &mut Vec<u8>,
    hart: &Hart<ROM, RAM>,
) -> Result<(), AllocError>
    ensures ok { OnOk result (out.new.items ≡ out.old.items ++ lines_text (register_lines 0 hart.now.regs)) }
    ensures err { OnErr result (StartsWith out.new.items out.old.items) }
{
    // This tells the proof that the hart is valid, so that it has 32 registers.
    let _ = hart.pc();
    for number in 0..32 {
        let value = hart.reg(Reg::new(number).unwrap());
        if value != 0 {
            put_register(out, number, value)?;
        }
    }
    Ok(())
}

/// Appends the line of a word of RAM, whose offset is counted in bytes.
#[tactic(auto, unfolding(crate::specs::ExecText::ram_line))]
fn put_ram_word(out: &mut Vec<u8>, offset: u32, word: u32) -> Result<(), AllocError>
    requires { ram_base + offset < 2 ^ 32 }
    ensures ok { OnOk result (out.new.items ≡ out.old.items ++ ended (ram_line offset word)) }
    ensures err { OnErr result (out.new.items ≡ out.old.items) }
{
    put_line(
        out,
        &[
            Piece::Text(b"ram"),
            Piece::Hex8(RAM_BASE + offset),
            Piece::Hex8(word),
        ],
    )
}

/// Appends the lines of the words of RAM that changed.
pub(crate) fn put_ram<const ROM: u32, const RAM: u32>(
    out: &mut Vec<u8>,
    start: &Hart<ROM, RAM>,
    end: &Hart<ROM, RAM>,
) -> Result<(), AllocError>
    requires { IsMemorySize RAM }
    ensures ok { OnOk result (out.new.items ≡ out.old.items ++ lines_text (ram_lines (length end.now.ram / 4) 0 start.now.ram end.now.ram)) }
    ensures err { OnErr result (StartsWith out.new.items out.old.items) }
{
    // This tells the proof that the hart is valid, so that its RAM has the size that the type says.
    let _ = end.pc();
    for number in 0..RAM / 4 {
        let word = end.word(4 * number);
        if word != start.word(4 * number) {
            put_ram_word(out, 4 * number, word)?;
        }
    }
    Ok(())
}
