//! The report of an image.

ghost use Rattle.std.specs.Prelude.{◌≡◌, ◌++◌, map, IfOk, OnOk, OnErr};
ghost use Rattle.std.specs.Io.{StartsWith};
ghost use Rattle.std.specs.Fmt.{decimal};
ghost use Rattle.text_core.specs.Hexadecimal.{hex8};
ghost use Rattle.text_core.specs.WrittenLines.{◌␣◌, ended, lines_text};
ghost use Rattle.round_spec.specs.Stabilizes.{Stabilizes};
ghost use Rattle.image_text.specs.Report as spec;
ghost use Rattle.image_text.specs.Report.{IsReportable, head_lines, making_lines, needs_lines, report_text, word_lines};

use crate::locations::put_side;
use crate::names::program_is_named;
use asm_ranges::Checked;
use asm_tree::Name;
use bound_count::{Numbers, Shape};
use round_spec::Built;
use stab_io::Bytes;
use state_layout::Layout;
use state_space::Side;
use std::alloc::{AllocError, Global};
use text_core::{Piece, put_bytes, put_line};

fn shape_word(shape: Shape) -> &'static [u8]
    ensures { result.now ≡ spec.shape_word shape }
{
    match shape {
        Shape::Unrolled => b"unrolled",
        Shape::Looped => b"looped",
    }
}

fn layout_word(layout: Layout) -> &'static [u8]
    ensures { result.now ≡ spec.layout_word layout }
{
    match layout {
        Layout::Words => b"words",
        Layout::Packed => b"packed",
    }
}

/// Appends the line of a word and a text.
fn put_field(out: &mut Vec<u8>, word: &[u8], text: &[u8]) -> Result<(), AllocError>
    ensures ok { OnOk result (out.new.items ≡ out.old.items ++ ended (word.now ␣ text.now)) }
    ensures err { OnErr result (out.new.items ≡ out.old.items) }
{
    put_line(out, &[Piece::Text(word), Piece::Text(text)])
}

/// Appends the line of a word and a number.
fn put_number(out: &mut Vec<u8>, word: &[u8], number: u64) -> Result<(), AllocError>
    ensures ok { OnOk result (out.new.items ≡ out.old.items ++ ended (word.now ␣ decimal number)) }
    ensures err { OnErr result (out.new.items ≡ out.old.items) }
{
    put_line(out, &[Piece::Text(word), Piece::Decimal(number)])
}

/// Appends the lines of how the image was made.
fn put_making(
    out: &mut Vec<u8>,
    shape: Shape,
    layout: Layout,
    revision: u32,
) -> Result<(), AllocError>
    ensures ok { OnOk result (out.new.items ≡ out.old.items ++ lines_text (making_lines shape layout revision)) }
    ensures err { OnErr result (StartsWith out.new.items out.old.items) }
{
    put_number(out, b"revision", u64::from(revision))?;
    put_field(out, b"shape", shape_word(shape))?;
    put_field(out, b"layout", layout_word(layout))
}

/// Appends the lines of what the image needs.
fn put_needs(out: &mut Vec<u8>, needs: Numbers) -> Result<(), AllocError>
    ensures ok { OnOk result (out.new.items ≡ out.old.items ++ lines_text (needs_lines needs)) }
    ensures err { OnErr result (StartsWith out.new.items out.old.items) }
{
    put_number(out, b"ram", needs.ram)?;
    put_number(out, b"rom", needs.rom)?;
    put_number(out, b"anchor", needs.anchor)?;
    put_number(out, b"round", needs.round)?;
    put_number(out, b"registers", needs.regs)
}

/// Appends the lines before those of the locations.
fn put_head(
    out: &mut Vec<u8>,
    name: &Name,
    shape: Shape,
    layout: Layout,
    revision: u32,
    needs: Numbers,
) -> Result<(), AllocError>
    ensures ok { OnOk result (out.new.items ≡ out.old.items ++ lines_text (head_lines name.now shape layout revision needs)) }
    ensures err { OnErr result (StartsWith out.new.items out.old.items) }
{
    put_field(out, b"program", name.bytes())?;
    put_making(out, shape, layout, revision)?;
    put_needs(out, needs)
}

/// Appends the words, each as eight hexadecimal digits on a line of its own. The only error is that no memory is left;
/// `out` then begins with what it held.
pub fn put_words(out: &mut Vec<u8>, words: &[u32]) -> Result<(), AllocError>
    ensures ok { OnOk result (out.new.items ≡ out.old.items ++ lines_text (map hex8 words.now)) }
    ensures err { OnErr result (StartsWith out.new.items out.old.items) }
{
    for word in words {
        put_line(out, &[Piece::Hex8(*word)])?;
    }
    Ok(())
}

/// Appends the lines behind those of the locations.
fn put_image(out: &mut Vec<u8>, words: &[u32]) -> Result<(), AllocError>
    ensures ok { OnOk result (out.new.items ≡ out.old.items ++ lines_text (word_lines words.now)) }
    ensures err { OnErr result (StartsWith out.new.items out.old.items) }
{
    put_number(out, b"words", words.len() as u64)?;
    put_words(out, words)?;
    put_bytes(out, b"end\n")
}

/// The report of a program's image that was made in this shape and this layout for this revision of the memory map: the
/// program's name, how the image was made, the bytes of RAM, words of ROM, ticks and registers that it needs, the place
/// of each location of the state in RAM, the port of each input and output location, and the written words in hexadecimal,
/// one a line. The revision is written as it is given: that its machine has `ROM` and `RAM` bytes is the caller's, who has
/// both from one place (`stab_cli::machine_sizes`). It takes time in proportion to the locations and words.
///
/// # Errors
///
/// `AllocError` where there is no memory for the text.
pub fn report<const ROM: u32, const RAM: u32>(
    alloc: Global,
    checked: &Checked,
    built: &Built<ROM, RAM>,
    shape: Shape,
    layout: Layout,
    revision: u32,
) -> Result<Bytes, AllocError>
    requires { Stabilizes ROM RAM shape layout checked.now built.now }
    ensures text { IfOk result (λ text. text ≡ report_text checked.now built.now shape layout revision) }
    ensures reportable { IfOk result (λ _. IsReportable checked.now built.now revision) }
{
    let program = checked.resolved();
    let map = built.map();
    program_is_named(program);
    map.is_placed();
    let mut room = Vec::new(alloc);
    let mut out = Vec::new(alloc);
    put_head(
        &mut out,
        &program.name,
        shape,
        layout,
        revision,
        built.needs(),
    )?;
    put_side(&mut out, &mut room, Side::State, program, map)?;
    put_side(&mut out, &mut room, Side::Input, program, map)?;
    put_side(&mut out, &mut room, Side::Output, program, map)?;
    put_image(&mut out, built.written())?;
    Ok(Bytes::from_vec(out))
}
