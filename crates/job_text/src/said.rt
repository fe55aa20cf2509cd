//! What a line says, by its fields.

ghost use Rattle.std.specs.Prelude.{◌≡◌};
ghost use Rattle.job_text.specs.Lines.{formed, is_script, layout_of, memory, register, said_by, shape_of, with_one, with_two};
ghost use Rattle.text_core.specs.Fields.{fields};

use crate::key::Key;
use text_core::{next_field, read_dec, read_hex};

/// How the code of a program is written.
#[derive(Clone, Copy, Debug, PartialEq, Eq)]
pub enum Shape {
    Unrolled,
    Looped,
}

/// How values lie in RAM.
#[derive(Clone, Copy, Debug, PartialEq, Eq)]
pub enum Layout {
    Words,
    Packed,
}

/// What a line of a form of its key says. Whether its numbers are in range isn't judged yet.
#[derive(Clone, Copy, Debug)]
pub enum Said {
    Shape(Shape),
    Layout(Layout),
    Revision(u64),
    Nodes(u64),
    States(u64),
    Seed(u32),
    Rounds(u64),
    Ticks(u64),
    Pc(u32),
    Register { number: u64, word: u32 },
    Fill(u32),
    RamSeed(u32),
    Ram { address: u32, word: u32 },
    Reading(u32),
    /// A line that is judged later, as one of a script.
    Script,
}

/// The shape of this name.
#[tactic(auto, unfolding(crate::specs::Lines::shape_of))]
fn shape_of(word: &[u8]) -> Option<Shape>
    ensures { result ≡ shape_of word.now }
{
    if word == b"unrolled".as_slice() {
        Some(Shape::Unrolled)
    } else if word == b"looped".as_slice() {
        Some(Shape::Looped)
    } else {
        None
    }
}

/// The layout of this name.
#[tactic(auto, unfolding(crate::specs::Lines::layout_of))]
fn layout_of(word: &[u8]) -> Option<Layout>
    ensures { result ≡ layout_of word.now }
{
    if word == b"words".as_slice() {
        Some(Layout::Words)
    } else if word == b"packed".as_slice() {
        Some(Layout::Packed)
    } else {
        None
    }
}

/// What a line of a key and one more field says.
fn with_one(key: Key, field: &[u8]) -> Option<Said>
    ensures { result ≡ with_one key field.now }
{
    match key {
        Key::Shape => shape_of(field).map(Said::Shape),
        Key::Layout => layout_of(field).map(Said::Layout),
        Key::Revision => read_dec(field).map(Said::Revision),
        Key::Nodes => read_dec(field).map(Said::Nodes),
        Key::States => read_dec(field).map(Said::States),
        Key::Seed => read_hex(field).map(Said::Seed),
        Key::Rounds => read_dec(field).map(Said::Rounds),
        Key::Ticks => read_dec(field).map(Said::Ticks),
        Key::Pc => read_hex(field).map(Said::Pc),
        Key::Fill => read_hex(field).map(Said::Fill),
        Key::RamSeed => read_hex(field).map(Said::RamSeed),
        Key::Reading => read_hex(field).map(Said::Reading),
        Key::Register | Key::Ram | Key::At | Key::Value => None,
    }
}

/// What a line of `reg` says.
fn register(number: &[u8], word: &[u8]) -> Option<Said>
    ensures { result ≡ register number.now word.now }
{
    let number = read_dec(number)?;
    let word = read_hex(word)?;
    Some(Said::Register { number, word })
}

/// What a line of `ram` says.
fn memory(address: &[u8], word: &[u8]) -> Option<Said>
    ensures { result ≡ memory address.now word.now }
{
    let address = read_hex(address)?;
    let word = read_hex(word)?;
    Some(Said::Ram { address, word })
}

/// What a line of a key and two more fields says.
fn with_two(key: Key, place: &[u8], word: &[u8]) -> Option<Said>
    ensures { result ≡ with_two key place.now word.now }
{
    match key {
        Key::Register => register(place, word),
        Key::Ram => memory(place, word),
        Key::Shape | Key::Layout | Key::Revision | Key::Nodes | Key::States | Key::Seed => None,
        Key::Rounds | Key::Ticks | Key::Pc | Key::Fill | Key::RamSeed | Key::Reading => None,
        Key::At | Key::Value => None,
    }
}

/// Whether lines with this key belong to a script.
fn is_script(key: Key) -> bool
    ensures { result ≡ is_script key }
{
    match key {
        Key::At | Key::Value => true,
        Key::Shape | Key::Layout | Key::Revision | Key::Nodes | Key::States | Key::Seed => false,
        Key::Rounds | Key::Ticks | Key::Pc | Key::Fill | Key::RamSeed | Key::Reading => false,
        Key::Register | Key::Ram => false,
    }
}

/// What the fields behind a key say.
fn said_by(key: Key, rest: &[u8]) -> Option<Said>
    ensures { result ≡ said_by key (fields rest.now) }
{
    let (first, rest) = next_field(rest)?;
    match next_field(rest) {
        None => with_one(key, first),
        Some((second, rest)) if next_field(rest).is_none() => with_two(key, first, second),
        Some(_) => None,
    }
}

/// What a line says that has a form of its key, by the fields behind it.
#[tactic(auto, unfolding(crate::specs::Lines::formed))]
pub(crate) fn formed(key: Key, rest: &[u8]) -> Option<Said>
    ensures { result ≡ formed key (fields rest.now) }
{
    if is_script(key) {
        return Some(Said::Script);
    }
    said_by(key, rest)
}
