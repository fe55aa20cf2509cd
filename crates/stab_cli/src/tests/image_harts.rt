//! Compiled images on a hart, by what their reports say: how they are started, the state that RAM holds, and rounds.

ghost use Rattle.std.specs.Prelude.{◌≤◌, length, IfOk};

use crate::machine_sizes::{RAM_BYTES, ROM_BYTES, ROM_WORDS};
use crate::top_call::MAX_INPUT;
use image_text::read_image;
use rv_encode::Words;
use rv_isa::Reg;
use rv_machine::{Feed, Hart, Rom};
use std::alloc::{AllocError, Global};
use std::test::Fail;
use text_core::read_hex;

/// The address of the first byte of RAM.
const RAM_START: u32 = 0x1000_0000;

/// The hart that images run on.
pub(super) type Machine = Hart<ROM_BYTES, RAM_BYTES>;

/// An image, and what its report says before the words.
#[derive(Drop)]
pub(super) struct Image {
    /// The lines of the report before its words.
    pub(super) head: String,
    pub(super) rom: Rom<ROM_BYTES>,
    /// The bytes of the written words.
    pub(super) written: u32,
    /// The bytes of RAM that it needs.
    pub(super) ram: u32,
    pub(super) anchor: u64,
    pub(super) round: u64,
    /// The number of input ports.
    pub(super) inputs: u64,
}

/// What stands in registers and RAM at a start.
#[derive(Clone, Copy)]
pub(super) enum Content {
    Zeros,
    Ones,
    /// Pseudo-random words.
    Mixed,
}

/// Words of one content, one after another.
#[derive(Drop)]
pub(super) struct Noise {
    content: Content,
    last: u32,
}

impl Noise {
    /// The words of a content, which are others for each counter where they are mixed.
    pub(super) fn of(content: Content, counter: u32) -> Noise {
        Noise {
            content,
            last: counter,
        }
    }

    /// The next word.
    pub(super) fn next(&mut self) -> u32 {
        self.last = self
            .last
            .wrapping_mul(1_664_525)
            .wrapping_add(1_013_904_223);
        match self.content {
            Content::Zeros => 0,
            Content::Ones => u32::MAX,
            Content::Mixed => self.last ^ (self.last >> 15),
        }
    }
}

/// The number behind a key on a line of its own, or 0.
fn number_of(head: &str, key: &str) -> u64 {
    for line in head.lines() {
        if let Some((found, number)) = line.split_once(' ') {
            if found == key {
                return number.parse().unwrap_or(0);
            }
        }
    }
    0
}

/// A location of the state, as its line says.
#[derive(Clone, Copy)]
struct Place<'a> {
    location: &'a str,
    /// From the start of RAM, in bytes.
    offset: u32,
    size: u32,
    low: i64,
}

/// What a line says of a location of the state, or none.
fn place_of(line: &str) -> Option<Place<'_>> {
    let mut fields = line.strip_prefix("place ")?.split(' ');
    let location = fields.next()?;
    let address = read_hex(fields.next()?.as_bytes())?;
    let _width = fields.next()?;
    let size = fields.next()?.parse().ok()?;
    let low = fields.next()?.parse().ok()?;
    Some(Place {
        location,
        offset: address.wrapping_sub(RAM_START),
        size,
        low,
    })
}

/// The word of RAM at an offset.
pub(super) fn ram_word(hart: &Machine, offset: u32) -> u32 {
    if offset < RAM_BYTES && offset % 4 == 0 {
        hart.word(offset)
    } else {
        0
    }
}

/// The index that a word is decoded as.
fn index_of(word: u32, size: u32) -> u32 {
    let mut padded = 1_u32;
    for _ in 0..16 {
        if padded < size {
            padded = padded.wrapping_mul(2);
        }
    }
    let found = word.checked_rem(padded).unwrap_or(0);
    if found < size {
        found
    } else {
        found.wrapping_sub(size)
    }
}

/// The value that RAM holds of a location.
fn value_of(hart: &Machine, place: Place<'_>) -> i64 {
    let index = index_of(ram_word(hart, place.offset), place.size);
    place.low.wrapping_add(i64::from(index))
}

/// The letter of the enumerators that a location's values are, or none where they are numbers.
fn letter_of(location: &str) -> &str {
    if location.starts_with('e') {
        "e"
    } else if location.starts_with('h') {
        "h"
    } else {
        ""
    }
}

/// The state that RAM holds, as a line of `model` says it.
pub(super) fn state_line(
    alloc: Global,
    image: &Image,
    hart: &Machine,
) -> Result<String, AllocError> {
    let mut line = String::new(alloc);
    for text in image.head.lines() {
        if let Some(place) = place_of(text) {
            let letter = letter_of(place.location);
            let value = value_of(hart, place);
            line.push_str(&format!(in alloc; " {}={letter}{value}", place.location)?)?;
        }
    }
    Ok(line)
}

/// The value that RAM holds of the location with this name, as a word; 0 where there is none.
fn word_named(image: &Image, hart: &Machine, location: &str) -> i64 {
    for text in image.head.lines() {
        if let Some(place) = place_of(text) {
            if place.location == location {
                return value_of(hart, place).rem_euclid(1 << 32);
            }
        }
    }
    0
}

/// What a round has to send to the output ports, in order, with the state that RAM holds after it.
pub(super) fn words_due(
    alloc: Global,
    image: &Image,
    hart: &Machine,
) -> Result<String, AllocError> {
    let mut sent = String::new(alloc);
    for line in image.head.lines() {
        if let Some(rest) = line.strip_prefix("out ") {
            if let Some((port, location)) = rest.split_once(' ') {
                let word = word_named(image, hart, location);
                sent.push_str(&format!(in alloc; "{port}:{word} ")?)?;
            }
        }
    }
    Ok(sent)
}

/// Makes a round, and answers what it sent. None where a tick traps, or where the head isn't there within the bound.
pub(super) fn round(
    alloc: Global,
    image: &Image,
    hart: &mut Machine,
    feed: &mut Feed,
) -> Result<Option<String>, AllocError> {
    let mut sent = String::new(alloc);
    for _ in 0..image.round {
        let ticked = hart.tick(&image.rom, feed.peek());
        if ticked.trapped {
            return Ok(None);
        }
        if ticked.took {
            feed.advance();
        }
        if let Some((port, word)) = ticked.sent {
            sent.push_str(&format!(in alloc; "{port}:{word} ")?)?;
        }
        if hart.pc() == 0 {
            return Ok(Some(sent));
        }
    }
    Ok(None)
}

/// The number of lines that begin so.
fn lines_with(head: &str, front: &str) -> u64 {
    let mut count = 0_u64;
    for line in head.lines() {
        if line.starts_with(front) {
            count = count.wrapping_add(1);
        }
    }
    count
}

/// The words of a report, of which no more are read than ROM holds.
fn words_of(alloc: Global, text: &str) -> Result<Words, Fail>
    ensures { IfOk result (λ words. length words ≤ ROM_WORDS) }
{
    if MAX_INPUT < text.len() {
        return Err(Fail::from("a report is short"));
    }
    match read_image(alloc, text.as_bytes(), 1, ROM_WORDS) {
        Ok(words) => Ok(words),
        Err(_) => Err(Fail::from("a report's words are words")),
    }
}

/// The image of a report.
pub(super) fn image_of(alloc: Global, report: &[u8]) -> Result<Image, Fail> {
    let report = str::from_utf8(report).unwrap_or("");
    let (head, rest) = report.split_once("\nwords ").ok_or("a report has words")?;
    let (_, rest) = rest.split_once('\n').ok_or("words have a number")?;
    let (text, _) = rest.split_once("end").ok_or("a report has an end")?;
    let words = words_of(alloc, text)?;
    Ok(Image {
        head: String::from_str(alloc, head)?,
        rom: Rom::new(alloc, words.list())?,
        written: 4 * words.list().len() as u32,
        ram: u32::try_from(number_of(head, "ram")).unwrap_or(0),
        anchor: number_of(head, "anchor"),
        round: number_of(head, "round"),
        inputs: lines_with(head, "in "),
    })
}

/// Sets the word of RAM at an offset, where there is one.
pub(super) fn set_ram_word(hart: &mut Machine, offset: u32, word: u32) {
    if offset < RAM_BYTES && offset % 4 == 0 {
        hart.set_word(offset, word);
    }
}

/// What stands in registers and RAM at the start with this number.
pub(super) fn content_at(number: u32) -> Content {
    match number % 3 {
        0 => Content::Mixed,
        1 => Content::Zeros,
        _ => Content::Ones,
    }
}

/// Puts a hart there, and fills registers and RAM up to an offset, a word further than the image needs.
pub(super) fn disturb(hart: &mut Machine, counter: u32, ram: u32, noise: &mut Noise) {
    for number in 1..32 {
        if let Some(register) = Reg::new(number) {
            hart.set_reg(register, noise.next());
        }
    }
    for offset in (0..=ram).step_by(4) {
        set_ram_word(hart, offset, noise.next());
    }
    hart.set_pc(counter);
}

/// Words for the input ports.
pub(super) fn readings_of(
    alloc: Global,
    count: u64,
    noise: &mut Noise,
) -> Result<Words, AllocError> {
    let mut words = Words::new(alloc);
    for _ in 0..count {
        words.push(noise.next())?;
    }
    Ok(words)
}
