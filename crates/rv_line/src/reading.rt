//! What a line says.

ghost use Rattle.std.specs.Prelude.{◌≡◌, ◌≤◌, length, take};
ghost use Rattle.std.specs.Option.{option_map};
ghost use Rattle.rv_line.specs.Lines.{begins_mnemonic, immediate_rows, instruction, is_unknown, item, label, label_word, memory_rows, mnemonic_front, other_rows, register_rows, said_by, statement};
ghost use Rattle.rv_line.specs.Pieces.{pieces, without_comment};

use crate::fault::LineFault;
use crate::item::Item;
use crate::labels::Labels;
use crate::operands;
use crate::scanning::{is_end, word};
use crate::words::is_label;
use asm_tree::is_word;
use rv_encode::instruction_table;
use rv_isa::Instr;

/// What the rows of the table with these forms of operands make of a mnemonic and of the operands in a text.
macro_rules! item_of {
    (($rows:ident, $mnemonic:expr, $labels:expr, $here:expr, $text:expr) $($name:ident $mnemonic_of:ident { $($operand:ident),* } $format:ident($($field:literal),*) $form:ident;)*) => {
        $($rows!($form, if $mnemonic == stringify!($mnemonic_of).as_bytes() {
            return match operands::$form($labels, $here, $text) {
                Ok(($($operand),*)) => Ok(Item::Coded(Instr::$name { $($operand),* })),
                Err(fault) => Err(fault),
            };
        });)*
    };
}

/// The rows of arithmetic with registers.
macro_rules! register_rows {
    (registers, $row:expr) => {
        $row
    };
    ($other:ident, $row:expr) => {};
}

/// The rows of arithmetic with an immediate.
macro_rules! immediate_rows {
    (immediate, $row:expr) => {
        $row
    };
    (shift, $row:expr) => {
        $row
    };
    ($other:ident, $row:expr) => {};
}

/// The rows of loads and stores, and that of `jalr`.
macro_rules! memory_rows {
    (load, $row:expr) => {
        $row
    };
    (store, $row:expr) => {
        $row
    };
    ($other:ident, $row:expr) => {};
}

/// All other rows.
macro_rules! other_rows {
    (registers, $row:expr) => {};
    (immediate, $row:expr) => {};
    (shift, $row:expr) => {};
    (load, $row:expr) => {};
    (store, $row:expr) => {};
    ($other:ident, $row:expr) => {
        $row
    };
}

/// What a mnemonic of arithmetic with registers says.
#[tactic(auto, unfolding(crate::specs::Lines::register_rows))]
fn register_rows(
    labels: &Labels,
    here: Option<u32>,
    mnemonic: &[u8],
    text: &[u8],
) -> Result<Item, LineFault>
    ensures { result ≡ register_rows mnemonic.now (pieces text.now) }
{
    instruction_table!(item_of(register_rows, mnemonic, labels, here, text));
    Err(LineFault::Mnemonic)
}

/// What a mnemonic of arithmetic with an immediate says.
#[tactic(auto, unfolding(crate::specs::Lines::immediate_rows))]
fn immediate_rows(
    labels: &Labels,
    here: Option<u32>,
    mnemonic: &[u8],
    text: &[u8],
) -> Result<Item, LineFault>
    ensures { result ≡ immediate_rows mnemonic.now (pieces text.now) }
{
    instruction_table!(item_of(immediate_rows, mnemonic, labels, here, text));
    Err(LineFault::Mnemonic)
}

/// What the mnemonic of a load, a store or `jalr` says.
#[tactic(auto, unfolding(crate::specs::Lines::memory_rows))]
fn memory_rows(
    labels: &Labels,
    here: Option<u32>,
    mnemonic: &[u8],
    text: &[u8],
) -> Result<Item, LineFault>
    ensures { result ≡ memory_rows mnemonic.now (pieces text.now) }
{
    instruction_table!(item_of(memory_rows, mnemonic, labels, here, text));
    Err(LineFault::Mnemonic)
}

/// What any other mnemonic says.
#[tactic(auto, unfolding(crate::specs::Lines::other_rows))]
fn other_rows(
    labels: &Labels,
    here: Option<u32>,
    mnemonic: &[u8],
    text: &[u8],
) -> Result<Item, LineFault>
    ensures { result ≡ other_rows labels.now here mnemonic.now (pieces text.now) }
{
    instruction_table!(item_of(other_rows, mnemonic, labels, here, text));
    if mnemonic == b".word".as_slice() {
        return match operands::raw(text) {
            Ok(word) => Ok(Item::Raw(word)),
            Err(fault) => Err(fault),
        };
    }
    Err(LineFault::Mnemonic)
}

/// Whether a mnemonic is none of those that were looked at.
fn is_unknown(said: &Result<Item, LineFault>) -> bool
    ensures { result ≡ is_unknown said.now }
{
    match said {
        Ok(_) => false,
        Err(LineFault::Form) => false,
        Err(LineFault::Mnemonic) => true,
        Err(LineFault::Range) => false,
        Err(LineFault::Undefined) => false,
    }
}

/// What a mnemonic and the operands in the text behind it say.
#[tactic(auto, unfolding(crate::specs::Lines::said_by))]
fn said_by(
    labels: &Labels,
    here: Option<u32>,
    mnemonic: &[u8],
    text: &[u8],
) -> Result<Item, LineFault>
    ensures { result ≡ said_by labels.now here mnemonic.now (pieces text.now) }
{
    let said = register_rows(labels, here, mnemonic, text);
    if !is_unknown(&said) {
        return said;
    }
    let said = immediate_rows(labels, here, mnemonic, text);
    if !is_unknown(&said) {
        return said;
    }
    let said = memory_rows(labels, here, mnemonic, text);
    if !is_unknown(&said) {
        return said;
    }
    other_rows(labels, here, mnemonic, text)
}

/// How many letters, digits, underscores and points a word begins with.
fn mnemonic_len(word: &[u8]) -> usize
    ensures length { result ≡ length (mnemonic_front word.now) }
    ensures front { take result word.now ≡ mnemonic_front word.now }
    ensures within { result ≤ length word.now }
{
    for (index, byte) in word.iter().enumerate() {
        if !is_word(*byte) && *byte != b'.' {
            return index;
        }
    }
    word.len()
}

/// Whether a word begins with a letter or a point.
fn begins_mnemonic(word: &[u8]) -> bool
    ensures { result ≡ begins_mnemonic word.now }
{
    match word {
        [] => false,
        [first, ..] => first.is_ascii_alphabetic() || *first == b'.',
    }
}

/// What an instruction says that begins with a word, with its operands in the text behind the word.
#[tactic(auto, unfolding(crate::specs::Lines::instruction))]
fn instruction(
    labels: &Labels,
    here: Option<u32>,
    word: &[u8],
    text: &[u8],
) -> Result<Item, LineFault>
    ensures { result ≡ instruction labels.now here word.now (pieces text.now) }
{
    if !begins_mnemonic(word) {
        return Err(LineFault::Form);
    }
    let (mnemonic, behind) = word.split_at(mnemonic_len(word));
    match behind {
        [] => said_by(labels, here, mnemonic, text),
        [b':', ..] => Err(LineFault::Form),
        // No operands begin with a comma, so that only the mnemonic is judged.
        _ => said_by(labels, here, mnemonic, b","),
    }
}

/// The label that a word is by the colon at its end.
#[tactic(auto, unfolding(crate::specs::Lines::label_word))]
fn label_word(word: &[u8]) -> Option<&[u8]>
    ensures { option_map (λ label. label.now) result ≡ label_word word.now }
{
    match word {
        [label @ .., b':'] if is_label(label) => Some(label),
        _ => None,
    }
}

/// A line without its comment.
fn without_comment(line: &[u8]) -> &[u8]
    ensures { result.now ≡ without_comment line.now }
{
    for (index, byte) in line.iter().enumerate() {
        if *byte == b'#' {
            return &line[..index];
        }
    }
    line
}

/// The label of a line, where it has one.
#[tactic(auto, unfolding(crate::specs::Lines::label))]
pub fn read_label(line: &[u8]) -> Option<&[u8]>
    ensures { option_map (λ label. label.now) result ≡ label line.now }
{
    match word(without_comment(line)) {
        Ok((word, _)) => label_word(word),
        Err(_) => None,
    }
}

/// What stands in a text behind the label of its line.
fn statement(labels: &Labels, here: Option<u32>, text: &[u8]) -> Result<Option<Item>, LineFault>
    ensures { result ≡ statement labels.now here (pieces text.now) }
{
    if is_end(text) {
        return Ok(None);
    }
    let (word, rest) = word(text)?;
    let item = instruction(labels, here, word, rest)?;
    Ok(Some(item))
}

/// What a line says: nothing, or an instruction that is the word with the number `here`. Its targets are looked up among
/// the labels; where no number is given, each label stands for the displacement 0.
#[tactic(auto, unfolding(crate::specs::Lines::item))]
pub fn read_item(labels: &Labels, here: Option<u32>, line: &[u8]) -> Result<Option<Item>, LineFault>
    ensures { result ≡ item labels.now here line.now }
{
    let text = without_comment(line);
    match word(text) {
        Ok((word, rest)) if label_word(word).is_some() => statement(labels, here, rest),
        _ => statement(labels, here, text),
    }
}
