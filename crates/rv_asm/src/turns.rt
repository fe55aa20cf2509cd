//! The turns in which an assembly text is judged, each over all its lines.

ghost use Rattle.std.specs.Prelude.{◌≡◌, ◌≢◌, ◌+◌, ◌++◌, ◌<◌, ◌≤◌, ◌^◌, [], length, Some, None, Ok, Err, IfOk, IfErr, OnOk};
ghost use Rattle.std.specs.Option.{option_map};
ghost use Rattle.text_core.specs.Lines.{lines};
ghost use Rattle.rv_line.specs.Lines.{IsWordOf, item, label};
ghost use Rattle.rv_asm.specs.Assembly.{Comes, first_misspelt, first_too_many, items_from, labelled, labels_from, size, spelling_fault};
ghost use Rattle.rv_asm.specs.declared.fault.AsmEnd.TheVariants.{Fault, NoMemory};
ghost use Rattle.rv_asm.specs.declared.fault.AsmFault.TheVariants.{TooMany};

use crate::fault::{AsmEnd, AsmFault};
use rv_encode::{Words, encode};
use rv_line::{Item, Labels, read_item, read_label};
use std::alloc::Global;
use text_core::Lines;

/// Judges the spelling of a line, behind lines with these labels and so many words, and puts in its label. Answers how
/// many words the line takes.
fn survey_line(
    alloc: Global,
    labels: &mut Labels,
    words: u32,
    number: u32,
    line: &[u8],
) -> Result<u32, AsmEnd>
    ensures spelt { OnOk result (spelling_fault labels.old (label line.now) (item [] None line.now) ≡ None) }
    ensures labels { OnOk result (labels.new ≡ labels.old ++ labelled words (label line.now)) }
    ensures size { IfOk result (λ taken. taken ≡ size line.now) }
    ensures err { IfErr result (λ end. end ≢ NoMemory → option_map (λ fault. Fault fault number) (spelling_fault labels.old (label line.now) (item [] None line.now)) ≡ Some end) }
{
    let said = match read_item(&Labels::new(alloc), None, line) {
        Ok(said) => said,
        Err(fault) => {
            return Err(AsmEnd::Fault {
                fault: AsmFault::from(fault),
                line: number,
            });
        }
    };
    match read_label(line) {
        None => {}
        Some(label) => {
            if labels.word(label).is_some() {
                return Err(AsmEnd::Fault {
                    fault: AsmFault::Repeated,
                    line: number,
                });
            }
            labels.add(alloc, label, words)?;
        }
    }
    match said {
        None => Ok(0),
        Some(_) => Ok(1),
    }
}

/// The first turn: the labels of the lines, each with the number of the word that stands behind it, or the first line
/// whose spelling is wrong or whose label stood before.
pub fn survey(alloc: Global, text: &[u8], first_line: u32) -> Result<Labels, AsmEnd>
    requires short { length text.now < 2 ^ 31 }
    requires some { 1 ≤ first_line }
    requires few { first_line ≤ 2 ^ 30 }
    ensures spelt { OnOk result (first_misspelt [] 0 first_line (lines text.now) ≡ None) }
    ensures labels { IfOk result (λ labels. labels ≡ labels_from 0 (lines text.now)) }
    ensures err { IfErr result (λ end. end ≢ NoMemory → first_misspelt [] 0 first_line (lines text.now) ≡ Some end) }
{
    let mut labels = Labels::new(alloc);
    let mut words = 0;
    let mut cursor = Lines::starting_at(text, first_line);
    'survey: while let Some((number, line)) = cursor.next() {
        words += survey_line(alloc, &mut labels, words, number, line)?;
    }
    Ok(labels)
}

/// How many words a line takes that is spelt right, and none where it isn't.
fn size(alloc: Global, line: &[u8]) -> u32
    ensures value { result ≡ size line.now }
    ensures few { result ≤ 1 }
{
    match read_item(&Labels::new(alloc), None, line) {
        Ok(Some(_)) => 1,
        Ok(None) => 0,
        Err(_) => 0,
    }
}

/// The second turn: the first line that takes one word more than the limit. It takes no memory.
pub fn first_too_many(alloc: Global, text: &[u8], first_line: u32, limit: u32) -> Option<AsmEnd>
    requires short { length text.now < 2 ^ 31 }
    requires some { 1 ≤ first_line }
    requires few { first_line ≤ 2 ^ 30 }
    ensures { result ≡ first_too_many limit first_line (lines text.now) }
{
    let mut room = limit;
    let mut cursor = Lines::starting_at(text, first_line);
    'count: while let Some((number, line)) = cursor.next() {
        if size(alloc, line) == 0 {
            continue;
        }
        if room == 0 {
            return Some(AsmEnd::Fault {
                fault: AsmFault::TooMany,
                line: number,
            });
        }
        room -= 1;
    }
    None
}

/// The word of what a line says.
fn word_of(said: Item) -> u32
    ensures { IsWordOf result said }
{
    match said {
        Item::Coded(instr) => encode(instr),
        Item::Raw(word) => word,
    }
}

/// The third turn: the words of the lines, with the displacements of these labels, or the first line at which a label is
/// missing or too far away.
pub fn words(alloc: Global, labels: &Labels, text: &[u8], first_line: u32) -> Result<Words, AsmEnd>
    requires short { length text.now < 2 ^ 31 }
    requires some { 1 ≤ first_line }
    requires few { first_line ≤ 2 ^ 30 }
    ensures ok { IfOk result (λ words. Comes (items_from labels.now 0 first_line (lines text.now)) words) }
    ensures err { IfErr result (λ end. end ≢ NoMemory → items_from labels.now 0 first_line (lines text.now) ≡ Err end) }
{
    let mut words = Words::new(alloc);
    let mut count = 0;
    let mut cursor = Lines::starting_at(text, first_line);
    'words: while let Some((number, line)) = cursor.next() {
        match read_item(labels, Some(count), line) {
            Err(fault) => {
                return Err(AsmEnd::Fault {
                    fault: AsmFault::from(fault),
                    line: number,
                });
            }
            Ok(None) => {}
            Ok(Some(said)) => {
                words.push(word_of(said))?;
                count += 1;
            }
        }
    }
    Ok(words)
}
