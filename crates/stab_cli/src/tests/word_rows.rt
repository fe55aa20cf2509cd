//! What is said to people of each code and of each status without one.

use crate::explanation::Explanation;
use crate::refusal::Refusal;
use crate::status::Status;
use asm_names::NameFault;
use asm_ranges::RangeEnd;
use bound_count::NeedEnd;
use fault_script::ScriptFault;
use image_files::HexFault;
use job_text::JobFault;
use rv_asm::AsmFault;
use std::alloc::{AllocError, Global};
use std::process::Abort;
use std::test::Fail;

/// The texts, a row each: first of every code, in the order of the codes, and then of the other statuses. `~` stands for a line feed.
const WORDS: &str = "\
refused 101: no token begins with this byte (docs/LANGUAGE.md)
refused 102: this word is no keyword, no name and no number (docs/LANGUAGE.md)
refused 103: no program goes on like this (docs/LANGUAGE.md)
refused 104: this term or rule is more than 48 deep (docs/LANGUAGE.md)
refused 201: this name is not declared, or names something else (docs/LANGUAGE.md)
refused 202: this name is declared twice (docs/LANGUAGE.md)
refused 203: the lower bound of this domain is above the upper one (docs/LANGUAGE.md)
refused 204: this domain has too many values, or its bounds lie too far from 0 (docs/LANGUAGE.md)
refused 205: there are fewer or more arguments or constants here than were declared (docs/LANGUAGE.md)
refused 206: this has another sort than its place needs (docs/LANGUAGE.md)
refused 207: a value here can lie outside its domain (docs/LANGUAGE.md)
refused 208: a sum or difference here can pass 32 bits (docs/LANGUAGE.md)
refused 209: an input or a static function cannot be updated (docs/LANGUAGE.md)
refused 210: a function has at most 3 arguments (docs/LANGUAGE.md)
refused 301: the program needs more bytes of RAM than there are (docs/MACHINE.md)
refused 302: the image needs more words of ROM than there are (docs/MACHINE.md)
refused 303: the bound on the instructions before a round is too great (docs/MACHINE.md)
refused 304: the terms need more registers than there are (docs/MACHINE.md)
refused 305: there are more input or output locations than ports (docs/MACHINE.md)
refused 306: the faults and rounds may take too many instructions (docs/FORMATS.md)
refused 401: this line is outside the sections, or a section is missing, doubled or out of place (docs/FORMATS.md)
refused 402: this line has none of the forms of its section, or says again what was said (docs/FORMATS.md)
refused 403: the number on this line is out of its range (docs/FORMATS.md)
refused 411: this line tells no fault, or no value of a location (docs/FORMATS.md)
refused 412: a number or value on this line is out of its range (docs/FORMATS.md)
refused 413: this fault comes earlier than the one before it (docs/FORMATS.md)
refused 501: this line is no word of 1 to 8 hexadecimal digits (docs/FORMATS.md)
refused 502: there are more words than ROM holds (docs/FORMATS.md)
refused 511: this line has none of the forms of assembly text (docs/FORMATS.md)
refused 512: there is no such mnemonic (docs/FORMATS.md)
refused 513: this number is out of its field's range, or there is no such register (docs/FORMATS.md)
refused 514: this label stands on no line (docs/FORMATS.md)
refused 515: this label stands on an earlier line too (docs/FORMATS.md)
refused 521: this line is no record of a known type, or its checksum is wrong (docs/FORMATS.md)
refused 522: this byte has an address past ROM (docs/FORMATS.md)
refused 523: this byte was given before (docs/FORMATS.md)
refused 524: the end record is missing, or not the last (docs/FORMATS.md)
refused 531: the file is not of the subset of ELF that is read (docs/FORMATS.md)
refused 901: this mode or setting is not built yet (docs/FORMATS.md)
done
standard input could not be read to its end
standard output could not be written to its end
memory ran out
the job is longer than 1048576 bytes
usage: stab MODE < JOB~  check    judges a source, and writes its canonical text~  compile  makes the image of a source~  run      runs the image of a source on the hart, with faults~  model    runs a source by its meaning alone~  exec     runs any image on the bare hart~  asm      assembles a text~  list     lists an image as assembly text~  make     compiles and runs a ring that stabilizes~  hex      writes an image as an Intel HEX file~  unhex    reads an Intel HEX file~  elf      writes an image as an ELF file~  unelf    reads an ELF file~(docs/FORMATS.md)";

/// A refusal for a fault of names and sorts.
fn name(fault: NameFault) -> Refusal {
    Refusal::BadName {
        fault,
        line: 2,
        token: 3,
    }
}

/// A refusal for a fault of ranges.
fn range(fault: RangeEnd) -> Refusal {
    Refusal::BadRange { fault, line: 2 }
}

/// A refusal for a fault of a job's lines.
fn job(fault: JobFault) -> Refusal {
    Refusal::BadJob { fault, line: 2 }
}

/// A refusal for a fault of a script's lines.
fn script(fault: ScriptFault) -> Refusal {
    Refusal::BadScript { fault, line: 2 }
}

/// A refusal for a fault of an assembly text.
fn assembly(fault: AsmFault) -> Refusal {
    Refusal::BadAssembly { fault, line: 2 }
}

/// A refusal for a fault of an Intel HEX file.
fn hex_file(fault: HexFault) -> Refusal {
    Refusal::BadHexFile { fault, line: 2 }
}

/// The refusals of a source that is no program.
fn of_grammar() -> [Refusal; 4] {
    [
        Refusal::BadByte,
        Refusal::BadWord,
        Refusal::UnexpectedToken,
        Refusal::TooDeep,
    ]
}

/// The refusals of a program.
fn of_programs() -> [Refusal; 10] {
    [
        name(NameFault::Unknown),
        name(NameFault::Repeated),
        name(NameFault::Empty),
        name(NameFault::TooLarge),
        name(NameFault::Count),
        name(NameFault::Sort),
        range(RangeEnd::Outside { token: 3 }),
        range(RangeEnd::Wide { token: 3 }),
        name(NameFault::NotUpdatable),
        name(NameFault::TooManyArguments),
    ]
}

/// The refusals of what needs or takes too much.
fn of_needs() -> [Refusal; 6] {
    [
        Refusal::TooMuch {
            need: NeedEnd::Ram(1),
        },
        Refusal::TooMuch {
            need: NeedEnd::Rom(1),
        },
        Refusal::TooMuch {
            need: NeedEnd::Bound(1),
        },
        Refusal::TooMuch {
            need: NeedEnd::Registers(1),
        },
        Refusal::TooMuch {
            need: NeedEnd::Ports(1),
        },
        Refusal::TooManyTicks { ticks: 1 },
    ]
}

/// The refusals of a job's lines.
fn of_jobs() -> [Refusal; 8] {
    [
        job(JobFault::Section),
        job(JobFault::Form),
        job(JobFault::Range),
        script(ScriptFault::Form),
        script(ScriptFault::Range),
        script(ScriptFault::Order),
        Refusal::BadImageLine { line: 2 },
        Refusal::TooManyWords { line: 2 },
    ]
}

/// The refusals of assembly texts and files, and of what isn't built.
fn of_files() -> [Refusal; 11] {
    [
        assembly(AsmFault::Form),
        assembly(AsmFault::Mnemonic),
        assembly(AsmFault::Range),
        assembly(AsmFault::Undefined),
        assembly(AsmFault::Repeated),
        hex_file(HexFault::BadRecord),
        hex_file(HexFault::TooHigh),
        hex_file(HexFault::Repeated),
        hex_file(HexFault::BadEnd),
        Refusal::BadElfFile { offset: 2 },
        Refusal::NotBuilt,
    ]
}

/// A status for each row, in the order of the rows.
fn statuses(alloc: Global) -> Result<Vec<Status>, AllocError> {
    let mut refusals = of_grammar().to_vec(alloc)?;
    refusals.extend_from_slice(&of_programs())?;
    refusals.extend_from_slice(&of_needs())?;
    refusals.extend_from_slice(&of_jobs())?;
    refusals.extend_from_slice(&of_files())?;
    let mut statuses = Vec::new(alloc);
    for refusal in refusals.iter() {
        statuses.push(Status::Refused(*refusal))?;
    }
    statuses.extend_from_slice(&[
        Status::Done,
        Status::ReadFault,
        Status::WriteFault,
        Status::NoMemory,
        Status::TooLong,
        Status::Usage,
    ])?;
    Ok(statuses)
}

/// The status is explained by the row.
fn is_explained(rt: &impl Abort, alloc: Global, status: Status, row: &str) -> Result<(), Fail> {
    let row = row.replace(alloc, '~', "\n")?;
    let text = format!(in alloc; "{}", Explanation::of(status))?;
    assert_eq!(rt; text.as_str(), row.as_str());
    Ok(())
}

#[test]
fn each_status_in_plain_words(rt: HostRuntime) -> Result<(), Fail> {
    let alloc = rt.alloc();
    let mut rows = WORDS.lines();
    for status in statuses(alloc)?.iter() {
        let row = rows.next().ok_or("a status has a row")?;
        is_explained(&rt, alloc, *status, row)?;
    }
    assert_eq!(rt; rows.next(), None);
    Ok(())
}

#[test]
fn one_row_for_a_word_too_many(rt: HostRuntime) -> Result<(), Fail> {
    let alloc = rt.alloc();
    let of_image = Explanation::of(Status::Refused(Refusal::TooManyWords { line: 2 }));
    let row = format!(in alloc; "{of_image}")?;
    is_explained(
        &rt,
        alloc,
        Status::Refused(assembly(AsmFault::TooMany)),
        &row,
    )
}
