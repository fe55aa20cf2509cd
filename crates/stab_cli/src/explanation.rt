//! What a status means in plain words, for people: a line on standard error. The text on standard output has nothing of it.

use crate::refusal::Refusal;
use crate::status::Status;
use asm_names::NameFault;
use asm_ranges::RangeEnd;
use bound_count::NeedEnd;
use fault_script::ScriptFault;
use image_files::HexFault;
use job_text::JobFault;
use rv_asm::AsmFault;
use std::fmt::{self, Display, Formatter};

/// The document with the rules of sources.
const LANGUAGE: &str = "docs/LANGUAGE.md";

/// The document with the limits of the machine.
const MACHINE: &str = "docs/MACHINE.md";

/// The document with the rules of jobs and files, and with the statuses.
const FORMATS: &str = "docs/FORMATS.md";

/// What is said where an image or an assembly text has a word too many.
const TOO_MANY_WORDS: &str = "there are more words than ROM holds";

/// What a fault of names and sorts means.
fn name_words(fault: NameFault) -> &'static str {
    match fault {
        NameFault::Unknown => "this name is not declared, or names something else",
        NameFault::Repeated => "this name is declared twice",
        NameFault::Empty => "the lower bound of this domain is above the upper one",
        NameFault::TooLarge => {
            "this domain has too many values, or its bounds lie too far from 0"
        }
        NameFault::Count => {
            "there are fewer or more arguments or constants here than were declared"
        }
        NameFault::Sort => "this has another sort than its place needs",
        NameFault::NotUpdatable => "an input or a static function cannot be updated",
        NameFault::TooManyArguments => "a function has at most 3 arguments",
    }
}

/// What a fault of ranges means.
fn range_words(fault: RangeEnd) -> &'static str {
    match fault {
        RangeEnd::Outside { .. } => "a value here can lie outside its domain",
        RangeEnd::Wide { .. } => "a sum or difference here can pass 32 bits",
    }
}

/// What a need that is too great means.
fn need_words(need: NeedEnd) -> &'static str {
    match need {
        NeedEnd::Ram(_) => "the program needs more bytes of RAM than there are",
        NeedEnd::Rom(_) => "the image needs more words of ROM than there are",
        NeedEnd::Bound(_) => "the bound on the instructions before a round is too great",
        NeedEnd::Registers(_) => "the terms need more registers than there are",
        NeedEnd::Ports(_) => "there are more input or output locations than ports",
    }
}

/// What a fault of a job's lines means.
fn job_words(fault: JobFault) -> &'static str {
    match fault {
        JobFault::Section => {
            "this line is outside the sections, or a section is missing, doubled or out of place"
        }
        JobFault::Form => {
            "this line has none of the forms of its section, or says again what was said"
        }
        JobFault::Range => "the number on this line is out of its range",
    }
}

/// What a fault of a script's lines means.
fn script_words(fault: ScriptFault) -> &'static str {
    match fault {
        ScriptFault::Form => "this line tells no fault, or no value of a location",
        ScriptFault::Range => "a number or value on this line is out of its range",
        ScriptFault::Order => "this fault comes earlier than the one before it",
    }
}

/// What a fault of an assembly text means.
fn assembly_words(fault: AsmFault) -> &'static str {
    match fault {
        AsmFault::TooMany => TOO_MANY_WORDS,
        AsmFault::Form => "this line has none of the forms of assembly text",
        AsmFault::Mnemonic => "there is no such mnemonic",
        AsmFault::Range => {
            "this number is out of its field's range, or there is no such register"
        }
        AsmFault::Undefined => "this label stands on no line",
        AsmFault::Repeated => "this label stands on an earlier line too",
    }
}

/// What a fault of an Intel HEX file means.
fn hex_words(fault: HexFault) -> &'static str {
    match fault {
        HexFault::BadRecord => {
            "this line is no record of a known type, or its checksum is wrong"
        }
        HexFault::TooHigh => "this byte has an address past ROM",
        HexFault::Repeated => "this byte was given before",
        HexFault::BadEnd => "the end record is missing, or not the last",
    }
}

/// What a refusal means. No refusal is without words.
fn words(refusal: Refusal) -> &'static str {
    match refusal {
        Refusal::BadByte => "no token begins with this byte",
        Refusal::BadWord => "this word is no keyword, no name and no number",
        Refusal::UnexpectedToken => "no program goes on like this",
        Refusal::TooDeep => "this term or rule is more than 48 deep",
        Refusal::BadName { fault, .. } => name_words(fault),
        Refusal::BadRange { fault, .. } => range_words(fault),
        Refusal::TooMuch { need } => need_words(need),
        Refusal::TooManyTicks { .. } => "the faults and rounds may take too many instructions",
        Refusal::BadJob { fault, .. } => job_words(fault),
        Refusal::BadScript { fault, .. } => script_words(fault),
        Refusal::BadImageLine { .. } => "this line is no word of 1 to 8 hexadecimal digits",
        Refusal::TooManyWords { .. } => TOO_MANY_WORDS,
        Refusal::BadAssembly { fault, .. } => assembly_words(fault),
        Refusal::BadHexFile { fault, .. } => hex_words(fault),
        Refusal::BadElfFile { .. } => "the file is not of the subset of ELF that is read",
        Refusal::NotBuilt => "this mode or setting is not built yet",
    }
}

/// The document that has the rule by which a job is refused.
fn document(refusal: Refusal) -> &'static str {
    match refusal {
        Refusal::BadByte => LANGUAGE,
        Refusal::BadWord => LANGUAGE,
        Refusal::UnexpectedToken => LANGUAGE,
        Refusal::TooDeep => LANGUAGE,
        Refusal::BadName { .. } => LANGUAGE,
        Refusal::BadRange { .. } => LANGUAGE,
        Refusal::TooMuch { .. } => MACHINE,
        _ => FORMATS,
    }
}

/// What each mode does, in the order of a first acquaintance.
const MODES: &str = "\
usage: stab MODE < JOB
  check    judges a source, and writes its canonical text
  compile  makes the image of a source
  run      runs the image of a source on the hart, with faults
  model    runs a source by its meaning alone
  exec     runs any image on the bare hart
  asm      assembles a text
  list     lists an image as assembly text
  make     compiles and runs a ring that stabilizes
  hex      writes an image as an Intel HEX file
  unhex    reads an Intel HEX file
  elf      writes an image as an ELF file
  unelf    reads an ELF file
(docs/FORMATS.md)";

/// A status, in plain words.
#[derive(Clone, Copy, Debug, Drop)]
pub struct Explanation {
    status: Status,
}

impl Explanation {
    /// What this status means.
    pub fn of(status: Status) -> Explanation {
        Explanation { status }
    }
}

impl Display for Explanation {
    fn fmt<W: fmt::Write>(&self, f: &mut Formatter<W>) -> fmt::Result {
        match self.status {
            Status::Done => f.write_str("done"),
            Status::Refused(refusal) => {
                let code = refusal.code();
                let words = words(refusal);
                let document = document(refusal);
                write!(f, "refused {code}: {words} ({document})")
            }
            Status::Usage => f.write_str(MODES),
            Status::ReadFault => f.write_str("standard input could not be read to its end"),
            Status::WriteFault => f.write_str("standard output could not be written to its end"),
            Status::NoMemory => f.write_str("memory ran out"),
            Status::TooLong => f.write_str("the job is longer than 1048576 bytes"),
        }
    }
}
