//! The parts of a job's text.

ghost use Rattle.std.specs.Prelude.{◌≡◌, ◌+◌, ◌<◌, ◌^◌};
ghost use Rattle.job_text.specs.JobFaults.{begun, extended, lacks, lacks_section, no_parts, part_of, with_part};

use crate::mode::{Header, Mode, is_needed};

/// A part of a job: its bytes from `from` up to `to`, and the number of the line where it begins.
#[derive(Clone, Copy, Debug, PartialEq, Eq)]
pub struct Part {
    pub from: usize,
    pub to: usize,
    pub line: u32,
}

/// The sections of a job.
#[derive(Clone, Copy, Debug)]
pub struct Parts {
    pub set: Option<Part>,
    pub source: Option<Part>,
    pub rom: Option<Part>,
    pub run: Option<Part>,
}

impl Parts {
    /// No section.
    pub(crate) fn none() -> Parts
        ensures { result ≡ no_parts }
    {
        Parts {
            set: None,
            source: None,
            rom: None,
            run: None,
        }
    }

    /// The part of a section.
    fn part(&self, header: Header) -> Option<Part>
        ensures { result ≡ part_of self.now header }
    {
        match header {
            Header::Set => self.set,
            Header::Source => self.source,
            Header::Rom => self.rom,
            Header::Run => self.run,
        }
    }

    /// Puts in the part of a section.
    fn put(&mut self, header: Header, part: Part)
        ensures { self.new ≡ with_part self.old header part }
    {
        match header {
            Header::Set => self.set = Some(part),
            Header::Source => self.source = Some(part),
            Header::Rom => self.rom = Some(part),
            Header::Run => self.run = Some(part),
        }
    }

    /// Begins a section before the line of this number, from this place on.
    pub(crate) fn begin(&mut self, header: Header, here: usize, line: u32)
        ensures { self.new ≡ begun self.old header here line }
    {
        self.put(
            header,
            Part {
                from: here,
                to: here,
                line,
            },
        );
    }

    /// Lets a section go on up to this place.
    pub(crate) fn extend(&mut self, header: Header, here: usize)
        ensures { self.new ≡ extended self.old header here }
    {
        match self.part(header) {
            None => {}
            Some(part) => self.put(
                header,
                Part {
                    from: part.from,
                    to: here,
                    line: part.line,
                },
            ),
        }
    }

    /// Whether the mode needs this section, and it isn't there.
    fn lacks_section(&self, mode: Mode, header: Header) -> bool
        ensures { result ≡ lacks_section mode self.now header }
    {
        is_needed(mode, header) && self.part(header).is_none()
    }

    /// Whether a section that the mode needs isn't there.
    pub(crate) fn lacks(&self, mode: Mode) -> bool
        ensures { result ≡ lacks mode self.now }
    {
        self.lacks_section(mode, Header::Set)
            || self.lacks_section(mode, Header::Source)
            || self.lacks_section(mode, Header::Rom)
            || self.lacks_section(mode, Header::Run)
    }
}
