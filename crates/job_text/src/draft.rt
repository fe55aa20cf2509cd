//! The lines of a job, one after another.

ghost use Rattle.std.specs.Prelude.{◌≡◌, ◌+◌, ◌<◌, ◌^◌, length, IfOk};
ghost use Rattle.job_text.specs.Headers.{opened_by};
ghost use Rattle.job_text.specs.JobFaults.{advanced, draft_of, is_header, nothing_read, step, with_body, with_header, with_line, with_setting};
ghost use Rattle.job_text.specs.Outcomes.{IsRead, outcome};
ghost use Rattle.job_text.specs.Ranges.{IsBetween};

use crate::fault::{JobEnd, JobFault};
use crate::mode::{Header, Mode, opened_by};
use crate::nodes::first_nodes;
use crate::parts::Parts;
use crate::rows::next_row;
use crate::told::Told;
use std::alloc::{AllocError, Global};
use std::marker::Model;
use text_core::{begins, is_passed};

/// What the lines so far give, and where the next one stands. Contracts see it as its state.
#[derive(Drop)]
pub(crate) struct Draft {
    number: u32,
    place: usize,
    last: Option<Header>,
    pub(crate) parts: Parts,
    pub(crate) told: Told,
}

impl Model for Draft {
    ghost use Rattle.job_text.specs.JobFaults.{Draft as DraftState};
    ghost use Rattle.job_text.specs.Ranges.{AreBefore};

    ghost Value = { DraftState };

    ghost view = { λ d. record { number = d.number; place = d.place; last = d.last; parts = d.parts; told = d.told } };

    ghost invariant = { λ d. AreBefore d.number d.place d.parts };
}

/// Whether a line is a header.
pub(crate) fn is_header(line: &[u8]) -> bool
    ensures { result ≡ is_header line.now }
{
    begins(line, b'%')
}

impl Draft {
    /// Before any line of a job with this number of nodes.
    fn new(alloc: Global, nodes: u32) -> Draft
        requires { IsBetween 3 64 nodes }
        ensures { result ≡ nothing_read nodes }
    {
        Draft {
            number: 1,
            place: 0,
            last: None,
            parts: Parts::none(),
            told: Told::new(alloc, nodes),
        }
    }

    /// Goes behind a line, where the next one begins here.
    fn advance(&mut self, here: usize)
        requires further { self.old.place < here }
        requires few { here < 2 ^ 31 }
        ensures { self.new ≡ advanced self.old here }
    {
        self.number += 1;
        self.place = here;
    }

    /// Takes a header, where its section may begin here.
    fn take_header(&mut self, header: Option<Header>) -> Option<JobFault>
        ensures value { outcome result self.new ≡ with_header self.old header }
        ensures place { self.new.place ≡ self.old.place }
    {
        match header {
            None => Some(JobFault::Section),
            Some(header) => {
                self.last = Some(header);
                self.parts.begin(header, self.place, self.number);
                None
            }
        }
    }

    /// Takes a line of `%set` or `%run`, unless it is passed over.
    fn take_setting(
        &mut self,
        mode: Mode,
        header: Header,
        line: &[u8],
    ) -> Result<Option<JobFault>, AllocError>
        ensures value { IfOk result (λ fault. outcome fault self.new ≡ with_setting mode self.old header line.now) }
        ensures place { self.new.place ≡ self.old.place }
    {
        if is_passed(line) {
            return Ok(None);
        }
        match self.told.read(mode, header, line) {
            Err(fault) => Ok(Some(fault)),
            Ok(said) => {
                let ram = self.told.ram();
                self.told.add(ram, said)?;
                Ok(None)
            }
        }
    }

    /// Takes a line of a section.
    fn take_body(
        &mut self,
        mode: Mode,
        header: Header,
        line: &[u8],
    ) -> Result<Option<JobFault>, AllocError>
        ensures value { IfOk result (λ fault. outcome fault self.new ≡ with_body mode self.old header line.now) }
        ensures place { self.new.place ≡ self.old.place }
    {
        match header {
            Header::Set => self.take_setting(mode, header, line),
            Header::Source => Ok(None),
            Header::Rom => Ok(None),
            Header::Run => self.take_setting(mode, header, line),
        }
    }

    /// Takes a line that is no header.
    fn take_line(&mut self, mode: Mode, line: &[u8]) -> Result<Option<JobFault>, AllocError>
        ensures value { IfOk result (λ fault. outcome fault self.new ≡ with_line mode self.old self.old.last line.now) }
        ensures place { self.new.place ≡ self.old.place }
    {
        match self.last {
            None if is_passed(line) => Ok(None),
            None => Ok(Some(JobFault::Section)),
            Some(header) => {
                self.parts.extend(header, self.place);
                self.take_body(mode, header, line)
            }
        }
    }

    /// Takes a line behind which the draft stands. Answers what is wrong with it.
    #[tactic(auto, unfolding(crate::specs::JobFaults::step))]
    fn take(&mut self, mode: Mode, line: &[u8]) -> Result<Option<JobFault>, AllocError>
        ensures value { IfOk result (λ fault. outcome fault self.new ≡ step mode self.old line.now) }
        ensures place { self.new.place ≡ self.old.place }
    {
        if is_header(line) {
            return Ok(self.take_header(opened_by(mode, self.last, line)));
        }
        self.take_line(mode, line)
    }
}

/// What the lines of a job give, unless one is at fault or a section is missing.
///
/// # Errors
///
/// The first line at fault, or `NoMemory`.
#[tactic(auto, unfolding(crate::specs::JobFaults::draft_of, crate::specs::JobFaults::ended, crate::specs::Rows::rows))]
pub(crate) fn read_draft(alloc: Global, mode: Mode, bytes: &[u8]) -> Result<Draft, JobEnd>
    requires { length bytes.now < 2 ^ 31 }
    ensures read { IsRead result (draft_of mode bytes.now) }
    ensures whole { IfOk result (λ draft. draft.place ≡ length bytes.now) }
{
    let mut draft = Draft::new(alloc, first_nodes(bytes));
    let mut rest = bytes;
    'reading: while let Some((line, next)) = next_row(rest) {
        let number = draft.number;
        draft.advance(bytes.len() - next.len());
        match draft.take(mode, line)? {
            Some(fault) => return Err(JobEnd::Fault {
                fault,
                line: number,
            }),
            None => {}
        }
        rest = next;
    }
    if draft.parts.lacks(mode) {
        return Err(JobEnd::Fault {
            fault: JobFault::Section,
            line: draft.number,
        });
    }
    Ok(draft)
}
