//! The start of a bare hart: a base, and what a job sets on it.

ghost use Rattle.std.specs.Prelude.{◌≡◌, ℕ, IfOk, slice_set};
ghost use Rattle.std.specs.Option.{unwrap_or};
ghost use Rattle.job_text.specs.Keys.{runs_hart};
ghost use Rattle.job_text.specs.Ranges.{IsStartOf};
ghost use Rattle.job_text.specs.Jobs.{start_state};
ghost use Rattle.job_text.specs.Start.{after, bare_of, base_of, filled, generated, no_hart, seeded, start_of, successor, with_edit, with_edits};

use crate::key::runs_hart;
use crate::mode::Mode;
use crate::told::{Base, Edit, Told};
use rv_encode::Words;
use std::alloc::{AllocError, Global};
use std::marker::Model;

/// A hart as it starts: the program counter, the registers x0 to x31, the words of RAM in address order, and the readings of
/// its input ports in their order.
#[derive(Drop)]
pub struct Start {
    pub pc: u32,
    pub regs: Words,
    pub ram: Words,
    pub readings: Words,
}

/// The program counter, registers and RAM of a hart. Contracts see the lists.
#[derive(Drop)]
struct Bare {
    pc: u32,
    regs: Vec<u32>,
    ram: Vec<u32>,
}

impl Model for Bare {
    ghost use Rattle.job_text.specs.Start.{BareState};

    ghost Value = { BareState };

    ghost view = { λ b. record { pc = b.pc; regs = b.regs.items; ram = b.ram.items } };
}

/// The value that the generator gives after this one.
#[tactic(auto, unfolding(crate::specs::Start::successor))]
fn successor(value: u32) -> u32
    ensures { result ≡ successor value }
{
    ((1_664_525 * u64::from(value) + 1_013_904_223) % 4_294_967_296) as u32
}

/// So many values of the generator behind this one, and the last of them.
fn generate(alloc: Global, count: u32, value: u32) -> Result<(Vec<u32>, u32), AllocError>
    ensures values { IfOk result (λ found. found.0.items ≡ generated count value) }
    ensures last { IfOk result (λ found. found.1 ≡ after count value) }
{
    let mut values = Vec::new(alloc);
    let mut last = value;
    for index in 0..count {
        last = successor(last);
        values.push(last)?;
    }
    Ok((values, last))
}

/// A hart whose words of RAM are all this one.
fn filled(alloc: Global, words: u32, word: u32) -> Result<Bare, AllocError>
    ensures { IfOk result (λ bare. bare ≡ filled words word) }
{
    Ok(Bare {
        pc: 0,
        regs: vec![in alloc; 0; 32]?,
        ram: vec![in alloc; word; words as usize]?,
    })
}

/// A hart whose RAM, registers and program counter are the generator's values from this seed.
fn seeded(alloc: Global, words: u32, seed: u32) -> Result<Bare, AllocError>
    ensures { IfOk result (λ bare. bare ≡ seeded words seed) }
{
    let (ram, last) = generate(alloc, words, seed)?;
    let (values, last) = generate(alloc, 31, last)?;
    let mut regs = vec![in alloc; 0; 1]?;
    regs.extend_from_slice(&values)?;
    Ok(Bare {
        pc: successor(last),
        regs,
        ram,
    })
}

/// The hart on which a job sets what it sets.
fn base_of(alloc: Global, words: u32, base: Option<Base>) -> Result<Bare, AllocError>
    ensures { IfOk result (λ bare. bare ≡ base_of words base) }
{
    match base {
        None => filled(alloc, words, 0),
        Some(Base::Fill(word)) => filled(alloc, words, word),
        Some(Base::Seed(seed)) => seeded(alloc, words, seed),
    }
}

/// Puts a value in a place of a list that has this place.
fn put(values: &mut Vec<u32>, place: u32, value: u32)
    ensures { values.new.items ≡ slice_set values.old.items place value }
{
    let place = place as usize;
    if place < values.len() {
        values[place] = value;
    }
}

impl Bare {
    /// Sets a register, where it isn't x0, or a word of RAM.
    fn set(&mut self, edit: Edit)
        ensures { self.new ≡ with_edit self.old edit }
    {
        match edit {
            Edit::Register { number: 0, .. } => {}
            Edit::Register { number, word } => put(&mut self.regs, number, word),
            Edit::Memory { index, word } => put(&mut self.ram, index, word),
        }
    }

    /// Sets registers and words of RAM one after another.
    fn set_all(&mut self, edits: &[Edit])
        ensures { self.new ≡ with_edits self.old edits.now }
    {
        for edit in edits {
            self.set(*edit);
        }
    }
}

/// A list of words of these values.
fn words_of(alloc: Global, values: &[u32]) -> Result<Words, AllocError>
    ensures { IfOk result (λ words. words ≡ values.now) }
{
    let mut words = Words::new(alloc);
    for value in values {
        words.push(*value)?;
    }
    Ok(words)
}

/// No hart.
fn no_hart(alloc: Global) -> Bare
    ensures { result ≡ no_hart }
{
    Bare {
        pc: 0,
        regs: Vec::new(alloc),
        ram: Vec::new(alloc),
    }
}

/// The hart that a job of this mode tells, its program counter that of the base.
fn bare_of(alloc: Global, mode: Mode, told: &Told) -> Result<Bare, AllocError>
    ensures { IfOk result (λ bare. bare ≡ bare_of mode told.now) }
{
    if !runs_hart(mode) {
        return Ok(no_hart(alloc));
    }
    let mut bare = base_of(alloc, told.ram() / 4, told.base)?;
    bare.set_all(&told.edits);
    Ok(bare)
}

/// The start that a job tells.
#[tactic(auto, unfolding(crate::specs::Start::start_of))]
fn make_start(alloc: Global, mode: Mode, told: Told) -> Result<Start, AllocError>
    ensures { IfOk result (λ start. start_state start ≡ start_of mode told) }
{
    let bare = bare_of(alloc, mode, &told)?;
    Ok(Start {
        pc: told.pc.unwrap_or(bare.pc),
        regs: words_of(alloc, &bare.regs)?,
        ram: words_of(alloc, &bare.ram)?,
        readings: told.readings,
    })
}

/// The start that a job tells, with its registers and the words of RAM where the mode runs a hart.
pub(crate) fn start_of(alloc: Global, mode: Mode, told: Told) -> Result<Start, AllocError>
    ensures value { IfOk result (λ start. start_state start ≡ start_of mode told) }
    ensures whole { IfOk result (λ start. IsStartOf (runs_hart mode) (unwrap_or told.revision 1) start.regs start.ram) }
{
    match make_start(alloc, mode, told) {
        Err(error) => Err(error),
        Ok(start) => Ok(start),
    }
}
