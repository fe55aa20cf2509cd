//! What the lines of `%set` and `%run` tell.

ghost use Rattle.std.specs.Prelude.{◌≡◌, ℕ, IfOk, IsTrue};
ghost use Rattle.trap_model.specs.Map.{lies_in};
ghost use Rattle.text_core.specs.Fields.{fields};
ghost use Rattle.job_text.specs.Ranges.{IsBetween};
ghost use Rattle.job_text.specs.Told.{ToldState, in_range, is_told, nothing_told, ram_size, read, read_key, with_said};

use crate::fault::JobFault;
use crate::key::{Key, allowed_key};
use crate::mode::{Header, Mode};
use crate::said::{Layout, Said, Shape, formed};
use rv_encode::Words;
use std::alloc::{AllocError, Global};
use std::marker::Model;
use text_core::next_field;
use trap_model::RAM_BASE;

/// What RAM, the registers and the program counter are made of.
#[derive(Clone, Copy, Debug)]
pub enum Base {
    /// Each word of RAM is this one; the rest is 0.
    Fill(u32),
    /// All are the values of the generator from this seed.
    Seed(u32),
}

/// A register or a word of RAM that a job sets by itself.
#[derive(Clone, Copy, Debug, Drop)]
pub enum Edit {
    Register { number: u32, word: u32 },
    Memory { index: u32, word: u32 },
}

/// What the lines so far tell, in a job with this number of nodes. Contracts see it as its state.
#[derive(Drop)]
pub(crate) struct Told {
    pub(crate) nodes: u32,
    has_nodes: bool,
    pub(crate) shape: Option<Shape>,
    pub(crate) layout: Option<Layout>,
    pub(crate) revision: Option<u32>,
    pub(crate) states: Option<u32>,
    pub(crate) seed: Option<u32>,
    pub(crate) rounds: Option<u32>,
    pub(crate) ticks: Option<u32>,
    pub(crate) pc: Option<u32>,
    pub(crate) base: Option<Base>,
    pub(crate) edits: Vec<Edit>,
    pub(crate) readings: Words,
}

impl Model for Told {
    ghost use Rattle.job_text.specs.Ranges.{AreInRange};
    ghost use Rattle.job_text.specs.Told.{ToldState};

    ghost Value = { ToldState };

    ghost view = { λ t. record {
      nodes = t.nodes;
      has_nodes = t.has_nodes;
      shape = t.shape;
      layout = t.layout;
      revision = t.revision;
      states = t.states;
      seed = t.seed;
      rounds = t.rounds;
      ticks = t.ticks;
      pc = t.pc;
      base = t.base;
      edits = t.edits.items;
      readings = t.readings;
    } };

    ghost invariant = { λ t. AreInRange t.nodes t.revision t.states t.rounds t.ticks };
}

/// The bytes of RAM in a machine of this revision, the first where none is said.
fn ram_size(revision: Option<u32>) -> u32
    ensures { result ≡ ram_size revision }
{
    match revision {
        Some(2) => 1_048_576,
        Some(_) => 262_144,
        None => 262_144,
    }
}

/// Whether the numbers of a line are in range, where `nodes` is the least number of states and RAM has `ram` bytes.
#[tactic(auto, unfolding(trap_model::specs::Map::lies_in))]
fn in_range(nodes: u32, ram: u32, said: Said) -> bool
    ensures { result ≡ in_range nodes ram said }
{
    match said {
        Said::Revision(number) => 1 <= number && number <= 2,
        Said::Nodes(number) => 3 <= number && number <= 64,
        Said::States(number) => u64::from(nodes) <= number && number <= 256,
        Said::Rounds(number) => 1 <= number && number <= 1_000_000,
        Said::Ticks(number) => 1 <= number && number <= 10_000_000,
        Said::Register { number, .. } => 1 <= number && number <= 31,
        Said::Ram { address, .. } => address % 4 == 0
            && RAM_BASE <= address
            && address - RAM_BASE < ram,
        Said::Shape(_) | Said::Layout(_) | Said::Seed(_) | Said::Pc(_) => true,
        Said::Fill(_) | Said::RamSeed(_) | Said::Reading(_) | Said::Script => true,
    }
}

impl Told {
    /// Before any line of a job with this number of nodes.
    pub(crate) fn new(alloc: Global, nodes: u32) -> Told
        requires { IsBetween 3 64 nodes }
        ensures { result ≡ nothing_told nodes }
    {
        Told {
            nodes,
            has_nodes: false,
            shape: None,
            layout: None,
            revision: None,
            states: None,
            seed: None,
            rounds: None,
            ticks: None,
            pc: None,
            base: None,
            edits: Vec::new(alloc),
            readings: Words::new(alloc),
        }
    }

    /// The bytes of RAM in the job's machine.
    pub(crate) fn ram(&self) -> u32
        ensures { result ≡ ram_size self.now.revision }
    {
        ram_size(self.revision)
    }

    /// Whether a line with this key, or one that excludes it, stood before.
    fn is_told(&self, key: Key) -> bool
        ensures { result ≡ is_told self.now key }
    {
        match key {
            Key::Shape => self.shape.is_some(),
            Key::Layout => self.layout.is_some(),
            Key::Revision => self.revision.is_some(),
            Key::Nodes => self.has_nodes,
            Key::States => self.states.is_some(),
            Key::Seed => self.seed.is_some(),
            Key::Rounds => self.rounds.is_some(),
            Key::Ticks => self.ticks.is_some(),
            Key::Pc => self.pc.is_some(),
            Key::Fill => self.base.is_some(),
            Key::RamSeed => self.base.is_some(),
            Key::Register | Key::Ram | Key::Reading | Key::At | Key::Value => false,
        }
    }

    /// What a line says whose first field has this key, by the fields behind it.
    fn read_key(&self, key: Key, rest: &[u8]) -> Result<Said, JobFault>
        ensures value { result ≡ read_key self.now key (fields rest.now) }
        ensures fits { IfOk result (λ said. IsTrue (in_range self.now.nodes (ram_size self.now.revision) said)) }
    {
        if self.is_told(key) {
            return Err(JobFault::Form);
        }
        match formed(key, rest) {
            None => Err(JobFault::Form),
            Some(said) if in_range(self.nodes, ram_size(self.revision), said) => Ok(said),
            Some(_) => Err(JobFault::Range),
        }
    }

    /// What a line of this section says in a job of this mode, or what is wrong with it.
    pub(crate) fn read(&self, mode: Mode, header: Header, line: &[u8]) -> Result<Said, JobFault>
        ensures value { result ≡ read mode header self.now (fields line.now) }
        ensures fits { IfOk result (λ said. IsTrue (in_range self.now.nodes (ram_size self.now.revision) said)) }
    {
        match next_field(line) {
            None => Err(JobFault::Form),
            Some((word, rest)) => match allowed_key(mode, header, word) {
                None => Err(JobFault::Form),
                Some(key) => self.read_key(key, rest),
            },
        }
    }

    /// Adds what a line says.
    #[tactic(auto, unfolding(crate::specs::Told::with_said, trap_model::specs::Map::lies_in))]
    pub(crate) fn add(&mut self, ram: u32, said: Said) -> Result<(), AllocError>
        requires { IsTrue (in_range self.old.nodes ram said) }
        ensures { IfOk result (λ done. self.new ≡ with_said self.old said) }
    {
        match said {
            Said::Shape(shape) => self.shape = Some(shape),
            Said::Layout(layout) => self.layout = Some(layout),
            Said::Revision(number) => self.revision = Some(number as u32),
            Said::Nodes(_) => self.has_nodes = true,
            Said::States(number) => self.states = Some(number as u32),
            Said::Seed(word) => self.seed = Some(word),
            Said::Rounds(number) => self.rounds = Some(number as u32),
            Said::Ticks(number) => self.ticks = Some(number as u32),
            Said::Pc(word) => self.pc = Some(word),
            Said::Register { number, word } => self.edits.push(Edit::Register {
                number: number as u32,
                word,
            })?,
            Said::Fill(word) => self.base = Some(Base::Fill(word)),
            Said::RamSeed(word) => self.base = Some(Base::Seed(word)),
            Said::Ram { address, word } => self.edits.push(Edit::Memory {
                index: (address - RAM_BASE) / 4,
                word,
            })?,
            Said::Reading(word) => self.readings.push(word)?,
            Said::Script => {}
        }
        Ok(())
    }
}
