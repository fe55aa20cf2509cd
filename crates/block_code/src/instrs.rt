//! Lists of instructions.

ghost use Rattle.std.specs.Prelude.{◌≡◌, List, [], ◌∷◌, ◌++◌, OnOk, OnErr};

use rv_isa::Instr;
use std::alloc::{AllocError, Global};
use std::marker::Model;

/// A list of instructions that grows at its end. Contracts see it as the list of its instructions.
#[derive(Drop)]
pub struct Instrs {
    items: Vec<Instr>,
}

impl Model for Instrs {
    ghost use Rattle.std.specs.Prelude.{List};
    ghost use Rattle.rv_isa.specs.declared.instr.Instr as the_instr;

    ghost Value = { List the_instr.Instr };

    ghost view = { λ instrs. instrs.items.items };
}

impl Instrs {
    /// The list of no instructions, which grows in the memory of `alloc`. It takes none yet.
    pub fn new(alloc: Global) -> Instrs
        ensures { result ≡ [] }
    {
        Instrs {
            items: Vec::new(alloc),
        }
    }

    /// Puts an instruction at the end of the list.
    ///
    /// # Errors
    ///
    /// `AllocError` where there is no memory for the instruction; the list is then unchanged.
    pub fn push(&mut self, instr: Instr) -> Result<(), AllocError>
        ensures ok { OnOk result (self.new ≡ self.old ++ instr ∷ []) }
        ensures err { OnErr result (self.new ≡ self.old) }
    {
        self.items.push(instr)?;
        Ok(())
    }

    /// Puts instructions at the end of the list, all of them.
    ///
    /// # Errors
    ///
    /// `AllocError` where there is no memory for them; the list is then unchanged.
    pub fn append(&mut self, code: &[Instr]) -> Result<(), AllocError>
        ensures ok { OnOk result (self.new ≡ self.old ++ code.now) }
        ensures err { OnErr result (self.new ≡ self.old) }
    {
        self.items.extend_from_slice(code)?;
        Ok(())
    }

    /// The instructions, first to last.
    pub fn list(&self) -> &[Instr]
        ensures { result.now ≡ self.now }
    {
        &self.items
    }
}
