//! The hart of a start.

ghost use Rattle.std.specs.Prelude.{◌≡◌, ◌*◌, ◌/◌, length, slice_index, IfOk};
ghost use Rattle.rv_machine.specs.Memory.{IsMemorySize};
ghost use Rattle.job_text.specs.Jobs.{start_state};
ghost use Rattle.job_text.specs.Ranges.{IsHartStart};
ghost use Rattle.job_text.specs.Start.{bytes_of, hart_of};

use crate::start::Start;
use rv_isa::Reg;
use rv_machine::Hart;
use std::alloc::{AllocError, Global};

/// Sets all registers.
fn set_regs<const ROM: u32, const RAM: u32>(hart: &mut Hart<ROM, RAM>, regs: &[u32])
    requires held { length hart.old.regs ≡ 32 }
    requires held_zero { slice_index hart.old.regs 0 ≡ 0 }
    requires count { length regs.now ≡ 32 }
    requires zero_reg { slice_index regs.now 0 ≡ 0 }
    ensures { hart.new ≡ record hart.old { regs = regs.now } }
{
    for (index, value) in regs.iter().enumerate() {
        if let Some(reg) = Reg::new(index as u32) {
            hart.set_reg(reg, *value);
        }
    }
}

/// Sets all words of RAM.
fn set_words<const ROM: u32, const RAM: u32>(hart: &mut Hart<ROM, RAM>, words: &[u32])
    requires held { length hart.old.ram ≡ RAM }
    requires size { 4 * length words.now ≡ RAM }
    ensures { hart.new ≡ record hart.old { ram = bytes_of words.now } }
{
    for (index, word) in words.iter().enumerate() {
        hart.set_word(4 * index as u32, *word);
    }
}

impl Start {
    /// The hart that starts so, with `RAM` bytes of RAM.
    ///
    /// # Errors
    ///
    /// `AllocError` where there is no memory for the RAM.
    pub fn hart<const ROM: u32, const RAM: u32>(
        &self,
        alloc: Global,
    ) -> Result<Hart<ROM, RAM>, AllocError>
        requires memory { IsMemorySize RAM }
        requires whole { IsHartStart (RAM / 4) self.now.regs self.now.ram }
        ensures { IfOk result (λ hart. hart ≡ hart_of (start_state self.now)) }
    {
        let mut hart = Hart::new(alloc, self.pc)?;
        set_regs(&mut hart, self.regs.list());
        set_words(&mut hart, self.ram.list());
        Ok(hart)
    }
}
