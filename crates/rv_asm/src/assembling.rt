//! Assembly text to words.

ghost use Rattle.std.specs.Prelude.{◌≢◌, ◌≡◌, ◌<◌, ◌≤◌, ◌^◌, length, Err, IfOk, IfErr};
ghost use Rattle.text_core.specs.Lines.{lines};
ghost use Rattle.rv_asm.specs.Assembly.{Assembles, assembled};
ghost use Rattle.rv_asm.specs.declared.fault.AsmEnd.TheVariants.{NoMemory};

use crate::fault::AsmEnd;
use crate::turns::{first_too_many, survey, words};
use rv_encode::Words;
use std::alloc::Global;

/// The words that an assembly text comes to: those of its instructions and `.word` lines in order, the first at address 0,
/// at most `limit` of them. The text has fewer than 2^31 bytes, and its first line has the number `first_line`, of 1 to
/// 2^30.
///
/// # Errors
///
/// The first fault with its line, judged in three turns: the spelling of all lines, then the number of words, then
/// the labels that targets name. `NoMemory` where no memory is left.
#[tactic(auto, unfolding(crate::specs::Assembly::assembled))]
pub fn assemble(alloc: Global, text: &[u8], first_line: u32, limit: u32) -> Result<Words, AsmEnd>
    requires short { length text.now < 2 ^ 31 }
    requires some { 1 ≤ first_line }
    requires few { first_line ≤ 2 ^ 30 }
    ensures ok { IfOk result (λ words. Assembles limit first_line (lines text.now) words) }
    ensures err { IfErr result (λ end. end ≢ NoMemory → assembled limit first_line (lines text.now) ≡ Err end) }
{
    let labels = survey(alloc, text, first_line)?;
    if let Some(end) = first_too_many(alloc, text, first_line, limit) {
        return Err(end);
    }
    words(alloc, &labels, text, first_line)
}
