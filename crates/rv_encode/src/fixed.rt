//! Instructions that have one word and no operands: `ecall` and `ebreak`.

ghost use Rattle.std.specs.Prelude.{◌≡◌};

/// The one word, as its row of the table has it.
pub fn encode(row: u32) -> u32
    ensures { result ≡ row }
{
    row
}

/// Such an instruction has no operands.
pub fn operands(_word: u32) {}
