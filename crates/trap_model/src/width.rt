//! The widths of an access of memory.

ghost use Rattle.std.specs.Prelude.{◌≡◌};
ghost use Rattle.trap_model.specs.Width.{IsWidth, bytes_of};

/// How many bytes a load or a store moves (RISC-V Unprivileged manual, "Load and Store Instructions").
#[derive(Clone, Copy, Debug, PartialEq, Eq)]
pub enum Width {
    /// One byte.
    Byte,
    /// A halfword, 2 bytes.
    Half,
    /// A word, 4 bytes.
    Word,
}

impl Width {
    /// The number of bytes: 1, 2 or 4.
    pub fn bytes(self) -> u32
        ensures value { result ≡ bytes_of self }
        ensures width { IsWidth result }
    {
        match self {
            Width::Byte => 1,
            Width::Half => 2,
            Width::Word => 4,
        }
    }
}
