//! What the locations of a function follow from.

ghost use Rattle.std.specs.Prelude.{◌≡◌, ◌≢◌, ◌<◌, ℕ, pos, ◌+ℤ◌, MatchOption};
ghost use Rattle.state_space.specs.Kinds.{of_side};

use asm_tree::Kind;
use sqlite_items::Items;

/// The `size` values from `lo` on.
#[derive(Clone, Copy, Debug)]
pub struct Range {
    /// How many values there are.
    pub size: u32,
    /// The least value.
    pub lo: i32,
}

impl Range {
    /// The value with a number.
    pub fn value(self, index: u32) -> i64
        ensures { result ≡ self.lo +ℤ pos index }
    {
        i64::from(self.lo) + i64::from(index)
    }

    /// Which of the values this one is, counted from 0.
    pub fn index_of(self, value: i64) -> Option<u32>
        ensures { MatchOption result ((d : ℕ) → d < self.size → value ≢ (self.lo +ℤ pos d)) (λ d. (d < self.size) × (value ≡ (self.lo +ℤ pos d))) }
    {
        let lo = i64::from(self.lo);
        if value < lo || lo + i64::from(self.size) <= value {
            return None;
        }
        Some((value - lo) as u32)
    }
}

/// A function by its kind and its domains.
#[derive(Drop)]
pub struct Signature {
    /// Who may change the function.
    pub kind: Kind,
    /// The arguments' domains.
    pub args: Items<Range>,
    /// The values' domain.
    pub codomain: Range,
}

/// Where the values of functions stand: in the state, or among what is read from outside. What is sent outside is a part
/// of the state.
#[derive(Clone, Copy, Debug)]
pub enum Side {
    /// In the state.
    State,
    /// Among what is read from outside.
    Input,
    /// Among what is sent outside.
    Output,
}

impl Side {
    /// Whether functions of a kind have their values there.
    pub fn holds(self, kind: Kind) -> bool
        ensures { result ≡ of_side self kind }
    {
        match self {
            Side::State => matches!(kind, Kind::Controlled | Kind::Output),
            Side::Input => matches!(kind, Kind::Input),
            Side::Output => matches!(kind, Kind::Output),
        }
    }
}
