//! A source and a sink, as the compiler sees them.
ghost use Rattle.std.specs.Prelude.{ℕ, List, ◌<◌, length, IfOk};
ghost use Rattle.std.specs.declared.option.Option.{Option};
ghost use Rattle.std.specs.Io.{ReadsAtMost, WritesAtMost};
ghost use Rattle.std.specs.Io.KnownBytes.{ReadConsumes, WriteAppends};
ghost use Rattle.stab_io.specs.Causes.{HasCause};

use thiserror::Error;

/// A call of a stream failed, and the stream's count of faults rose in that call.
#[derive(Clone, Copy, Debug, PartialEq, Eq, Error)]
#[error("the stream failed")]
pub struct Failed;

/// Where input comes from.
///
/// A source means the bytes that are left in it, where it tells them, and a count of its faults
/// that never falls. A count rose in a call where it is greater after the call, or stands at its
/// greatest value, 18446744073709551615.
pub trait Source {
    /// The bytes that are left, or `None` where the source doesn't tell them.
    ghost left: { Self → Option (List ℕ) };

    /// How often the source has failed. The count never falls.
    ghost faults: { Self → ℕ };

    /// Moves the next bytes to the front of `buf`, and gives how many: at most the length of `buf`.
    /// `Ok(0)` on a buffer that isn't empty is the end of the input.
    ///
    /// `Failed` comes only where the count of faults rose in this call. Then nothing was taken.
    fn read(&mut self, buf: &mut [u8]) -> Result<usize, Failed>
        ensures bound { ReadsAtMost result buf.new }
        ensures bytes { ReadConsumes (left self.old) (left self.new) result buf.new }
        ensures cause { HasCause (faults self.old) (faults self.new) result };
}

/// Where output goes.
///
/// A sink means the bytes that it holds, where it tells them, and a count of its faults that never
/// falls. A count rises as that of a [`Source`] does.
pub trait Sink {
    /// The bytes that the sink holds, or `None` where it doesn't tell them.
    ghost held: { Self → Option (List ℕ) };

    /// How often the sink has failed. The count never falls.
    ghost faults: { Self → ℕ };

    /// Appends the first bytes of `piece`, and gives how many: from 1 to its length, and 0 only for
    /// an empty piece, which changes nothing.
    ///
    /// `Failed` comes only where the count of faults rose in this call. Then nothing was appended.
    fn write(&mut self, piece: &[u8]) -> Result<usize, Failed>
        ensures bound { WritesAtMost result piece.now }
        ensures progress { 0 < length piece.now → IfOk result (λ count. 0 < count) }
        ensures bytes { WriteAppends (held self.old) (held self.new) result piece.now }
        ensures cause { HasCause (faults self.old) (faults self.new) result };
}
