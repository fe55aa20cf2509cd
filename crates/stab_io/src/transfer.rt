//! A whole input in, and a whole piece out.
ghost use Rattle.std.specs.Prelude.{◌≡◌, ◌<◌, ◌≤◌, ◌^◌, length, IfOk, OnOk, OnErr, IsErrOf};
ghost use Rattle.std.specs.Io.KnownBytes.{Appends, Consumes, IsAtEnd};
ghost use Rattle.stab_io.specs.Causes.{HasCause, Rose};
ghost use Rattle.stab_io.specs.Pieces.{AppendsPart, TakesAtMost, TakesMoreThan};
ghost use Rattle.stab_io.specs.declared.transfer.ReadEnd.TheVariants.{ReadFault, NoMemory};

use crate::{Bytes, Failed, Sink, Source};
use std::alloc::{AllocError, Global};
use thiserror::Error;

// How many bytes are asked for at once.
const CHUNK: usize = 4096;

/// Why an input wasn't read to its end.
#[derive(Clone, Copy, Debug, PartialEq, Eq, Error)]
pub enum ReadEnd {
    /// A read failed.
    #[error("a read failed")]
    ReadFault,
    /// More bytes came than the limit allows.
    #[error("the input is too long")]
    TooLong,
    /// No memory was left for the bytes.
    #[error("out of memory")]
    NoMemory,
}

impl From<Failed> for ReadEnd {
    ghost from_gives = { λ _ end. end ≡ ReadFault };

    fn from(_: Failed) -> Self {
        ReadEnd::ReadFault
    }
}

impl From<AllocError> for ReadEnd {
    ghost from_gives = { λ _ end. end ≡ NoMemory };

    fn from(_: AllocError) -> Self {
        ReadEnd::NoMemory
    }
}

/// Reads `src` to its end, and gives all bytes that were left: at most `limit` bytes.
///
/// `ReadFault` comes only where the count of faults of `src` rose, `TooLong` only where more than
/// `limit` bytes came, and any other answer only where at most `limit` did. After an error the bytes
/// that came are lost, and some may be left.
pub fn read_all<S: Source>(alloc: Global, src: &mut S, limit: usize) -> Result<Bytes, ReadEnd>
    requires { limit < 2 ^ 31 }

    ensures whole { IfOk result (λ bytes. Consumes (S.left src.old) (S.left src.new) bytes) }
    ensures end { OnOk result (IsAtEnd (S.left src.new)) }
    ensures within { IfOk result (λ bytes. length bytes ≤ limit) }
    ensures no_fault { OnOk result (S.faults src.new ≡ S.faults src.old) }

    // A fault comes only where the count rose, and no other end hides one.
    ensures fault { IsErrOf result ReadEnd.ReadFault → Rose (S.faults src.old) (S.faults src.new) }
    ensures fault_within { IsErrOf result ReadEnd.ReadFault → TakesAtMost limit (S.left src.old) (S.left src.new) }
    ensures too_long { IsErrOf result ReadEnd.TooLong → TakesMoreThan limit (S.left src.old) (S.left src.new) }
    ensures too_long_no_fault { IsErrOf result ReadEnd.TooLong → S.faults src.new ≡ S.faults src.old }
    ensures no_memory_within { IsErrOf result ReadEnd.NoMemory → TakesAtMost limit (S.left src.old) (S.left src.new) }
    ensures no_memory_no_fault { IsErrOf result ReadEnd.NoMemory → S.faults src.new ≡ S.faults src.old }
    ensures later { S.faults src.old ≤ S.faults src.new }
{
    let mut bytes = Vec::new(alloc);
    let mut chunk = [0u8; CHUNK];
    loop {
        let count = src.read(&mut chunk)?;
        if count == 0 {
            return Ok(Bytes::from_vec(bytes));
        }
        if count > limit - bytes.len() {
            return Err(ReadEnd::TooLong);
        }
        bytes.extend_from_slice(&chunk[..count])?;
    }
}

/// Appends the whole of `piece` to what `sink` holds. Takes no memory.
///
/// `Failed` comes only where the count of faults of `sink` rose. Then a front of the piece was
/// appended, which may be empty and is not the whole.
pub fn write_all_of<K: Sink>(sink: &mut K, piece: &[u8]) -> Result<(), Failed>
    ensures whole { OnOk result (Appends (K.held sink.old) (K.held sink.new) piece.now) }
    ensures part { OnErr result (AppendsPart (K.held sink.old) (K.held sink.new) piece.now) }
    ensures cause { HasCause (K.faults sink.old) (K.faults sink.new) result }
{
    let mut rest = piece;
    while !rest.is_empty() {
        let count = sink.write(rest)?;
        rest = &rest[count..];
    }
    Ok(())
}
