//! The real streams, over any reader and any writer of std. They are the edge that is trusted: no
//! contract knows what standard input gives, nor what standard output shows.
ghost use Rattle.std.specs.Prelude.{◌≡◌, ◌<◌, ◌≤◌, None, IfSome, length, take};
ghost use Rattle.std.specs.Io.KnownBytes.{Appends};

use crate::{Failed, Sink, Source};
use std::io::{Read, Write};

/// A source over a reader. It tells the bytes that are left exactly where the reader does, as a
/// slice of bytes does and standard input doesn't.
#[derive(Drop)]
pub struct StdSource<R> {
    reader: R,
    faults: u64,
}

impl<R: Read> StdSource<R> {
    /// A source with no faults yet. Takes no memory, and reads nothing.
    pub fn new(reader: R) -> StdSource<R>
        ensures left { ⟦<StdSource<R> as Source>⟧.left result ≡ R.remaining reader }
        ensures faults { ⟦<StdSource<R> as Source>⟧.faults result ≡ 0 }
    {
        StdSource { reader, faults: 0 }
    }
}

impl<R: Read> Source for StdSource<R> {
    ghost left = { λ source. R.remaining source.reader };

    ghost faults = { λ source. source.faults };

    /// One read of the reader. Each of its errors is a fault.
    fn read(&mut self, buf: &mut [u8]) -> Result<usize, Failed> {
        match self.reader.read(buf) {
            Ok(count) => Ok(count),
            Err(_) => {
                self.faults = self.faults.saturating_add(1);
                Err(Failed)
            }
        }
    }
}

/// A sink over a writer, which is flushed after each write. It tells no bytes.
#[derive(Drop)]
pub struct StdSink<W> {
    writer: W,
    faults: u64,
}

impl<W: Write> StdSink<W> {
    /// A sink with no faults yet. Takes no memory, and writes nothing.
    pub fn new(writer: W) -> StdSink<W>
        ensures faults { ⟦<StdSink<W> as Sink>⟧.faults result ≡ 0 }
        ensures writer { result.writer ≡ writer }
    {
        StdSink { writer, faults: 0 }
    }

    // Writes, and flushes what was written. A writer that takes nothing of a piece has failed.
    fn write_and_flush(writer: &mut W, piece: &[u8]) -> Option<usize>
        ensures bound { IfSome result (λ count. count ≤ length piece.now) }
        ensures progress { IfSome result (λ count. 0 < length piece.now → 0 < count) }
        ensures bytes { IfSome result (λ count. Appends (W.contents writer.old) (W.contents writer.new) (take count piece.now)) }
    {
        let count = writer.write(piece).ok()?;
        writer.flush().ok()?;
        if count == 0 && !piece.is_empty() {
            return None;
        }
        Some(count)
    }
}

impl<W: Write> Sink for StdSink<W> {
    ghost use Rattle.std.specs.Prelude.{◌<◌, None, IfOk, length, take};
    ghost use Rattle.std.specs.Io.{WritesAtMost};
    ghost use Rattle.std.specs.Io.KnownBytes.{Appends, WriteAppends};
    ghost use Rattle.stab_io.specs.Causes.{HasCause};

    ghost held = { λ _. None };

    ghost faults = { λ sink. sink.faults };

    /// One write to the writer and a flush. The writer got the bytes that the call says it took. An
    /// error of either is a fault, and so is a write that takes nothing of a piece that isn't empty.
    fn write(&mut self, piece: &[u8]) -> Result<usize, Failed>
        ensures bound { WritesAtMost result piece.now }
        ensures progress { 0 < length piece.now → IfOk result (λ count. 0 < count) }
        ensures bytes { WriteAppends None None result piece.now }
        ensures cause { HasCause self.old.faults self.new.faults result }
        ensures written { IfOk result (λ count. Appends (W.contents self.old.writer) (W.contents self.new.writer) (take count piece.now)) }
    {
        match Self::write_and_flush(&mut self.writer, piece) {
            Some(count) => Ok(count),
            None => {
                self.faults = self.faults.saturating_add(1);
                Err(Failed)
            }
        }
    }
}
