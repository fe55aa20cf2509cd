//! The outside of the compiler: a source of bytes and a sink for bytes, each with a count of its
//! faults. A whole input is read from a source, and a whole piece is written to a sink.
#![tactic(auto)]

mod bytes;
mod memory;
mod stream;
mod streams;
mod transfer;

pub use bytes::Bytes;
pub use memory::{MemSink, MemSource};
pub use stream::{Failed, Sink, Source};
pub use streams::{StdSink, StdSource};
pub use transfer::{ReadEnd, read_all, write_all_of};

#[cfg(test)]
mod tests;
