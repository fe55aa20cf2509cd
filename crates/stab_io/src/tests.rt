//! What no clause says: that the calls succeed where memory is there, and what the real streams do.
use crate::{
    Bytes, Failed, MemSink, MemSource, ReadEnd, StdSink, StdSource, read_all, write_all_of,
};
use std::io;
use std::io::{Cursor, ErrorKind, Write};
use std::test::Fail;

#[test]
fn bytes_grow_at_their_end(rt: HostRuntime) -> Result<(), Fail> {
    let alloc = rt.alloc();
    let mut bytes = Bytes::new(alloc);
    assert!(rt; bytes.list().is_empty());
    for byte in b"stab".iter() {
        bytes.push(*byte)?;
    }
    assert_eq!(rt; bytes.list(), b"stab".as_slice());
    let mut again = Bytes::from_vec(bytes.into_vec());
    again.push(b'!')?;
    assert_eq!(rt; again.list(), b"stab!".as_slice());
    Ok(())
}

#[test]
fn reads_all_that_is_left(rt: HostRuntime) -> Result<(), Fail> {
    let alloc = rt.alloc();
    for (text, step, limit) in [
        ("hello world", 1, 11),
        ("hello world", 3, 11),
        ("hello world", 16, 1000),
        ("", 16, 0),
    ] {
        let bytes = text.as_bytes().to_vec(alloc)?;
        let mut source = MemSource::new(bytes, step, Vec::new(alloc));
        let read = read_all(alloc, &mut source, limit);
        assert!(rt; read.is_ok(), "{text} by {step}");
        if let Ok(read) = read {
            assert_eq!(rt; read.list(), text.as_bytes(), "{text} by {step}");
        }
    }
    Ok(())
}

#[test]
fn an_input_of_more_than_one_chunk_is_read(rt: HostRuntime) -> Result<(), Fail> {
    let alloc = rt.alloc();
    let mut bytes = Vec::new(alloc);
    for index in 0..10_000u32 {
        bytes.push((index % 251) as u8)?;
    }
    let copy = bytes.clone()?;
    let mut source = MemSource::new(copy, 10_000, Vec::new(alloc));
    let read = read_all(alloc, &mut source, 10_000);
    assert!(rt; read.is_ok());
    if let Ok(read) = read {
        assert_eq!(rt; read.list(), bytes.as_slice());
    }
    Ok(())
}

#[test]
fn the_second_read_fails(rt: HostRuntime) -> Result<(), Fail> {
    let alloc = rt.alloc();
    let fails = [2].to_vec(alloc)?;
    let text = b"a text of more than sixteen bytes";
    let mut source = MemSource::new(text.to_vec(alloc)?, 16, fails);
    let end = read_all(alloc, &mut source, 100).err();
    assert_eq!(rt; end, Some(ReadEnd::ReadFault));
    // The failed call took nothing, and the next one goes on after the first 16 bytes.
    let rest = read_all(alloc, &mut source, 100);
    assert!(rt; rest.is_ok());
    if let Ok(rest) = rest {
        assert_eq!(rt; rest.list(), &text[16..]);
    }
    Ok(())
}

#[test]
fn too_much_is_refused(rt: HostRuntime) -> Result<(), Fail> {
    let alloc = rt.alloc();
    for (step, limit) in [(4, 10), (16, 10), (16, 0)] {
        let bytes = b"hello world".to_vec(alloc)?;
        let mut source = MemSource::new(bytes, step, Vec::new(alloc));
        let end = read_all(alloc, &mut source, limit).err();
        assert_eq!(rt; end, Some(ReadEnd::TooLong), "limit {limit}");
    }
    Ok(())
}

#[test]
fn the_third_write_fails(rt: HostRuntime) -> Result<(), Fail> {
    let alloc = rt.alloc();
    let text = b"a piece that is longer than the thirty-two bytes of two writes";
    let fails = [3].to_vec(alloc)?;
    let mut sink = MemSink::new(alloc, 100, 16, fails)?;
    assert_eq!(rt; write_all_of(&mut sink, text), Err(Failed));
    assert_eq!(rt; sink.held(), &text[..32]);
    Ok(())
}

#[test]
fn a_sink_takes_what_it_has_room_for(rt: HostRuntime) -> Result<(), Fail> {
    let alloc = rt.alloc();
    for (room, step, fails, done, held) in [
        (100, 4, 0, true, 11),
        (100, 4, 3, false, 8),
        (100, 4, 4, true, 11),
        (10, 4, 0, false, 10),
        (11, 100, 0, true, 11),
        (0, 4, 0, false, 0),
    ] {
        let fails = [fails].to_vec(alloc)?;
        let mut sink = MemSink::new(alloc, room, step, fails)?;
        let wrote = write_all_of(&mut sink, b"hello world");
        assert_eq!(rt; wrote == Ok(()), done, "room {room}, step {step}");
        assert_eq!(rt; sink.held().len(), held, "room {room}, step {step}");
        assert!(rt; b"hello world".starts_with(sink.held()));
    }
    Ok(())
}

#[test]
fn streams_of_std_are_read_and_written(rt: HostRuntime) -> Result<(), Fail> {
    let alloc = rt.alloc();
    let mut source = StdSource::new(b"hello world".as_slice());
    let read = read_all(alloc, &mut source, 100);
    assert!(rt; read.is_ok());
    if let Ok(read) = read {
        let mut sink = StdSink::new(Vec::<u8>::new(alloc));
        assert_eq!(rt; write_all_of(&mut sink, read.list()), Ok(()));
    }
    // A writer with no room takes nothing of a piece.
    let mut full = [0u8; 4];
    let mut sink = StdSink::new(Cursor::new(full.as_mut_slice()));
    assert_eq!(rt; write_all_of(&mut sink, b"hello world"), Err(Failed));
    Ok(())
}

// A writer that takes three bytes a call, and whose flush fails once it has been called so often.
#[derive(Drop)]
struct Flushed<'a> {
    flushes: &'a mut u32,
    fails_at: u32,
}

impl<'a> Write for Flushed<'a> {
    fn write(&mut self, buf: &[u8]) -> io::Result<usize> {
        Ok(buf.len().min(3))
    }

    fn flush(&mut self) -> io::Result<()> {
        *self.flushes = self.flushes.saturating_add(1);
        if *self.flushes == self.fails_at {
            return Err(ErrorKind::BrokenPipe.into());
        }
        Ok(())
    }
}

#[test]
fn each_write_is_flushed(rt: HostRuntime) {
    for (fails_at, wrote, flushed) in [(0, Ok(()), 4), (2, Err(Failed), 2), (5, Ok(()), 4)] {
        let mut flushes = 0;
        let mut sink = StdSink::new(Flushed {
            flushes: &mut flushes,
            fails_at,
        });
        assert_eq!(rt;
            write_all_of(&mut sink, b"hello world"),
            wrote,
            "at {fails_at}"
        );
        assert_eq!(rt; flushes, flushed, "at {fails_at}");
    }
}

#[test]
fn errors_have_a_text(rt: HostRuntime) -> Result<(), Fail> {
    let alloc = rt.alloc();
    assert_eq!(rt;
        format!(in alloc; "{}", Failed)?.as_str(),
        "the stream failed"
    );
    for (end, text) in [
        (ReadEnd::ReadFault, "a read failed"),
        (ReadEnd::TooLong, "the input is too long"),
        (ReadEnd::NoMemory, "out of memory"),
    ] {
        assert_eq!(rt; format!(in alloc; "{end}")?.as_str(), text);
    }
    Ok(())
}
