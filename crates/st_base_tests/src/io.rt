use st_io::{Failed, MemSink, MemSource, Sink, Source, StdSink, StdSource};
use std::alloc::{AllocError, Global};
use std::io;
use std::test::Fail;

// Three bytes, of which the second read fails.
fn source_fails_once(alloc: Global) -> Result<bool, AllocError> {
    let mut source = MemSource::new(Vec::from_slice(alloc, b"abc")?, vec![in alloc; 2]?);
    let mut buffer = [0u8; 2];
    let first = source.read(&mut buffer) == Ok(2) && buffer == *b"ab";
    let second = source.read(&mut buffer) == Err(Failed);
    let third = source.read(&mut buffer) == Ok(1) && buffer[0] == b'c';
    Ok(first && second && third && source.read(&mut buffer) == Ok(0))
}

// Two bytes a write, of which the first and the third fail.
fn sink_fails_twice(alloc: Global) -> Result<bool, AllocError> {
    let mut sink = MemSink::new(alloc, 2, vec![in alloc; 1, 3]?);
    let first = sink.write(b"xyz") == Err(Failed);
    let second = sink.write(b"xyz") == Ok(2);
    let third = sink.write(b"z") == Err(Failed);
    let fourth = sink.write(b"z") == Ok(1);
    Ok(first && second && third && fourth && sink.bytes() == b"xyz".as_slice())
}

#[test]
fn first_use(rt: HostRuntime) -> Result<(), Fail> {
    let alloc = rt.alloc();
    let source = source_fails_once(alloc)?;
    let sink = sink_fails_twice(alloc)?;
    assert!(rt; source && sink, "{source} {sink}");
    Ok(())
}

fn reader_is_read() -> bool {
    let mut bytes: &[u8] = b"ab";
    let mut source = StdSource::new(&mut bytes);
    let mut buffer = [0u8; 4];
    let all = source.read(&mut buffer) == Ok(2) && buffer[1] == b'b';
    all && source.read(&mut buffer) == Ok(0)
}

#[test]
fn standard_edge(rt: HostRuntime) {
    let mut sink = StdSink::new(io::writer(&rt));
    let written = sink.write(b"a\n") == Ok(2);
    assert!(rt; written && reader_is_read());
}
