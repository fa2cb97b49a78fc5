//! Lines that are echoed, and a source or a sink that fails.
ghost use Rattle.std.specs.Prelude.{◌<◌};

use st_io::{MemSink, MemSource};
use st_pieces::{Echo, RunEnd, answer_lines};
use std::alloc::{AllocError, Global};
use std::test::Fail;

// Whether a run over some bytes comes to its end and writes so, by writes of at most so many bytes.
fn is_echoed(alloc: Global, input: &str, most: usize, written: &str) -> Result<bool, AllocError>
    requires { 0 < most }
{
    let mut source = MemSource::new(Vec::from_slice(alloc, input.as_bytes())?, Vec::new(alloc));
    let mut sink = MemSink::new(alloc, most, Vec::new(alloc));
    let mut echo = Echo;
    let outcome = answer_lines(alloc, &mut echo, &mut source, &mut sink);
    Ok(matches!(outcome, RunEnd::Done) && sink.bytes() == written.as_bytes())
}

fn read_fails(alloc: Global) -> Result<bool, AllocError> {
    let mut source = MemSource::new(Vec::from_slice(alloc, b"a\n")?, vec![in alloc; 1]?);
    let mut sink = MemSink::new(alloc, 9, Vec::new(alloc));
    let mut echo = Echo;
    let outcome = answer_lines(alloc, &mut echo, &mut source, &mut sink);
    Ok(matches!(outcome, RunEnd::ReadFault) && sink.bytes().is_empty())
}

// The second read, which would find the end of the input, fails when the first line is answered.
fn later_read_fails(alloc: Global) -> Result<bool, AllocError> {
    let mut source = MemSource::new(Vec::from_slice(alloc, b"a\nb")?, vec![in alloc; 2]?);
    let mut sink = MemSink::new(alloc, 9, Vec::new(alloc));
    let mut echo = Echo;
    let outcome = answer_lines(alloc, &mut echo, &mut source, &mut sink);
    Ok(matches!(outcome, RunEnd::ReadFault) && sink.bytes() == b"a\n".as_slice())
}

fn write_fails(alloc: Global) -> Result<bool, AllocError> {
    let mut source = MemSource::new(Vec::from_slice(alloc, b"ab\ncd\n")?, Vec::new(alloc));
    let mut sink = MemSink::new(alloc, 1, vec![in alloc; 5]?);
    let mut echo = Echo;
    let outcome = answer_lines(alloc, &mut echo, &mut source, &mut sink);
    Ok(matches!(outcome, RunEnd::WriteFault) && sink.bytes() == b"ab\nc".as_slice())
}

#[test]
fn echoes_each_line(rt: HostRuntime) -> Result<(), Fail> {
    let alloc = rt.alloc();
    let none = is_echoed(alloc, "", 1, "")?;
    let ended = is_echoed(alloc, "a\n\nbc\n", 1, "a\n\nbc\n")?;
    let unended = is_echoed(alloc, "a\nbc", 2, "a\nbc\n")?;
    assert!(rt; none && ended && unended, "{none} {ended} {unended}");
    Ok(())
}

#[test]
fn ends_where_the_outside_fails(rt: HostRuntime) -> Result<(), Fail> {
    let alloc = rt.alloc();
    let (first, later, write) = (
        read_fails(alloc)?,
        later_read_fails(alloc)?,
        write_fails(alloc)?,
    );
    assert!(rt; first && later && write, "{first} {later} {write}");
    Ok(())
}
