//! Inputs at the limits, and past them.
use st_io::{MemSink, MemSource};
use st_pieces::{Echo, RunEnd, answer_lines};
use std::alloc::{AllocError, Global};
use std::test::Fail;

// Whether a run over some bytes comes to its end, and writes as many as there are.
fn is_whole(alloc: Global, input: Vec<u8>) -> Result<bool, AllocError> {
    let size = input.len();
    let mut source = MemSource::new(input, Vec::new(alloc));
    let mut sink = MemSink::new(alloc, 1 << 20, Vec::new(alloc));
    let mut echo = Echo;
    let outcome = answer_lines(alloc, &mut echo, &mut source, &mut sink);
    Ok(matches!(outcome, RunEnd::Done) && sink.bytes().len() == size)
}

// Whether a run over some bytes ends at a line that is too long, after so many bytes, and says so.
fn is_long(
    alloc: Global,
    input: Vec<u8>,
    before: usize,
    number: u32,
    last: &str,
) -> Result<bool, AllocError> {
    let mut source = MemSource::new(input, Vec::new(alloc));
    let mut sink = MemSink::new(alloc, 1 << 20, Vec::new(alloc));
    let mut echo = Echo;
    let outcome = answer_lines(alloc, &mut echo, &mut source, &mut sink);
    Ok(
        matches!(outcome, RunEnd::TooLong(n) if n == number)
            && sink.bytes().get(before..) == Some(last.as_bytes()),
    )
}

// A line of so many bytes and its line feed.
fn line(alloc: Global, size: usize) -> Result<Vec<u8>, AllocError> {
    let mut line = vec![in alloc; b'a'; size]?;
    line.push(b'\n')?;
    Ok(line)
}

// Sixteen lines of a MiB each, and a line of so many bytes without its line feed.
fn full(alloc: Global, more: usize) -> Result<Vec<u8>, AllocError> {
    let mut input = Vec::new(alloc);
    let one = line(alloc, 1_048_575)?;
    for _ in 0..16 {
        input.extend_from_slice(one.as_slice())?;
    }
    let rest = vec![in alloc; b'a'; more]?;
    input.extend_from_slice(rest.as_slice())?;
    Ok(input)
}

#[test]
fn takes_a_line_of_a_mebibyte(rt: HostRuntime) -> Result<(), Fail> {
    let alloc = rt.alloc();
    let at = is_whole(alloc, line(alloc, 1_048_576)?)?;
    let past = is_long(
        alloc,
        line(alloc, 1_048_577)?,
        0,
        1,
        "{\"line\":1,\"too\":\"long\"}\n",
    )?;
    assert!(rt; at && past, "{at} {past}");
    Ok(())
}

#[test]
fn takes_65536_lines(rt: HostRuntime) -> Result<(), Fail> {
    let alloc = rt.alloc();
    let at = is_whole(alloc, vec![in alloc; b'\n'; 65_536]?)?;
    let past = is_long(
        alloc,
        vec![in alloc; b'\n'; 65_537]?,
        65_536,
        65_537,
        "{\"line\":65537,\"too\":\"long\"}\n",
    )?;
    assert!(rt; at && past, "{at} {past}");
    Ok(())
}

#[test]
fn takes_sixteen_mebibytes(rt: HostRuntime) -> Result<(), Fail> {
    let alloc = rt.alloc();
    let at = is_whole(alloc, full(alloc, 0)?)?;
    let past = is_long(
        alloc,
        full(alloc, 1)?,
        16_777_216,
        17,
        "{\"line\":17,\"too\":\"long\"}\n",
    )?;
    assert!(rt; at && past, "{at} {past}");
    Ok(())
}
