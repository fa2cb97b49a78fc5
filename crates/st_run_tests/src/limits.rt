//! Traces at the limits, and past them.
use st_answers::Outcome;
use st_io::{MemSink, MemSource};
use st_run::run;
use std::alloc::{AllocError, Global};
use std::test::Fail;

const HEADER: &str =
    r#"{"schema":{"root":["list"],"types":[{"array":["text"],"name":"list"}]},"trace":1,"tree":{"list":[]}}"#;

const SHOW: &str = r#"{"do":"show","client":"Z"}"#;

const MIB: usize = 1_048_576;

// A line that is filled up with blanks to so many bytes, without its line feed.
fn add_line(input: &mut Vec<u8>, line: &str, size: usize) -> Result<(), AllocError> {
    input.extend_from_slice(line.as_bytes())?;
    for _ in line.len()..size {
        input.push(b' ')?;
    }
    Ok(())
}

// How a trace ends, and whether what it writes ends so.
fn ends_so(alloc: Global, input: Vec<u8>, last: &str) -> Result<(Outcome, bool), AllocError> {
    let mut words = Vec::new(alloc);
    words.push(String::from_str(alloc, "trace")?)?;
    let mut source = MemSource::new(input, Vec::new(alloc));
    let mut sink = MemSink::new(alloc, 4096, Vec::new(alloc));
    let outcome = run(alloc, &words, &mut source, &mut sink);
    Ok((outcome, sink.bytes().ends_with(last.as_bytes())))
}

// A header of so many bytes, and so many lines of steps.
fn trace(alloc: Global, header: usize, steps: u32, step: usize) -> Result<Vec<u8>, AllocError> {
    let mut input = Vec::new(alloc);
    add_line(&mut input, HEADER, header)?;
    for _ in 0..steps {
        input.push(b'\n')?;
        add_line(&mut input, SHOW, step)?;
    }
    Ok(input)
}

const NO_CLIENT: &str = "{\"no\":\"NoClient\"}\n";

fn is_done(alloc: Global, input: Vec<u8>) -> Result<bool, AllocError> {
    Ok(ends_so(alloc, input, NO_CLIENT)? == (Outcome::Done, true))
}

fn is_long(alloc: Global, input: Vec<u8>, line: u32) -> Result<bool, AllocError> {
    let last = format!(in alloc; "{{\"line\":{line},\"too\":\"long\"}}\n")?;
    Ok(ends_so(alloc, input, last.as_str())? == (Outcome::TooLong { line }, true))
}

#[test]
fn a_trace_has_65536_lines(rt: HostRuntime) -> Result<(), Fail> {
    let alloc = rt.alloc();
    let most = is_done(alloc, trace(alloc, 0, 65_535, 0)?)?;
    let more = is_long(alloc, trace(alloc, 0, 65_536, 0)?, 65_537)?;
    assert!(rt; most && more, "{most} {more}");
    Ok(())
}

#[test]
fn a_line_has_a_mebibyte(rt: HostRuntime) -> Result<(), Fail> {
    let alloc = rt.alloc();
    let most = is_done(alloc, trace(alloc, MIB, 1, MIB)?)?;
    let header = is_long(alloc, trace(alloc, MIB + 1, 1, 0)?, 1)?;
    let step = is_long(alloc, trace(alloc, 0, 1, MIB + 1)?, 2)?;
    assert!(rt; most && header && step, "{most} {header} {step}");
    Ok(())
}

#[test]
fn a_trace_has_sixteen_mebibytes(rt: HostRuntime) -> Result<(), Fail> {
    let alloc = rt.alloc();
    let most = is_done(alloc, trace(alloc, MIB - 1, 15, MIB - 1)?)?;
    let more = is_long(alloc, trace(alloc, MIB - 1, 16, MIB - 1)?, 17)?;
    assert!(rt; most && more, "{most} {more}");
    Ok(())
}

// The line after a bad one isn't read.
fn bad_before_long(alloc: Global) -> Result<bool, AllocError> {
    let mut input = trace(alloc, 0, 0, 0)?;
    input.extend_from_slice(b"\n[\n")?;
    add_line(&mut input, SHOW, MIB + 1)?;
    let (outcome, last) = ends_so(alloc, input, "{\"bad\":\"Json\",\"line\":2}\n")?;
    Ok(outcome.status() == 3 && last)
}

#[test]
fn a_bad_line_stands_before_a_long_one(rt: HostRuntime) -> Result<(), Fail> {
    let alloc = rt.alloc();
    let first = bad_before_long(alloc)?;
    assert!(rt; first);
    Ok(())
}
