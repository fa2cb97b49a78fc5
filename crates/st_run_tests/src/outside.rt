//! Runs whose source or sink fails.
ghost use Rattle.std.specs.Prelude.{◌<◌};

use st_answers::Outcome;
use st_io::{MemSink, MemSource};
use st_run::run;
use std::alloc::{AllocError, Global};
use std::test::Fail;

const HEADER: &str =
    r#"{"schema":{"root":["list"],"types":[{"array":["text"],"name":"list"}]},"trace":1,"tree":{"list":[]}}
"#;

const HEADER_AND_TWO: &str =
    r#"{"schema":{"root":["list"],"types":[{"array":["text"],"name":"list"}]},"trace":1,"tree":{"list":[]}}
{"do":"join","client":"A"}
{"do":"join","client":"B"}
"#;

const ANSWERS: &str = r#"{"ok":"header"}
{"n":1,"ok":"join","s":1}
{"n":2,"ok":"join","s":2}
"#;

const SCHEMAS: &str = r#"{"root":["list"],"types":[{"array":["text"],"name":"list"}]}
{"root":["list"],"types":[{"array":["text","int"],"name":"list"}]}
"#;

const UPGRADE: &str = r#"{"ok":"compat","view":"Upgrade"}
"#;

const REQUEST: &str =
    r#"{"do":"invert","step":{"loose":[],"new":[["1.1.0","text","a"]],"regs":[],"rows":[["0.0.0",[1,["make","1.1.0","1.1.0"]]]],"schema":null}}
"#;

const WAY_BACK: &str =
    r#"{"ok":"invert","step":{"loose":[],"new":[],"regs":[],"rows":[["0.0.0",[1,["out","1.1.0","1.1.0"]]]],"schema":null}}
"#;

const USAGE: &str = r#"{"usage":"trace | replay | algebra | compat | work --seed N --steps M"}
"#;

// The words of a command.
fn words_of(alloc: Global, text: &str) -> Result<Vec<String>, AllocError> {
    let mut words = Vec::new(alloc);
    for word in text.split(' ') {
        words.push(String::from_str(alloc, word)?)?;
    }
    Ok(words)
}

// Whether a run ends and writes so, over a source whose reads of these numbers fail, and a sink of which one write takes
// at most so many bytes and of which one write fails.
fn ends(
    alloc: Global,
    words: &str,
    input: &str,
    reads: Vec<u64>,
    most: usize,
    writes: Vec<u64>,
    outcome: Outcome,
    written: &str,
) -> Result<bool, AllocError>
    requires { 0 < most }
{
    let words = words_of(alloc, words)?;
    let mut source = MemSource::new(Vec::from_slice(alloc, input.as_bytes())?, reads);
    let mut sink = MemSink::new(alloc, most, writes);
    let came = run(alloc, &words, &mut source, &mut sink);
    Ok(came == outcome && sink.bytes() == written.as_bytes())
}

fn one(alloc: Global, number: u64) -> Result<Vec<u64>, AllocError> {
    Ok(vec![in alloc; number]?)
}

fn read_fails(alloc: Global) -> Result<bool, AllocError> {
    let reads = one(alloc, 1)?;
    ends(
        alloc,
        "trace",
        HEADER_AND_TWO,
        reads,
        4096,
        Vec::new(alloc),
        Outcome::ReadFault,
        "",
    )
}

// A line is written in parts, of which the third fails.
fn write_fails(alloc: Global) -> Result<bool, AllocError> {
    let writes = one(alloc, 3)?;
    ends(
        alloc,
        "trace",
        HEADER_AND_TWO,
        Vec::new(alloc),
        1,
        writes,
        Outcome::WriteFault,
        "{\"",
    )
}

fn nothing_fails(alloc: Global) -> Result<bool, AllocError> {
    ends(
        alloc,
        "trace",
        HEADER_AND_TWO,
        Vec::new(alloc),
        1,
        Vec::new(alloc),
        Outcome::Done,
        ANSWERS,
    )
}

// A source that would fail isn't read where the words are no command.
fn words_are_wrong(alloc: Global) -> Result<bool, AllocError> {
    let reads = one(alloc, 1)?;
    ends(
        alloc,
        "trace trace",
        HEADER_AND_TWO,
        reads,
        4096,
        Vec::new(alloc),
        Outcome::Usage,
        USAGE,
    )
}

// The answer to two schemas is written in parts, of which the fourth fails.
fn write_of_a_relation_fails(alloc: Global) -> Result<bool, AllocError> {
    let writes = one(alloc, 4)?;
    ends(
        alloc,
        "compat",
        SCHEMAS,
        Vec::new(alloc),
        1,
        writes,
        Outcome::WriteFault,
        "{\"o",
    )
}

// The second read, which would find the end of the input, fails when both lines are answered.
fn read_of_schemas_fails(alloc: Global) -> Result<bool, AllocError> {
    let reads = one(alloc, 2)?;
    ends(
        alloc,
        "compat",
        SCHEMAS,
        reads,
        4096,
        Vec::new(alloc),
        Outcome::ReadFault,
        UPGRADE,
    )
}

fn schemas_are_related(alloc: Global) -> Result<bool, AllocError> {
    ends(
        alloc,
        "compat",
        SCHEMAS,
        Vec::new(alloc),
        1,
        Vec::new(alloc),
        Outcome::Done,
        UPGRADE,
    )
}

#[test]
fn faults_around_two_schemas(rt: HostRuntime) -> Result<(), Fail> {
    let alloc = rt.alloc();
    let (read, write) = (
        read_of_schemas_fails(alloc)?,
        write_of_a_relation_fails(alloc)?,
    );
    let none = schemas_are_related(alloc)?;
    assert!(rt; read && write && none, "{read} {write} {none}");
    Ok(())
}

// The answer to a request is written in parts, of which the fifth fails.
fn write_of_a_step_fails(alloc: Global) -> Result<bool, AllocError> {
    let writes = one(alloc, 5)?;
    ends(
        alloc,
        "algebra",
        REQUEST,
        Vec::new(alloc),
        1,
        writes,
        Outcome::WriteFault,
        "{\"ok",
    )
}

// The second read, which would find the end of the input, fails when the request is answered.
fn read_of_requests_fails(alloc: Global) -> Result<bool, AllocError> {
    let reads = one(alloc, 2)?;
    ends(
        alloc,
        "algebra",
        REQUEST,
        reads,
        4096,
        Vec::new(alloc),
        Outcome::ReadFault,
        WAY_BACK,
    )
}

// No request is no answer.
fn nothing_is_asked(alloc: Global) -> Result<bool, AllocError> {
    ends(
        alloc,
        "algebra",
        "",
        Vec::new(alloc),
        1,
        Vec::new(alloc),
        Outcome::Done,
        "",
    )
}

#[test]
fn faults_around_requests(rt: HostRuntime) -> Result<(), Fail> {
    let alloc = rt.alloc();
    let (read, write) = (
        read_of_requests_fails(alloc)?,
        write_of_a_step_fails(alloc)?,
    );
    let none = nothing_is_asked(alloc)?;
    assert!(rt; read && write && none, "{read} {write} {none}");
    Ok(())
}

#[test]
fn faults_of_the_outside(rt: HostRuntime) -> Result<(), Fail> {
    let alloc = rt.alloc();
    let (read, write) = (read_fails(alloc)?, write_fails(alloc)?);
    let (none, words) = (nothing_fails(alloc)?, words_are_wrong(alloc)?);
    assert!(rt;
        read && write && none && words,
        "{read} {write} {none} {words}"
    );
    Ok(())
}
