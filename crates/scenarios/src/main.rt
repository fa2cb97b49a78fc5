//! Runs whole traces and compares their answers. `data/scenarios.txt` has a line for each: its name, the status that is
//! wanted, and the words. NAME.trace is what is read, NAME.answers what has to be written.
#![tactic(auto)]

use st_io::{MemSink, MemSource};
use st_run::run;
use std::alloc::{AllocError, Global};
use std::process::ExitCode;
use std::{fs, io};

// What one run came to.
#[derive(Drop)]
struct Ran {
    status: u8,
    sink: MemSink,
}

// The words of a command.
fn words_of(alloc: Global, text: &str) -> Result<Vec<String>, AllocError> {
    let mut words = Vec::new(alloc);
    for word in text.split(' ') {
        words.push(String::from_str(alloc, word)?)?;
    }
    Ok(words)
}

fn run_over(alloc: Global, words: &Vec<String>, input: Vec<u8>) -> Ran {
    let mut source = MemSource::new(input, Vec::new(alloc));
    let mut sink = MemSink::new(alloc, 4096, Vec::new(alloc));
    let outcome = run(alloc, words, &mut source, &mut sink);
    Ran {
        status: outcome.status(),
        sink,
    }
}

// The bytes of a scenario's file with that ending.
fn read_file(rt: &HostRuntime, name: &str, ending: &str) -> io::Result<Vec<u8>> {
    let file = format!(in rt.alloc(); "{name}.{ending}")?;
    fs::read(rt, file.as_str())
}

// What a scenario comes to.
fn run_scenario(rt: &HostRuntime, name: &str, words: &str) -> io::Result<Ran> {
    let words = words_of(rt.alloc(), words)?;
    let input = read_file(rt, name, "trace")?;
    Ok(run_over(rt.alloc(), &words, input))
}

// Whether it ended with a status and wrote the answers.
fn came_to(ran: &Ran, status: &str, answers: &[u8]) -> bool {
    status.parse::<u8>().ok() == Some(ran.status) && ran.sink.bytes() == answers
}

// Whether a scenario ends with its status and writes its answers.
fn is_as_wanted(rt: &HostRuntime, name: &str, status: &str, words: &str) -> io::Result<bool> {
    let ran = run_scenario(rt, name, words)?;
    let wanted = read_file(rt, name, "answers")?;
    Ok(came_to(&ran, status, wanted.as_slice()))
}

// The same of a line of the table: a name, a status and the words.
fn line_is_as_wanted(rt: &HostRuntime, line: &str) -> io::Result<bool> {
    let Some((name, rest)) = line.split_once(' ') else {
        return Ok(false);
    };
    match rest.split_once(' ') {
        Some((status, words)) => is_as_wanted(rt, name, status, words),
        None => Ok(false),
    }
}

// Runs the scenario of a line, and tells where it isn't as wanted: how many are not.
fn others_in(rt: &HostRuntime, line: &str) -> io::Result<u64> {
    if line_is_as_wanted(rt, line)? {
        return Ok(0);
    }
    println!(rt; "not as wanted: {line}")?;
    Ok(1)
}

// Runs all scenarios of the table: how many there are, and how many are not as wanted.
fn run_all(rt: &HostRuntime, table: &str) -> io::Result<(u64, u64)> {
    let mut count = 0u64;
    let mut others = 0u64;
    for line in table.lines() {
        count = count.saturating_add(1);
        others = others.saturating_add(others_in(rt, line)?);
    }
    Ok((count, others))
}

fn main(rt: HostRuntime) -> io::Result<ExitCode> {
    let table = fs::read_to_string(&rt, "scenarios.txt")?;
    let (count, others) = run_all(&rt, table.as_str())?;
    println!(rt; "{count} scenarios, {others} not as wanted")?;
    Ok(ExitCode::from(u8::from(others > 0)))
}
