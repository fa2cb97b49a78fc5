//! A run, from its words and its input to its answers.
ghost use Rattle.std.specs.Prelude.{◌≡◌, None, map, option_and_then, string_bytes, IfOk};
ghost use Rattle.serde_json.specs.View.{view};
ghost use Rattle.st_io.specs.Counts.{Rose};
ghost use Rattle.st_answers.specs.Endings.{usage_data, usage_output};
ghost use Rattle.st_answers.specs.Run.{command_asked, command_of, IsAnsweredTo, IsCarriedOut, IsOutput, IsAnswered};
ghost use Rattle.st_run.specs.inside.Ends.{outcome_of};
ghost use Rattle.st_run.specs.inside.Working.{IsShortWork};

use crate::algebra::Asking;
use crate::compat::Comparing;
use crate::replay::Replaying;
use crate::trace::Tracing;
use crate::work::tell_load;
use serde_json::{Value, json};
use st_answers::{Command, EndCause, Outcome};
use st_io::{Sink, Source};
use st_json::write_line;
use st_pieces::{RunEnd, answer_lines, write_all};
use st_words::{Request, request_of};
use std::alloc::{AllocError, Global};

fn usage_value(alloc: Global) -> Result<Value, AllocError>
    ensures { IfOk result (λ v. view v ≡ usage_data) }
{
    json!(in alloc; {"usage": "trace | replay | algebra | compat | work --seed N --steps M"})
}

// Answers words that are no command.
fn send_usage<K: Sink>(alloc: Global, sink: &mut K) -> Outcome
    ensures output { IsOutput (K.written sink.old) (K.written sink.new) (λ out. out ≡ usage_output) result }
    ensures fault { result ≡ Outcome.WriteFault → Rose (K.faults sink.old) (K.faults sink.new) }
{
    let Ok(value) = usage_value(alloc) else {
        return Outcome::NoMemory;
    };
    let Ok(line) = write_line(alloc, &value) else {
        return Outcome::NoMemory;
    };
    match write_all(sink, line.as_str().as_bytes()) {
        Ok(()) => Outcome::Usage,
        Err(_) => Outcome::WriteFault,
    }
}

// The outcome of a run over lines.
fn outcome_of(end: RunEnd<EndCause>) -> Outcome
    ensures { result ≡ outcome_of end }
{
    match end {
        RunEnd::Done => Outcome::Done,
        RunEnd::Bad(line, EndCause::Bad(cause)) => Outcome::BadLine { line, cause },
        RunEnd::Bad(line, EndCause::Refused(cause)) => Outcome::Refused { line, cause },
        RunEnd::TooLong(line) => Outcome::TooLong { line },
        RunEnd::ReadFault => Outcome::ReadFault,
        RunEnd::WriteFault => Outcome::WriteFault,
        RunEnd::NoMemory => Outcome::NoMemory,
    }
}

// Answers a trace.
fn trace<S: Source, K: Sink>(alloc: Global, source: &mut S, sink: &mut K) -> RunEnd<EndCause>
    ensures carried { IsCarriedOut Command.Trace (S.left source.old) (S.left source.new)
        (K.written sink.old) (K.written sink.new) (outcome_of result) }
    ensures read_fault { result ≡ RunEnd.ReadFault → Rose (S.faults source.old) (S.faults source.new) }
    ensures write_fault { result ≡ RunEnd.WriteFault → Rose (K.faults sink.old) (K.faults sink.new) }
{
    let mut tracing = Tracing {
        world: None,
        authors: None,
    };
    answer_lines(alloc, &mut tracing, source, sink)
}

// Answers messages.
fn replay<S: Source, K: Sink>(alloc: Global, source: &mut S, sink: &mut K) -> RunEnd<EndCause>
    ensures carried { IsCarriedOut Command.Replay (S.left source.old) (S.left source.new)
        (K.written sink.old) (K.written sink.new) (outcome_of result) }
    ensures read_fault { result ≡ RunEnd.ReadFault → Rose (S.faults source.old) (S.faults source.new) }
    ensures write_fault { result ≡ RunEnd.WriteFault → Rose (K.faults sink.old) (K.faults sink.new) }
{
    let mut replaying = Replaying { replay: None };
    answer_lines(alloc, &mut replaying, source, sink)
}

// Answers two schemas.
fn compat<S: Source, K: Sink>(alloc: Global, source: &mut S, sink: &mut K) -> RunEnd<EndCause>
    ensures carried { IsCarriedOut Command.Compat (S.left source.old) (S.left source.new)
        (K.written sink.old) (K.written sink.new) (outcome_of result) }
    ensures read_fault { result ≡ RunEnd.ReadFault → Rose (S.faults source.old) (S.faults source.new) }
    ensures write_fault { result ≡ RunEnd.WriteFault → Rose (K.faults sink.old) (K.faults sink.new) }
{
    let mut comparing = Comparing {
        schema: None,
        done: false,
    };
    answer_lines(alloc, &mut comparing, source, sink)
}

// Answers requests to the algebra of changes.
fn algebra<S: Source, K: Sink>(alloc: Global, source: &mut S, sink: &mut K) -> RunEnd<EndCause>
    ensures carried { IsCarriedOut Command.Algebra (S.left source.old) (S.left source.new)
        (K.written sink.old) (K.written sink.new) (outcome_of result) }
    ensures read_fault { result ≡ RunEnd.ReadFault → Rose (S.faults source.old) (S.faults source.new) }
    ensures write_fault { result ≡ RunEnd.WriteFault → Rose (K.faults sink.old) (K.faults sink.new) }
{
    let mut asking = Asking {};
    answer_lines(alloc, &mut asking, source, sink)
}

// Answers the lines of a source by a command.
fn answer<S: Source, K: Sink>(
    alloc: Global,
    command: Command,
    source: &mut S,
    sink: &mut K,
) -> RunEnd<EndCause>
    ensures carried { IsCarriedOut command (S.left source.old) (S.left source.new)
        (K.written sink.old) (K.written sink.new) (outcome_of result) }
    ensures read_fault { result ≡ RunEnd.ReadFault → Rose (S.faults source.old) (S.faults source.new) }
    ensures write_fault { result ≡ RunEnd.WriteFault → Rose (K.faults sink.old) (K.faults sink.new) }
{
    match command {
        Command::Trace => trace(alloc, source, sink),
        Command::Replay => replay(alloc, source, sink),
        Command::Compat => compat(alloc, source, sink),
        Command::Algebra => algebra(alloc, source, sink),
    }
}

// Answers what is asked for.
fn answer_request<S: Source, K: Sink>(
    alloc: Global,
    request: Option<Request>,
    source: &mut S,
    sink: &mut K,
) -> Outcome
    requires few { IsShortWork request }
    ensures answered { IsAnsweredTo request (S.left source.old) (S.left source.new)
        (K.written sink.old) (K.written sink.new) result }
    ensures unread { option_and_then command_asked request ≡ None → S.calls source.new ≡ S.calls source.old }
    ensures read_fault { result ≡ Outcome.ReadFault → Rose (S.faults source.old) (S.faults source.new) }
    ensures write_fault { result ≡ Outcome.WriteFault → Rose (K.faults sink.old) (K.faults sink.new) }
{
    match request {
        Some(Request::Trace) => outcome_of(answer(alloc, Command::Trace, source, sink)),
        Some(Request::Replay) => outcome_of(answer(alloc, Command::Replay, source, sink)),
        Some(Request::Compat) => outcome_of(answer(alloc, Command::Compat, source, sink)),
        Some(Request::Algebra) => outcome_of(answer(alloc, Command::Algebra, source, sink)),
        Some(Request::Work { seed, steps }) => tell_load(alloc, seed, steps, sink),
        None => send_usage(alloc, sink),
    }
}

/// Answers what the words ask for. A command over lines answers those of the source, one after another: each answer is
/// written before the next line is judged. Under `work`, and where the words are no command, which is answered by the usage
/// line, nothing is read.
pub fn run<S: Source, K: Sink>(
    alloc: Global,
    words: &Vec<String>,
    source: &mut S,
    sink: &mut K,
) -> Outcome
    ensures answered { IsAnswered (map string_bytes words.now.items) (S.left source.old) (S.left source.new)
        (K.written sink.old) (K.written sink.new) result }
    ensures unread { command_of (map string_bytes words.now.items) ≡ None → S.calls source.new ≡ S.calls source.old }
    ensures read_fault { result ≡ Outcome.ReadFault → Rose (S.faults source.old) (S.faults source.new) }
    ensures write_fault { result ≡ Outcome.WriteFault → Rose (K.faults sink.old) (K.faults sink.new) }
{
    match request_of(alloc, words.as_slice()) {
        Ok(request) => answer_request(alloc, request, source, sink),
        Err(_) => Outcome::NoMemory,
    }
}
