//! One line, or the end of the input.
ghost use Rattle.std.specs.Prelude.{◌≡◌, ◌≢◌, ℕ, List, Option, ◌+◌, ◌<◌, ◌≤◌, ◌-◌, Ok, Err, length, false, IfErr, OnOk, IfSome, Some, []};
ghost use Rattle.st_pieces.specs.inside.Sent.{IsLineEnd, IsEndTold, IsAnswerTo, IsGoing};
ghost use Rattle.st_pieces.specs.Lines.{IsFeedAt};
ghost use Rattle.st_pieces.specs.Outcomes.{IsTold};
ghost use Rattle.st_pieces.specs.inside.Reached.{IsReached};
ghost use Rattle.st_pieces.specs.inside.Placed.{IsPlaced, tail_of, turns_left};
ghost use Rattle.st_io.specs.Counts.{Rose};
ghost use Rattle.st_pieces.specs.Lines.{NoFeed, is_long, line_of};

use crate::reading::{Reading, is_long};
use crate::responder::{Responder, RunEnd};
use crate::send::{send_long, send_reply};
use st_io::Sink;
use std::alloc::Global;

// Answers a line that isn't too long.
fn take_line<R: Responder, K: Sink>(
    alloc: Global,
    responder: &mut R,
    number: u32,
    line: &[u8],
    sink: &mut K,
) -> Result<(), RunEnd<R::Ending>>
    requires few { number ≤ 65536 }
    requires stands { (s : R.State) × R.Stands responder.old number s }
    ensures goes { OnOk result ((s : R.State) → R.Stands responder.old number s
        → IsGoing (R.Takes s number line.now) (R.Stands responder.new (number + 1))
        (K.written sink.old) (K.written sink.new)) }
    ensures stands { OnOk result ((s : R.State) × R.Stands responder.new (number + 1) s) }
    ensures ended { IfErr result (λ o. (s : R.State) → R.Stands responder.old number s
        → IsLineEnd (IsAnswerTo (R.Takes s number line.now) (R.Ends s number line.now))
        (R.Ends s number line.now) number (K.written sink.old) (K.written sink.new) o) }
    ensures unread { result ≢ Err RunEnd.ReadFault }
    ensures fault { result ≡ Err RunEnd.WriteFault
        → Rose (K.faults sink.old) (K.faults sink.new) }
    ensures later { K.faults sink.old ≤ K.faults sink.new }
{
    match responder.take(alloc, number, line) {
        Ok(reply) => send_reply(&reply, number, sink),
        Err(_) => Err(RunEnd::NoMemory),
    }
}

/// Answers the next line, which ends at a place.
pub fn take_whole<R: Responder, K: Sink>(
    alloc: Global,
    responder: &mut R,
    reading: &mut Reading,
    at: usize,
    sink: &mut K,
) -> Result<(), RunEnd<R::Ending>>
    requires place { IsPlaced reading.old }
    requires feed { IsFeedAt (tail_of reading.old) at }
    requires stands { (s : R.State) × R.Stands responder.old reading.old.number s }
    ensures goes { OnOk result ((s first : R.State) (input old left : Option (List ℕ))
        → R.Stands responder.old reading.old.number s
        → IsReached R.Takes first input old s left (K.written sink.old)
        reading.old.number reading.old.start (tail_of reading.old)
        → (v : R.State) × R.Stands responder.new reading.new.number v
        × IsReached R.Takes first input old v left (K.written sink.new)
        reading.new.number reading.new.start (tail_of reading.new)) }
    ensures stands { OnOk result ((s : R.State) × R.Stands responder.new reading.new.number s) }
    ensures placed { OnOk result (IsPlaced reading.new) }
    ensures less { OnOk result (turns_left reading.new + 1 ≤ turns_left reading.old) }
    ensures ended { IfErr result (λ o. (s first : R.State) (input old left : Option (List ℕ))
        → R.Stands responder.old reading.old.number s
        → IsReached R.Takes first input old s left (K.written sink.old)
        reading.old.number reading.old.start (tail_of reading.old)
        → IsTold R.Takes R.Ends R.Finishes R.Fails first input old left (K.written sink.new) o) }
    ensures unread { result ≢ Err RunEnd.ReadFault }
    ensures fault { result ≡ Err RunEnd.WriteFault
        → Rose (K.faults sink.old) (K.faults sink.new) }
    ensures later { K.faults sink.old ≤ K.faults sink.new }
{
    let number = reading.number;
    let start = reading.start;
    let line = &reading.pending[reading.from..reading.from + at];
    if is_long(number, start, line, 1) {
        return Err(send_long(alloc, number, sink));
    }
    match take_line(alloc, responder, number, line, sink) {
        Ok(()) => {}
        Err(outcome) => return Err(outcome),
    }
    reading.number = number + 1;
    reading.start = start + at as u32 + 1;
    reading.from += at + 1;
    reading.seen = 0;
    Ok(())
}

// The end of the input.
fn send_end<R: Responder, K: Sink>(
    alloc: Global,
    responder: &mut R,
    number: u32,
    sink: &mut K,
) -> RunEnd<R::Ending>
    requires stands { (s : R.State) × R.Stands responder.old number s }
    ensures told { (s : R.State) → R.Stands responder.old number s
        → IsEndTold (R.Finishes s number) (R.Fails s number) number
        (K.written sink.old) (K.written sink.new) result }
    ensures unread { result ≢ RunEnd.ReadFault }
    ensures fault { result ≡ RunEnd.WriteFault
        → Rose (K.faults sink.old) (K.faults sink.new) }
    ensures later { K.faults sink.old ≤ K.faults sink.new }
{
    match responder.end(alloc, number) {
        Ok(reply) => match send_reply(&reply, number, sink) {
            Ok(()) => RunEnd::Done,
            Err(outcome) => outcome,
        },
        Err(_) => RunEnd::NoMemory,
    }
}

/// Answers a last line that no line feed ends, and the end of the input.
pub fn finish<R: Responder, K: Sink>(
    alloc: Global,
    responder: &mut R,
    reading: &Reading,
    sink: &mut K,
) -> RunEnd<R::Ending>
    requires place { IsPlaced reading.now }
    requires unended { NoFeed (tail_of reading.now) }
    requires short { 0 < length (tail_of reading.now)
        → is_long reading.now.number reading.now.start (line_of (tail_of reading.now) 0) ≡ false }
    requires stands { (s : R.State) × R.Stands responder.old reading.now.number s }
    ensures told { (s first : R.State) (input old left : Option (List ℕ))
        → R.Stands responder.old reading.now.number s
        → IsReached R.Takes first input old s left (K.written sink.old)
        reading.now.number reading.now.start (tail_of reading.now)
        → IfSome input (λ _. left ≡ Some [])
        → IsTold R.Takes R.Ends R.Finishes R.Fails first input old left
        (K.written sink.new) result }
    ensures unread { result ≢ RunEnd.ReadFault }
    ensures fault { result ≡ RunEnd.WriteFault
        → Rose (K.faults sink.old) (K.faults sink.new) }
    ensures later { K.faults sink.old ≤ K.faults sink.new }
{
    let line = &reading.pending[reading.from..];
    if line.is_empty() {
        return send_end(alloc, responder, reading.number, sink);
    }
    match take_line(alloc, responder, reading.number, line, sink) {
        Ok(()) => send_end(alloc, responder, reading.number + 1, sink),
        Err(outcome) => outcome,
    }
}
