//! The lines of a source, one after another.
ghost use Rattle.std.specs.Prelude.{◌≡◌, None, ℕ, List, Option, ◌+◌, ◌<◌, ◌≤◌, ◌-◌, Ok, Err, length, take, false, IfErr, OnOk, ◌==◌, Some};
ghost use Rattle.st_pieces.specs.Outcomes.{IsTold};
ghost use Rattle.st_pieces.specs.inside.Reached.{EndsSo, GoesOn, IsReached};
ghost use Rattle.st_pieces.specs.inside.Placed.{IsPlaced, tail_of, turns_left};
ghost use Rattle.st_io.specs.Counts.{Rose};
ghost use Rattle.st_pieces.specs.Lines.{NoFeed, is_long, line_of};

use crate::reading::{Reading, is_tail_long, keep_more, next_feed};
use crate::responder::{Responder, RunEnd};
use crate::send::send_long;
use crate::take::{finish, take_whole};
use st_io::{Sink, Source};
use std::alloc::Global;

// Reads a piece behind a tail that has no line feed and isn't too long, or ends the run.
fn read_piece<R: Responder, S: Source, K: Sink>(
    alloc: Global,
    responder: &mut R,
    source: &mut S,
    piece: &mut [u8],
    reading: &mut Reading,
    sink: &mut K,
) -> Result<(), RunEnd<R::Ending>>
    requires place { IsPlaced reading.old }
    requires stands { (s : R.State) × R.Stands responder.old reading.old.number s }
    requires piece { length piece.old ≡ 65536 }
    requires unended { NoFeed (tail_of reading.old) }
    requires short { 0 < length (tail_of reading.old)
        → is_long reading.old.number reading.old.start (line_of (tail_of reading.old) 0) ≡ false }
    ensures goes { OnOk result (GoesOn R.Takes (R.Stands responder.old reading.old.number)
        (R.Stands responder.new reading.new.number)
        (S.left source.old) (S.left source.new) (K.written sink.old) (K.written sink.new) reading.old reading.new) }
    ensures stands { OnOk result ((s : R.State) × R.Stands responder.new reading.new.number s) }
    ensures placed { OnOk result (IsPlaced reading.new) }
    ensures less { OnOk result (turns_left reading.new + 1 ≤ turns_left reading.old) }
    ensures ended { IfErr result (λ o. EndsSo R.Takes R.Ends R.Finishes R.Fails (R.Stands responder.old reading.old.number)
        (S.left source.old) (S.left source.new) (K.written sink.old) (K.written sink.new) reading.old o) }
    ensures read_fault { result ≡ Err RunEnd.ReadFault
        → Rose (S.faults source.old) (S.faults source.new) }
    ensures write_fault { result ≡ Err RunEnd.WriteFault
        → Rose (K.faults sink.old) (K.faults sink.new) }
    ensures read_later { S.faults source.old ≤ S.faults source.new }
    ensures later { K.faults sink.old ≤ K.faults sink.new }
{
    let Ok(count) = source.read(piece) else {
        return Err(RunEnd::ReadFault);
    };
    if count == 0 {
        return Err(finish(alloc, responder, reading, sink));
    }
    match keep_more(alloc, reading, &piece[..count]) {
        Ok(()) => Ok(()),
        Err(_) => Err(RunEnd::NoMemory),
    }
}

// Reads a piece behind a tail that has no line feed, or ends the run where the tail is too long.
fn read_more<R: Responder, S: Source, K: Sink>(
    alloc: Global,
    responder: &mut R,
    source: &mut S,
    piece: &mut [u8],
    reading: &mut Reading,
    sink: &mut K,
) -> Result<(), RunEnd<R::Ending>>
    requires place { IsPlaced reading.old }
    requires stands { (s : R.State) × R.Stands responder.old reading.old.number s }
    requires piece { length piece.old ≡ 65536 }
    requires unended { NoFeed (tail_of reading.old) }
    ensures goes { OnOk result (GoesOn R.Takes (R.Stands responder.old reading.old.number)
        (R.Stands responder.new reading.new.number)
        (S.left source.old) (S.left source.new) (K.written sink.old) (K.written sink.new) reading.old reading.new) }
    ensures stands { OnOk result ((s : R.State) × R.Stands responder.new reading.new.number s) }
    ensures placed { OnOk result (IsPlaced reading.new) }
    ensures less { OnOk result (turns_left reading.new + 1 ≤ turns_left reading.old) }
    ensures ended { IfErr result (λ o. EndsSo R.Takes R.Ends R.Finishes R.Fails (R.Stands responder.old reading.old.number)
        (S.left source.old) (S.left source.new) (K.written sink.old) (K.written sink.new) reading.old o) }
    ensures read_fault { result ≡ Err RunEnd.ReadFault
        → Rose (S.faults source.old) (S.faults source.new) }
    ensures write_fault { result ≡ Err RunEnd.WriteFault
        → Rose (K.faults sink.old) (K.faults sink.new) }
    ensures read_later { S.faults source.old ≤ S.faults source.new }
    ensures later { K.faults sink.old ≤ K.faults sink.new }
{
    if is_tail_long(reading) {
        return Err(send_long(alloc, reading.number, sink));
    }
    read_piece(alloc, responder, source, piece, reading, sink)
}

// One turn: the next line, or one more piece.
fn turn<R: Responder, S: Source, K: Sink>(
    alloc: Global,
    responder: &mut R,
    source: &mut S,
    piece: &mut [u8],
    reading: &mut Reading,
    sink: &mut K,
) -> Result<(), RunEnd<R::Ending>>
    requires place { IsPlaced reading.old }
    requires stands { (s : R.State) × R.Stands responder.old reading.old.number s }
    requires piece { length piece.old ≡ 65536 }
    ensures goes { OnOk result (GoesOn R.Takes (R.Stands responder.old reading.old.number)
        (R.Stands responder.new reading.new.number)
        (S.left source.old) (S.left source.new) (K.written sink.old) (K.written sink.new) reading.old reading.new) }
    ensures stands { OnOk result ((s : R.State) × R.Stands responder.new reading.new.number s) }
    ensures placed { OnOk result (IsPlaced reading.new) }
    ensures less { OnOk result (turns_left reading.new + 1 ≤ turns_left reading.old) }
    ensures ended { IfErr result (λ o. EndsSo R.Takes R.Ends R.Finishes R.Fails (R.Stands responder.old reading.old.number)
        (S.left source.old) (S.left source.new) (K.written sink.old) (K.written sink.new) reading.old o) }
    ensures read_fault { result ≡ Err RunEnd.ReadFault
        → Rose (S.faults source.old) (S.faults source.new) }
    ensures write_fault { result ≡ Err RunEnd.WriteFault
        → Rose (K.faults sink.old) (K.faults sink.new) }
    ensures read_later { S.faults source.old ≤ S.faults source.new }
    ensures later { K.faults sink.old ≤ K.faults sink.new }
{
    match next_feed(reading) {
        Some(at) => take_whole(alloc, responder, reading, at, sink),
        None => read_more(alloc, responder, source, piece, reading, sink),
    }
}

/// Answers the lines of a source one after another and then its end, or ends at the first line that ends the run.
pub fn answer_lines<R: Responder, S: Source, K: Sink>(
    alloc: Global,
    responder: &mut R,
    source: &mut S,
    sink: &mut K,
) -> RunEnd<R::Ending>
    requires stands { (first : R.State) × R.Stands responder.old 1 first }
    ensures told { (first : R.State) → R.Stands responder.old 1 first
        → IsTold R.Takes R.Ends R.Finishes R.Fails first (S.left source.old) (K.written sink.old)
        (S.left source.new) (K.written sink.new) result }
    ensures read_fault { result ≡ RunEnd.ReadFault
        → Rose (S.faults source.old) (S.faults source.new) }
    ensures write_fault { result ≡ RunEnd.WriteFault
        → Rose (K.faults sink.old) (K.faults sink.new) }
{
    let Ok(mut piece) = vec![in alloc; 0u8; 65_536] else {
        return RunEnd::NoMemory;
    };
    let mut reading = Reading {
        pending: Vec::new(alloc),
        from: 0,
        seen: 0,
        number: 1,
        start: 0,
    };
    'turns: while reading.start <= 16_777_216 {
        match turn(
            alloc,
            responder,
            source,
            piece.as_mut_slice(),
            &mut reading,
            sink,
        ) {
            Ok(()) => {}
            Err(outcome) => return outcome,
        }
    }
    unreachable!()
}
